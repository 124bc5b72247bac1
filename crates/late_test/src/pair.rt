// Two carriers in the cells of the practice yard.
use fleet::{Practice, Rows, State};
use record::Record;
use std::io;
use test_desk::{Desk, say};
use yard::Yard;

const WORDS: usize = 2 * State::WORDS;

const ROWS: usize = 2 * Rows::COUNT * State::WORDS;

const YARD: Yard = Yard { w: 4, h: 3, b: 2 };

const BOXES: [i32; 8] = [0, 256, 256, 256, 300, 100, 200, 100];

type Pair = Desk<WORDS, ROWS>;

pub fn run(rt: &impl Print) -> io::Result<()> {
    say::title(
        rt,
        "two carriers, two late records, in both orders: levers come back with places",
    )?;
    let k = deliver(rt, deliver(rt, twelve(rt)?, 5, 1, 4)?, 6, 0, 1)?;
    tell(rt, k)?;
    let k = deliver(rt, deliver(rt, twelve(rt)?, 6, 0, 1)?, 5, 1, 4)?;
    tell(rt, k)?;
    let k = deliver(rt, deliver(rt, k, 5, 1, 4)?, 5, 1, 5)?;
    tell(rt, deliver(rt, k, 5, 2, 4)?)
}

// 12 steps made under two records for carrier 0.
fn twelve(rt: &impl Print) -> io::Result<Pair> {
    let k = deliver(rt, deliver(rt, open(rt)?, 0, 0, 2)?, 8, 0, 9)?;
    reading(rt, k, 250_000)
}

fn open(rt: &impl Print) -> io::Result<Pair> {
    let mut k = Pair::sevens(YARD, &BOXES);
    let answer = k.open_on(YARD, 0, &Practice::CELLS, &BOXES);
    print!(rt; "open two carriers at 0")?;
    say::running(rt, answer)?;
    println!(rt)?;
    Ok(k)
}

fn reading(rt: &impl Print, k: Pair, reading: u64) -> io::Result<Pair> {
    let mut left = k;
    let answer = left.read(reading);
    print!(rt; "reading {reading}")?;
    say::running(rt, answer)?;
    println!(rt)?;
    Ok(left)
}

// The record by its numbers, as a line of the test names them.
fn deliver(rt: &impl Print, k: Pair, step: u32, carrier: u8, lever: u8) -> io::Result<Pair> {
    let r = Record {
        step,
        carrier,
        lever,
    };
    let mut left = k;
    let answer = left.hand(&record::bytes_of(r));
    say::record(rt, r)?;
    say::delivered(rt, answer)?;
    println!(rt)?;
    Ok(left)
}

// The digest, one of all that is lent, and both shown places.
fn tell(rt: &impl Print, k: Pair) -> io::Result<()> {
    k.say_digest(rt)?;
    k.say_shown(rt, 0)?;
    k.say_shown(rt, 1)
}
