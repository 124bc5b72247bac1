// Document 01, 'Numbers given back': records, worlds, lengths and sessions that are refused, by the
// calls of `session` on real buffers. The file `stdout` holds what the model of second/ gives.

#![tactic(auto)]

ghost use Rattle.std.specs.Prelude.{◌≤◌};

use clock::Clock;
use fleet::{Practice, State};
use record::Buffer;
use session::Session;
use std::io;
use test_desk::{PRACTICE_ROWS, Practised, say};
use yard::Yard;

fn main(rt: HostRuntime) -> io::Result<()> {
    records(&rt)?;
    worlds(&rt)?;
    lengths(&rt)?;
    sessions(&rt)?;
    clocks(&rt)?;
    rows(&rt)
}

// 12 steps made and one record held.
fn twelve(rt: &impl Print) -> io::Result<Practised> {
    let k = Practised::open(rt, 0)?
        .deliver(rt, 0, 0, 1)?
        .reading(rt, 250_000)?;
    k.digest(rt)?;
    Ok(k)
}

fn records(rt: &impl Print) -> io::Result<()> {
    say::title(rt, "2, 3, 4, 5, then 6")?;
    let k = twelve(rt)?;
    let k = bytes(rt, k, "7 bytes", b"\0\0\0\0\0\x01\0")?;
    let k = bytes(rt, k, "9 bytes", b"\0\0\0\0\0\x01\0\0\0")?;
    let k = bytes(rt, k, "a last byte of 1", b"\x20\xbf\x02\0\x01\x0a\0\x01")?;
    let k = k.deliver(rt, 180_000, 1, 10)?.deliver(rt, 180_000, 0, 10)?;
    let k = k.deliver(rt, 180_000, 0, 9)?.deliver(rt, 0, 0, 2)?;
    k.digest(rt)?;
    k.deliver(rt, 179_999, 0, 9)?.digest(rt)
}

fn bytes(rt: &impl Print, k: Practised, name: &str, bytes: &[u8]) -> io::Result<Practised> {
    print!(rt; "deliver {name}")?;
    k.bytes(rt, bytes)
}

fn worlds(rt: &impl Print) -> io::Result<()> {
    say::title(rt, "9, and the session on these buffers goes on")?;
    let k = sized(rt, sized(rt, twelve(rt)?, 0, 3, 1)?, 65, 3, 1)?;
    let k = sized(rt, sized(rt, k, 4, 0, 1)?, 4, 65, 1)?;
    let k = sized(rt, sized(rt, k, 4, 3, 0)?, 4, 3, 33)?;
    let k = celled(rt, k, "a cell of 2", b"\0\0\0\0\0\0\0\x02\0\0\0\0")?;
    let k = boxed(rt, k, "width 0", &[0, 256, 0, 256])?;
    let k = boxed(rt, k, "height 1025", &[0, 0, 256, 1_025])?;
    let k = boxed(rt, k, "x -1", &[-1, 256, 256, 256])?;
    let k = boxed(rt, k, "a carrier in the wall", &[513, 256, 256, 256])?;
    k.digest(rt)
}

// Opening with W, H and B.
fn sized(rt: &impl Print, k: Practised, w: u32, h: u32, b: u32) -> io::Result<Practised> {
    print!(rt; "open with {w} {h} {b}")?;
    k.open_in(rt, Yard { w, h, b }, 0, &Practice::CELLS, &Practice::BOXES)
}

fn celled(rt: &impl Print, k: Practised, name: &str, cells: &[u8]) -> io::Result<Practised> {
    print!(rt; "open with {name}")?;
    k.open_in(rt, Practice::YARD, 0, cells, &Practice::BOXES)
}

fn boxed(rt: &impl Print, k: Practised, name: &str, boxes: &[i32]) -> io::Result<Practised> {
    print!(rt; "open with {name}")?;
    k.open_in(rt, Practice::YARD, 0, &Practice::CELLS, boxes)
}

fn lengths(rt: &impl Print) -> io::Result<()> {
    say::title(rt, "10, after the ranges and before the cells")?;
    let k = sized(rt, sized(rt, twelve(rt)?, 5, 3, 1)?, 4, 3, 2)?;
    let k = celled(rt, k, "two cells of 2", b"\x02\x02")?;
    let k = boxed(rt, k, "three words of boxes", &[0, 256, 0])?;
    k.digest(rt)?;
    missing(rt, "4 state words", 1, 0, 0)?;
    missing(rt, "319 row words", 0, 1, 0)?;
    missing(rt, "16383 log bytes", 0, 0, 1)
}

// Opening where so many state words, row words and log bytes are missing.
fn missing(rt: &impl Print, name: &str, state: usize, rows: usize, log: usize) -> io::Result<()>
    requires one { (state ≤ 1) × (rows ≤ 1) × (log ≤ 1) }
{
    let mut all_state = [7; State::WORDS];
    let mut all_rows = [7; PRACTICE_ROWS];
    let mut all_log = [7; Buffer::SIZE];
    print!(rt; "open with {name}")?;
    let answer = Session::open(
        Practice::YARD,
        0,
        &Practice::CELLS,
        &Practice::BOXES,
        &mut all_state[state..],
        &mut all_rows[rows..],
        &mut all_log[log..],
    );
    say::running(rt, answer)?;
    println!(rt)
}

fn sessions(rt: &impl Print) -> io::Result<()> {
    say::title(rt, "14: the session or a buffer isn't sound")?;
    let k = twelve(rt)?;
    lever_ten(rt, k.with_state([0, 256, 0, 0, 10]))?;
    print!(rt; "speed 201, ")?;
    k.with_state([0, 256, 201, 0, 0]).digest(rt)?;
    print!(rt; "in the wall, ")?;
    k.with_state([513, 256, 0, 0, 0]).digest(rt)?;
    print!(rt; "a last log byte of 1, ")?;
    k.with_last(1).digest(rt)?;
    two_carriers(rt, k)?;
    for held in [0, 2, 2_049, 1] {
        print!(rt; "held {held}, ")?;
        k.with_held(held).digest(rt)?;
    }
    Ok(())
}

fn lever_ten(rt: &impl Print, k: Practised) -> io::Result<()> {
    print!(rt; "lever 10, ")?;
    k.digest(rt)?;
    k.shown(rt, 1)?;
    bytes(rt, k.reading(rt, 0)?, "7 bytes", b"\0\0\0\0\0\x01\0")?.digest(rt)
}

fn two_carriers(rt: &impl Print, k: Practised) -> io::Result<()> {
    let yard = Yard { w: 4, h: 3, b: 2 };
    print!(rt; "B 2, ")?;
    k.with_session(Session { yard, ..k.session }).digest(rt)
}

fn clocks(rt: &impl Print) -> io::Result<()> {
    say::title(rt, "14: the clock's words")?;
    let k = twelve(rt)?;
    for (last, remainder, cut, steps) in [
        (250_000, 10_000, 0, 12),
        (250_000, 10_000, 1, 12),
        (250_001, 10_000, 0, 12),
        (250_000, 30_000, 0, 11),
        (3_600_020_000, 0, 0, 180_001),
        (3_600_000_000, 0, 0, 180_000),
    ] {
        let clock = Clock {
            first: 0,
            last,
            remainder,
            cut,
            steps,
        };
        print!(rt; "last {last}")?;
        say::words(rt, clock)?;
        print!(rt; ", ")?;
        k.with_clock(clock).digest(rt)?;
    }
    Ok(())
}

fn rows(rt: &impl Print) -> io::Result<()> {
    say::title(
        rt,
        "14 for a row, only where it is used: lever 10 in rows 5 and 11",
    )?;
    let k = twelve(rt)?.with_row(5, 10).with_row(11, 10);
    k.digest(rt)?;
    k.shown(rt, 1)?;
    k.shown(rt, 0)?;
    let k = k
        .deliver(rt, 5, 0, 2)?
        .deliver(rt, 11, 0, 2)?
        .deliver(rt, 12, 0, 2)?;
    k.digest(rt)?;
    let k = k.deliver(rt, 6, 0, 2)?;
    k.digest(rt)?;
    k.shown(rt, 0)?;
    k.reading(rt, 270_000)?.deliver(rt, 11, 0, 9)?.digest(rt)
}
