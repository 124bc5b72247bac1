// Document 01, 'Going back': late records, repeats, orders, and the log when it is full.
use record::Record;
use std::io;
use test_desk::{Practised, say};

pub fn run(rt: &impl Print) -> io::Result<()> {
    window(rt)?;
    held(rt)?;
    orders(rt)?;
    full(rt)
}

// 100 steps made, and the carrier on its way.
fn under_way(rt: &impl Print) -> io::Result<Practised> {
    let k = Practised::open(rt, 0)?
        .deliver(rt, 0, 0, 1)?
        .deliver(rt, 30, 0, 4)?;
    k.deliver(rt, 60, 0, 9)?.deliver(rt, 92, 0, 8)?.hundred(rt)
}

fn window(rt: &impl Print) -> io::Result<()> {
    say::title(
        rt,
        "100 steps made: step 36 is taken, step 35 is LATE; a repeat is HELD",
    )?;
    let k = under_way(rt)?;
    k.digest(rt)?;
    let k = k.deliver(rt, 35, 0, 7)?;
    k.digest(rt)?;
    let k = k.deliver(rt, 36, 0, 7)?;
    k.digest(rt)?;
    k.replay(rt, 100)?;
    let k = k.deliver(rt, 36, 0, 7)?;
    k.digest(rt)?;
    k.reading(rt, 2_020_000)?
        .deliver(rt, 36, 0, 7)?
        .deliver(rt, 36, 0, 4)?
        .digest(rt)
}

fn held(rt: &impl Print) -> io::Result<()> {
    say::title(
        rt,
        "100 steps made, step 35 already held: the same lever is HELD, another 6",
    )?;
    let k = Practised::open(rt, 0)?
        .deliver(rt, 35, 0, 3)?
        .deliver(rt, 90, 0, 8)?
        .hundred(rt)?;
    k.digest(rt)?;
    k.deliver(rt, 35, 0, 3)?.deliver(rt, 35, 0, 4)?.digest(rt)
}

fn orders(rt: &impl Print) -> io::Result<()> {
    say::title(rt, "two late records, in both orders")?;
    let k = under_way(rt)?;
    let k = k.deliver(rt, 40, 0, 6)?.deliver(rt, 95, 0, 9)?;
    k.digest(rt)?;
    k.replay(rt, 100)?;
    let k = under_way(rt)?;
    let k = k.deliver(rt, 95, 0, 9)?.deliver(rt, 40, 0, 6)?;
    k.digest(rt)?;
    k.reading(rt, 2_250_000)?.digest(rt)
}

fn full(rt: &impl Print) -> io::Result<()> {
    say::title(
        rt,
        "2048 held: another is refused; 1, 6 and 7 come before 8",
    )?;
    let k = filled(Practised::open(rt, 0)?);
    k.digest(rt)?;
    let k = k
        .deliver(rt, 2_148, 0, 1)?
        .deliver(rt, 100, 0, 0)?
        .deliver(rt, 100, 0, 1)?
        .hundred(rt)?;
    k.digest(rt)?;
    let k = k
        .deliver(rt, 35, 0, 1)?
        .deliver(rt, 36, 0, 1)?
        .reading(rt, 2_100_000)?;
    k.digest(rt)?;
    k.replay(rt, 105)
}

// Records for the steps 100 to 2,147: levers 0 to 9 by turns.
fn filled(opened: Practised) -> Practised {
    let mut k = opened;
    for step in 100..2_148 {
        let _ = k.hand(&record::bytes_of(Record {
            step,
            carrier: 0,
            lever: (step % 10) as u8,
        }));
    }
    k
}
