// Replay: document 01's examples, refusals, and a walk through the practice yard.
use std::io;
use test_desk::{Practised, replay, say};

pub fn run(rt: &impl Print) -> io::Result<()> {
    replays(rt)?;
    walk(rt)
}

fn replays(rt: &impl Print) -> io::Result<()> {
    say::title(
        rt,
        "replay: the program's two examples, 13, and 13 before 5",
    )?;
    let two = b"\0\0\0\0\0\x01\0\0\x02\0\0\0\0\x09\0\0";
    replay(rt, 3, two)?;
    replay(rt, 0, b"")?;
    for steps in [2, 180_000, 180_001] {
        replay(rt, steps, two)?;
    }
    replay(rt, 3, b"\0\0\0\0\0\x01\0")?;
    replay(rt, 3, b"\0\0\0\0\x01\x01\0\0")?;
    replay(rt, 3, b"\x02\0\0\0\0\x09\0\0\0\0\0\0\0\x01\0\0")?;
    replay(rt, 180_001, b"\0\0\0\0\0\x0a\0\0")
}

// Among the steps are document 01's examples E (step 0), J (step 8), H (step 32) and I (step 33).
fn walk(rt: &impl Print) -> io::Result<()> {
    say::title(
        rt,
        "a walk of 300 steps: the wall, each edge of the yard, every lever",
    )?;
    let k = walker(rt)?;
    for steps in [
        0, 1, 8, 9, 28, 29, 32, 33, 34, 46, 98, 104, 125, 155, 190, 300,
    ] {
        k.replay(rt, steps)?;
    }
    Ok(())
}

// The records of the walk: a step and a lever each.
fn walker(rt: &impl Print) -> io::Result<Practised> {
    let mut k = Practised::open(rt, 0)?;
    for (step, lever) in [
        (0, 1),
        (1, 9),
        (3, 5),
        (4, 9),
        (8, 5),
        (20, 1),
        (30, 5),
        (31, 1),
        (40, 3),
        (60, 1),
        (80, 7),
        (90, 6),
        (104, 9),
        (120, 8),
        (140, 4),
        (150, 2),
        (160, 0),
        (180, 7),
        (186, 9),
        (200, 2),
        (230, 5),
        (236, 3),
        (240, 8),
        (270, 9),
        (290, 5),
    ] {
        k = k.deliver(rt, step, 0, lever)?;
    }
    Ok(k)
}
