// Document 01, 'The clock' and the shown place, by the calls of `session` on real buffers. The file
// `stdout` holds what the model of second/ gives.

#![tactic(auto)]

use clock::Clock;
use std::io;
use test_desk::{Practised, say};

fn main(rt: HostRuntime) -> io::Result<()> {
    grouped(&rt)?;
    cut(&rt)?;
    backward(&rt)?;
    end(&rt)?;
    between(&rt)
}

fn grouped(rt: &impl Print) -> io::Result<()> {
    say::title(
        rt,
        "readings 0, 7000, 14000, 21000 do as 0, 21000; an equal one makes no step",
    )?;
    let many = Practised::open(rt, 0)?
        .deliver(rt, 0, 0, 1)?
        .reading(rt, 7_000)?
        .reading(rt, 14_000)?;
    let all = many.reading(rt, 21_000)?.reading(rt, 21_000)?;
    all.digest(rt)?;
    all.shown(rt, 0)?;
    let one = Practised::open(rt, 0)?
        .deliver(rt, 0, 0, 1)?
        .reading(rt, 21_000)?;
    one.digest(rt)?;
    one.shown(rt, 0)
}

fn cut(rt: &impl Print) -> io::Result<()> {
    say::title(
        rt,
        "what a gap has above 250000 is cut, and nothing of the remainder",
    )?;
    let k = Practised::open(rt, 1_000)?
        .reading(rt, 251_001)?
        .reading(rt, 501_001)?;
    k.reading(rt, 18_446_744_073_709_551_615)?.digest(rt)?;
    Practised::open(rt, 0)?
        .reading(rt, 19_999)?
        .reading(rt, 269_999)?
        .digest(rt)
}

fn backward(rt: &impl Print) -> io::Result<()> {
    say::title(rt, "a reading below the last")?;
    let k = Practised::open(rt, 5_000)?
        .deliver(rt, 0, 0, 1)?
        .reading(rt, 255_000)?;
    k.digest(rt)?;
    k.reading(rt, 254_999)?.reading(rt, 0)?.digest(rt)
}

// A sound session of 179,990 steps that no opening made: its rows hold zeros.
fn end(rt: &impl Print) -> io::Result<()> {
    say::title(
        rt,
        "179990 steps made: eleven due are refused whole, ten are made",
    )?;
    let clock = Clock {
        first: 0,
        last: 3_599_800_000,
        remainder: 0,
        cut: 0,
        steps: 179_990,
    };
    let k = Practised::open(rt, 0)?
        .deliver(rt, 179_995, 0, 2)?
        .with_clock(clock);
    k.digest(rt)?;
    let k = k.reading(rt, 3_600_020_000)?.reading(rt, 3_600_000_000)?;
    k.digest(rt)?;
    let k = k.reading(rt, 3_600_019_999)?.reading(rt, 3_600_020_000)?;
    k.digest(rt)?;
    k.deliver(rt, 179_935, 0, 3)?
        .deliver(rt, 179_936, 0, 3)?
        .digest(rt)
}

fn between(rt: &impl Print) -> io::Result<()> {
    say::title(
        rt,
        "p 12, c 36, remainder 10000: shown 24.0; p where the remainder is 0 or n is 0",
    )?;
    let k = Practised::open(rt, 0)?.deliver(rt, 0, 0, 1)?;
    k.shown(rt, 0)?;
    let k = k.reading(rt, 10_000)?;
    k.shown(rt, 0)?;
    let k = k.reading(rt, 40_000)?;
    k.shown(rt, 0)?;
    let k = k.reading(rt, 50_000)?;
    k.shown(rt, 0)?;
    k.shown(rt, 1)?;
    k.reading(rt, 59_999)?.shown(rt, 0)
}
