// What is written: titles, answers, words of a clock and of a state, bit patterns.
use basis::Refusal;
use clock::Clock;
use record::Record;
use session::{Delivered, Session};
use shown::Place;
use std::io;

pub fn title(rt: &impl Print, title: &str) -> io::Result<()> {
    println!(rt; "# {title}")
}

pub fn record(rt: &impl Print, r: Record) -> io::Result<()> {
    print!(rt; "deliver {} {} {}", r.step, r.carrier, r.lever)
}

// What a reading changes beside the last reading.
pub fn words(rt: &impl Print, clock: Clock) -> io::Result<()> {
    print!(rt;
        " steps {} remainder {} cut {}",
        clock.steps, clock.remainder, clock.cut
    )
}

// What opening and a reading answer.
pub fn running(rt: &impl Print, answer: Result<Session, Refusal>) -> io::Result<()> {
    print!(rt; ":")?;
    match answer {
        Ok(session) => words(rt, session.clock),
        Err(why) => refused(rt, why),
    }
}

// What a delivery answers.
pub fn delivered(rt: &impl Print, answer: Result<Delivered, Refusal>) -> io::Result<()> {
    print!(rt; ":")?;
    match answer {
        Ok(Delivered::Taken(session)) => print!(rt; " TAKEN, held {}", session.held),
        Ok(Delivered::Held(session)) => print!(rt; " HELD, held {}", session.held),
        Err(why) => refused(rt, why),
    }
}

// The words of a state.
pub fn state(rt: &impl Print, words: &[i32]) -> io::Result<()> {
    for z in words {
        print!(rt; " {z}")?;
    }
    Ok(())
}

// The bit patterns of a place; nothing for a NaN, which no shown place has.
pub fn place(rt: &impl Print, at: Place) -> io::Result<()> {
    for z in [at.x, at.y] {
        print!(rt; " ")?;
        if !z.is_nan() {
            print!(rt; "{:016x}", z.to_bits())?;
        }
    }
    Ok(())
}

// A refusal by its number in document 01's table.
pub fn refused(rt: &impl Print, why: Refusal) -> io::Result<()> {
    print!(rt; " refused {why}")
}

// The end of a line: whether the lent bytes and words have the digest that they had.
pub fn ended(rt: &impl Print, before: u32, after: u32) -> io::Result<()> {
    if before == after {
        print!(rt; ", nothing changed")?;
    }
    println!(rt)
}
