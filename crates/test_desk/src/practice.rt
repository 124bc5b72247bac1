// The practice yard's one carrier, and a line for each call.
use super::desk::Desk;
use super::say;
use basis::Limit;
use digest::Digest;
use fleet::{Practice, Rows, State};
use record::Record;
use session::Session;
use std::io;
use yard::Yard;

// The saved rows of one carrier, in words.
pub const PRACTICE_ROWS: usize = Rows::COUNT * State::WORDS;

// The desk of one carrier.
pub type Practised = Desk<{ State::WORDS }, PRACTICE_ROWS>;

impl Practised {
    // The practice yard, opened on buffers full of sevens.
    pub fn open(rt: &impl Print, first: u64) -> io::Result<Self> {
        print!(rt; "open the practice yard at {first}")?;
        Desk::sevens(Practice::YARD, &Practice::BOXES).open_in(
            rt,
            Practice::YARD,
            first,
            &Practice::CELLS,
            &Practice::BOXES,
        )
    }

    // Opening of any world, on the buffers as they are; its name is already written.
    pub fn open_in(
        self,
        rt: &impl Print,
        yard: Yard,
        first: u64,
        cells: &[u8],
        boxes: &[i32],
    ) -> io::Result<Self> {
        let mut left = self;
        let answer = left.open_on(yard, first, cells, boxes);
        say::running(rt, answer)?;
        say::ended(rt, self.whole(), left.whole())?;
        Ok(left)
    }

    pub fn reading(self, rt: &impl Print, reading: u64) -> io::Result<Self> {
        let mut left = self;
        let answer = left.read(reading);
        print!(rt; "reading {reading}")?;
        say::running(rt, answer)?;
        say::ended(rt, self.whole(), left.whole())?;
        Ok(left)
    }

    // 100 steps made; a line for the last reading alone.
    pub fn hundred(self, rt: &impl Print) -> io::Result<Self> {
        let mut k = self;
        for quarters in 1..8 {
            let _ = k.read(250_000 * quarters);
        }
        k.reading(rt, 2_000_000)
    }

    // A delivery of any bytes; its name is already written.
    pub fn bytes(self, rt: &impl Print, bytes: &[u8]) -> io::Result<Self> {
        let mut left = self;
        let answer = left.hand(bytes);
        say::delivered(rt, answer)?;
        say::ended(rt, self.whole(), left.whole())?;
        Ok(left)
    }

    pub fn deliver(self, rt: &impl Print, step: u32, carrier: u8, lever: u8) -> io::Result<Self> {
        let r = Record {
            step,
            carrier,
            lever,
        };
        say::record(rt, r)?;
        self.bytes(rt, &record::bytes_of(r))
    }

    pub fn digest(self, rt: &impl Print) -> io::Result<()> {
        self.say_digest(rt)
    }

    pub fn shown(self, rt: &impl Print, carrier: u32) -> io::Result<()> {
        self.say_shown(rt, carrier)
    }

    // The held part, replayed.
    pub fn replay(self, rt: &impl Print, steps: u32) -> io::Result<()> {
        let held = self.session.held.min(Limit::RECORDS);
        replay(rt, steps, &self.log[..Record::SIZE * held])
    }
}

// A log replayed in the practice yard: the state's words, and the digest of the steps and them.
pub fn replay(rt: &impl Print, steps: u32, log: &[u8]) -> io::Result<()> {
    let mut state = [7; State::WORDS];
    let bytes = log.len();
    let before = Digest::of_state(steps, &state).value;
    let answer = session::replay(
        Practice::YARD,
        steps,
        &Practice::CELLS,
        &Practice::BOXES,
        &mut state,
        log,
    );
    let after = Digest::of_state(steps, &state).value;
    print!(rt; "replay {steps} of bytes {bytes}:")?;
    match answer {
        Ok(()) => {
            say::state(rt, &state)?;
            print!(rt; ", digest {after:08x}")?;
        }
        Err(why) => say::refused(rt, why)?,
    }
    say::ended(rt, before, after)
}
