// A session in the cells of the practice yard with all that is lent.
use super::say;
use basis::Refusal;
use clock::Clock;
use digest::Digest;
use fleet::Practice;
use record::Buffer;
use session::{Buffers, Delivered, Session};
use std::io;
use yard::Yard;

// The buffers go by value with the session: each call lends them, and gives back what it left.
#[derive(Clone, Copy)]
pub struct Desk<const WORDS: usize, const ROWS: usize> {
    pub session: Session,
    pub boxes: &'static [i32],
    pub state: [i32; WORDS],
    pub rows: [i32; ROWS],
    pub log: [u8; Buffer::SIZE],
}

impl<const WORDS: usize, const ROWS: usize> Desk<WORDS, ROWS> {
    // Buffers full of sevens; what stands for a session while none is open yet.
    pub fn sevens(yard: Yard, boxes: &'static [i32]) -> Self {
        Desk {
            session: Session {
                yard,
                clock: Clock::new(0),
                held: 0,
            },
            boxes,
            state: [7; WORDS],
            rows: [7; ROWS],
            log: [7; Buffer::SIZE],
        }
    }

    fn lent(&self) -> Buffers<'_> {
        Buffers {
            cells: &Practice::CELLS,
            boxes: self.boxes,
            state: &self.state,
            rows: &self.rows,
            log: &self.log,
        }
    }

    // Opening of any world on the buffers as they are; a refusal leaves the session before.
    pub fn open_on(
        &mut self,
        yard: Yard,
        first: u64,
        cells: &[u8],
        boxes: &[i32],
    ) -> Result<Session, Refusal> {
        let answer = Session::open(
            yard,
            first,
            cells,
            boxes,
            &mut self.state,
            &mut self.rows,
            &mut self.log,
        );
        self.session = answer.unwrap_or(self.session);
        answer
    }

    pub fn read(&mut self, reading: u64) -> Result<Session, Refusal> {
        let answer = self.session.reading(
            reading,
            &Practice::CELLS,
            self.boxes,
            &mut self.state,
            &mut self.rows,
            &self.log,
        );
        self.session = answer.unwrap_or(self.session);
        answer
    }

    pub fn hand(&mut self, bytes: &[u8]) -> Result<Delivered, Refusal> {
        let answer = self.session.deliver(
            bytes,
            &Practice::CELLS,
            self.boxes,
            &mut self.state,
            &mut self.rows,
            &mut self.log,
        );
        if let Ok(Delivered::Taken(session) | Delivered::Held(session)) = answer {
            self.session = session;
        }
        answer
    }

    // One number of all lent bytes and words that a call may change.
    pub fn whole(&self) -> u32 {
        let digest = Digest::new().words(&self.state).words(&self.rows);
        digest.bytes(&self.log).value
    }

    pub fn say_digest(&self, rt: &impl Print) -> io::Result<()> {
        let whole = self.whole();
        print!(rt; "digest:")?;
        match session::digest(self.session, self.lent()) {
            Ok(value) => print!(rt; " {value:08x}")?,
            Err(why) => say::refused(rt, why)?,
        }
        println!(rt; ", all lent {whole:08x}")
    }

    pub fn say_shown(&self, rt: &impl Print, carrier: u32) -> io::Result<()> {
        print!(rt; "shown {carrier}:")?;
        match session::shown(self.session, carrier, self.lent()) {
            Ok(place) => say::place(rt, place)?,
            Err(why) => say::refused(rt, why)?,
        }
        println!(rt)
    }
}
