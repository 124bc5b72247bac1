// A session with other words than the calls left: one that no opening made.
use super::practice::Practised;
use clock::Clock;
use fleet::{Rows, State};
use record::Buffer;
use session::Session;

impl Practised {
    pub fn with_session(self, session: Session) -> Self {
        Practised { session, ..self }
    }

    pub fn with_clock(self, clock: Clock) -> Self {
        self.with_session(Session {
            clock,
            ..self.session
        })
    }

    pub fn with_held(self, held: usize) -> Self {
        self.with_session(Session {
            held,
            ..self.session
        })
    }

    pub fn with_state(self, state: [i32; State::WORDS]) -> Self {
        Practised { state, ..self }
    }

    // Another lever in a row.
    pub fn with_row(mut self, row: usize, lever: i32) -> Self {
        if row < Rows::COUNT {
            self.rows[State::WORDS * row + 4] = lever;
        }
        self
    }

    // Another last byte of the log.
    pub fn with_last(mut self, byte: u8) -> Self {
        self.log[Buffer::SIZE - 1] = byte;
        self
    }
}
