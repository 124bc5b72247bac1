// The desk of the test programs: a session in the practice yard's cells with all that is lent, by
// value, and a line for each call of `session`, with what it was given and what it gave.
//   say       what is written: titles, answers, words of a clock and of a state, bit patterns
//   desk      a session with all that is lent, for any number of carriers; its calls, unwritten
//   practice  the desk of the practice yard's one carrier, a line for each call
//   changed   the same with other words

#![tactic(auto)]

mod changed;
mod desk;
mod practice;
pub mod say;

pub use desk::Desk;
pub use practice::{PRACTICE_ROWS, Practised, replay};
