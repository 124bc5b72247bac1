// All carriers of a yard: their state words, one step of them all under the log, and runs of steps.
//   state     the words of a carrier, in and out, and the start
//   site      the lent parts of a world: where each carrier moves, and the state rule
//   step      one step of all carriers
//   rows      the saved rows
//   runs      steps one after the other
//   practice  the practice yard

#![tactic(auto)]

mod practice;
mod rows;
mod runs;
mod site;
mod state;
mod step;

pub use practice::Practice;
pub use rows::{Rows, clear_rows, copy_words};
pub use site::Site;
pub use state::{State, load, start, store};
