// The yard of document 01: rule 9, where a carrier is free, one carrier's step and its state rule.
// Callers test ranges and lengths first, in document 01's order: the `requires` rest on that.

#![tactic(auto)]

mod carrier;
mod levers;
mod place;
mod rule9;
mod slide;
mod words;
mod world;

pub use carrier::Carrier;
pub use rule9::{cells_hold, ranges_hold, sizes_hold, starts_hold};
pub use words::magnitude;
pub use world::{Ground, Size, Word, Yard, word_of};
