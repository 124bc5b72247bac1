// A session: opening, reading, delivery, replay, digest and shown place, over lent words and bytes.
//   worlds   rule 10's lengths, and opening's order of a world
//   sound    document 01's *Sound*, of any session and any buffers
//   open     opening
//   reading  a clock reading
//   verdict  what a delivery comes to, before anything is changed
//   deliver  a delivery, and going back
//   replays  a log replayed from the start
//   show     the digest, and the shown place of a carrier

#![tactic(auto)]

mod deliver;
mod open;
mod reading;
mod replays;
mod show;
mod sound;
mod verdict;
mod worlds;

use clock::Clock;
pub use replays::replay;
pub use show::{digest, shown};
use yard::Yard;

// What is handed from call to call beside the lent buffers.
#[derive(Clone, Copy)]
pub struct Session {
    pub yard: Yard,
    pub clock: Clock,
    pub held: usize,
}

// The lent slices as a call reads them, in the order in which every call takes them.
#[derive(Clone, Copy)]
pub struct Buffers<'a> {
    pub cells: &'a [u8],
    pub boxes: &'a [i32],
    pub state: &'a [i32],
    pub rows: &'a [i32],
    pub log: &'a [u8],
}

// What a delivery that is not refused answers.
#[derive(Clone, Copy)]
pub enum Delivered {
    Taken(Session),
    Held(Session),
}
