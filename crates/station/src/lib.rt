// The C face of `record`, `session`, `merge`, `load` and `rope`: numbers and slices only, as
// include/wuthracomb.h has them; `station_c` exports it. A slice is a pointer and a length; each
// function answers a number of documents 01 and 02, or 255 for an accepted call but a delivery.
//   words      a session as nine words
//   records    one record, a log, the records of one step
//   calls      opening, reading, delivery, replay
//   show       the digest, and the shown place of a carrier
//   merges     two logs merged
//   loads      one step of a hanging load
//   rope_ends  one step of a rope end

#![tactic(auto)]

mod calls;
mod loads;
mod merges;
mod records;
mod rope_ends;
mod show;
mod words;

ghost use Rattle.std.specs.Prelude.{◌≡◌};
ghost use Rattle.station.specs.Told.{told_of};

use basis::Refusal;
pub use calls::{wuthracomb_deliver, wuthracomb_open, wuthracomb_reading, wuthracomb_replay};
pub use loads::wuthracomb_load_step;
pub use merges::wuthracomb_merge;
pub use records::{
    wuthracomb_log_sound, wuthracomb_read_record, wuthracomb_step_records, wuthracomb_write_record,
};
pub use rope_ends::wuthracomb_rope_step;
pub use show::{wuthracomb_digest, wuthracomb_shown};

// The numbers that C is told of an accepted call; those of a refusal are `Refusal`'s.
#[derive(Drop)]
struct Face {}

impl Face {
    // A delivery: the record is now held.
    const TAKEN: u32 = 0;
    // A delivery: the same record was held already.
    const HELD: u32 = 1;
    // An accepted call other than a delivery.
    const DONE: u32 = 255;
}

// What a call tells by a number: its own where it is accepted, else that of the refusal. Each
// function of C is told by it of a part that answers a `Result`, since `?` wants a function.
fn told(outcome: Result<u32, Refusal>) -> u32
    ensures told { result ≡ told_of outcome }
{
    match outcome {
        Ok(number) => number,
        Err(why) => u32::from(why),
    }
}
