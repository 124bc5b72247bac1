// The library for C, as include/wuthracomb.h has it: each export calls the function of `station`
// of its name, and has that one's signature and clauses. They stand here again, since C links
// functions of this crate, and a clause isn't passed on with a call.
//   records    one record, a log, the records of one step
//   calls      opening, reading, delivery, replay
//   show       the digest, and the shown place of a carrier
//   merges     two logs merged
//   loads      one step of a hanging load
//   rope_ends  one step of a rope end

#![tactic(auto)]

mod calls;
mod loads;
mod merges;
mod records;
mod rope_ends;
mod show;

pub use calls::{wuthracomb_deliver, wuthracomb_open, wuthracomb_reading, wuthracomb_replay};
pub use loads::wuthracomb_load_step;
pub use merges::wuthracomb_merge;
pub use records::{
    wuthracomb_log_sound, wuthracomb_read_record, wuthracomb_step_records, wuthracomb_write_record,
};
pub use rope_ends::wuthracomb_rope_step;
pub use show::{wuthracomb_digest, wuthracomb_shown};
