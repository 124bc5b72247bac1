// Document 01, 'Going back', by the calls of `session` on real buffers. The file `stdout` holds
// what the model of second/ gives.
//   late     late records, repeats, orders, the full log
//   pair     two carriers
//   replays  replay, and a walk

#![tactic(auto)]

mod late;
mod pair;
mod replays;

use std::io;

fn main(rt: HostRuntime) -> io::Result<()> {
    late::run(&rt)?;
    pair::run(&rt)?;
    replays::run(&rt)
}
