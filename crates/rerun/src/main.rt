// The program: the log on standard input, re-run in the practice yard (document 01, 'The program').
//   ended  what a log comes to
//   text   the lines of it

#![tactic(auto)]

mod ended;
mod text;

ghost use Rattle.std.specs.Prelude.{◌≡◌};
ghost use Rattle.basis.specs.Order.{answer};
ghost use Rattle.rerun.specs.Rerun.{program_order};
ghost use Rattle.rerun.specs.Text.{program_text};

use ended::rerun;
use input::read_input;
use record::Buffer;
use std::io;
use text::{Text, text_of};

// What the program writes for an input.
fn program(input: &[u8]) -> Text
    ensures text { result.bytes ≡ program_text (answer (program_order input.now)) }
{
    text_of(rerun(input))
}

// The input has room for one byte more than a log has: one that fills it is refused.
fn main(rt: HostRuntime) -> io::Result<()> {
    let mut bytes = [0; Buffer::SIZE + 1];
    match read_input(&mut rt.reader(), &mut bytes) {
        Ok(n) => print!(rt; "{}", program(&bytes[..n])),
        Err(_) => eprintln!(rt; "rerun: standard input can't be read"),
    }
}
