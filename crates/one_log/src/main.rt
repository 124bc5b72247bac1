// The program of `wuthracomb merge`: two logs, in the two files that it is given, merged (document
// 02, §9) and written to standard output.

#![tactic(auto)]

ghost use Rattle.std.specs.Prelude.{◌≡◌, ◌≤◌, length, take, IfSome};
ghost use Rattle.basis.specs.Order.{answer};
ghost use Rattle.one_log.specs.Written.{program_order, written};

use basis::Limit;
use input::read_input;
use merge::merge_logs;
use record::{Buffer, Record};
use std::env::Env;
use std::rt::Files;
use std::{fs, io};

// What the program writes for two logs, at the front of the buffer; and how long it is.
fn program(one: &[u8], two: &[u8], out: &mut [u8]) -> usize
    requires room { length out.old ≡ 16384 }
    ensures written { (result ≤ 16384)
        × (take result out.new
        ≡ written (answer (program_order one.now two.now))) }
{
    match merge_logs(Limit::CARRIERS, one, two, out) {
        Ok(count) => Record::SIZE * count,
        Err(why) => {
            out[0] = u8::from(why);
            1
        }
    }
}

// How much is read of the file that an argument names; nothing where that fails.
fn read_argument(rt: &(impl Env + Files), i: usize, buffer: &mut [u8]) -> Option<usize>
    ensures read { IfSome result (λ n. n ≤ length buffer.new) }
{
    // A path of fixed size, so nothing is allocated.
    let mut path = [0u8; 4096];
    let n = rt.arg(i, &mut path).ok()?;
    let name = str::from_utf8(&path[..n]).ok()?;
    let mut file = fs::open(rt, name).ok()?;
    read_input(&mut file, buffer).ok()
}

fn failed(rt: &impl Eprint) -> io::Result<()> {
    eprintln!(rt; "one_log: a log can't be read")
}

// Each log has room for one byte more than a log has: one that fills it is refused.
fn main(rt: HostRuntime) -> io::Result<()> {
    let mut one = [0u8; Buffer::SIZE + 1];
    let mut two = [0u8; Buffer::SIZE + 1];
    let mut out = [0u8; Buffer::SIZE];
    let Some(m) = read_argument(&rt, 1, &mut one) else {
        return failed(&rt);
    };
    let Some(n) = read_argument(&rt, 2, &mut two) else {
        return failed(&rt);
    };
    let end = program(&one[..m], &two[..n], &mut out);
    rt.write_all(&out[..end])
}
