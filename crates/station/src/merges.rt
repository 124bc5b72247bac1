// The C face of `merge`.

ghost use Rattle.station.specs.Left.{counted};
ghost use Rattle.station.specs.Says.{MergeSays};
ghost use Rattle.station.specs.Told.{told_of};

use super::{Face, told};
use basis::Refusal;
use merge::{carriers_hold, merge_logs};

// B's range stands before the lengths.
fn merge_into(
    b: u32,
    one: &[u8],
    two: &[u8],
    out: &mut [u8],
    count: &mut [u64],
) -> Result<u32, Refusal>
    ensures merged { MergeSays b one.now two.now out.old count.old
        (counted (told_of result) out.new count.new) }
{
    if !carriers_hold(b) {
        return Err(Refusal::World);
    }
    if count.len() != 1 {
        return Err(Refusal::Room);
    }
    let records = merge_logs(b, one, two, out)?;
    count[0] = records as u64;
    Ok(Face::DONE)
}

// Two logs for b carriers, merged into a buffer; their count goes into one word.
pub fn wuthracomb_merge(b: u32, one: &[u8], two: &[u8], out: &mut [u8], count: &mut [u64]) -> u32
    ensures merged { MergeSays b one.now two.now out.old count.old
        (counted result out.new count.new) }
{
    told(merge_into(b, one, two, out, count))
}
