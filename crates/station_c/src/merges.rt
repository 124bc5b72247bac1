// The export of a merge.

ghost use Rattle.station.specs.Left.{counted};
ghost use Rattle.station.specs.Says.{MergeSays};

// Two logs for b carriers, merged into a buffer; their count goes into one word.
#[unsafe(no_mangle)]
pub extern "C" fn wuthracomb_merge(
    b: u32,
    one: &[u8],
    two: &[u8],
    out: &mut [u8],
    count: &mut [u64],
) -> u32
    ensures merged { MergeSays b one.now two.now out.old count.old
        (counted result out.new count.new) }
{
    station::wuthracomb_merge(b, one, two, out, count)
}
