// The export of a rope end's step.

ghost use Rattle.basis.specs.Filled.{filled};
ghost use Rattle.station.specs.Says.{RopeStepSays};

// One step of a rope end.
#[unsafe(no_mangle)]
pub extern "C" fn wuthracomb_rope_step(kinds: &[u32], numbers: &[f64], point: &mut [f64]) -> u32
    ensures stepped { RopeStepSays kinds.now numbers.now point.old
        (filled result point.new) }
{
    station::wuthracomb_rope_step(kinds, numbers, point)
}
