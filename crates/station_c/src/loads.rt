// The export of a hanging load's step.

ghost use Rattle.basis.specs.Filled.{filled};
ghost use Rattle.station.specs.Says.{LoadStepSays};

// One step of a hanging load, its x and v in two words.
#[unsafe(no_mangle)]
pub extern "C" fn wuthracomb_load_step(stiffness: u32, load: &mut [i32]) -> u32
    ensures stepped { LoadStepSays stiffness load.old
        (filled result load.new) }
{
    station::wuthracomb_load_step(stiffness, load)
}
