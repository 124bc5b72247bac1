// The C face of `load`.

ghost use Rattle.basis.specs.Filled.{filled};
ghost use Rattle.station.specs.Says.{LoadStepSays};
ghost use Rattle.station.specs.Told.{told_of};

use super::{Face, told};
use basis::Refusal;
use load::Load;

// The load in two words is stepped there.
fn step_in(stiffness: u32, words: &mut [i32]) -> Result<u32, Refusal>
    ensures stepped { LoadStepSays stiffness words.old
        (filled (told_of result) words.new) }
{
    let [x, v] = *words else {
        return Err(Refusal::Room);
    };
    let after = Load { x, v }.step(stiffness)?;
    words[0] = after.x;
    words[1] = after.v;
    Ok(Face::DONE)
}

// One step of a hanging load, its x and v in two words.
pub fn wuthracomb_load_step(stiffness: u32, load: &mut [i32]) -> u32
    ensures stepped { LoadStepSays stiffness load.old
        (filled result load.new) }
{
    told(step_in(stiffness, load))
}
