// The C face of `rope`.

ghost use Rattle.std.specs.Prelude.{◌≡◌, ◌*◌, length};
ghost use Rattle.basis.specs.Filled.{filled};
ghost use Rattle.basis.specs.Order.{answer};
ghost use Rattle.station.specs.Ropes.{KindOf, force_of, forces_order, number_of_kind, put_of};
ghost use Rattle.station.specs.Says.{RopeStepSays};
ghost use Rattle.station.specs.Told.{told_of};

use super::{Face, told};
use basis::Refusal;
use rope::{Force, Point};

// The kinds of forces: 0, 1 and 2 (document 02, §8). C lends them beside their numbers.
#[derive(Clone, Copy)]
enum Kind {
    Pull,
    Spring,
    Drag,
}

impl TryFrom<u32> for Kind {
    type Error = Refusal;

    ghost try_from_gives = { KindOf };

    fn try_from(kind: u32) -> Result<Kind, Refusal> {
        match kind {
            0 => Ok(Kind::Pull),
            1 => Ok(Kind::Spring),
            2 => Ok(Kind::Drag),
            _ => Err(Refusal::Rope),
        }
    }
}

impl Kind {
    // The force of two numbers; a pull and a drag don't use the second.
    #[tactic(auto, unfolding(crate::specs::Ropes::force_of))]
    fn force(self, first: f64, second: f64) -> Force
        ensures force { result ≡ force_of (number_of_kind self) first second }
    {
        match self {
            Kind::Pull => Force::Pull(first),
            Kind::Spring => Force::Spring(first, second),
            Kind::Drag => Force::Drag(first),
        }
    }
}

// Puts in the forces of these kinds and numbers; 18 where a kind is none. They are not given back
// in the `Result`, which would copy an array of them.
fn put_forces(kinds: &[u32], numbers: &[f64], forces: &mut [Force]) -> Result<(), Refusal>
    requires room { length forces.old ≡ length kinds.now }
    requires two { length numbers.now ≡ 2 * length kinds.now }
    ensures put { put_of result forces.new ≡ answer (forces_order kinds.now numbers.now) }
{
    for (i, kind) in kinds.iter().enumerate() {
        let kind = Kind::try_from(*kind)?;
        forces[i] = kind.force(numbers[2 * i], numbers[2 * i + 1]);
    }
    Ok(())
}

// The lengths stand before all that is refused as 18.
fn step_in(kinds: &[u32], numbers: &[f64], words: &mut [f64]) -> Result<u32, Refusal>
    ensures stepped { RopeStepSays kinds.now numbers.now words.old
        (filled (told_of result) words.new) }
{
    if numbers.len() != 2 * kinds.len() {
        return Err(Refusal::Room);
    }
    let [place, speed] = *words else {
        return Err(Refusal::Room);
    };
    if kinds.len() > Force::MOST {
        return Err(Refusal::Rope);
    }
    let mut forces = [Force::Pull(0.0); Force::MOST];
    put_forces(kinds, numbers, &mut forces[..kinds.len()])?;
    let next = Point { place, speed }.step_counted(&forces, kinds.len())?;
    words[0] = next.place;
    words[1] = next.speed;
    Ok(Face::DONE)
}

// One step of a rope end.
pub fn wuthracomb_rope_step(kinds: &[u32], numbers: &[f64], point: &mut [f64]) -> u32
    ensures stepped { RopeStepSays kinds.now numbers.now point.old
        (filled result point.new) }
{
    told(step_in(kinds, numbers, point))
}
