// Parts 3 and 4 of 'One step': the move along one axis, for both axes and both directions.
ghost use Rattle.std.specs.Prelude.{◌≡◌, true, ◌≤◌, nat_abs};
ghost use Rattle.yard.specs.Free.{free_on};
ghost use Rattle.yard.specs.Slide.{toward, clear_on, distance, slide};

use super::levers::Axis;
use super::words::magnitude;
use super::world::Ground;

// What a move along one axis comes to: the new place on the axis, and the speed kept.
#[derive(Clone, Copy)]
pub struct Moved {
    pub at: i32,
    pub speed: i32,
}

// The place so many units on, in the direction of the speed.
#[tactic(auto, unfolding(crate::specs::Slide::toward))]
fn toward(speed: i32, from: i32, units: usize) -> i32
    requires near { (nat_abs from ≤ 16384) × (units ≤ 200) }
    ensures place { result ≡ toward speed from units }
{
    if speed < 0 {
        from - units as i32
    } else {
        from + units as i32
    }
}

impl Ground<'_> {
    // Whether the place so many units on along the axis is free. Two arms: a closure for each axis
    // would want a contract of its own.
    #[tactic(auto, unfolding(crate::specs::Slide::clear_on))]
    fn clear_on(&self, axis: Axis, speed: i32, x: i32, y: i32, units: usize) -> bool
        requires near { (nat_abs x ≤ 16384) × (nat_abs y ≤ 16384) × (units ≤ 200) }
        ensures on { result ≡ clear_on (free_on self.now) axis speed x y units }
    {
        match axis {
            Axis::X => self.is_free(toward(speed, x, units), y),
            Axis::Y => self.is_free(x, toward(speed, y, units)),
        }
    }

    // The units moved along the axis, up to |speed|. What a move is given goes one by one: a struct
    // of it would be made for this chain of calls alone.
    fn distance(&self, axis: Axis, speed: i32, x: i32, y: i32) -> usize
        requires slow { nat_abs speed ≤ 200 }
        requires stands { free_on self.now x y ≡ true }
        ensures units { result ≡ distance (free_on self.now) axis speed x y }
    {
        let most = magnitude(speed);
        (0..most)
            .find(|moved| !self.clear_on(axis, speed, x, y, moved + 1))
            .unwrap_or(most)
    }

    // The move along the axis of a carrier that stands free at (x, y). Put into each step whole,
    // where its two calls would cost a sixth of it.
    #[inline(always)]
    #[tactic(auto, unfolding(crate::specs::Slide::slide))]
    pub(super) fn slide(&self, axis: Axis, speed: i32, x: i32, y: i32) -> Moved
        requires slow { nat_abs speed ≤ 200 }
        requires stands { free_on self.now x y ≡ true }
        ensures moved { result ≡ slide (free_on self.now) axis speed x y }
    {
        let units = self.distance(axis, speed, x, y);
        Moved {
            at: toward(speed, axis.pick(x, y), units),
            speed: if units < magnitude(speed) { 0 } else { speed },
        }
    }
}
