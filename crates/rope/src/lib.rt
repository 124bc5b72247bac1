// Rope ends on the screen, only for show: a point pulled by up to eight forces. Document 02, §8.
// No crate of a session stands on this one: nothing of it reaches the state or the digest.

#![tactic(auto)]

ghost use Rattle.std.specs.Prelude.{◌≡◌};
ghost use Rattle.rope.specs.Forces.{finite_force, force_on};
ghost use Rattle.rope.specs.Step.{finite_point, moved_by};
ghost use Rattle.rope.specs.Says.{StepSays, StepCountedSays};

use basis::Refusal;

// 'points with place and speed', along one axis: one in the plane is two of them.
#[derive(Clone, Copy)]
pub struct Point {
    pub place: f64,
    pub speed: f64,
}

// 'a steady pull of a given size, a spring with stiffness and rest place, or a drag with its
// factor', in this order.
#[derive(Clone, Copy)]
pub enum Force {
    Pull(f64),
    Spring(f64, f64),
    Drag(f64),
}

// Each force is taken apart by `match`, as document 01 asks: it comes as data, also from C.
impl Force {
    // 'up to eight forces'
    pub const MOST: usize = 8;

    // Is each of its numbers finite.
    #[tactic(auto, unfolding(crate::specs::Forces::finite_force))]
    fn is_finite(self) -> bool
        ensures finite { result ≡ finite_force self }
    {
        match self {
            Force::Pull(size) => size.is_finite(),
            Force::Spring(stiffness, rest) => stiffness.is_finite() && rest.is_finite(),
            Force::Drag(factor) => factor.is_finite(),
        }
    }

    // What it does to a point.
    #[tactic(auto, unfolding(crate::specs::Forces::force_on))]
    fn on(self, point: Point) -> f64
        ensures force { result ≡ force_on point self }
    {
        match self {
            Force::Pull(size) => size,
            Force::Spring(stiffness, rest) => stiffness * (rest - point.place),
            Force::Drag(factor) => -(factor * point.speed),
        }
    }
}

impl Point {
    // 'force·0.02' and 'speed·0.02'
    const TICK: f64 = 0.02;

    // Are place and speed finite.
    #[tactic(auto, unfolding(crate::specs::Step::finite_point))]
    fn is_finite(self) -> bool
        ensures finite { result ≡ finite_point self }
    {
        self.place.is_finite() && self.speed.is_finite()
    }

    // Moved by a force: the speed first, then the place with the new speed.
    #[tactic(auto, using(crate::proofs::Numbers::operations))]
    fn moved(self, force: f64) -> Point
        ensures moved { result ≡ moved_by self force }
    {
        let speed = self.speed + force * Point::TICK;
        Point {
            place: self.place + speed * Point::TICK,
            speed,
        }
    }

    // One step under forces, 'added in list order starting from 0.0'; what can't be used is refused
    // as 18.
    #[tactic(auto, using(crate::proofs::Steps::ways))]
    pub fn step(self, forces: &[Force]) -> Result<Point, Refusal>
        ensures stepped { StepSays self forces.now result }
    {
        if forces.len() > Force::MOST || !self.is_finite() {
            return Err(Refusal::Rope);
        }
        let mut sum = 0.0;
        for force in forces {
            if !force.is_finite() {
                return Err(Refusal::Rope);
            }
            sum += force.on(self);
        }
        let next = self.moved(sum);
        if !next.is_finite() {
            return Err(Refusal::Rope);
        }
        Ok(next)
    }

    // One step under the first `count` forces of an array; those past them play no part.
    #[tactic(auto, using(crate::proofs::Steps::counting))]
    pub fn step_counted(self, forces: &[Force; 8], count: usize) -> Result<Point, Refusal>
        ensures stepped { StepCountedSays self forces.now count result }
    {
        if count > Force::MOST {
            return Err(Refusal::Rope);
        }
        self.step(&forces[..count])
    }
}
