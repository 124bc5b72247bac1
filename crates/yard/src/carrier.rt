// 'One step' of one carrier, parts 1 to 4, and the state rule.
ghost use Rattle.std.specs.Prelude.{◌≡◌, true};
ghost use Rattle.yard.specs.Free.{free_on};
ghost use Rattle.yard.specs.Step.{lever_after, LeverFits, step, sound_carrier};

use super::levers::{Axis, Speed, new_speed};
use super::words::{is_between, magnitude};
use super::world::Ground;

// The five state words of a carrier.
#[derive(Clone, Copy)]
pub struct Carrier {
    pub x: i32,
    pub y: i32,
    pub u: i32,
    pub v: i32,
    pub lever: i32,
}

// Part 1.
fn lever_after(held: Option<u8>, lever: i32) -> i32
    ensures part { result ≡ lever_after held lever }
{
    held.map_or(lever, i32::from)
}

impl Ground<'_> {
    // One step of a sound carrier.
    #[tactic(auto, using(crate::proofs::Soundness::steps), unfolding(crate::specs::Step::step))]
    pub fn step(&self, held: Option<u8>, carrier: Carrier) -> Carrier
        requires table { LeverFits held }
        requires sound { sound_carrier (free_on self.now) carrier ≡ true }
        ensures stepped { result ≡ step (free_on self.now) held carrier }
    {
        let lever = lever_after(held, carrier.lever);
        let position = magnitude(lever);
        let u = new_speed(Axis::X, position, carrier.u);
        let v = new_speed(Axis::Y, position, carrier.v);
        let along_x = self.slide(Axis::X, u, carrier.x, carrier.y);
        let along_y = self.slide(Axis::Y, v, along_x.at, carrier.y);
        Carrier {
            x: along_x.at,
            y: along_y.at,
            u: along_x.speed,
            v: along_y.speed,
            lever,
        }
    }

    // The state rule, for any words.
    #[tactic(auto, unfolding(crate::specs::Step::sound_carrier))]
    pub fn is_sound(&self, carrier: Carrier) -> bool
        ensures rule { result ≡ sound_carrier (free_on self.now) carrier }
    {
        self.is_free(carrier.x, carrier.y)
            && is_between(Speed::LEAST, carrier.u, Speed::MOST)
            && is_between(Speed::LEAST, carrier.v, Speed::MOST)
            && is_between(0, carrier.lever, i32::from(basis::Limit::LEVER))
    }
}
