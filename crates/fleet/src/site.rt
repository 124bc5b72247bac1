// What is lent of a world: where each of its carriers moves, and the state rule.

ghost use Rattle.std.specs.Prelude.{◌≡◌, ◌*◌, ◌<◌, length};
ghost use Rattle.yard.specs.Boxes.{size_of};
ghost use Rattle.yard.specs.Free.{free, free_on};
ghost use Rattle.fleet.specs.State.{carrier_words, sound_state, world_of};
ghost use Rattle.fleet.specs.Fits.{WorldFits};

use super::state::load;
use yard::{Ground, Size, Yard};

// W, H and B, the cell bytes, and x, y, w, h of each carrier.
#[derive(Clone, Copy)]
pub struct Site<'a> {
    pub yard: Yard,
    pub cells: &'a [u8],
    pub boxes: &'a [i32],
    pub ghost fits: { WorldFits (world_of yard cells.now boxes.now) },
}

impl<'a> Site<'a> {
    ghost use Rattle.fleet.specs.Site.{world_at};

    // Where carrier i moves.
    #[tactic(auto, using(yard::proofs::Fits::sizes_fit))]
    pub(super) fn ground(&self, i: usize) -> Ground<'a>
        requires there { i < self.now.yard.b }
        ensures free { free_on result
            ≡ free self.now.yard self.now.cells.now (size_of self.now.boxes.now i) }
    {
        Ground {
            yard: self.yard,
            cells: self.cells,
            size: Size::at(self.boxes, i),
        }
    }

    // The state rule: each carrier free, speeds within 200, lever 0 to 9.
    pub fn state_sound(&self, state: &[i32]) -> bool
        requires room { length state.now ≡ carrier_words * self.now.yard.b }
        ensures rule { result ≡ sound_state (world_at self.now) state.now }
    {
        (0..self.yard.b as usize).all(|i| self.ground(i).is_sound(load(state, i)))
    }
}
