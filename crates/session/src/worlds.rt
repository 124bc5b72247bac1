// A world as opening and replay are given it (document 01, 'Opening: ranges of W, H, B (9); lengths
// (10); cells, sizes, starts (9)').

ghost use Rattle.std.specs.Prelude.{◌≡◌, true, ◌*◌, length};
ghost use Rattle.basis.specs.Order.{answer};
ghost use Rattle.basis.specs.Refusal.{answer_of};
ghost use Rattle.session.specs.Calls.{world_order};
ghost use Rattle.session.specs.Lent.{lent_of};
ghost use Rattle.session.specs.Sound.{room, world_room};

use super::Buffers;
use basis::Refusal;
use fleet::{Rows, State};
use record::Buffer;
use yard::{Word, Yard, cells_hold, ranges_hold, sizes_hold, starts_hold};

// Rule 10, of the lengths that replay asks.
#[tactic(auto, unfolding(crate::specs::Sound::world_room))]
pub fn world_room(yard: Yard, cells: usize, boxes: usize, state: usize) -> bool
    ensures room { result ≡ world_room yard cells boxes state }
{
    let b = yard.b as usize;
    cells == yard.w as usize * yard.h as usize
        && boxes == Word::COUNT * b
        && state == State::WORDS * b
}

impl Buffers<'_> {
    // Rule 10 whole.
    #[tactic(auto, unfolding(crate::specs::Sound::room))]
    pub(super) fn has_room(self, yard: Yard) -> bool
        ensures room { result ≡ room yard (lent_of self.entry) }
    {
        world_room(yard, self.cells.len(), self.boxes.len(), self.state.len())
            && self.rows.len() == Rows::COUNT * (State::WORDS * yard.b as usize)
            && self.log.len() == Buffer::SIZE
    }
}

// Opening's order, where rule 10 has been answered; a `Site` can be made of a world only after it.
#[tactic(auto, using(crate::proofs::Openings::tests), unfolding(crate::specs::Calls::world_order))]
pub fn check_world(yard: Yard, lengths: bool, cells: &[u8], boxes: &[i32]) -> Result<(), Refusal>
    requires room { lengths ≡ true
        → (length cells.now ≡ yard.w * yard.h) × (length boxes.now ≡ 4 * yard.b) }
    ensures order { answer_of result
        ≡ answer (world_order yard lengths cells.now boxes.now) }
{
    if !ranges_hold(yard) {
        return Err(Refusal::World);
    }
    if !lengths {
        return Err(Refusal::Room);
    }
    if !(cells_hold(cells) && sizes_hold(yard, boxes) && starts_hold(yard, cells, boxes)) {
        return Err(Refusal::World);
    }
    Ok(())
}
