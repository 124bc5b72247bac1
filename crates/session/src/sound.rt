// Is a session sound, with all that is lent (document 01, '*Sound* means').

ghost use Rattle.std.specs.Prelude.{◌≡◌};
ghost use Rattle.fleet.specs.State.{sound_state};
ghost use Rattle.fleet.specs.Fits.{RowsFit, WorldFits};
ghost use Rattle.session.specs.Lent.{lent_of, world_in};
ghost use Rattle.session.specs.Calls.{row_in};
ghost use Rattle.session.specs.Sound.{sound};

use super::{Buffers, Session};
use fleet::{Rows, Site};
use record::records_sound;
use yard::{cells_hold, ranges_hold, sizes_hold};

impl Session {
    // Is the session sound with these buffers. Both by reference: copies of them would stand on the
    // stack of a call.
    #[tactic(auto, using(crate::proofs::Room::lengths_say), unfolding(crate::specs::Sound::sound))]
    pub(super) fn is_sound(&self, lent: &Buffers) -> bool
        ensures sound { result ≡ sound self.now (lent_of lent.now) }
    {
        let yard = self.yard;
        ranges_hold(yard)
            && lent.has_room(yard)
            && cells_hold(lent.cells)
            && sizes_hold(yard, lent.boxes)
            && self.clock.is_sound()
            && records_sound(lent.log, self.held, yard.b)
            && Site {
                yard,
                cells: lent.cells,
                boxes: lent.boxes,
            }
            .state_sound(lent.state)
    }

    // Is the row saved before step t sound, by the same rule.
    pub(super) fn row_sound(&self, lent: &Buffers, t: u32) -> bool
        requires world { WorldFits (world_in self.now (lent_of lent.now)) }
        requires room { RowsFit (world_in self.now (lent_of lent.now)) lent.now.rows.now }
        ensures rule { result ≡ sound_state (world_in self.now (lent_of lent.now))
            (row_in self.now (lent_of lent.now) t) }
    {
        let yard = self.yard;
        let site = Site {
            yard,
            cells: lent.cells,
            boxes: lent.boxes,
        };
        let rows = Rows {
            yard,
            words: lent.rows,
        };
        site.state_sound(rows.row(t))
    }
}
