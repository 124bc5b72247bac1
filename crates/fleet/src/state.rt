// The state words of all carriers.

ghost use Rattle.std.specs.Prelude.{◌≡◌, ◌+◌, ◌*◌, ◌≤◌, ◌<◌, length};
ghost use Rattle.basis.specs.Numbers.{most_carriers};
ghost use Rattle.fleet.specs.State.{carrier, carrier_words, put, start_to};
ghost use Rattle.yard.specs.Boxes.{BoxesFit};

use yard::{Carrier, Word, Yard, word_of};

#[derive(Drop)]
pub struct State {}

impl State {
    // 'The state is five i32 words for each carrier'.
    pub const WORDS: usize = 5;
}

// Carrier i of a state.
#[tactic(auto, unfolding(crate::specs::State::carrier))]
pub fn load(state: &[i32], i: usize) -> Carrier
    requires there { (i < most_carriers) × (carrier_words * i + carrier_words ≤ length state.now) }
    ensures loaded { result ≡ carrier i state.now }
{
    let at = State::WORDS * i;
    Carrier {
        x: state[at],
        y: state[at + 1],
        u: state[at + 2],
        v: state[at + 3],
        lever: state[at + 4],
    }
}

// Carrier i put in its place.
pub fn store(state: &mut [i32], i: usize, c: Carrier)
    requires there { (i < most_carriers) × (carrier_words * i + carrier_words ≤ length state.old) }
    ensures stored { state.new ≡ put i c state.old }
{
    let at = State::WORDS * i;
    // Word by word: a copy from an array would first be written to the stack.
    state[at] = c.x;
    state[at + 1] = c.y;
    state[at + 2] = c.u;
    state[at + 3] = c.v;
    state[at + 4] = c.lever;
}

// The state at the start: each carrier where the world puts it, at rest.
#[tactic(auto, unfolding(crate::specs::State::start_to))]
pub fn start(yard: Yard, boxes: &[i32], state: &mut [i32])
    requires room { BoxesFit yard boxes.now }
    requires words { length state.old ≡ carrier_words * yard.b }
    ensures started { state.new ≡ start_to boxes.now yard.b }
{
    // `i` is a carrier's number.
    for i in 0..yard.b as usize {
        let at_rest = Carrier {
            x: word_of(boxes, i, Word::X),
            y: word_of(boxes, i, Word::Y),
            u: 0,
            v: 0,
            lever: 0,
        };
        store(state, i, at_rest);
    }
}
