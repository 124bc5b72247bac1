// A session as the nine words of the C face: w, h, b, first, last, remainder, cut, steps, held.

ghost use Rattle.std.specs.Prelude.{◌≡◌, length};
ghost use Rattle.basis.specs.Order.{answer};
ghost use Rattle.basis.specs.Refusal.{answer_of};
ghost use Rattle.station.specs.Words.{session_words, words_order, SmallOf};

use basis::Refusal;
use clock::Clock;
use session::Session;
use yard::Yard;

#[derive(Drop)]
pub struct Words {}

impl Words {
    pub const COUNT: usize = 9;
}

// A word that is a u32; 14 for one that isn't.
fn small(word: u64) -> Result<u32, Refusal>
    ensures small { SmallOf word result }
{
    u32::try_from(word).map_err(|_| Refusal::Fault)
}

// The session in nine words; 14 where there aren't nine, or W, H or B is no u32.
pub fn session_of(words: &[u64]) -> Result<Session, Refusal>
    ensures session { answer_of result ≡ answer (words_order words.now) }
{
    let [w, h, b, first, last, remainder, cut, steps, held] = *words else {
        return Err(Refusal::Fault);
    };
    Ok(Session {
        yard: Yard {
            w: small(w)?,
            h: small(h)?,
            b: small(b)?,
        },
        clock: Clock {
            first,
            last,
            remainder,
            cut,
            steps,
        },
        held: held as usize,
    })
}

// Puts a session into nine words.
#[tactic(auto, unfolding(crate::specs::Words::session_words))]
pub fn put_session(session: Session, words: &mut [u64])
    requires room { length words.old ≡ 9 }
    ensures put { words.new ≡ session_words session }
{
    let Session { yard, clock, held } = session;
    words[0] = u64::from(yard.w);
    words[1] = u64::from(yard.h);
    words[2] = u64::from(yard.b);
    words[3] = clock.first;
    words[4] = clock.last;
    words[5] = clock.remainder;
    words[6] = clock.cut;
    words[7] = clock.steps;
    words[8] = held as u64;
}
