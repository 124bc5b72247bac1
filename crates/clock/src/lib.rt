// The clock: readings in, steps due out. Document 01, 'The clock'.

#![tactic(auto)]

ghost use Rattle.std.specs.Prelude.{◌≡◌, true};
ghost use Rattle.basis.specs.Numbers.{step_length};
ghost use Rattle.basis.specs.Order.{answer};
ghost use Rattle.basis.specs.Refusal.{answer_of};
ghost use Rattle.clock.specs.Clock.{sound_clock, used};
ghost use Rattle.clock.specs.Reading.{clock_order};
ghost use Rattle.clock.specs.Says.{NewSays, IsSoundSays, ReadSays};

use basis::{Limit, Refusal};

// The words of a clock; microseconds, but for `steps`, the number of steps made.
#[derive(Clone, Copy)]
pub struct Clock {
    pub first: u64,
    pub last: u64,
    pub remainder: u64,
    pub cut: u64,
    pub steps: u64,
}

// What an accepted reading gives: the new clock and the number of steps due.
#[derive(Clone, Copy)]
pub struct Given {
    pub clock: Clock,
    pub due: u64,
}

impl Clock {
    // The length of a step.
    pub const LENGTH: u64 = 20_000;
    // The most that counts of a gap between two readings.
    pub const LONGEST: u64 = 250_000;
    // 'A session makes at most 180,000.'
    pub const STEPS: u64 = Limit::STEPS as u64;

    // The clock of a session that opens with this reading.
    pub fn new(first: u64) -> Self
        ensures opened { NewSays first result }
    {
        Clock {
            first,
            last: first,
            remainder: 0,
            cut: 0,
            steps: 0,
        }
    }

    // What counts of a gap.
    fn used(gap: u64) -> u64
        ensures used { result ≡ used gap }
    {
        gap.min(Clock::LONGEST)
    }

    // Whether the limits and the time equation hold of these words.
    #[tactic(auto, using(crate::proofs::Sound::beyond))]
    pub fn is_sound(self) -> bool
        ensures sound { IsSoundSays self result }
    {
        if self.remainder >= Clock::LENGTH || self.steps > Clock::STEPS || self.last < self.first {
            return false;
        }
        // The time equation by differences: its sum could wrap.
        let counted = Clock::LENGTH * self.steps + self.remainder;
        let passed = self.last - self.first;
        counted <= passed && passed - counted == self.cut
    }

    // 11, 12, or the clock after this reading with the number of steps due; of a sound clock.
    #[tactic(auto, using(crate::proofs::Readings::outcomes), unfolding(crate::specs::Clock::due))]
    pub fn tick(self, reading: u64) -> Result<Given, Refusal>
        requires sound { sound_clock step_length self ≡ true }
        ensures ticked { answer_of result ≡ answer (clock_order step_length self reading) }
    {
        if reading < self.last {
            return Err(Refusal::Backward);
        }
        let gap = reading - self.last;
        let used = Clock::used(gap);
        let pool = self.remainder + used;
        let due = pool / Clock::LENGTH;
        let steps = self.steps + due;
        if steps > Clock::STEPS {
            return Err(Refusal::End);
        }
        let clock = Clock {
            first: self.first,
            last: reading,
            remainder: pool % Clock::LENGTH,
            cut: self.cut + (gap - used),
            steps,
        };
        Ok(Given { clock, due })
    }

    // 14, 11, 12, or the clock after this reading with the number of steps due.
    #[tactic(auto, using(crate::proofs::Readings::outcomes))]
    pub fn read(self, reading: u64) -> Result<Given, Refusal>
        ensures read { ReadSays self reading result }
    {
        if !self.is_sound() {
            return Err(Refusal::Fault);
        }
        self.tick(reading)
    }
}
