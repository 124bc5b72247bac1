// The hanging load. Document 02, §7.

#![tactic(auto)]

ghost use Rattle.std.specs.Prelude.{◌≡◌};
ghost use Rattle.load.specs.Step.{is_stiffness, within, in_range};
ghost use Rattle.load.specs.Says.{StepSays};

use basis::Refusal;

// A load's offset and speed.
#[derive(Clone, Copy)]
pub struct Load {
    pub x: i32,
    pub v: i32,
}

impl Load {
    // 'whole numbers within 32,767 either way'
    const MOST: i32 = 32_767;
    // 'With D = 1,024': the stiffest, and 2 to the power of SHIFT.
    const D: u32 = 1_024;

    const SHIFT: u32 = 10;

    // Is it from 1 to 1,024.
    fn is_stiffness(p: u32) -> bool
        ensures stiffness { result ≡ is_stiffness p }
    {
        (1..=Load::D).contains(&p)
    }

    // Within 32,767 either way.
    #[tactic(auto, using(crate::proofs::Steps::contains))]
    fn within(z: i32) -> bool
        ensures within { result ≡ within z }
    {
        (-Load::MOST..=Load::MOST).contains(&z)
    }

    // Whether offset and speed are in range.
    #[tactic(auto, unfolding(crate::specs::Step::in_range))]
    fn in_range(self) -> bool
        ensures range { result ≡ in_range self }
    {
        Load::within(self.x) && Load::within(self.v)
    }

    // One step with a stiffness; 17 where one of them, or the load after it, is out of range.
    #[tactic(auto, using(crate::proofs::Steps::ways), unfolding(crate::specs::Step::moved))]
    pub fn step(self, stiffness: u32) -> Result<Load, Refusal>
        ensures stepped { StepSays self stiffness result }
    {
        // Each refusal is 17: the order of the tests is free, and this one is the quickest.
        if !self.in_range() {
            return Err(Refusal::Load);
        }
        if !Load::is_stiffness(stiffness) {
            return Err(Refusal::Load);
        }
        let x = self.x;
        let v = self.v;
        // A shift of a signed word rounds down.
        let speed = v - ((stiffness as i32 * x) >> Load::SHIFT);
        // Each tested alone, which is quicker than both at once.
        if !Load::within(speed) {
            return Err(Refusal::Load);
        }
        let offset = x + speed;
        if !Load::within(offset) {
            return Err(Refusal::Load);
        }
        Ok(Load {
            x: offset,
            v: speed,
        })
    }
}
