// What every crate shares: why a call is refused, with the numbers of document 01's table and those
// that document 02 adds, and the limits that more than one crate keeps. A limit of one crate alone
// is an associated constant of that crate's own type.

#![tactic(auto)]

ghost use Rattle.std.specs.Prelude.{◌≡◌};
ghost use Rattle.basis.specs.Refusal.{number_of};

use std::fmt;

// 'Numbers given back': why a call is refused, by its number.
#[derive(Clone, Copy, Debug, PartialEq, Eq)]
pub enum Refusal {
    Malformed = 2,
    Carrier = 3,
    Lever = 4,
    Step = 5,
    Conflict = 6,
    Late = 7,
    Full = 8,
    World = 9,
    Room = 10,
    Backward = 11,
    End = 12,
    Log = 13,
    Fault = 14,
    // Document 02, §7.
    Load = 17,
    // Document 02, §8.
    Rope = 18,
}

impl From<Refusal> for u8 {
    ghost from_gives = { λ why number. number ≡ number_of why };

    fn from(why: Refusal) -> u8 {
        why as u8
    }
}

impl From<Refusal> for u32 {
    ghost from_gives = { λ why number. number ≡ number_of why };

    fn from(why: Refusal) -> u32 {
        why as u32
    }
}

impl fmt::Display for Refusal {
    ghost use Rattle.std.specs.Prelude.{Some};
    ghost use Rattle.std.specs.Fmt.{decimal};

    ghost output = { λ why. Some (decimal (number_of why)) };

    fn fmt<W: fmt::Write>(&self, f: &mut fmt::Formatter<W>) -> fmt::Result {
        write!(f, "{}", u8::from(*self))
    }
}

#[derive(Drop)]
pub struct Limit {}

impl Limit {
    // 'There are B carriers, 1 to 32'; 'asked without a world takes B as 32'.
    pub const CARRIERS: u32 = 32;
    // 'A session makes at most 180,000'; rule 5.
    pub const STEPS: u32 = 180_000;
    // 'Lever 9 is the brake'; rule 4.
    pub const LEVER: u8 = 9;
    // 'at most 2,048'; rules 8 and 13.
    pub const RECORDS: usize = 2_048;
}
