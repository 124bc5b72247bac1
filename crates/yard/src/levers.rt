// 'Levers', and part 2 of 'One step': the table, the cut and the brake.
ghost use Rattle.std.specs.Prelude.{◌≡◌, ◌≤◌, ◌<◌, nat_abs, ◌+ℤ◌};
ghost use Rattle.yard.specs.Levers.{along, push_of, cut_speed, brake, new_speed};

#[derive(Clone, Copy)]
pub enum Axis {
    X,
    Y,
}

impl Axis {
    // The one of two numbers that is along this axis.
    pub fn pick(self, x: i32, y: i32) -> i32
        ensures along { result ≡ along self x y }
    {
        match self {
            Axis::X => x,
            Axis::Y => y,
        }
    }
}

// The pushes of one lever position.
#[derive(Clone, Copy)]
pub struct Push {
    pub x: i32,
    pub y: i32,
}

const PUSHES: [Push; 9] = [
    Push { x: 0, y: 0 },
    Push { x: 12, y: 0 },
    Push { x: 8, y: 8 },
    Push { x: 0, y: 12 },
    Push { x: -8, y: 8 },
    Push { x: -12, y: 0 },
    Push { x: -8, y: -8 },
    Push { x: 0, y: -12 },
    Push { x: 8, y: -8 },
];

// 'cut to the range -200 to 200'.
#[derive(Drop)]
pub struct Speed {}

impl Speed {
    pub const LEAST: i32 = -200;

    pub const MOST: i32 = 200;

    // What the brake takes off.
    pub const BRAKE: i32 = 10;
}

// The table at levers 0 to 8.
#[tactic(auto, unfolding(crate::specs::Levers::push_of))]
fn push_of(lever: usize) -> Push
    requires table { lever < 9 }
    ensures pair { result ≡ push_of lever }
{
    PUSHES[lever]
}

// 'old speed plus push, then cut'. A speed is a word of the state, any i32 until it is tested: a
// type for those within 200 would be made and taken apart at every step.
#[tactic(auto, unfolding(crate::specs::Levers::cut_speed))]
fn pushed_speed(old: i32, push: i32) -> i32
    requires small { (nat_abs old ≤ 200) × (nat_abs push ≤ 12) }
    ensures cut { result ≡ cut_speed (old +ℤ push) }
{
    (old + push).clamp(Speed::LEAST, Speed::MOST)
}

// Lever 9: 'toward zero, and never past it' (02 §2).
#[tactic(auto, unfolding(crate::specs::Levers::brake))]
fn brake_speed(old: i32) -> i32
    requires small { nat_abs old ≤ 200 }
    ensures braked { result ≡ brake old }
{
    old - old.clamp(-Speed::BRAKE, Speed::BRAKE)
}

// Part 2, along one axis.
#[tactic(auto, using(crate::proofs::Limits::speeds), unfolding(crate::specs::Levers::new_speed))]
pub fn new_speed(axis: Axis, lever: usize, old: i32) -> i32
    requires sound { (lever ≤ 9) × (nat_abs old ≤ 200) }
    ensures part { result ≡ new_speed axis lever old }
{
    if lever == usize::from(basis::Limit::LEVER) {
        return brake_speed(old);
    }
    let push = push_of(lever);
    pushed_speed(old, axis.pick(push.x, push.y))
}
