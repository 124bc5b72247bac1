// i32 words, any of them: the magnitude, and whether one lies between two others.
ghost use Rattle.std.specs.Prelude.{◌≡◌};
ghost use Rattle.yard.specs.Ranges.{between};
ghost use Rattle.yard.specs.Says.{MagnitudeSays};

// |z|, also of the least i32: std's `unsigned_abs`, as wide as a size.
pub fn magnitude(z: i32) -> usize
    ensures size { MagnitudeSays z result }
{
    z.unsigned_abs() as usize
}

// low to high, ends allowed.
#[tactic(auto, unfolding(crate::specs::Ranges::between))]
pub fn is_between(low: i32, z: i32, high: i32) -> bool
    ensures tested { result ≡ between low z high }
{
    (low..=high).contains(&z)
}
