//! The law of the pattern POW2.
ghost use Rattle.std.specs.Prelude.{◌≡◌, ℕ, ◌<◌, ◌^◌};
ghost use Rattle.predicates.specs.Patterns.{floor_power, IsFloorPower};

/// What POW2 names of some elements is the greatest power of 2 that is not above their number.
pub fn floor_power_is_greatest()
    ensures { (count : ℕ) → 0 < count → count < 2 ^ 64 → IsFloorPower count (floor_power count) }
{}
