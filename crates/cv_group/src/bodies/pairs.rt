ghost use Rattle.std.specs.Prelude.{◌≡◌, ◌==◌, ◌&&◌, ◌||◌, ℕ, OnOk};
ghost use Rattle.cv_group.specs.bodies.Levels.{is_paired};

use std::alloc::AllocError;
use std::collections::HashSet;

/// Pairs a name with a bound.
pub fn pair_name(names: &mut HashSet<(u32, u32)>, bound: u32, x: u32) -> Result<(), AllocError>
    ensures { OnOk result ((n y : ℕ) → is_paired names.new n y
        ≡ (is_paired names.old n y || ((bound == n) && (x == y)))) }
{
    names.insert((bound, x))?;
    Ok(())
}
