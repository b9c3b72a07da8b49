ghost use Rattle.std.specs.Prelude.{◌≡◌, ◌++◌, IfOk, map};
ghost use Rattle.cv_inline.specs.Draws.{each_role_once};
ghost use Rattle.cv_inline_sites.specs.listing.Listed.{draw_in};

use crate::listing::draws::Draw;
use std::alloc::{AllocError, Global};
use std::collections::HashSet;

/// Adds the first draw for each thing.
pub fn add_each_once(alloc: Global, draws: &mut Vec<Draw>, all: &[Draw]) -> Result<(), AllocError>
    ensures { IfOk result (λ _. map draw_in draws.new.items ≡ map draw_in draws.old.items
        ++ each_role_once (map draw_in all.now)) }
{
    let mut seen = HashSet::new(alloc);
    for draw in all {
        if seen.insert(draw.role)? {
            draws.push(*draw)?;
        }
    }
    Ok(())
}
