ghost use Rattle.std.specs.Prelude.{◌≡◌, ◌<◌, ◌^◌, Some, length};
ghost use Rattle.cv_syntax_trees.specs.Tree.{size};
ghost use Rattle.cv_syntax.specs.PoolTrees.{tree_at};
ghost use Rattle.cv_syntax_trees.specs.sites.Sites.{sites_of};
ghost use Rattle.cv_typing.specs.Tables.{arrays_of};
ghost use Rattle.cv_scope_rules.specs.typing.Signature.{OfGame};
ghost use Rattle.cv_scene_view.specs.Kept.{scene_of};
ghost use Rattle.cv_rule_birthday.specs.Chosen.{IsChosen};

use crate::comparisons::first_uncompared;
use crate::conditions::failed;
use cv_costs::{first_other_site, is_large, type_of};
use cv_edit_places::Failure;
use cv_syntax::{NodeId, Work};
use cv_typing::Arrays;

/// The type of a variable that is chosen at random and of which two cells are compared at some places; or the first condition that
/// fails.
pub(crate) fn chosen_type(
    work: &Work,
    game: NodeId,
    arrays: &Arrays,
    x: u32,
    places: &[u32],
) -> Result<u32, Failure>
    requires live { game.0 < length work.now.pool.trees }
    requires fits { size (tree_at work.now.pool.trees (Some game)) < 2 ^ 32 }
    requires arrays { arrays_of arrays.now
        ≡ OfGame (sites_of (tree_at work.now.pool.trees (Some game))) }
    ensures { IsChosen (scene_of work.now.pool work.now.decls game) x places.now result }
{
    if let Some(place) = first_uncompared(&work.pool, game, arrays, x, places) {
        return Err(failed(1, place));
    }
    let Some(sort) = arrays.variable_sort(x) else {
        return Err(failed(2, 0));
    };
    if let Some(place) = first_other_site(work, game, x) {
        return Err(failed(2, place));
    }
    let of_type = type_of(sort);
    if !is_large(work, game, of_type) {
        return Err(failed(2, 0));
    }
    Ok(of_type)
}
