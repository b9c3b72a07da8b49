ghost use Rattle.std.specs.Prelude.{◌≡◌, ◌<◌, ◌≤◌, All, IfErr, IfOk, Some, length};
ghost use Rattle.cv_pool.specs.Nodes.{ChildBelow};
ghost use Rattle.cv_syntax_trees.specs.Tree as tree;
ghost use Rattle.cv_syntax.specs.PoolTrees.{tree_at};
ghost use Rattle.cv_directory.specs.Live.{IsLive};
ghost use Rattle.cv_scene_view.specs.Kept.{scene_of};
ghost use Rattle.cv_edit_places.specs.Plans.{failed, failure_of};
ghost use Rattle.cv_rule_array_names.specs.Planned.{AreNames};
ghost use Rattle.cv_rule_array_names.specs.Row.{array_names_step};
ghost use Rattle.cv_rule_array_names.specs.Sites.{listed_names};

use crate::mixed::first_mixed;
use crate::names::{has_names, names_in};
use cv_edit_places::Failure;
use cv_scene_view::{is_known, is_queried};
use cv_syntax::{NodeId, Work};
use std::alloc::{AllocError, Global};

/// A condition that fails at a place.
fn refusal(condition: u32, place: u32) -> Failure
    ensures { result ≡ failed condition place }
{
    Failure { condition, place }
}

/// The names that the definitions of a variable get, where all conditions of the step hold; or the first one that fails.
pub fn plan(
    alloc: Global,
    work: &Work,
    game: NodeId,
    x: u32,
    to: Option<NodeId>,
) -> Result<Result<Vec<u32>, Failure>, AllocError>
    requires live { game.0 < length work.now.pool.trees }
    requires small { tree.size (tree_at work.now.pool.trees (Some game)) ≤ 50000 }
    requires declared { All (IsLive (length work.now.pool.trees)) work.now.decls.list }
    requires names { ChildBelow (length work.now.pool.trees) to }
    ensures names { IfOk result (λ planned. IfOk planned (λ found. AreNames
        (scene_of work.now.pool work.now.decls game) x
        (listed_names (tree_at work.now.pool.trees to)) found.items)) }
    ensures refused { IfOk result (λ planned. IfErr planned (λ f. failure_of
        (scene_of work.now.pool work.now.decls game)
        (array_names_step x (listed_names (tree_at work.now.pool.trees to))) ≡ Some f)) }
{
    if !is_known(work, game, x) {
        return Ok(Err(refusal(0, 0)));
    }
    let names = names_in(alloc, &work.pool, to)?;
    if !has_names(alloc, work, game, x, &names)? {
        return Ok(Err(refusal(1, 0)));
    }
    if is_queried(work, game, x) {
        return Ok(Err(refusal(2, 0)));
    }
    match first_mixed(&work.pool, game, x) {
        Some(place) => Ok(Err(refusal(3, place))),
        None => Ok(Ok(names)),
    }
}
