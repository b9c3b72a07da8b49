ghost use Rattle.std.specs.Prelude.{◌≡◌, ◌≤◌, ◌<◌, ◌^◌, IfOk, IsSome, Some, length, unwrap_or};
ghost use Rattle.cv_syntax_trees.specs.Tree as tree;
ghost use Rattle.cv_syntax.specs.PoolTrees.{tree_at};
ghost use Rattle.cv_syntax.specs.limits.Limits.{told};
ghost use Rattle.cv_scene.specs.Pruning.{pruned};
ghost use Rattle.cv_scene.specs.Scenes.{part_at};
ghost use Rattle.cv_steps.specs.Changes.{change_at, without_body};
ghost use Rattle.cv_edit_changes.specs.pruning.Bodies.{part_of};
ghost use Rattle.cv_edit_changes.specs.unletting.Assigned.{IsRead};
ghost use Rattle.cv_edit_changes.specs.unletting.Games.{unlet};
ghost use Rattle.cv_rule.specs.edit.Edits.{CanBeMade, edited};

use crate::edit::Edit;
use cv_directory::Directory;
use cv_edit_changes::pruning::{Body, measure_without_body};
use cv_edit_changes::renaming::measure_renaming;
use cv_edit_changes::unletting::measure_unletting;
use cv_edit_names::measure_splitting;
use cv_edit_places::measure_without;
use cv_syntax::limits::Extent;
use cv_syntax::{NodeId, Pool};
use std::alloc::{AllocError, Global};

/// How large a game is without the `let` of a variable.
fn measure_unlet(pool: &Pool, game: NodeId, directory: &Directory, x: u32) -> Extent
    requires live { game.0 < length pool.now.trees }
    requires small { tree.size (tree_at pool.now.trees (Some game)) ≤ 50000 }
    requires read { IsRead pool.now.trees (tree_at pool.now.trees (Some game)) directory.now }
    requires there { IsSome (unlet x (tree_at pool.now.trees (Some game))) }
    ensures nodes { result.nodes ≡ tree.size (unwrap_or
        (unlet x (tree_at pool.now.trees (Some game))) (tree_at pool.now.trees (Some game))) }
    ensures depth { result.depth ≡ tree.depth (unwrap_or
        (unlet x (tree_at pool.now.trees (Some game))) (tree_at pool.now.trees (Some game))) }
{
    let Some(extent) = measure_unletting(pool, game, directory, x) else {
        unreachable!()
    };
    extent
}

/// How large a game is without a body of the construct at a place.
fn measure_pruned(pool: &Pool, game: NodeId, place: u32, body: Body) -> Extent
    requires live { game.0 < length pool.now.trees }
    requires small { tree.size (tree_at pool.now.trees (Some game)) ≤ 50000 }
    requires there { IsSome (pruned place (part_at (tree_at pool.now.trees (Some game)) place)
        (part_of body)) }
    ensures nodes { result.nodes ≡ tree.size (change_at
        (tree_at pool.now.trees (Some game)) place (without_body place (part_of body))) }
    ensures depth { result.depth ≡ tree.depth (change_at
        (tree_at pool.now.trees (Some game)) place (without_body place (part_of body))) }
{
    let Some(extent) = measure_without_body(pool, game, place, body) else {
        unreachable!()
    };
    extent
}

/// An extent as it is told: numbers of 32 bits are told as they are.
fn as_told(extent: Extent) -> Extent
    ensures nodes { result.nodes ≡ told extent.nodes }
    ensures depth { result.depth ≡ told extent.depth }
{
    extent
}

/// How large the game is that an edit makes. What is above the greatest number of 32 bits is told as that number.
pub fn measure(
    alloc: Global,
    pool: &Pool,
    game: NodeId,
    directory: &Directory,
    edit: &Edit,
) -> Result<Extent, AllocError>
    requires live { game.0 < length pool.now.trees }
    requires small { tree.size (tree_at pool.now.trees (Some game)) ≤ 50000 }
    requires read { IsRead pool.now.trees (tree_at pool.now.trees (Some game)) directory.now }
    requires can { CanBeMade pool.now.trees (tree_at pool.now.trees (Some game)) edit.now }
    ensures nodes { IfOk result (λ e. e.nodes ≡ told
        (tree.size (edited pool.now.trees (tree_at pool.now.trees (Some game)) edit.now))) }
    ensures depth { IfOk result (λ e. e.depth ≡ told
        (tree.depth (edited pool.now.trees (tree_at pool.now.trees (Some game)) edit.now))) }
{
    match edit {
        Edit::At { place, change } => Ok(as_told(cv_edit_places::measure(
            alloc, pool, game, *place, change,
        )?)),
        Edit::Without { name } => Ok(as_told(measure_without(pool, game, *name))),
        Edit::Renamed { .. } => Ok(as_told(measure_renaming(pool, game))),
        Edit::Unlet { name } => Ok(as_told(measure_unlet(pool, game, directory, *name))),
        Edit::Split { name, names } => measure_splitting(alloc, pool, game, *name, names),
        Edit::WithoutBody { place, body } => {
            Ok(as_told(measure_pruned(pool, game, *place, *body)))
        }
    }
}
