ghost use Rattle.std.specs.Prelude.{◌≡◌, ◌+◌, ◌<◌, ◌≤◌, ◌^◌, IfErr, IfOk, IsSome, OnOk, Some, length, unwrap_or};
ghost use Rattle.cv_pool.specs.Nodes.{ChildBelow};
ghost use Rattle.cv_pool.specs.PoolView.{Grows};
ghost use Rattle.cv_syntax_trees.specs.Tree.{size};
ghost use Rattle.cv_syntax.specs.PoolTrees.{tree_at};
ghost use Rattle.cv_scene.specs.Pruning.{pruned};
ghost use Rattle.cv_scene.specs.Scenes.{part_at};
ghost use Rattle.cv_steps.specs.Changes.{change_at, only, without, without_body};
ghost use Rattle.cv_steps.specs.Renaming.{renamed};
ghost use Rattle.cv_edit_places.specs.Changes as changes;
ghost use Rattle.cv_edit_places.specs.Dropping.{need_without};
ghost use Rattle.cv_edit_changes.specs.pruning.Bodies as pruning;
ghost use Rattle.cv_edit_changes.specs.pruning.Bodies.{part_of};
ghost use Rattle.cv_edit_changes.specs.renaming.Needs.{need_renaming};
ghost use Rattle.cv_edit_changes.specs.unletting.Assigned.{IsRead};
ghost use Rattle.cv_edit_changes.specs.unletting.Games.{need_unletting, unlet};
ghost use Rattle.cv_edit_names.specs.Needs.{need_splitting};
ghost use Rattle.cv_edit_names.specs.Splitting.{split_game};
ghost use Rattle.cv_rule.specs.edit.Edits.{CanBeMade, CanChange, IsEditFault, edited, need_of};

use crate::edit::Edit;
use crate::edit::faults::{no_game, no_room};
use cv_directory::Directory;
use cv_edit_changes::pruning::{Body, make_without_body};
use cv_edit_changes::renaming::make_renaming;
use cv_edit_changes::unletting::make_unletting;
use cv_edit_names::make_splitting;
use cv_edit_places::{Change, drop_variable};
use cv_syntax::{BuildError, NodeId, Pool};
use std::alloc::Global;

/// Makes the game with what stands at a place changed.
fn make_at(
    alloc: Global,
    pool: &mut Pool,
    game: NodeId,
    place: u32,
    change: &Change,
) -> Result<Option<NodeId>, BuildError>
    requires live { game.0 < length pool.old.trees }
    requires fits { size (tree_at pool.old.trees (Some game)) < 2 ^ 32 }
    requires can { CanChange pool.old.trees (tree_at pool.old.trees (Some game)) place change.now }
    requires limit { pool.old.limit < 4294967295 }
    ensures tree { IfOk result (λ n. tree_at pool.new.trees n ≡ change_at
        (tree_at pool.old.trees (Some game)) place
        (changes.change_of pool.old.trees change.now)) }
    ensures live { IfOk result (λ n. ChildBelow (length pool.new.trees) n) }
    ensures grows { Grows pool.old pool.new }
    ensures few { OnOk result (length pool.new.trees ≤ length pool.old.trees
        + changes.need_of (tree_at pool.old.trees (Some game)) place change.now) }
    ensures room { OnOk result (length pool.old.trees
        + changes.need_of (tree_at pool.old.trees (Some game)) place change.now
        ≤ pool.old.limit) }
    ensures fault { IfErr result (IsEditFault pool.old.limit (length pool.old.trees)
        (changes.need_of (tree_at pool.old.trees (Some game)) place change.now)) }
{
    match cv_edit_places::make_game(alloc, pool, game, place, change) {
        Ok(next) => Ok(next),
        Err(fault) => Err(no_room(fault)),
    }
}

/// Makes the game without the definitions of a variable.
fn make_without(
    alloc: Global,
    pool: &mut Pool,
    game: NodeId,
    x: u32,
) -> Result<Option<NodeId>, BuildError>
    requires live { game.0 < length pool.old.trees }
    requires limit { pool.old.limit < 4294967295 }
    ensures tree { IfOk result (λ n. tree_at pool.new.trees n
        ≡ without (only x) (tree_at pool.old.trees (Some game))) }
    ensures live { IfOk result (λ n. ChildBelow (length pool.new.trees) n) }
    ensures grows { Grows pool.old pool.new }
    ensures few { OnOk result (length pool.new.trees ≤ length pool.old.trees
        + need_without x (tree_at pool.old.trees (Some game))) }
    ensures room { OnOk result (length pool.old.trees
        + need_without x (tree_at pool.old.trees (Some game)) ≤ pool.old.limit) }
    ensures fault { IfErr result (IsEditFault pool.old.limit (length pool.old.trees)
        (need_without x (tree_at pool.old.trees (Some game)))) }
{
    match drop_variable(alloc, pool, game, x) {
        Ok(next) => Ok(next),
        Err(fault) => Err(no_room(fault)),
    }
}

/// Makes the game with another name in the place of a variable's.
fn make_renamed(
    alloc: Global,
    pool: &mut Pool,
    game: NodeId,
    x: u32,
    y: u32,
) -> Result<Option<NodeId>, BuildError>
    requires live { game.0 < length pool.old.trees }
    requires limit { pool.old.limit < 4294967295 }
    ensures tree { IfOk result (λ n. tree_at pool.new.trees n
        ≡ renamed x y (tree_at pool.old.trees (Some game))) }
    ensures live { IfOk result (λ n. ChildBelow (length pool.new.trees) n) }
    ensures grows { Grows pool.old pool.new }
    ensures few { OnOk result (length pool.new.trees ≤ length pool.old.trees
        + need_renaming x (tree_at pool.old.trees (Some game))) }
    ensures room { OnOk result (length pool.old.trees
        + need_renaming x (tree_at pool.old.trees (Some game)) ≤ pool.old.limit) }
    ensures fault { IfErr result (IsEditFault pool.old.limit (length pool.old.trees)
        (need_renaming x (tree_at pool.old.trees (Some game)))) }
{
    match make_renaming(alloc, pool, game, x, y) {
        Ok(next) => Ok(Some(next)),
        Err(fault) => Err(no_room(fault)),
    }
}

/// Makes the game without the `let` of a variable.
fn make_unlet(
    alloc: Global,
    pool: &mut Pool,
    game: NodeId,
    directory: &Directory,
    x: u32,
) -> Result<Option<NodeId>, BuildError>
    requires live { game.0 < length pool.old.trees }
    requires fits { size (tree_at pool.old.trees (Some game)) < 2 ^ 32 }
    requires read { IsRead pool.old.trees (tree_at pool.old.trees (Some game)) directory.now }
    requires there { IsSome (unlet x (tree_at pool.old.trees (Some game))) }
    requires limit { pool.old.limit < 4294967295 }
    ensures tree { IfOk result (λ n. tree_at pool.new.trees n ≡ unwrap_or
        (unlet x (tree_at pool.old.trees (Some game))) (tree_at pool.old.trees (Some game))) }
    ensures live { IfOk result (λ n. ChildBelow (length pool.new.trees) n) }
    ensures grows { Grows pool.old pool.new }
    ensures few { OnOk result (length pool.new.trees ≤ length pool.old.trees
        + need_unletting x (tree_at pool.old.trees (Some game))) }
    ensures room { OnOk result (length pool.old.trees
        + need_unletting x (tree_at pool.old.trees (Some game)) ≤ pool.old.limit) }
    ensures fault { IfErr result (IsEditFault pool.old.limit (length pool.old.trees)
        (need_unletting x (tree_at pool.old.trees (Some game)))) }
{
    match make_unletting(alloc, pool, game, directory, x) {
        Ok(next) => Ok(next),
        Err(fault) => Err(no_game(fault)),
    }
}

/// Makes the game in which each definition of a variable has a name of its own.
fn make_split(
    alloc: Global,
    pool: &mut Pool,
    game: NodeId,
    x: u32,
    names: &[u32],
) -> Result<Option<NodeId>, BuildError>
    requires live { game.0 < length pool.old.trees }
    requires fits { size (tree_at pool.old.trees (Some game)) < 2 ^ 32 }
    requires limit { pool.old.limit < 4294967295 }
    ensures tree { IfOk result (λ n. tree_at pool.new.trees n
        ≡ split_game x names.now (tree_at pool.old.trees (Some game))) }
    ensures live { IfOk result (λ n. ChildBelow (length pool.new.trees) n) }
    ensures grows { Grows pool.old pool.new }
    ensures few { OnOk result (length pool.new.trees ≤ length pool.old.trees
        + need_splitting x names.now (tree_at pool.old.trees (Some game))) }
    ensures room { OnOk result (length pool.old.trees
        + need_splitting x names.now (tree_at pool.old.trees (Some game)) ≤ pool.old.limit) }
    ensures fault { IfErr result (IsEditFault pool.old.limit (length pool.old.trees)
        (need_splitting x names.now (tree_at pool.old.trees (Some game)))) }
{
    match make_splitting(alloc, pool, game, x, names) {
        Ok(next) => Ok(next),
        Err(fault) => Err(no_room(fault)),
    }
}

/// Makes the game without a body of the construct at a place.
fn make_pruned(
    alloc: Global,
    pool: &mut Pool,
    game: NodeId,
    place: u32,
    body: Body,
) -> Result<Option<NodeId>, BuildError>
    requires live { game.0 < length pool.old.trees }
    requires fits { size (tree_at pool.old.trees (Some game)) < 2 ^ 32 }
    requires there { IsSome (pruned place (part_at (tree_at pool.old.trees (Some game)) place)
        (part_of body)) }
    ensures tree { IfOk result (λ n. tree_at pool.new.trees n ≡ change_at
        (tree_at pool.old.trees (Some game)) place (without_body place (part_of body))) }
    ensures live { IfOk result (λ n. ChildBelow (length pool.new.trees) n) }
    ensures grows { Grows pool.old pool.new }
    ensures few { OnOk result (length pool.new.trees ≤ length pool.old.trees
        + pruning.need_of (tree_at pool.old.trees (Some game)) place (part_of body)) }
    ensures room { OnOk result (length pool.old.trees
        + pruning.need_of (tree_at pool.old.trees (Some game)) place (part_of body)
        ≤ pool.old.limit) }
    ensures fault { IfErr result (IsEditFault pool.old.limit (length pool.old.trees)
        (pruning.need_of (tree_at pool.old.trees (Some game)) place (part_of body))) }
{
    match make_without_body(alloc, pool, game, place, body) {
        Ok(next) => Ok(next),
        Err(fault) => Err(no_game(fault)),
    }
}

/// Makes the game that an edit makes. Only what it needs is new, and the pool is asked for room for that at once.
pub fn make_game(
    alloc: Global,
    pool: &mut Pool,
    game: NodeId,
    directory: &Directory,
    edit: &Edit,
) -> Result<Option<NodeId>, BuildError>
    requires live { game.0 < length pool.old.trees }
    requires small { size (tree_at pool.old.trees (Some game)) ≤ 50000 }
    requires read { IsRead pool.old.trees (tree_at pool.old.trees (Some game)) directory.now }
    requires can { CanBeMade pool.old.trees (tree_at pool.old.trees (Some game)) edit.now }
    requires limit { pool.old.limit < 4294967295 }
    ensures tree { IfOk result (λ n. tree_at pool.new.trees n
        ≡ edited pool.old.trees (tree_at pool.old.trees (Some game)) edit.now) }
    ensures live { IfOk result (λ n. ChildBelow (length pool.new.trees) n) }
    ensures grows { Grows pool.old pool.new }
    ensures few { OnOk result (length pool.new.trees ≤ length pool.old.trees
        + need_of (tree_at pool.old.trees (Some game)) edit.now) }
    ensures room { OnOk result (length pool.old.trees
        + need_of (tree_at pool.old.trees (Some game)) edit.now ≤ pool.old.limit) }
    ensures fault { IfErr result (IsEditFault pool.old.limit (length pool.old.trees)
        (need_of (tree_at pool.old.trees (Some game)) edit.now)) }
{
    match edit {
        Edit::At { place, change } => make_at(alloc, pool, game, *place, change),
        Edit::Without { name } => make_without(alloc, pool, game, *name),
        Edit::Renamed { name, to } => make_renamed(alloc, pool, game, *name, *to),
        Edit::Unlet { name } => make_unlet(alloc, pool, game, directory, *name),
        Edit::Split { name, names } => make_split(alloc, pool, game, *name, names),
        Edit::WithoutBody { place, body } => make_pruned(alloc, pool, game, *place, *body),
    }
}
