ghost use Rattle.std.specs.Prelude.{◌≡◌, ◌<◌, ◌≤◌, ◌^◌, All, IfOk, Some, length, map};
ghost use Rattle.cv_pool.specs.Nodes.{ChildBelow};
ghost use Rattle.cv_syntax_trees.specs.Tree as tree;
ghost use Rattle.cv_syntax.specs.Declarations.{declarations};
ghost use Rattle.cv_syntax.specs.PoolTrees.{tree_at};
ghost use Rattle.cv_directory.specs.Live.{IsLive};
ghost use Rattle.cv_syntax_trees.specs.sites.Sites.{sites_of};
ghost use Rattle.cv_typing.specs.Tables.{arrays_of};
ghost use Rattle.cv_scope_rules.specs.typing.Signature.{OfGame};
ghost use Rattle.cv_scope_rules.specs.Phrases.{IsWellFormed};
ghost use Rattle.cv_scene_view.specs.Kept.{scene_of};
ghost use Rattle.cv_edit_places.specs.Plans.{IsPriced, failed};
ghost use Rattle.cv_rule_fresh.specs.Looks.{IsChosen, IsFalsity, later_failure};
ghost use Rattle.cv_rule_fresh.specs.collisions.Fresh.{fresh_row, fresh_step, row_by_side};

use crate::choices::{Choice, choice_above};
use crate::reach::is_in_scope_at;
use crate::sides::{current_variable, equality_at};
use cv_costs::{cost_of_copies, is_large};
use cv_edit_places::{Change, Failure, Parts, Priced};
use cv_scene_view::{has_place, replications_at};
use cv_syntax::{Head, NodeId, Work};
use cv_typing::Arrays;
use std::alloc::{AllocError, Global};

/// A condition that fails.
fn failed(condition: u32, place: u32) -> Failure
    ensures { result ≡ failed condition place }
{
    Failure { condition, place }
}

/// The `new` of the variable that a side of an equality at a place reads, where the other side is known before it; or the first
/// condition that fails.
fn by_side(
    alloc: Global,
    work: &Work,
    game: NodeId,
    arrays: &Arrays,
    place: u32,
    side: Option<NodeId>,
    other: Option<NodeId>,
) -> Result<Result<Choice, Failure>, AllocError>
    requires live { game.0 < length work.now.pool.trees }
    requires fits { tree.size (tree_at work.now.pool.trees (Some game)) < 2 ^ 32 }
    requires declared { All (IsLive (length work.now.pool.trees)) work.now.decls.list }
    requires arrays { arrays_of arrays.now
        ≡ OfGame (sites_of (tree_at work.now.pool.trees (Some game))) }
    requires side { ChildBelow (length work.now.pool.trees) side }
    requires other { ChildBelow (length work.now.pool.trees) other }
    ensures { IfOk result (IsChosen (scene_of work.now.pool work.now.decls game) place
        (row_by_side (scene_of work.now.pool work.now.decls game) place
        (tree_at work.now.pool.trees side) (tree_at work.now.pool.trees other))) }
{
    let replications = replications_at(alloc, work, game, place)?;
    let Some(x) = current_variable(&work.pool, arrays, replications.as_slice(), side) else {
        return Ok(Err(failed(1, 0)));
    };
    let Some(choice) = choice_above(&work.pool, game, x, place) else {
        return Ok(Err(failed(2, 0)));
    };
    if !is_large(work, game, choice.of_type) {
        return Ok(Err(failed(2, 0)));
    }
    if !is_in_scope_at(alloc, work, game, choice.place, other)? {
        return Ok(Err(failed(3, place)));
    }
    Ok(Ok(choice))
}

/// Of two conditions that fail the later one, or the first.
fn later(first: Failure, second: Failure) -> Failure
    ensures { result ≡ later_failure first second }
{
    if first.condition < second.condition {
        return second;
    }
    first
}

/// The `new` of a variable that is compared at a place with what was known before; or the condition that fails.
fn choice_at(
    alloc: Global,
    work: &Work,
    game: NodeId,
    arrays: &Arrays,
    place: u32,
) -> Result<Result<Choice, Failure>, AllocError>
    requires live { game.0 < length work.now.pool.trees }
    requires fits { tree.size (tree_at work.now.pool.trees (Some game)) < 2 ^ 32 }
    requires declared { All (IsLive (length work.now.pool.trees)) work.now.decls.list }
    requires arrays { arrays_of arrays.now
        ≡ OfGame (sites_of (tree_at work.now.pool.trees (Some game))) }
    ensures { IfOk result (IsChosen (scene_of work.now.pool work.now.decls game) place
        (fresh_row (scene_of work.now.pool work.now.decls game) place)) }
{
    let Some(sides) = equality_at(&work.pool, game, place) else {
        return Ok(Err(failed(1, 0)));
    };
    let first = match by_side(alloc, work, game, arrays, place, sides.left, sides.right)? {
        Ok(choice) => return Ok(Ok(choice)),
        Err(failure) => failure,
    };
    match by_side(alloc, work, game, arrays, place, sides.right, sides.left)? {
        Ok(choice) => Ok(Ok(choice)),
        Err(second) => Ok(Err(later(first, second))),
    }
}

/// `false` as the tree that is built.
fn falsity(alloc: Global) -> Result<Parts, AllocError>
    ensures { IfOk result IsFalsity }
{
    let mut parts = Parts::new(alloc);
    parts.there(None)?;
    parts.there(None)?;
    parts.over(Head::No)?;
    Ok(parts)
}

/// The parameters of replications.
fn parameters_of(alloc: Global, replications: &[(u32, u32)]) -> Result<Vec<u32>, AllocError>
    ensures { IfOk result (λ made. made.items ≡ map (λ r. r.1) replications.now) }
{
    let mut made = Vec::new(alloc);
    'replications: for k in 0..replications.len() {
        made.push(replications[k].1)?;
    }
    Ok(made)
}

/// How a `fresh` changes a game, and what it costs; or the condition that fails.
pub fn plan(
    alloc: Global,
    work: &Work,
    game: NodeId,
    arrays: &Arrays,
    place: u32,
) -> Result<Result<Priced, Failure>, AllocError>
    requires live { game.0 < length work.now.pool.trees }
    requires small { tree.size (tree_at work.now.pool.trees (Some game)) ≤ 50000 }
    requires declared { All (IsLive (length work.now.pool.trees)) work.now.decls.list }
    requires arrays { arrays_of arrays.now
        ≡ OfGame (sites_of (tree_at work.now.pool.trees (Some game))) }
    requires formed { IsWellFormed (declarations work.now.pool.trees work.now.decls.list)
        (tree_at work.now.pool.trees (Some game)) }
    ensures { IfOk result (IsPriced work.now.pool.trees
        (scene_of work.now.pool work.now.decls game) (fresh_step place) place 1) }
{
    if !has_place(work, game, place) {
        return Ok(Err(failed(0, 0)));
    }
    let choice = match choice_at(alloc, work, game, arrays, place)? {
        Ok(choice) => choice,
        Err(failure) => return Ok(Err(failure)),
    };
    let replications = replications_at(alloc, work, game, choice.place)?;
    let parameters = parameters_of(alloc, replications.as_slice())?;
    let parts = falsity(alloc)?;
    Ok(Ok(Priced {
        change: Change::Built { parts },
        cost: cost_of_copies(alloc, &work.decls, parameters.as_slice(), choice.of_type)?,
    }))
}
