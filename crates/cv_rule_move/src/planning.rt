ghost use Rattle.std.specs.Prelude.{◌≡◌, ◌+◌, ◌<◌, ◌≤◌, ◌^◌, ℕ, IfErr, IfOk, IfSome, OnOk, None, Some, is_some, length};
ghost use Rattle.cv_pool.specs.Nodes.{ChildBelow};
ghost use Rattle.cv_syntax_trees.specs.Tree as tree;
ghost use Rattle.cv_syntax_trees.specs.Tree.{Node, Tree};
ghost use Rattle.cv_syntax.specs.PoolTrees.{tree_at};
ghost use Rattle.cv_scene.specs.Scenes.{part_at};
ghost use Rattle.cv_scene_view.specs.Kept.{scene_of};
ghost use Rattle.cv_edit_places.specs.Plans.{IsPlanned, failed, failure_of};
ghost use Rattle.cv_rule_move.specs.Moving.{defined, has_bodies};
ghost use Rattle.cv_rule_move.specs.Plans.{IsMovable};
ghost use Rattle.cv_rule_move.specs.Steps.{made_of_moved, move_step};

use crate::bodies::moved_parts;
use crate::naming::first_naming;
use cv_edit_places::{Change, Failure};
use cv_path::size_below;
use cv_scene_view::{has_place, part_at};
use cv_syntax::children::read_child;
use cv_syntax::{Head, NodeId, Opened, Pool, Work};
use std::alloc::{AllocError, Global};

/// A definition, and the construct behind it.
#[derive(Clone, Copy)]
pub(crate) struct Site {
    pub(crate) definition: Opened,
    pub(crate) construct: Opened,
}

/// A condition that fails.
fn refusal(condition: u32, place: u32) -> Failure
    ensures { result ≡ failed condition place }
{
    Failure { condition, place }
}

/// The variable of a `new` or a `let`.
fn variable_of(head: Head) -> Option<u32>
    ensures { (a b : Tree) → result ≡ defined (Node head a b) }
{
    match head {
        Head::New(x, _) => Some(x),
        Head::Let(x, _) => Some(x),
        _ => None,
    }
}

/// Whether a definition may move below a construct of this kind.
fn has_bodies(head: Head) -> bool
    ensures { (a b : Tree) → result ≡ has_bodies (Node head a b) }
{
    match head {
        Head::New(_, _) => true,
        Head::Let(_, _) => true,
        Head::Event(_) => true,
        Head::If => true,
        Head::Find(_) => true,
        _ => false,
    }
}

/// The definition at a place, and the construct behind it; or the first condition that fails.
fn movable(work: &Work, game: NodeId, place: u32) -> Result<Site, Failure>
    requires live { game.0 < length work.now.pool.trees }
    requires fits { tree.size (tree_at work.now.pool.trees (Some game)) < 2 ^ 32 }
    ensures movable { IfOk result (IsMovable work.now.pool.trees
        (scene_of work.now.pool work.now.decls game) place) }
    ensures refused { IfErr result (λ f. failure_of (scene_of work.now.pool work.now.decls game)
        (move_step place) ≡ Some f) }
{
    if !has_place(work, game, place) {
        return Err(refusal(0, 0));
    }
    let Some(definition) = read_child(&work.pool, part_at(&work.pool, game, place)) else {
        return Err(refusal(1, 0));
    };
    let Some(x) = variable_of(definition.head) else {
        return Err(refusal(1, 0));
    };
    let Some(construct) = read_child(&work.pool, definition.second) else {
        return Err(refusal(2, 0));
    };
    if !has_bodies(construct.head) {
        return Err(refusal(2, 0));
    }
    let behind = place + 1 + size_below(&work.pool, definition.first);
    match first_naming(&work.pool, x, behind, construct) {
        Some(naming) => Err(refusal(3, naming)),
        None => Ok(Site {
            definition,
            construct,
        }),
    }
}

/// How a step that moves the definition at a place changes the game there, or the first of its conditions that fails.
pub fn plan(
    alloc: Global,
    work: &Work,
    game: NodeId,
    place: u32,
) -> Result<Result<Change, Failure>, AllocError>
    requires live { game.0 < length work.now.pool.trees }
    requires small { tree.size (tree_at work.now.pool.trees (Some game)) ≤ 50000 }
    ensures { IfOk result (IsPlanned work.now.pool.trees
        (scene_of work.now.pool work.now.decls game) (move_step place) place (made_of_moved
        (part_at (tree_at work.now.pool.trees (Some game)) place))) }
{
    match movable(work, game, place) {
        Ok(site) => {
            let parts = moved_parts(alloc, &work.pool, site.definition, site.construct)?;
            Ok(Ok(Change::Built { parts }))
        }
        Err(failure) => Ok(Err(failure)),
    }
}
