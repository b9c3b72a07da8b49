ghost use Rattle.std.specs.Prelude.{◌≡◌, ◌+◌, ◌<◌, ◌^◌, ◌&&◌, All, IfErr, IfOk, None, OnOk, Some, length, not};
ghost use Rattle.cv_pool.specs.Nodes.{ChildBelow};
ghost use Rattle.cv_syntax_trees.specs.Tree.{size};
ghost use Rattle.cv_syntax.specs.PoolTrees.{tree_at};
ghost use Rattle.cv_directory.specs.Live.{IsLive};
ghost use Rattle.cv_scene_view.specs.Kept.{scene_of};
ghost use Rattle.cv_scope_rules.specs.Made.{made_by};
ghost use Rattle.cv_scope_rules.specs.Sites.{Variable};
ghost use Rattle.cv_query_certificates.specs.Secrets as secrets;

use crate::definitions::{Passing, first_definition_but};
use cv_derive_reasons::cells::variable;
use cv_path::is_definition;
use cv_scene_view::is_queried;
use cv_syntax::{Head, NodeId, Opened, Work, read_node};

/// Whether a variable is chosen of a type, and no query asks for it.
fn is_source(work: &Work, game: NodeId, t: u32, y: u32) -> bool
    requires live { game.0 < length work.now.pool.trees }
    requires fits { size (tree_at work.now.pool.trees (Some game)) < 2 ^ 32 }
    requires declared { All (IsLive (length work.now.pool.trees)) work.now.decls.list }
    ensures { result
        ≡ secrets.is_source (scene_of work.now.pool work.now.decls game) t (Some y) }
{
    let other = first_definition_but(&work.pool, game, Passing::ChoicesOf(t), y);
    if other.is_some() {
        return false;
    }
    let any = first_definition_but(&work.pool, game, Passing::Nothing, y);
    any.is_some() && !is_queried(work, game, y)
}

/// Whether a node is a `let` that copies such a variable.
fn is_copy(work: &Work, game: NodeId, node: Opened) -> bool
    requires live { game.0 < length work.now.pool.trees }
    requires fits { size (tree_at work.now.pool.trees (Some game)) < 2 ^ 32 }
    requires declared { All (IsLive (length work.now.pool.trees)) work.now.decls.list }
    requires first { ChildBelow (length work.now.pool.trees) node.first }
    ensures { result ≡ secrets.is_copy (scene_of work.now.pool work.now.decls game) node.head
        (tree_at work.now.pool.trees node.first) }
{
    let Head::Let(_, t) = node.head else {
        return false;
    };
    match variable(&work.pool, node.first) {
        Some(y) => is_source(work, game, t, y),
        None => false,
    }
}

/// Whether a node defines a variable and is no copy.
fn is_other(work: &Work, game: NodeId, x: u32, node: Opened) -> bool
    requires live { game.0 < length work.now.pool.trees }
    requires fits { size (tree_at work.now.pool.trees (Some game)) < 2 ^ 32 }
    requires declared { All (IsLive (length work.now.pool.trees)) work.now.decls.list }
    requires first { ChildBelow (length work.now.pool.trees) node.first }
    ensures { result
        ≡ (made_by node.head (tree_at work.now.pool.trees node.first) (Variable x)
        && not (secrets.is_copy (scene_of work.now.pool work.now.decls game) node.head
        (tree_at work.now.pool.trees node.first))) }
{
    is_definition(&work.pool, node, x) && !is_copy(work, game, node)
}

/// The place behind a tree that stands at a place, where each definition of a variable in it is a copy; or the place of the
/// first one that is none.
fn uncopied(work: &Work, game: NodeId, x: u32, from: u32, tree: Option<NodeId>) -> Result<u32, u32>
    requires game { game.0 < length work.now.pool.trees }
    requires small { size (tree_at work.now.pool.trees (Some game)) < 2 ^ 32 }
    requires declared { All (IsLive (length work.now.pool.trees)) work.now.decls.list }
    requires live { ChildBelow (length work.now.pool.trees) tree }
    requires fits { from + size (tree_at work.now.pool.trees tree) < 2 ^ 32 }
    ensures none { OnOk result (secrets.first_definition_but
        (secrets.is_copy (scene_of work.now.pool work.now.decls game)) x from
        (tree_at work.now.pool.trees tree) ≡ None) }
    ensures next { IfOk result (λ next. next ≡ from + size (tree_at work.now.pool.trees tree)) }
    ensures found { IfErr result (λ p. secrets.first_definition_but
        (secrets.is_copy (scene_of work.now.pool work.now.decls game)) x from
        (tree_at work.now.pool.trees tree) ≡ Some p) }
{
    let mut place = from;
    let mut at = tree;
    'tree: while let Some(k) = at {
        let node = read_node(&work.pool, k);
        if is_other(work, game, x, node) {
            return Err(place);
        }
        match uncopied(work, game, x, place + node.head.weight(), node.first) {
            Ok(next) => place = next,
            Err(found) => return Err(found),
        }
        at = node.second;
    }
    Ok(place)
}

/// The first place of a game where a definition of a variable is no copy.
pub(crate) fn first_uncopied(work: &Work, game: NodeId, x: u32) -> Option<u32>
    requires live { game.0 < length work.now.pool.trees }
    requires fits { size (tree_at work.now.pool.trees (Some game)) < 2 ^ 32 }
    requires declared { All (IsLive (length work.now.pool.trees)) work.now.decls.list }
    ensures { result ≡ secrets.first_definition_but
        (secrets.is_copy (scene_of work.now.pool work.now.decls game)) x 0
        (tree_at work.now.pool.trees (Some game)) }
{
    match uncopied(work, game, x, 0, Some(game)) {
        Ok(_) => None,
        Err(found) => Some(found),
    }
}
