ghost use Rattle.std.specs.Prelude.{◌≡◌, ◌<◌, ◌^◌, All, IfOk, Some, length};
ghost use Rattle.cv_syntax_trees.specs.Tree.{size};
ghost use Rattle.cv_pool.specs.Nodes.{ChildBelow};
ghost use Rattle.cv_syntax.specs.PoolTrees.{tree_at};
ghost use Rattle.cv_directory.specs.Live.{IsLive};
ghost use Rattle.cv_scene_view.specs.Kept.{scene_of};
ghost use Rattle.cv_query_certificates.specs.Secrets as secrets;

use crate::copies::first_uncopied;
use crate::definitions::{Passing, first_definition_but};
use crate::reads::first_other_read;
use crate::sources::add_sources;
use cv_scene_view::part_at;
use cv_syntax::children::read_child;
use cv_syntax::{Head, NodeId, Pool, Work};
use std::alloc::{AllocError, Global};

/// The first of two places.
fn earlier(one: Option<u32>, other: Option<u32>) -> Option<u32>
    ensures { result ≡ secrets.earlier one other }
{
    let Some(p) = one else {
        return other;
    };
    match other {
        Some(q) => Some(if q < p { q } else { p }),
        None => Some(p),
    }
}

/// The place of the first definition of a variable.
pub fn first_definition(pool: &Pool, game: NodeId, x: u32) -> Option<u32>
    requires live { game.0 < length pool.now.trees }
    requires fits { size (tree_at pool.now.trees (Some game)) < 2 ^ 32 }
    ensures { result ≡ secrets.first_definition (tree_at pool.now.trees (Some game)) x }
{
    first_definition_but(pool, game, Passing::Nothing, x)
}

/// Whether a node is a `let`.
fn is_let(pool: &Pool, node: Option<NodeId>) -> bool
    requires { ChildBelow (length pool.now.trees) node }
    ensures { result ≡ secrets.is_let (tree_at pool.now.trees node) }
{
    match read_child(pool, node) {
        Some(opened) => matches!(opened.head, Head::Let(_, _)),
        None => false,
    }
}

/// Whether the first definition of a variable is a `let`.
pub fn starts_by_let(pool: &Pool, game: NodeId, x: u32) -> bool
    requires live { game.0 < length pool.now.trees }
    requires fits { size (tree_at pool.now.trees (Some game)) < 2 ^ 32 }
    ensures { result ≡ secrets.starts_by_let (tree_at pool.now.trees (Some game)) x }
{
    match first_definition(pool, game, x) {
        Some(place) => is_let(pool, part_at(pool, game, place)),
        None => false,
    }
}

/// The first place of a game that offends against the first form of a variable's secrecy: a definition that is no `new`, or
/// a read.
pub fn first_offence_of_choices(pool: &Pool, game: NodeId, x: u32) -> Option<u32>
    requires live { game.0 < length pool.now.trees }
    requires fits { size (tree_at pool.now.trees (Some game)) < 2 ^ 32 }
    ensures { result ≡ secrets.first_offence_of_choices (tree_at pool.now.trees (Some game)) x }
{
    let names = [x];
    let other = first_definition_but(pool, game, Passing::Choices, x);
    earlier(other, first_other_read(pool, game, x, &names))
}

/// The first place of a game that offends against the second form of a variable's secrecy: a definition that is no copy of a
/// chosen variable, or a read of the variable or of what it copies. It takes memory for the variables that are copied.
pub fn first_offence_of_copies(
    alloc: Global,
    work: &Work,
    game: NodeId,
    x: u32,
) -> Result<Option<u32>, AllocError>
    requires live { game.0 < length work.now.pool.trees }
    requires fits { size (tree_at work.now.pool.trees (Some game)) < 2 ^ 32 }
    requires declared { All (IsLive (length work.now.pool.trees)) work.now.decls.list }
    ensures { IfOk result (λ place. place ≡ secrets.first_offence_of_copies
        (scene_of work.now.pool work.now.decls game) x) }
{
    let mut names = Vec::new(alloc);
    names.push(x)?;
    add_sources(&work.pool, game, &mut names, x, Some(game))?;
    let read = first_other_read(&work.pool, game, x, names.as_slice());
    Ok(earlier(first_uncopied(work, game, x), read))
}
