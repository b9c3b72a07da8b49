ghost use Rattle.std.specs.Prelude.{◌≡◌, ◌<◌, ◌^◌, ◌&&◌, IfOk, Some, length};
ghost use Rattle.cv_pool.specs.Nodes.{ChildBelow};
ghost use Rattle.cv_syntax_trees.specs.sites.Sites.{sites_of};
ghost use Rattle.cv_syntax_trees.specs.Tree.{size};
ghost use Rattle.cv_syntax.specs.PoolTrees.{tree_at};
ghost use Rattle.cv_scope_rules.specs.typing.Signature as signature;
ghost use Rattle.cv_scope_rules.specs.typing.Signature.{OfGame};
ghost use Rattle.cv_typing.specs.Tables.{arrays_of};
ghost use Rattle.cv_scope_rules.specs.Phrases as grammar;
ghost use Rattle.cv_scene.specs.Terms as terms;
ghost use Rattle.cv_steps.specs.Rewriting as rewriting;
ghost use Rattle.cv_scene_view.specs.Kept.{scene_of};

use cv_edit_places::has_term_at;
use cv_scene_view::indices_at;
use cv_syntax::{NodeId, Pool, Work};
use cv_syntax_trees::sites::Sort;
use cv_typing::{Arrays, sort_of_term};
use std::alloc::{AllocError, Global};

/// The sort of a term at a place of a game.
pub(crate) fn sort_at(
    alloc: Global,
    work: &Work,
    game: NodeId,
    arrays: &Arrays,
    place: u32,
    term: Option<NodeId>,
) -> Result<Option<Sort>, AllocError>
    requires live { game.0 < length work.now.pool.trees }
    requires fits { size (tree_at work.now.pool.trees (Some game)) < 2 ^ 32 }
    requires arrays { arrays_of arrays.now
        ≡ OfGame (sites_of (tree_at work.now.pool.trees (Some game))) }
    requires term { ChildBelow (length work.now.pool.trees) term }
    ensures { IfOk result (λ sort. sort
        ≡ rewriting.sort_at (scene_of work.now.pool work.now.decls game) place
        (tree_at work.now.pool.trees term)) }
{
    let above = indices_at(alloc, work, game, place)?;
    Ok(sort_of_term(&work.pool, &work.decls, arrays, &above, term))
}

/// Whether a sort is that of the values of a type.
fn is_value(sort: Option<Sort>) -> bool
    ensures { result ≡ rewriting.is_value sort }
{
    match sort {
        Some(Sort::OfType(_)) => true,
        _ => false,
    }
}

/// Whether at a place of a game stands a term of this sort that may be rewritten.
pub(crate) fn is_rewritable(pool: &Pool, game: NodeId, place: u32, sort: Option<Sort>) -> bool
    requires live { game.0 < length pool.now.trees }
    requires fits { size (tree_at pool.now.trees (Some game)) < 2 ^ 32 }
    ensures { result ≡ (rewriting.has_term_at grammar.Inputs
        (tree_at pool.now.trees (Some game)) place && rewriting.is_value sort) }
{
    has_term_at(pool, game, place) && is_value(sort)
}

/// Whether a term is of a sort.
fn is_sort(sort: Option<Sort>, wanted: Sort) -> bool
    ensures { result ≡ terms.is_sort sort wanted }
{
    match sort {
        Some(Sort::OfType(t)) => match wanted {
            Sort::OfType(u) => t == u,
            Sort::BelowParameter(_) => false,
        },
        Some(Sort::BelowParameter(n)) => match wanted {
            Sort::OfType(_) => false,
            Sort::BelowParameter(m) => n == m,
        },
        None => false,
    }
}

/// Whether a term of the second sort may take the place of one of the first.
pub(crate) fn has_sort_of(old: Option<Sort>, new: Option<Sort>) -> bool
    ensures { result ≡ rewriting.has_sort_of old new }
{
    match old {
        Some(sort) => is_sort(new, sort),
        None => false,
    }
}
