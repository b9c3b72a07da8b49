ghost use Rattle.std.specs.Prelude.{◌≡◌, ◌<◌, ◌^◌, ◌&&◌, All, IfOk, Some, length};
ghost use Rattle.cv_pool.specs.Nodes.{ChildBelow};
ghost use Rattle.cv_syntax_trees.specs.Tree.{size};
ghost use Rattle.cv_syntax.specs.Declarations.{declarations};
ghost use Rattle.cv_syntax.specs.PoolTrees.{tree_at};
ghost use Rattle.cv_directory.specs.Live.{IsLive};
ghost use Rattle.cv_syntax_trees.specs.sites.Sites.{sites_of};
ghost use Rattle.cv_syntax_trees.specs.declared.sites.sort.Sort.TheVariants.{BelowParameter};
ghost use Rattle.cv_scope.specs.Held.{names_held};
ghost use Rattle.cv_scope_rules.specs.Scope.{names_of};
ghost use Rattle.cv_typing.specs.Tables.{arrays_of};
ghost use Rattle.cv_scope_rules.specs.typing.Signature.{OfGame};
ghost use Rattle.cv_scene.specs.Terms.{is_sort, replications_at};
ghost use Rattle.cv_scene_view.specs.Kept.{scene_of};
ghost use Rattle.cv_steps.specs.Rewriting.{sort_at};
ghost use Rattle.cv_costs.specs.names.Reach.{is_in_scope_at};
ghost use Rattle.cv_rule_pick.specs.Picking as picking;

use crate::scope::is_in_scope;
use crate::targets::Given;
use cv_scene_view::{indices_at, is_term_at};
use cv_scope::NameKinds;
use cv_syntax::children::is_empty;
use cv_syntax::{Head, NodeId, Work, read_node};
use cv_syntax_trees::sites::Sort;
use cv_typing::{Arrays, sort_of_term};
use std::alloc::{AllocError, Global};

/// Whether the items of a list are terms at a place of a game.
pub(crate) fn are_terms(
    alloc: Global,
    work: &Work,
    game: NodeId,
    arrays: &Arrays,
    place: u32,
    terms: Option<NodeId>,
) -> Result<bool, AllocError>
    requires live { game.0 < length work.now.pool.trees }
    requires fits { size (tree_at work.now.pool.trees (Some game)) < 2 ^ 32 }
    requires declared { All (IsLive (length work.now.pool.trees)) work.now.decls.list }
    requires arrays { arrays_of arrays.now
        ≡ OfGame (sites_of (tree_at work.now.pool.trees (Some game))) }
    requires terms { ChildBelow (length work.now.pool.trees) terms }
    requires short { size (tree_at work.now.pool.trees terms) < 2 ^ 32 }
    ensures { IfOk result (λ there. there
        ≡ picking.are_terms_at (scene_of work.now.pool work.now.decls game) place
        (tree_at work.now.pool.trees terms)) }
{
    let mut at = terms;
    'terms: while let Some(k) = at {
        let link = read_node(&work.pool, k);
        let Some(term) = link.first else {
            return Ok(false);
        };
        if !is_term_at(alloc, work, game, arrays, place, term)? {
            return Ok(false);
        }
        at = link.second;
    }
    Ok(true)
}

/// Whether a sort is that of the indices below a parameter.
fn is_below(sort: Option<Sort>, parameter: u32) -> bool
    ensures { result ≡ is_sort sort (BelowParameter parameter) }
{
    match sort {
        Some(Sort::BelowParameter(n)) => n == parameter,
        _ => false,
    }
}

/// Whether a term may stand for an index variable below a parameter: it is of that sort, and in scope at a place of a game.
fn may_stand(
    alloc: Global,
    work: &Work,
    game: NodeId,
    names: &NameKinds,
    arrays: &Arrays,
    place: u32,
    replications: &[(u32, u32)],
    parameter: u32,
    term: Option<NodeId>,
) -> Result<bool, AllocError>
    requires live { game.0 < length work.now.pool.trees }
    requires fits { size (tree_at work.now.pool.trees (Some game)) < 2 ^ 32 }
    requires declared { All (IsLive (length work.now.pool.trees)) work.now.decls.list }
    requires arrays { arrays_of arrays.now
        ≡ OfGame (sites_of (tree_at work.now.pool.trees (Some game))) }
    requires names { names_held names.now
        ≡ names_of (declarations work.now.pool.trees work.now.decls.list)
        (tree_at work.now.pool.trees (Some game)) }
    requires there { place < size (tree_at work.now.pool.trees (Some game)) }
    requires replications { replications.now
        ≡ replications_at (scene_of work.now.pool work.now.decls game) place }
    requires term { ChildBelow (length work.now.pool.trees) term }
    ensures { IfOk result (λ may. may
        ≡ (is_sort (sort_at (scene_of work.now.pool work.now.decls game) place
        (tree_at work.now.pool.trees term)) (BelowParameter parameter)
        && is_in_scope_at (scene_of work.now.pool work.now.decls game) place
        (tree_at work.now.pool.trees term))) }
{
    let above = indices_at(alloc, work, game, place)?;
    let sort = sort_of_term(&work.pool, &work.decls, arrays, &above, term);
    if !is_below(sort, parameter) {
        return Ok(false);
    }
    let there = is_in_scope(alloc, &work.pool, game, names, replications, place, term)?;
    Ok(there)
}

/// Whether the items of a list may stand for the index variables that binders bind.
pub(crate) fn are_indices(
    alloc: Global,
    work: &Work,
    game: NodeId,
    names: &NameKinds,
    arrays: &Arrays,
    place: u32,
    given: Given,
) -> Result<bool, AllocError>
    requires live { game.0 < length work.now.pool.trees }
    requires fits { size (tree_at work.now.pool.trees (Some game)) < 2 ^ 32 }
    requires declared { All (IsLive (length work.now.pool.trees)) work.now.decls.list }
    requires arrays { arrays_of arrays.now
        ≡ OfGame (sites_of (tree_at work.now.pool.trees (Some game))) }
    requires names { names_held names.now
        ≡ names_of (declarations work.now.pool.trees work.now.decls.list)
        (tree_at work.now.pool.trees (Some game)) }
    requires there { place < size (tree_at work.now.pool.trees (Some game)) }
    requires replications { given.replications.now
        ≡ replications_at (scene_of work.now.pool work.now.decls game) place }
    requires binders { ChildBelow (length work.now.pool.trees) given.binders }
    requires terms { ChildBelow (length work.now.pool.trees) given.terms }
    ensures { IfOk result (λ may. may
        ≡ picking.are_indices_at (scene_of work.now.pool work.now.decls game) place
        (tree_at work.now.pool.trees given.entry.binders)
        (tree_at work.now.pool.trees given.entry.terms)) }
{
    let mut at = given.binders;
    let mut left = given.terms;
    'binders: while let Some(n) = at {
        let binder = read_node(&work.pool, n);
        let Head::Binder(_, parameter) = binder.head else {
            return Ok(false);
        };
        let Some(k) = left else {
            return Ok(false);
        };
        let link = read_node(&work.pool, k);
        let may = may_stand(
            alloc,
            work,
            game,
            names,
            arrays,
            place,
            given.replications,
            parameter,
            link.first,
        )?;
        if !may {
            return Ok(false);
        }
        at = binder.second;
        left = link.second;
    }
    Ok(is_empty(&work.pool, left))
}
