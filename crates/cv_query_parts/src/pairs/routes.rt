ghost use Rattle.std.specs.Prelude.{◌≡◌, ◌<◌, ◌^◌, All, IfOk, List, Some, length, map, take, ℕ};
ghost use Rattle.cv_pool.specs.KindTree.{KindTree};
ghost use Rattle.cv_pool.specs.Nodes.{ChildBelow};
ghost use Rattle.cv_syntax_trees.specs.Tree.{size};
ghost use Rattle.cv_syntax.specs.PoolTrees.{tree_at};
ghost use Rattle.cv_scope_rules.specs.Context.{items};
ghost use Rattle.cv_scene.specs.Late.{index_term};
ghost use Rattle.cv_scene.specs.Terms.{replications_at as replications_there};
ghost use Rattle.cv_scene_view.specs.Kept.{scene_of};
ghost use Rattle.cv_query_parts.specs.Said.{IsRouteBelow, way_seen};
ghost use Rattle.cv_query_parts.specs.pairs.Routes as routes;
ghost use Rattle.cv_query_parts.specs.pairs.Routes.{IsIndexBelow, index_tree, indices_by};

use crate::views::Route;
use cv_scene_view::replications_at;
use cv_syntax::children::first_of;
use cv_syntax::{NodeId, Pool, Work, read_node};
use std::alloc::{AllocError, Global};

/// An index of the execution at which a route ends: that of a replication above, or a term of a cell.
#[derive(Clone, Copy)]
pub enum Index {
    Own(u32),
    Term(Option<NodeId>),
}

/// The node of the right event at which a route ends.
fn node_of(route: Route) -> Option<u64>
    ensures { (trees : List KindTree) → result ≡ routes.node_of (way_seen trees route) }
{
    match route {
        Route::Above { place, .. } => Some(place),
        Route::Cell { place, .. } => Some(place),
        Route::Holds(_) => None,
        Route::Other => None,
    }
}

/// Whether two routes end at one node.
pub(crate) fn meet(one: Route, other: Route) -> bool
    ensures { (trees : List KindTree) → result
        ≡ routes.meet (way_seen trees one) (way_seen trees other) }
{
    let Some(m) = node_of(one) else {
        return false;
    };
    match node_of(other) {
        Some(n) => m == n,
        None => false,
    }
}

/// The indices of the replications above a place that a certificate names, with their parameters.
pub fn rows_at(
    alloc: Global,
    work: &Work,
    game: NodeId,
    place: u64,
) -> Result<Vec<(u32, u32)>, AllocError>
    requires live { game.0 < length work.now.pool.trees }
    requires fits { size (tree_at work.now.pool.trees (Some game)) < 2 ^ 32 }
    ensures { IfOk result (λ rows. rows.items
        ≡ replications_there (scene_of work.now.pool work.now.decls game) place) }
{
    if place > 4_294_967_295 {
        return Ok(Vec::new(alloc));
    }
    replications_at(alloc, work, game, place as u32)
}

/// The indices of replications.
fn own_indices(alloc: Global, rows: &[(u32, u32)]) -> Result<Vec<Index>, AllocError>
    ensures trees { IfOk result (λ found. (trees : List KindTree)
        → map (index_tree trees) found.items ≡ map index_term rows.now) }
    ensures live { IfOk result (λ found. (n : ℕ) → All (IsIndexBelow n) found.items) }
{
    let mut found = Vec::new(alloc);
    'rows: for k in 0..rows.len() {
        found.push(Index::Own(rows[k].0))?;
    }
    Ok(found)
}

/// The first terms of a list, at most so many.
#[tactic(auto, using(cv_syntax::proofs::Trees::opened))]
fn first_terms(
    alloc: Global,
    pool: &Pool,
    terms: Option<NodeId>,
    count: usize,
) -> Result<Vec<Index>, AllocError>
    requires { ChildBelow (length pool.now.trees) terms }
    ensures trees { IfOk result (λ found. map (index_tree pool.now.trees) found.items
        ≡ take count (items (tree_at pool.now.trees terms))) }
    ensures live { IfOk result (λ found. All (IsIndexBelow (length pool.now.trees)) found.items) }
{
    let mut found = Vec::new(alloc);
    let mut at = terms;
    'terms: for _k in 0..count {
        let Some(n) = at else {
            return Ok(found);
        };
        let node = read_node(pool, n);
        found.push(Index::Term(node.first))?;
        at = node.second;
    }
    Ok(found)
}

/// The indices of the execution at which a route ends.
pub(crate) fn indices_of(
    alloc: Global,
    work: &Work,
    game: NodeId,
    route: Route,
) -> Result<Vec<Index>, AllocError>
    requires live { game.0 < length work.now.pool.trees }
    requires fits { size (tree_at work.now.pool.trees (Some game)) < 2 ^ 32 }
    requires route { IsRouteBelow (length work.now.pool.trees) route }
    ensures trees { IfOk result (λ found. map (index_tree work.now.pool.trees) found.items
        ≡ indices_by (scene_of work.now.pool work.now.decls game)
        (way_seen work.now.pool.trees route)) }
    ensures live { IfOk result (λ found.
        All (IsIndexBelow (length work.now.pool.trees)) found.items) }
{
    match route {
        Route::Above { place, .. } => {
            let rows = rows_at(alloc, work, game, place)?;
            let found = own_indices(alloc, rows.as_slice())?;
            Ok(found)
        }
        Route::Cell { cell, place, .. } => {
            let rows = rows_at(alloc, work, game, place)?;
            first_terms(alloc, &work.pool, first_of(&work.pool, cell), rows.len())
        }
        Route::Holds(_) => Ok(Vec::new(alloc)),
        Route::Other => Ok(Vec::new(alloc)),
    }
}
