ghost use Rattle.std.specs.Prelude.{◌≡◌, ℕ, ◌+◌, ◌++◌, ◌<◌, ◌^◌, IfOk, Some, length};
ghost use Rattle.cv_pool.specs.Nodes.{ChildBelow};
ghost use Rattle.cv_syntax_trees.specs.Head as head;
ghost use Rattle.cv_syntax_trees.specs.Tree.{Node, size};
ghost use Rattle.cv_syntax.specs.PoolTrees.{tree_at};
ghost use Rattle.cv_query_certificates.specs.EventNodes as certificates;
ghost use Rattle.cv_derive_reasons.specs.sizes.Sizes.{AreSizes};
ghost use Rattle.cv_query_parts.specs.Views.{IsReady, game_of, trees_of};
ghost use Rattle.cv_query_entries.specs.Nodes.{places_here};

use cv_derive_reasons::sizes::{Sizes, place_in};
use cv_path::Lies;
use cv_query_parts::{View, node_at};
use cv_syntax::children::is_empty;
use cv_syntax::{Head, NodeId, Opened, Pool, read_node};
use std::alloc::{AllocError, Global};

/// Notes the place of a node, where it is of an event.
fn add_place(found: &mut Vec<u32>, event: u32, place: u32, head: Head) -> Result<(), AllocError>
    ensures { IfOk result (λ u. found.new.items
        ≡ found.old.items ++ places_here event place head) }
{
    match head {
        Head::Event(e) => {
            if e == event {
                found.push(place)?;
            }
            Ok(())
        }
        _ => Ok(()),
    }
}

/// Adds the places of an event's nodes in a tree that stands at a place, and gives the place behind the tree.
#[tactic(auto, using(crate::proofs::Places::places))]
fn add_places(
    pool: &Pool,
    found: &mut Vec<u32>,
    event: u32,
    from: u32,
    tree: Option<NodeId>,
) -> Result<u32, AllocError>
    requires live { ChildBelow (length pool.now.trees) tree }
    requires fits { from + size (tree_at pool.now.trees tree) < 2 ^ 32 }
    ensures places { IfOk result (λ next. found.new.items ≡ found.old.items
        ++ certificates.event_places event from (tree_at pool.now.trees tree)) }
    ensures next { IfOk result (λ next. next ≡ from + size (tree_at pool.now.trees tree)) }
{
    let mut place = from;
    let mut below = tree;
    'tree: while let Some(k) = below {
        let node = read_node(pool, k);
        add_place(found, event, place, node.head)?;
        place = add_places(pool, found, event, place + node.head.weight(), node.first)?;
        below = node.second;
    }
    Ok(place)
}

/// The places of an event's nodes in a game, in preorder.
pub fn event_places(
    alloc: Global,
    pool: &Pool,
    game: NodeId,
    event: u32,
) -> Result<Vec<u32>, AllocError>
    requires live { game.0 < length pool.now.trees }
    requires fits { size (tree_at pool.now.trees (Some game)) < 2 ^ 32 }
    ensures { IfOk result (λ places. places.items
        ≡ certificates.event_places event 0 (tree_at pool.now.trees (Some game))) }
{
    let mut found = Vec::new(alloc);
    add_places(pool, &mut found, event, 0, Some(game))?;
    Ok(found)
}

/// Whether two lists of terms are equally long.
#[tactic(auto, using(crate::proofs::Places::places))]
pub(crate) fn are_as_many(pool: &Pool, left: Option<NodeId>, right: Option<NodeId>) -> bool
    requires left { ChildBelow (length pool.now.trees) left }
    requires right { ChildBelow (length pool.now.trees) right }
    ensures { result ≡ certificates.are_as_many (tree_at pool.now.trees left)
        (tree_at pool.now.trees right) }
{
    let mut here = left;
    let mut there = right;
    'terms: while let Some(m) = here {
        let one = read_node(pool, m);
        let Some(n) = there else {
            return false;
        };
        let other = read_node(pool, n);
        here = one.second;
        there = other.second;
    }
    is_empty(pool, there)
}

/// Whether a place lies behind an event's node with so many arguments, where it is so far from the node's place.
#[tactic(auto, using(crate::proofs::Places::places))]
fn is_behind(
    pool: &Pool,
    sizes: &Sizes,
    node: Opened,
    event: u32,
    terms: Option<NodeId>,
    distance: u32,
) -> bool
    requires sizes { AreSizes pool.now.trees sizes.now }
    requires first { ChildBelow (length pool.now.trees) node.first }
    requires second { ChildBelow (length pool.now.trees) node.second }
    requires terms { ChildBelow (length pool.now.trees) terms }
    requires fits { head.weight node.head + size (tree_at pool.now.trees node.first)
        + size (tree_at pool.now.trees node.second) < 2 ^ 32 }
    ensures { (q : ℕ) → result ≡ certificates.is_behind event (tree_at pool.now.trees terms) q
        (Node node.head (tree_at pool.now.trees node.first) (tree_at pool.now.trees node.second))
        (q + distance) }
{
    let Head::Event(e) = node.head else {
        return false;
    };
    if e != event {
        return false;
    }
    if !are_as_many(pool, node.first, terms) {
        return false;
    }
    match place_in(pool, sizes, node, distance) {
        Lies::Behind(rest) => rest < sizes.size(pool, node.second),
        Lies::Here => false,
        Lies::Within(_) => false,
    }
}

/// Whether an event's node with so many arguments stands at a place of a game, above another place.
#[tactic(auto, using(crate::proofs::Places::places))]
pub fn is_event_above(view: &View, event: u32, terms: Option<NodeId>, q: u64, place: u32) -> bool
    requires ready { IsReady view.now }
    requires terms { ChildBelow (length (trees_of view.now)) terms }
    ensures { result ≡ certificates.is_event_above (game_of view.now) event
        (tree_at (trees_of view.now) terms) q place }
{
    if q > place as u64 {
        return false;
    }
    let above = q as u32;
    let Some(n) = node_at(view, above) else {
        return false;
    };
    let pool = &view.work.pool;
    let node = read_node(pool, n);
    is_behind(pool, view.sizes, node, event, terms, place - above)
}
