ghost use Rattle.std.specs.Prelude.{◌≡◌, ◌+◌, ◌<◌, ◌≤◌, ◌^◌, ◌&&◌, ◌||◌, ◌==◌, ℕ, IfErr, IfOk, IfSome, OnOk, None, Some, length, not, option_map};
ghost use Rattle.std.specs.List.{list_any};
ghost use Rattle.cv_pool.specs.Nodes.{ChildBelow};
ghost use Rattle.cv_syntax_trees.specs.Tree.{Node, same_tree, size};
ghost use Rattle.cv_syntax.specs.NameSets.{is_in};
ghost use Rattle.cv_syntax.specs.PoolTrees.{tree_at};
ghost use Rattle.cv_scope_rules.specs.Context.{cells_of};
ghost use Rattle.cv_costs.specs.names.Naming as naming;
ghost use Rattle.cv_costs.specs.names.Naming.{is_between};
ghost use Rattle.cv_rule_pick.specs.Looks.{first_elsewhere, found_by, is_passed, link_in, opened_at};
ghost use Rattle.cv_rule_pick.specs.Picking as picking;
ghost use Rattle.cv_scene.specs.Sights.{variable_of};

use crate::cells::is_own;
use cv_costs::names::names_one;
use cv_derive_reasons::cells::variable;
use cv_path::size_below;
use cv_syntax::{Head, NodeId, Opened, Pool, read_node};
use std::collections::HashSet;

/// A branch by its place, the place behind it, and its index variables with the replications above.
#[derive(Clone, Copy)]
pub(crate) struct Own<'a> {
    pub(crate) arm: u32,
    pub(crate) behind: u32,
    pub(crate) binders: Option<NodeId>,
    pub(crate) replications: &'a [(u32, u32)],
    pub(crate) names: &'a HashSet<u32>,
}

/// Whether a node at a place is the branch, or in it a cell of one of its index variables.
fn is_passed(pool: &Pool, own: Own, place: u32, k: NodeId) -> bool
    requires binders { ChildBelow (length pool.now.trees) own.binders }
    requires live { k.0 < length pool.now.trees }
    ensures { result ≡ is_passed pool.now.trees own.entry place (tree_at pool.now.trees (Some k)) }
{
    if place == own.arm {
        return true;
    }
    own.arm <= place && place < own.behind && is_own(pool, Some(k), own.binders, own.replications)
}

/// Whether a node names one of the index variables where it isn't passed over.
fn is_other(pool: &Pool, own: Own, place: u32, k: NodeId, node: Opened) -> bool
    requires binders { ChildBelow (length pool.now.trees) own.binders }
    requires live { k.0 < length pool.now.trees }
    requires first { ChildBelow (length pool.now.trees) node.first }
    ensures { result ≡ (naming.names_one (is_in own.entry.names.now) node.head
        (tree_at pool.now.trees node.first)
        && not (is_passed pool.now.trees own.entry place (tree_at pool.now.trees (Some k)))) }
{
    names_one(pool, own.names, node) && !is_passed(pool, own, place, k)
}

/// The place behind a tree that stands at a place, where it names none of the index variables but where it is passed over; or the
/// first place that does.
fn naming(pool: &Pool, own: Own, from: u32, tree: Option<NodeId>) -> Result<u32, u32>
    requires binders { ChildBelow (length pool.now.trees) own.binders }
    requires live { ChildBelow (length pool.now.trees) tree }
    requires fits { from + size (tree_at pool.now.trees tree) < 2 ^ 32 }
    ensures none { OnOk result (first_elsewhere (is_in own.entry.names.now)
        (is_passed pool.now.trees own.entry) from (tree_at pool.now.trees tree) ≡ None) }
    ensures next { IfOk result (λ next. next ≡ from + size (tree_at pool.now.trees tree)) }
    ensures found { IfErr result (λ p. first_elsewhere (is_in own.entry.names.now)
        (is_passed pool.now.trees own.entry) from (tree_at pool.now.trees tree) ≡ Some p) }
{
    let mut place = from;
    let mut at = tree;
    'tree: while let Some(k) = at {
        let node = read_node(pool, k);
        if is_other(pool, own, place, k, node) {
            return Err(place);
        }
        match naming(pool, own, place + node.head.weight(), node.first) {
            Ok(next) => place = next,
            Err(found) => return Err(found),
        }
        at = node.second;
    }
    Ok(place)
}

/// Whether a cell is one of these variables.
fn is_one(pool: &Pool, names: &HashSet<u32>, cell: Option<NodeId>) -> bool
    requires { ChildBelow (length pool.now.trees) cell }
    ensures { result ≡ picking.is_one (is_in names.now)
        (variable_of (tree_at pool.now.trees cell)) }
{
    match variable(pool, cell) {
        Some(x) => names.contains(&x),
        None => false,
    }
}

/// The place behind a list that stands at a place, where no cell of it is one of these variables; or the place of the first one.
fn cell_among(
    pool: &Pool,
    names: &HashSet<u32>,
    from: u32,
    list: Option<NodeId>,
) -> Result<u32, u32>
    requires live { ChildBelow (length pool.now.trees) list }
    requires fits { from + size (tree_at pool.now.trees list) < 2 ^ 32 }
    ensures none { OnOk result (picking.first_cell (is_in names.now) from
        (tree_at pool.now.trees list) ≡ None) }
    ensures next { IfOk result (λ next. next ≡ from + size (tree_at pool.now.trees list)) }
    ensures found { IfErr result (λ p. picking.first_cell (is_in names.now) from
        (tree_at pool.now.trees list) ≡ Some p) }
{
    let mut place = from;
    let mut at = list;
    'cells: while let Some(k) = at {
        let node = read_node(pool, k);
        let here = place + node.head.weight();
        if is_one(pool, names, node.first) {
            return Err(here);
        }
        place = here + size_below(pool, node.first);
        at = node.second;
    }
    Ok(place)
}

/// The link of a branch's list, if a node is a branch that has one.
fn link_of(pool: &Pool, node: Opened) -> Option<Opened>
    requires { ChildBelow (length pool.now.trees) node.second }
    ensures link { option_map (opened_at pool.now.trees) result
        ≡ link_in node.head (tree_at pool.now.trees node.second) }
    ensures first { IfSome result (λ o. (n : ℕ) → ChildBelow n node.second
        → ChildBelow n o.first) }
    ensures second { IfSome result (λ o. (n : ℕ) → ChildBelow n node.second
        → ChildBelow n o.second) }
{
    let Head::Branch = node.head else {
        return None;
    };
    let Some(k) = node.second else {
        return None;
    };
    Some(read_node(pool, k))
}

/// The place behind a tree that stands at a place, where no list in it has a cell of one of these variables; or the place of the
/// first one.
fn listing(pool: &Pool, names: &HashSet<u32>, from: u32, tree: Option<NodeId>) -> Result<u32, u32>
    requires live { ChildBelow (length pool.now.trees) tree }
    requires fits { from + size (tree_at pool.now.trees tree) < 2 ^ 32 }
    ensures none { OnOk result (picking.first_listed (is_in names.now) from
        (tree_at pool.now.trees tree) ≡ None) }
    ensures next { IfOk result (λ next. next ≡ from + size (tree_at pool.now.trees tree)) }
    ensures found { IfErr result (λ p. picking.first_listed (is_in names.now) from
        (tree_at pool.now.trees tree) ≡ Some p) }
{
    let mut place = from;
    let mut at = tree;
    'tree: while let Some(k) = at {
        let node = read_node(pool, k);
        let here = place + node.head.weight();
        if let Some(link) = link_of(pool, node) {
            let list = here + size_below(pool, node.first) + link.head.weight();
            match cell_among(pool, names, list, link.first) {
                Ok(next) => place = next,
                Err(found) => return Err(found),
            }
            at = link.second;
        } else {
            match listing(pool, names, here, node.first) {
                Ok(next) => place = next,
                Err(found) => return Err(found),
            }
            at = node.second;
        }
    }
    Ok(place)
}

/// The place that a walk found.
fn found(walk: Result<u32, u32>) -> Option<u32>
    ensures { result ≡ found_by walk }
{
    match walk {
        Ok(_) => None,
        Err(place) => Some(place),
    }
}

/// The lesser of two places.
fn lesser(first: Option<u32>, second: Option<u32>) -> Option<u32>
    ensures { result ≡ picking.lesser first second }
{
    let Some(p) = first else {
        return second;
    };
    match second {
        Some(q) => Some(p.min(q)),
        None => Some(p),
    }
}

/// The first place of a game where an index variable of the branch is named otherwise, or is a cell of a list.
pub(crate) fn first_other(pool: &Pool, own: Own, game: NodeId) -> Option<u32>
    requires binders { ChildBelow (length pool.now.trees) own.binders }
    requires live { game.0 < length pool.now.trees }
    requires fits { size (tree_at pool.now.trees (Some game)) < 2 ^ 32 }
    ensures { result ≡ picking.lesser
        (first_elsewhere (is_in own.entry.names.now) (is_passed pool.now.trees own.entry) 0
        (tree_at pool.now.trees (Some game)))
        (picking.first_listed (is_in own.entry.names.now) 0 (tree_at pool.now.trees (Some game))) }
{
    let named = naming(pool, own, 0, Some(game));
    let listed = listing(pool, own.names, 0, Some(game));
    lesser(found(named), found(listed))
}
