ghost use Rattle.std.specs.Prelude.{◌≡◌, ◌<◌, ◌^◌, ◌||◌, IfOk, OnOk, Some, length};
ghost use Rattle.std.specs.List.{list_any};
ghost use Rattle.cv_pool.specs.Nodes.{ChildBelow};
ghost use Rattle.cv_syntax_trees.specs.Tree.{same_tree, size};
ghost use Rattle.cv_syntax.specs.PoolTrees.{tree_at};
ghost use Rattle.cv_scope.specs.Held.{IsOpened, names_held};
ghost use Rattle.cv_scope_rules.specs.Context.{Context, items, known_at, replications_below, second_context};
ghost use Rattle.cv_scope_rules.specs.Rules as rules;
ghost use Rattle.cv_scope_rules.specs.Tests.{is_in_reach, reads_in_reach};
ghost use Rattle.cv_costs.specs.names.Reach.{is_in_scope};
ghost use Rattle.cv_rule_pick.specs.Reach.{Reaches, given_cells, own_given};

use crate::cells::{is_cell, is_own};
use cv_path::{Lies, place_in};
use cv_scope::NameKinds;
use cv_scope_rules::Position;
use cv_syntax::children::second_of;
use cv_syntax::{Head, NodeId, Opened, Pool, read_node, same};
use std::alloc::{AllocError, Global};

/// Whether a tree is an item of a list.
fn is_item(pool: &Pool, tree: Option<NodeId>, list: Option<NodeId>) -> bool
    requires tree { ChildBelow (length pool.now.trees) tree }
    requires list { ChildBelow (length pool.now.trees) list }
    ensures { result ≡ list_any (same_tree (tree_at pool.now.trees tree))
        (items (tree_at pool.now.trees list)) }
{
    let mut at = list;
    'items: while let Some(n) = at {
        let node = read_node(pool, n);
        if same(pool, tree, node.first) {
            return true;
        }
        at = node.second;
    }
    false
}

/// Whether a tree is a cell that is in reach, and one of the branch's own whose list or condition stands around.
#[derive(Clone, Copy)]
struct Reach {
    known: bool,
    own: bool,
}

/// Whether a node gives a cell to its second child.
fn gives(
    pool: &Pool,
    cell: NodeId,
    position: Position,
    node: Opened,
    replications: &[(u32, u32)],
    own: bool,
) -> bool
    requires cell { cell.0 < length pool.now.trees }
    requires first { ChildBelow (length pool.now.trees) node.first }
    ensures { (Γ : Context) → Γ.replications ≡ replications.now
        → list_any (same_tree (tree_at pool.now.trees (Some cell))) Γ.own ≡ own
        → result ≡ list_any (same_tree (tree_at pool.now.trees (Some cell)))
        (given_cells position node.head (tree_at pool.now.trees node.first) Γ) }
{
    let tree = Some(cell);
    match node.head {
        Head::Cons => match position {
            Position::Guards => is_item(pool, tree, node.first),
            Position::Guarded => own,
            Position::Cells => same(pool, tree, node.first),
            _ => false,
        },
        Head::In(_) => is_own(pool, tree, second_of(pool, node.first), replications),
        Head::New(x, _) => is_cell(pool, tree, x, replications),
        Head::Let(x, _) => is_cell(pool, tree, x, replications),
        Head::Key(x) => is_cell(pool, tree, x, replications),
        Head::Call(x, _) => is_cell(pool, tree, x, replications),
        _ => false,
    }
}

/// Whether a cell is one of the branch's own at the second child of a node.
fn own_behind(
    pool: &Pool,
    cell: NodeId,
    position: Position,
    node: Opened,
    replications: &[(u32, u32)],
    own: bool,
) -> bool
    requires cell { cell.0 < length pool.now.trees }
    requires first { ChildBelow (length pool.now.trees) node.first }
    ensures { (Γ : Context) → Γ.replications ≡ replications.now
        → list_any (same_tree (tree_at pool.now.trees (Some cell))) Γ.own ≡ own
        → result ≡ list_any (same_tree (tree_at pool.now.trees (Some cell)))
        (own_given position node.head (tree_at pool.now.trees node.first) Γ) }
{
    match node.head {
        Head::Cons => match position {
            Position::Guarded => false,
            _ => own,
        },
        Head::Branch => own || is_own(pool, Some(cell), node.first, replications),
        _ => own,
    }
}

/// Whether one of two holds.
fn either(first: bool, second: bool) -> bool
    ensures { result ≡ (first || second) }
{
    first || second
}

/// What is in reach behind a node.
fn reach_behind(
    pool: &Pool,
    cell: NodeId,
    position: Position,
    node: Opened,
    replications: &[(u32, u32)],
    reach: Reach,
) -> Reach
    requires cell { cell.0 < length pool.now.trees }
    requires first { ChildBelow (length pool.now.trees) node.first }
    ensures { (Γ : Context) → Γ.replications ≡ replications.now
        → Reaches (tree_at pool.now.trees (Some cell)) Γ reach
        → Reaches (tree_at pool.now.trees (Some cell))
        (second_context position node.head (tree_at pool.now.trees node.first) Γ) result }
{
    let given = gives(pool, cell, position, node, replications, reach.own);
    Reach {
        known: either(reach.known, given),
        own: own_behind(pool, cell, position, node, replications, reach.own),
    }
}

/// Notes the index of a replication with its parameter.
fn pass(passed: &mut Vec<(u32, u32)>, head: Head) -> Result<(), AllocError>
    ensures { OnOk result (passed.new.items ≡ replications_below head passed.old.items) }
{
    match head {
        Head::Repl(i, n) => {
            passed.push((i, n))?;
            Ok(())
        }
        _ => Ok(()),
    }
}

/// Whether a cell is in reach at a place of a game.
#[tactic(auto, using(cv_path::proofs::Going::going))]
fn is_reached(
    alloc: Global,
    pool: &Pool,
    game: NodeId,
    place: u32,
    cell: NodeId,
) -> Result<bool, AllocError>
    requires live { game.0 < length pool.now.trees }
    requires fits { size (tree_at pool.now.trees (Some game)) < 2 ^ 32 }
    requires cell { cell.0 < length pool.now.trees }
    ensures { IfOk result (λ there. (Γ : Context)
        → known_at (tree_at pool.now.trees (Some game)) place ≡ Some Γ
        → there ≡ is_in_reach Γ (tree_at pool.now.trees (Some cell))) }
{
    let mut passed = Vec::new(alloc);
    let mut reach = Reach {
        known: false,
        own: false,
    };
    let mut position = Position::Anywhere;
    let mut at = Some(game);
    let mut left = place;
    'down: while let Some(k) = at {
        let node = read_node(pool, k);
        match place_in(pool, node, left) {
            Lies::Here => return Ok(either(reach.known, reach.own)),
            Lies::Within(rest) => {
                at = node.first;
                left = rest;
                position = position.first(node.head);
            }
            Lies::Behind(rest) => {
                reach = reach_behind(pool, cell, position, node, passed.as_slice(), reach);
                pass(&mut passed, node.head)?;
                at = node.second;
                left = rest;
                position = position.second(node.head);
            }
        }
    }
    Ok(false)
}

/// Whether a name is the index of one of these replications.
fn is_index(replications: &[(u32, u32)], x: u32) -> bool
    ensures { result ≡ rules.is_index replications.now x }
{
    replications.iter().any(|r| r.0 == x)
}

/// Whether what a node reads is in scope at a place of a game with these replications above.
fn reads_reached(
    alloc: Global,
    pool: &Pool,
    game: NodeId,
    names: &NameKinds,
    replications: &[(u32, u32)],
    place: u32,
    k: NodeId,
    node: Opened,
) -> Result<bool, AllocError>
    requires live { game.0 < length pool.now.trees }
    requires fits { size (tree_at pool.now.trees (Some game)) < 2 ^ 32 }
    requires node { IsOpened pool.now.trees k node }
    ensures { IfOk result (λ there. (Γ : Context)
        → known_at (tree_at pool.now.trees (Some game)) place ≡ Some Γ
        → Γ.replications ≡ replications.now
        → there ≡ reads_in_reach (names_held names.now) Γ node.head
        (tree_at pool.now.trees node.first) (tree_at pool.now.trees node.second)) }
{
    match node.head {
        Head::Leaf(x) => {
            if is_index(replications, x) || names.is_constant(x) {
                return Ok(true);
            }
            is_reached(alloc, pool, game, place, k)
        }
        Head::Read(_) => is_reached(alloc, pool, game, place, k),
        _ => Ok(true),
    }
}

/// Whether a term is in scope at a place of a game with these replications above.
pub(crate) fn is_in_scope(
    alloc: Global,
    pool: &Pool,
    game: NodeId,
    names: &NameKinds,
    replications: &[(u32, u32)],
    place: u32,
    term: Option<NodeId>,
) -> Result<bool, AllocError>
    requires live { game.0 < length pool.now.trees }
    requires fits { size (tree_at pool.now.trees (Some game)) < 2 ^ 32 }
    requires term { ChildBelow (length pool.now.trees) term }
    ensures { IfOk result (λ there. (Γ : Context)
        → known_at (tree_at pool.now.trees (Some game)) place ≡ Some Γ
        → Γ.replications ≡ replications.now
        → there ≡ is_in_scope (names_held names.now) Γ (tree_at pool.now.trees term)) }
{
    let mut at = term;
    'term: while let Some(k) = at {
        let node = read_node(pool, k);
        if !reads_reached(alloc, pool, game, names, replications, place, k, node)? {
            return Ok(false);
        }
        if !is_in_scope(alloc, pool, game, names, replications, place, node.first)? {
            return Ok(false);
        }
        at = node.second;
    }
    Ok(true)
}
