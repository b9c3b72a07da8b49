ghost use Rattle.std.specs.Prelude.{◌≡◌, ◌||◌, ℕ, length, map, IfOk, OnOk};
ghost use Rattle.cv_pool.specs.Nodes.{ChildBelow};
ghost use Rattle.cv_syntax.specs.NameSets.{is_in};
ghost use Rattle.cv_syntax.specs.PoolTrees.{tree_at};
ghost use Rattle.cv_meaning.specs.contexts.Made as made;
ghost use Rattle.cv_group.specs.bodies.Levels.{around_of, is_cell_at, is_paired, level_of};
ghost use Rattle.cv_group_rules.specs.Rules as rule;

use crate::bodies::around::Around;
use crate::bodies::levels::{Level, index_in, range_of};
use crate::bodies::pairs::pair_name;
use cv_syntax::children::first_of;
use cv_syntax::{Head, NodeId, Pool, read_node};
use std::alloc::{AllocError, Global};
use std::collections::HashSet;

/// Whether a name of a function stands at these indices, with the bound of the index.
fn is_named_at(
    pool: &Pool,
    around: &Around,
    levels: &[Level],
    v: u32,
    indices: Option<NodeId>,
) -> bool
    requires { ChildBelow (length pool.now.trees) indices }
    ensures { result ≡ rule.is_named_at (around_of around.now) (map level_of levels.now) v
        (rule.index_in (tree_at pool.now.trees indices)) }
{
    let Some(u) = index_in(pool, indices) else {
        return false;
    };
    match range_of(levels, u) {
        Some(bound) => around.binds(bound, v),
        None => false,
    }
}

/// Whether a tree may be a cell of a list.
#[tactic(auto, using(cv_syntax::proofs::Trees::opened))]
fn is_cell(pool: &Pool, around: &Around, levels: &[Level], cell: Option<NodeId>) -> bool
    requires { ChildBelow (length pool.now.trees) cell }
    ensures { result ≡ rule.is_cell (around_of around.now) (map level_of levels.now)
        (tree_at pool.now.trees cell) }
{
    let Some(k) = cell else {
        return false;
    };
    let node = read_node(pool, k);
    match node.head {
        Head::Leaf(x) => around.binds(around.bound, x),
        Head::Read(v) => is_named_at(pool, around, levels, v, node.first),
        _ => false,
    }
}

/// Whether the trees of a list may be its cells.
pub fn are_cells(pool: &Pool, around: &Around, levels: &[Level], cells: Option<NodeId>) -> bool
    requires { ChildBelow (length pool.now.trees) cells }
    ensures { result ≡ rule.are_cells (around_of around.now) (map level_of levels.now)
        (tree_at pool.now.trees cells) }
{
    let mut at = cells;
    'cells: while let Some(k) = at {
        let node = read_node(pool, k);
        if !is_cell(pool, around, levels, node.first) {
            return false;
        }
        at = node.second;
    }
    true
}

/// Whether a cell is a read at an index.
#[tactic(auto, using(cv_syntax::proofs::Trees::opened))]
fn is_at(pool: &Pool, u: u32, cell: Option<NodeId>) -> bool
    requires { ChildBelow (length pool.now.trees) cell }
    ensures { result ≡ is_cell_at u (tree_at pool.now.trees cell) }
{
    let Some(k) = cell else {
        return false;
    };
    let node = read_node(pool, k);
    let Head::Read(_) = node.head else {
        return false;
    };
    let Some(m) = first_of(pool, node.first) else {
        return false;
    };
    match read_node(pool, m).head {
        Head::Leaf(x) => u == x,
        _ => false,
    }
}

/// Whether a list has a cell at an index.
pub fn has_cell_at(pool: &Pool, u: u32, cells: Option<NodeId>) -> bool
    requires { ChildBelow (length pool.now.trees) cells }
    ensures { result ≡ made.has_cell_at u (tree_at pool.now.trees cells) }
{
    let mut at = cells;
    'cells: while let Some(k) = at {
        let node = read_node(pool, k);
        if is_at(pool, u, node.first) {
            return true;
        }
        at = node.second;
    }
    false
}

/// Notes a cell.
#[tactic(auto, using(cv_syntax::proofs::Trees::opened))]
fn note_cell(
    pool: &Pool,
    reads: &mut HashSet<(u32, u32)>,
    names: &mut HashSet<u32>,
    cell: Option<NodeId>,
) -> Result<(), AllocError>
    requires { ChildBelow (length pool.now.trees) cell }
    ensures reads { OnOk result ((v u : ℕ) → is_paired reads.new v u
        ≡ (is_paired reads.old v u || rule.is_read v u (tree_at pool.now.trees cell))) }
    ensures names { OnOk result ((x : ℕ) → is_in names.new x
        ≡ (is_in names.old x || rule.is_name x (tree_at pool.now.trees cell))) }
{
    let Some(k) = cell else {
        return Ok(());
    };
    let node = read_node(pool, k);
    match node.head {
        Head::Leaf(x) => {
            names.insert(x)?;
        }
        Head::Read(v) => {
            if let Some(u) = index_in(pool, node.first) {
                pair_name(reads, v, u)?;
            }
        }
        _ => {}
    }
    Ok(())
}

/// The level of a branch with this index and these cells.
pub fn found(
    alloc: Global,
    pool: &Pool,
    index: u32,
    bound: u32,
    cells: Option<NodeId>,
) -> Result<Level, AllocError>
    requires { ChildBelow (length pool.now.trees) cells }
    ensures { IfOk result (λ l. level_of l
        ≡ rule.Found index bound (rule.has_read (tree_at pool.now.trees cells))
        (rule.has_name (tree_at pool.now.trees cells))) }
{
    let mut reads = HashSet::new(alloc);
    let mut names = HashSet::new(alloc);
    let mut at = cells;
    'cells: while let Some(k) = at {
        let node = read_node(pool, k);
        note_cell(pool, &mut reads, &mut names, node.first)?;
        at = node.second;
    }
    Ok(Level::Found {
        index,
        bound,
        reads,
        names,
    })
}
