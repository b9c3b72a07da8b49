ghost use Rattle.std.specs.Prelude.{◌≡◌, ◌∷◌, ◌++◌, All, IfOk, filter, length, map, not};
ghost use Rattle.cv_pool.specs.Nodes.{ChildBelow};
ghost use Rattle.cv_syntax_trees.specs.Tree.{same_tree};
ghost use Rattle.cv_syntax.specs.PoolTrees.{tree_at};
ghost use Rattle.cv_meaning.specs.contexts.Inlined as bodies;
ghost use Rattle.cv_meaning.specs.contexts.Inlined.{is_index_of};
ghost use Rattle.cv_inline_sites.specs.branches.Cells.{IsLiveCell, cell_tree};

use cv_syntax::{Head, NodeId, Pool, read_node, same};
use std::alloc::{AllocError, Global};

/// A cell that a term reads: a name, or a name at a list of terms.
#[derive(Clone, Copy, Drop)]
pub(crate) enum Cell {
    Bare(u32),
    At(u32, Option<NodeId>),
}

/// Whether a name is the index of one of these replications.
fn is_index(replications: &[(u32, u32)], x: u32) -> bool
    ensures { result ≡ is_index_of replications.now x }
{
    replications.iter().any(|r| r.0 == x)
}

/// Adds the cells that a term reads, inner ones first.
#[tactic(auto, using(cv_syntax::proofs::Trees::empty_at), unfolding(cv_meaning::specs::contexts::Inlined::needed))]
fn add_needed(
    pool: &Pool,
    replications: &[(u32, u32)],
    cells: &mut Vec<Cell>,
    term: Option<NodeId>,
) -> Result<(), AllocError>
    requires term { ChildBelow (length pool.now.trees) term }
    requires cells { All (IsLiveCell (length pool.now.trees)) cells.old.items }
    ensures cells { IfOk result (λ _. map (cell_tree pool.now.trees) cells.new.items
        ≡ map (cell_tree pool.now.trees) cells.old.items
        ++ bodies.needed (is_index_of replications.now) (tree_at pool.now.trees term)) }
    ensures live { IfOk result (λ _. All (IsLiveCell (length pool.now.trees)) cells.new.items) }
{
    let Some(n) = term else {
        return Ok(());
    };
    let node = read_node(pool, n);
    match node.head {
        Head::Leaf(x) => {
            if is_index(replications, x) {
                return Ok(());
            }
            cells.push(Cell::Bare(x))?;
            Ok(())
        }
        Head::Read(x) => {
            add_needed(pool, replications, cells, node.first)?;
            cells.push(Cell::At(x, node.first))?;
            Ok(())
        }
        _ => {
            add_needed(pool, replications, cells, node.first)?;
            add_needed(pool, replications, cells, node.second)
        }
    }
}

/// Whether two cells are one.
#[tactic(auto, unfolding(cv_syntax_trees::specs::Tree::same_tree))]
fn are_same(pool: &Pool, a: Cell, b: Cell) -> bool
    requires a { IsLiveCell (length pool.now.trees) a }
    requires b { IsLiveCell (length pool.now.trees) b }
    ensures { result ≡ same_tree (cell_tree pool.now.trees a) (cell_tree pool.now.trees b) }
{
    match a {
        Cell::Bare(x) => match b {
            Cell::Bare(y) => x == y,
            Cell::At(_, _) => false,
        },
        Cell::At(x, xs) => match b {
            Cell::Bare(_) => false,
            Cell::At(y, ys) => x == y && same(pool, xs, ys),
        },
    }
}

/// A cell, and those of a list that are others.
fn before_others(
    alloc: Global,
    pool: &Pool,
    first: Cell,
    rest: &[Cell],
) -> Result<Vec<Cell>, AllocError>
    requires first { IsLiveCell (length pool.now.trees) first }
    requires rest { All (IsLiveCell (length pool.now.trees)) rest.now }
    ensures cells { IfOk result (λ cells. map (cell_tree pool.now.trees) cells.items
        ≡ cell_tree pool.now.trees first
        ∷ filter (λ r. not (same_tree r (cell_tree pool.now.trees first)))
        (map (cell_tree pool.now.trees) rest.now)) }
    ensures live { IfOk result (λ cells. All (IsLiveCell (length pool.now.trees)) cells.items) }
{
    let mut kept = Vec::new(alloc);
    kept.push(first)?;
    for cell in rest {
        if !are_same(pool, *cell, first) {
            kept.push(*cell)?;
        }
    }
    Ok(kept)
}

/// The first of each cell.
fn each_once(alloc: Global, pool: &Pool, cells: &[Cell]) -> Result<Vec<Cell>, AllocError>
    requires { All (IsLiveCell (length pool.now.trees)) cells.now }
    ensures cells { IfOk result (λ kept. map (cell_tree pool.now.trees) kept.items
        ≡ bodies.each_once (map (cell_tree pool.now.trees) cells.now)) }
    ensures live { IfOk result (λ kept. All (IsLiveCell (length pool.now.trees)) kept.items) }
{
    let Some((first, rest)) = cells.split_first() else {
        return Ok(Vec::new(alloc));
    };
    let others = each_once(alloc, pool, rest)?;
    before_others(alloc, pool, *first, others.as_slice())
}

/// The cells that a term reads, each once, where these are the replications above it.
pub(crate) fn needed(
    alloc: Global,
    pool: &Pool,
    replications: &[(u32, u32)],
    term: Option<NodeId>,
) -> Result<Vec<Cell>, AllocError>
    requires { ChildBelow (length pool.now.trees) term }
    ensures cells { IfOk result (λ cells. map (cell_tree pool.now.trees) cells.items
        ≡ bodies.each_once (bodies.needed (is_index_of replications.now)
        (tree_at pool.now.trees term))) }
    ensures live { IfOk result (λ cells. All (IsLiveCell (length pool.now.trees)) cells.items) }
{
    let mut all = Vec::new(alloc);
    add_needed(pool, replications, &mut all, term)?;
    each_once(alloc, pool, all.as_slice())
}
