ghost use Rattle.std.specs.Prelude.{◌≡◌, ◌+◌, ◌++◌, ◌<◌, ◌^◌, All, IfOk, IfSome, OnOk, Some, length, map};
ghost use Rattle.cv_pool.specs.Nodes.{ChildBelow};
ghost use Rattle.cv_syntax_trees.specs.Tree.{size};
ghost use Rattle.cv_syntax.specs.PoolTrees.{tree_at};
ghost use Rattle.cv_query_certificates.specs.SecretPairs as secrets;
ghost use Rattle.cv_query_offences.specs.Copies.{IsCopyBelow, copies_seen, copy_seen};

use cv_syntax::{Head, NodeId, Opened, Pool, read_node};
use std::alloc::{AllocError, Global};

/// A `let` at a place that copies a cell of a variable, with the list of the cell's index terms.
#[derive(Clone, Copy)]
pub struct CellCopy {
    pub place: u32,
    pub source: u32,
    pub terms: Option<NodeId>,
}

/// The copy by a `let` at a place, where its term is a cell.
#[tactic(auto, using(cv_syntax::proofs::Trees::opened))]
fn copy_of(pool: &Pool, place: u32, term: Option<NodeId>) -> Option<CellCopy>
    requires { ChildBelow (length pool.now.trees) term }
    ensures copy { copies_seen pool.now.trees result
        ≡ secrets.copy_of place (tree_at pool.now.trees term) }
    ensures live { IfSome result (IsCopyBelow (length pool.now.trees)) }
{
    let node = read_node(pool, term?);
    match node.head {
        Head::Leaf(source) => Some(CellCopy {
            place,
            source,
            terms: None,
        }),
        Head::Read(source) => Some(CellCopy {
            place,
            source,
            terms: node.first,
        }),
        _ => None,
    }
}

/// Adds the copy by a node at a place, where it is a `let` of the variable.
fn add_copy(
    pool: &Pool,
    found: &mut Vec<CellCopy>,
    x: u32,
    place: u32,
    node: Opened,
) -> Result<(), AllocError>
    requires first { ChildBelow (length pool.now.trees) node.first }
    requires found { All (IsCopyBelow (length pool.now.trees)) found.old.items }
    ensures copies { OnOk result (map (copy_seen pool.now.trees) found.new.items
        ≡ map (copy_seen pool.now.trees) found.old.items
        ++ secrets.copy_here x place node.head (tree_at pool.now.trees node.first)) }
    ensures live { OnOk result (All (IsCopyBelow (length pool.now.trees)) found.new.items) }
{
    let Head::Let(y, _) = node.head else {
        return Ok(());
    };
    if y != x {
        return Ok(());
    }
    let Some(copy) = copy_of(pool, place, node.first) else {
        return Ok(());
    };
    found.push(copy)?;
    Ok(())
}

/// Adds the copies of a variable in a tree that stands at a place, and gives the place behind it.
fn add_copies(
    pool: &Pool,
    found: &mut Vec<CellCopy>,
    x: u32,
    from: u32,
    tree: Option<NodeId>,
) -> Result<u32, AllocError>
    requires tree { ChildBelow (length pool.now.trees) tree }
    requires fits { from + size (tree_at pool.now.trees tree) < 2 ^ 32 }
    requires found { All (IsCopyBelow (length pool.now.trees)) found.old.items }
    ensures copies { OnOk result (map (copy_seen pool.now.trees) found.new.items
        ≡ map (copy_seen pool.now.trees) found.old.items
        ++ secrets.copies_in x from (tree_at pool.now.trees tree)) }
    ensures live { OnOk result (All (IsCopyBelow (length pool.now.trees)) found.new.items) }
    ensures next { IfOk result (λ next. next ≡ from + size (tree_at pool.now.trees tree)) }
{
    let mut place = from;
    let mut at = tree;
    'tree: while let Some(k) = at {
        let node = read_node(pool, k);
        add_copy(pool, found, x, place, node)?;
        place = add_copies(pool, found, x, place + node.head.weight(), node.first)?;
        at = node.second;
    }
    Ok(place)
}

/// The copies of a variable in a game, in preorder.
pub fn copies_of(
    alloc: Global,
    pool: &Pool,
    game: NodeId,
    x: u32,
) -> Result<Vec<CellCopy>, AllocError>
    requires live { game.0 < length pool.now.trees }
    requires fits { size (tree_at pool.now.trees (Some game)) < 2 ^ 32 }
    ensures copies { IfOk result (λ found. map (copy_seen pool.now.trees) found.items
        ≡ secrets.copies_in x 0 (tree_at pool.now.trees (Some game))) }
    ensures live { IfOk result (λ found. All (IsCopyBelow (length pool.now.trees)) found.items) }
{
    let mut found = Vec::new(alloc);
    add_copies(pool, &mut found, x, 0, Some(game))?;
    Ok(found)
}
