ghost use Rattle.std.specs.Prelude.{◌≡◌, ◌+◌, ◌<◌, ◌^◌, ◌&&◌, IfErr, IfOk, None, OnOk, Some, length, not};
ghost use Rattle.cv_pool.specs.Nodes.{ChildBelow};
ghost use Rattle.cv_syntax_trees.specs.Tree.{same_tree, size};
ghost use Rattle.cv_syntax.specs.PoolTrees.{tree_at};
ghost use Rattle.cv_edit_names.specs.Cells as cells;
ghost use Rattle.cv_edit_names.specs.Cells.{are_mixed, cells_in};
ghost use Rattle.cv_rule_array_names.specs.Mixed as specs;

use cv_edit_names::is_cell_of;
use cv_syntax::children::first_of;
use cv_syntax::{Head, NodeId, Opened, Pool, read_node, same};

/// Whether a tree is a cell of a variable that differs from another one.
fn differs(pool: &Pool, x: u32, cell: Option<NodeId>, tree: Option<NodeId>) -> bool
    requires cell { ChildBelow (length pool.now.trees) cell }
    requires live { ChildBelow (length pool.now.trees) tree }
    ensures { result ≡ (cells.is_cell_of x (tree_at pool.now.trees tree)
        && not (same_tree (tree_at pool.now.trees cell) (tree_at pool.now.trees tree))) }
{
    is_cell_of(pool, x, tree) && !same(pool, cell, tree)
}

/// Whether a list has a cell of a variable that differs from another one.
fn has_other(pool: &Pool, x: u32, cell: Option<NodeId>, list: Option<NodeId>) -> bool
    requires cell { ChildBelow (length pool.now.trees) cell }
    requires live { ChildBelow (length pool.now.trees) list }
    ensures { result ≡ specs.has_other (tree_at pool.now.trees cell)
        (cells_in x (tree_at pool.now.trees list)) }
{
    let mut at = list;
    'cells: while let Some(n) = at {
        let link = read_node(pool, n);
        if differs(pool, x, cell, link.first) {
            return true;
        }
        at = link.second;
    }
    false
}

/// Whether a list has cells of a variable at different indices.
fn is_mixed(pool: &Pool, x: u32, list: Option<NodeId>) -> bool
    requires { ChildBelow (length pool.now.trees) list }
    ensures { result ≡ are_mixed (cells_in x (tree_at pool.now.trees list)) }
{
    let mut at = list;
    'cells: while let Some(n) = at {
        let link = read_node(pool, n);
        if is_cell_of(pool, x, link.first) {
            return has_other(pool, x, link.first, link.second);
        }
        at = link.second;
    }
    false
}

/// Whether a node is a branch whose list has cells of a variable at different indices.
fn mixes(pool: &Pool, x: u32, node: Opened) -> bool
    requires { ChildBelow (length pool.now.trees) node.second }
    ensures { result ≡ specs.mixes x node.head (tree_at pool.now.trees node.second) }
{
    match node.head {
        Head::Branch => is_mixed(pool, x, first_of(pool, node.second)),
        _ => false,
    }
}

/// The place behind a tree that stands at a place, where none of its branches mixes cells of a variable; or the first place
/// of one that does.
fn mixing(pool: &Pool, x: u32, from: u32, tree: Option<NodeId>) -> Result<u32, u32>
    requires live { ChildBelow (length pool.now.trees) tree }
    requires fits { from + size (tree_at pool.now.trees tree) < 2 ^ 32 }
    ensures none { OnOk result (cells.first_mixed x from (tree_at pool.now.trees tree) ≡ None) }
    ensures next { IfOk result (λ next. next ≡ from + size (tree_at pool.now.trees tree)) }
    ensures found { IfErr result (λ p.
        cells.first_mixed x from (tree_at pool.now.trees tree) ≡ Some p) }
{
    let mut place = from;
    let mut at = tree;
    'tree: while let Some(k) = at {
        let node = read_node(pool, k);
        if mixes(pool, x, node) {
            return Err(place);
        }
        match mixing(pool, x, place + node.head.weight(), node.first) {
            Ok(next) => place = next,
            Err(found) => return Err(found),
        }
        at = node.second;
    }
    Ok(place)
}

/// The first branch of a game whose list has cells of a variable at different indices.
pub(crate) fn first_mixed(pool: &Pool, game: NodeId, x: u32) -> Option<u32>
    requires live { game.0 < length pool.now.trees }
    requires fits { size (tree_at pool.now.trees (Some game)) < 2 ^ 32 }
    ensures { result ≡ cells.first_mixed x 0 (tree_at pool.now.trees (Some game)) }
{
    match mixing(pool, x, 0, Some(game)) {
        Ok(_) => None,
        Err(found) => Some(found),
    }
}
