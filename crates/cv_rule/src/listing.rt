ghost use Rattle.std.specs.Prelude.{◌≡◌, ◌<◌, IfSome, length, option_map};
ghost use Rattle.cv_pool.specs.Nodes.{ChildBelow};
ghost use Rattle.cv_syntax.specs.PoolTrees.{tree_at};
ghost use Rattle.cv_syntax.specs.Walks.{above};
ghost use Rattle.cv_scene.specs.Instances.{is_read_of};
ghost use Rattle.cv_scene.specs.Sights.{variable_of};
ghost use Rattle.cv_steps.specs.Unletting as unletting;
ghost use Rattle.cv_rule.specs.Listing.{guards_in};

use cv_derive_reasons::cells::variable;
use cv_syntax::{Head, NodeId, Opened, Pool, read_node};

/// Whether a cell is one of a variable.
fn is_cell_of(pool: &Pool, x: u32, cell: Option<NodeId>) -> bool
    requires { ChildBelow (length pool.now.trees) cell }
    ensures { result ≡ is_read_of x (variable_of (tree_at pool.now.trees cell)) }
{
    match variable(pool, cell) {
        Some(y) => y == x,
        None => false,
    }
}

/// Whether a list has a cell of a variable.
fn has_cell_of(pool: &Pool, x: u32, list: Option<NodeId>) -> bool
    requires { ChildBelow (length pool.now.trees) list }
    ensures { result ≡ unletting.has_cell_of x (tree_at pool.now.trees list) }
{
    let mut at = list;
    'cells: while let Some(k) = at {
        let node = read_node(pool, k);
        if is_cell_of(pool, x, node.first) {
            return true;
        }
        at = node.second;
    }
    false
}

/// The `defined` list of a branch, and what stands behind it.
fn guards_in(pool: &Pool, node: Opened) -> Option<Opened>
    requires { ChildBelow (length pool.now.trees) node.second }
    ensures guards { option_map (λ g. (tree_at pool.now.trees g.first, tree_at pool.now.trees g.second))
        result ≡ guards_in node.head (tree_at pool.now.trees node.second) }
    ensures first { IfSome result (λ g. ChildBelow (length pool.now.trees) g.first) }
    ensures second { IfSome result (λ g. ChildBelow (length pool.now.trees) g.second) }
    ensures below { IfSome result (λ g. above g.second < above node.second) }
{
    match node.head {
        Head::Branch => match node.second {
            Some(n) => Some(read_node(pool, n)),
            None => None,
        },
        _ => None,
    }
}

/// Whether a `defined` list of a tree names a variable.
pub(crate) fn is_listed(pool: &Pool, x: u32, start: Option<NodeId>) -> bool
    requires { ChildBelow (length pool.now.trees) start }
    ensures { result ≡ unletting.is_listed x (tree_at pool.now.trees start) }
{
    let mut at = start;
    'tree: while let Some(k) = at {
        let node = read_node(pool, k);
        match guards_in(pool, node) {
            Some(guards) => {
                if has_cell_of(pool, x, guards.first) {
                    return true;
                }
                at = guards.second;
            }
            None => {
                if is_listed(pool, x, node.first) {
                    return true;
                }
                at = node.second;
            }
        }
    }
    false
}
