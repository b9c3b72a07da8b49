ghost use Rattle.std.specs.Prelude.{◌≡◌, ◌<◌, ◌&&◌, IfSome, is_some, length, not, option_map};
ghost use Rattle.cv_pool.specs.Nodes.{ChildBelow};
ghost use Rattle.cv_syntax.specs.PoolTrees.{tree_at};
ghost use Rattle.cv_edit_names.specs.Cells as specs;
ghost use Rattle.cv_edit_names.specs.Cells.{cells_in};
ghost use Rattle.cv_edit_names.specs.Kept.{AreLive, looked_in};

use crate::around::{Looked, name_looked_for};
use cv_syntax::children::read_child;
use cv_syntax::{Head, NodeId, Pool, read_node};

/// Whether a tree is a cell of a variable.
pub fn is_cell_of(pool: &Pool, x: u32, tree: Option<NodeId>) -> bool
    requires { ChildBelow (length pool.now.trees) tree }
    ensures { result ≡ specs.is_cell_of x (tree_at pool.now.trees tree) }
{
    let Some(node) = read_child(pool, tree) else {
        return false;
    };
    match node.head {
        Head::Leaf(y) => y == x,
        Head::Read(y) => y == x,
        _ => false,
    }
}

/// Whether a tree is a cell of a variable that has no name among these.
fn is_unnamed(pool: &Pool, x: u32, looked_for: &[Looked], tree: Option<NodeId>) -> bool
    requires looked { AreLive (length pool.now.trees) looked_for.now }
    requires live { ChildBelow (length pool.now.trees) tree }
    ensures { result ≡ (specs.is_cell_of x (tree_at pool.now.trees tree)
        && not (is_some (specs.name_of (looked_in pool.now.trees looked_for.now)
        (tree_at pool.now.trees tree)))) }
{
    is_cell_of(pool, x, tree) && name_looked_for(pool, looked_for, tree).is_none()
}

/// The first cell of a variable in a list that has no name among these.
pub(crate) fn first_unnamed(
    pool: &Pool,
    x: u32,
    looked_for: &[Looked],
    cells: Option<NodeId>,
) -> Option<Option<NodeId>>
    requires looked { AreLive (length pool.now.trees) looked_for.now }
    requires live { ChildBelow (length pool.now.trees) cells }
    ensures cell { option_map (tree_at pool.now.trees) result
        ≡ specs.first_unnamed (looked_in pool.now.trees looked_for.now)
        (cells_in x (tree_at pool.now.trees cells)) }
    ensures live { IfSome result (λ c. ChildBelow (length pool.now.trees) c) }
{
    let mut at = cells;
    'cells: while let Some(n) = at {
        let link = read_node(pool, n);
        if is_unnamed(pool, x, looked_for, link.first) {
            return Some(link.first);
        }
        at = link.second;
    }
    None
}
