ghost use Rattle.std.specs.Prelude.{◌≡◌, ◌<◌, IfSome, length, option_map};
ghost use Rattle.cv_pool.specs.Nodes.{ChildBelow};
ghost use Rattle.cv_syntax.specs.PoolTrees.{tree_at};
ghost use Rattle.cv_syntax.specs.Walks.{above};
ghost use Rattle.cv_inline_sites.specs.listing.BranchForms.{binder_of, calls_in, calls_of, cell_of, children_in, first_binder};

use cv_syntax::children::read_child;
use cv_syntax::{Head, NodeId, Opened, Pool, read_node};

/// A branch over calls: its index and its bound, and the branches behind it.
#[derive(Clone, Copy)]
pub(crate) struct Calls {
    pub(crate) index: u32,
    pub(crate) bound: u32,
    pub(crate) behind: Option<NodeId>,
}

/// The first item of a list.
fn first_cell(pool: &Pool, list: Option<NodeId>) -> Option<Opened>
    requires { ChildBelow (length pool.now.trees) list }
    ensures cell { option_map (children_in pool.now.trees) result
        ≡ cell_of (tree_at pool.now.trees list) }
    ensures first { IfSome result (λ o. ChildBelow (length pool.now.trees) o.first) }
    ensures second { IfSome result (λ o. ChildBelow (length pool.now.trees) o.second) }
    ensures below { IfSome result (λ o. above o.second < above list) }
{
    let node = read_node(pool, list?);
    match node.head {
        Head::Cons => Some(node),
        _ => None,
    }
}

/// The first of a list of binders.
fn first_binder(pool: &Pool, binders: Option<NodeId>) -> Option<(u32, u32)>
    requires { ChildBelow (length pool.now.trees) binders }
    ensures { result ≡ first_binder (tree_at pool.now.trees binders) }
{
    match read_child(pool, binders)?.head {
        Head::Binder(x, n) => Some((x, n)),
        _ => None,
    }
}

/// The first index of a branch, with its bound.
fn binder_of(pool: &Pool, branch: Option<NodeId>) -> Option<(u32, u32)>
    requires { ChildBelow (length pool.now.trees) branch }
    ensures { result ≡ binder_of (tree_at pool.now.trees branch) }
{
    let node = read_child(pool, branch)?;
    match node.head {
        Head::Branch => first_binder(pool, node.first),
        _ => None,
    }
}

/// The first branch of a list.
pub(crate) fn calls_at(pool: &Pool, list: Option<NodeId>) -> Option<Calls>
    requires { ChildBelow (length pool.now.trees) list }
    ensures calls { option_map (calls_in pool.now.trees) result
        ≡ calls_of (tree_at pool.now.trees list) }
    ensures live { IfSome result (λ c. ChildBelow (length pool.now.trees) c.behind) }
    ensures below { IfSome result (λ c. above c.behind < above list) }
{
    let cell = first_cell(pool, list)?;
    let (index, bound) = binder_of(pool, cell.first)?;
    Some(Calls {
        index,
        bound,
        behind: cell.second,
    })
}
