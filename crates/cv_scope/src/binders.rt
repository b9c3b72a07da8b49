ghost use Rattle.std.specs.Prelude.{◌≡◌, ◌<◌, ◌≤◌, length};
ghost use Rattle.cv_pool.specs.Nodes.{ChildBelow};
ghost use Rattle.cv_syntax.specs.PoolTrees.{tree_at};
ghost use Rattle.cv_scope.specs.Held.{IsFirstBinder};
ghost use Rattle.cv_scope_rules.specs.Sites.{bound_types};
ghost use Rattle.cv_scope_rules.specs.Tests.{same_numbers, same_replications};

use cv_syntax::{Head, NodeId, Pool, read_node};

/// A binder of a list: its variable and type, and the binders behind it.
#[derive(Clone, Copy, Debug)]
pub struct FirstBinder {
    pub name: u32,
    pub class: u32,
    pub rest: Option<NodeId>,
}

/// The first binder of a list.
pub fn first_binder(pool: &Pool, list: Option<NodeId>) -> Option<FirstBinder>
    requires { ChildBelow (length pool.now.trees) list }
    ensures { IsFirstBinder pool.now.trees list result }
{
    let Some(k) = list else {
        return None;
    };
    let node = read_node(pool, k);
    match node.head {
        Head::Binder(name, class) => Some(FirstBinder {
            name,
            class,
            rest: node.second,
        }),
        _ => None,
    }
}

/// Whether two lists of replications are the same.
pub fn are_same(left: &[(u32, u32)], right: &[(u32, u32)]) -> bool
    ensures { result ≡ same_replications left.now right.now }
{
    left == right
}

/// Whether two lists of binders have the same types.
pub fn have_same_types(pool: &Pool, left: Option<NodeId>, right: Option<NodeId>) -> bool
    requires left { ChildBelow (length pool.now.trees) left }
    requires right { ChildBelow (length pool.now.trees) right }
    ensures { result ≡ same_numbers (bound_types (tree_at pool.now.trees left))
        (bound_types (tree_at pool.now.trees right)) }
{
    let mut left_at = left;
    let mut right_at = right;
    'binders: while let Some(a) = first_binder(pool, left_at) {
        let Some(b) = first_binder(pool, right_at) else {
            return false;
        };
        if a.class != b.class {
            return false;
        }
        left_at = a.rest;
        right_at = b.rest;
    }
    first_binder(pool, right_at).is_none()
}
