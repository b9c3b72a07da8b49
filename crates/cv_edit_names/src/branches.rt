ghost use Rattle.std.specs.Prelude.{◌≡◌, ◌<◌, false, IfNone, IfSome, length};
ghost use Rattle.cv_pool.specs.Nodes.{ChildBelow};
ghost use Rattle.cv_syntax_trees.specs.Tree.{Empty, Node};
ghost use Rattle.cv_syntax_trees.specs.declared.head.Head.TheVariants as head;
ghost use Rattle.cv_syntax.specs.PoolTrees.{tree_at};
ghost use Rattle.cv_syntax.specs.Walks.{above};
ghost use Rattle.cv_edit_names.specs.Kept.{AreBelow, IsBelow, IsLiveBranch, branches_of};
ghost use Rattle.cv_edit_names.specs.Parts.{begins_with_branch, is_link};

use cv_syntax::{Head, NodeId, Opened, Pool, read_node};

/// The parts of a branch, and the branches behind it.
#[derive(Clone, Copy)]
pub(crate) struct Branch {
    pub(crate) indices: Option<NodeId>,
    pub(crate) cells: Option<NodeId>,
    pub(crate) condition: Option<NodeId>,
    pub(crate) body: Option<NodeId>,
    pub(crate) more: Option<NodeId>,
}

/// The node of a child, if there is one.
fn node_below(pool: &Pool, child: Option<NodeId>) -> Option<Opened>
    requires { ChildBelow (length pool.now.trees) child }
    ensures tree { IfSome result (λ o. tree_at pool.now.trees child
        ≡ Node o.head (tree_at pool.now.trees o.first) (tree_at pool.now.trees o.second)) }
    ensures live { IfSome result (AreBelow (length pool.now.trees) (above child)) }
    ensures none { IfNone result (tree_at pool.now.trees child ≡ Empty) }
{
    match child {
        Some(n) => Some(read_node(pool, n)),
        None => None,
    }
}

/// The link that a list begins with.
fn link_at(pool: &Pool, list: Option<NodeId>) -> Option<Opened>
    requires { ChildBelow (length pool.now.trees) list }
    ensures tree { IfSome result (λ o. tree_at pool.now.trees list
        ≡ Node head.Cons (tree_at pool.now.trees o.first) (tree_at pool.now.trees o.second)) }
    ensures live { IfSome result (AreBelow (length pool.now.trees) (above list)) }
    ensures none { IfNone result (is_link (tree_at pool.now.trees list) ≡ false) }
{
    let link = node_below(pool, list)?;
    match link.head {
        Head::Cons => Some(link),
        _ => None,
    }
}

/// The branch that a list begins with.
pub(crate) fn branch_at(pool: &Pool, list: Option<NodeId>) -> Option<Branch>
    requires { ChildBelow (length pool.now.trees) list }
    ensures tree { IfSome result (λ b. tree_at pool.now.trees list
        ≡ branches_of pool.now.trees b) }
    ensures live { IfSome result (IsLiveBranch (length pool.now.trees)) }
    ensures below { IfSome result (IsBelow list) }
    ensures none { IfNone result (begins_with_branch (tree_at pool.now.trees list) ≡ false) }
{
    let link = link_at(pool, list)?;
    let branch = node_below(pool, link.first)?;
    let Head::Branch = branch.head else {
        return None;
    };
    let cells = link_at(pool, branch.second)?;
    let condition = link_at(pool, cells.second)?;
    Some(Branch {
        indices: branch.first,
        cells: cells.first,
        condition: condition.first,
        body: condition.second,
        more: link.second,
    })
}
