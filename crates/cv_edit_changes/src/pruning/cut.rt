ghost use Rattle.std.specs.Prelude.{◌≡◌, ◌+◌, ◌<◌, ◌≤◌, ◌^◌, IfSome, ℕ, length, max, option_map};
ghost use Rattle.cv_pool.specs.Nodes.{ChildBelow};
ghost use Rattle.cv_syntax_trees.specs.Tree as tree;
ghost use Rattle.cv_syntax_trees.specs.Tree.{Node};
ghost use Rattle.cv_syntax.specs.PoolTrees.{tree_at};
ghost use Rattle.cv_syntax.specs.Walks.{above};
ghost use Rattle.cv_scene.specs.Pruning.{branch_body, without_branch};
ghost use Rattle.cv_edit_changes.specs.pruning.Lefts.{before_body, bodies_of, cell_of, items};

use cv_path::extents::depth_below;
use cv_path::{guards, size_below};
use cv_syntax::children::read_child;
use cv_syntax::{Head, NodeId, Opened, Pool, read_node};

/// The bodies of an `if`.
#[derive(Clone, Copy)]
pub(crate) struct Bodies {
    pub(crate) then: Option<NodeId>,
    pub(crate) other: Option<NodeId>,
}

/// A branch of a list: how large those before it are, how many syntax nodes of it stand before its body, and the
/// branches behind it.
#[derive(Clone, Copy)]
pub(crate) struct Cut {
    pub(crate) nodes: u32,
    pub(crate) depth: u32,
    pub(crate) before_body: u32,
    pub(crate) behind: Option<NodeId>,
}

/// The first item of a list.
fn first_cell(pool: &Pool, list: Option<NodeId>) -> Option<Opened>
    requires { ChildBelow (length pool.now.trees) list }
    ensures cell { option_map (λ o. (tree_at pool.now.trees o.first, tree_at pool.now.trees o.second))
        result ≡ cell_of (tree_at pool.now.trees list) }
    ensures first { IfSome result (λ o. ChildBelow (length pool.now.trees) o.first) }
    ensures second { IfSome result (λ o. ChildBelow (length pool.now.trees) o.second) }
    ensures below { IfSome result (λ o. above o.second < above list) }
{
    let n = list?;
    let node = read_node(pool, n);
    match node.head {
        Head::Cons => Some(node),
        _ => None,
    }
}

/// The bodies of an `if`.
pub(crate) fn bodies_in(pool: &Pool, construct: Opened) -> Option<Bodies>
    requires { ChildBelow (length pool.now.trees) construct.second }
    ensures bodies { option_map (λ b. (tree_at pool.now.trees b.then, tree_at pool.now.trees b.other))
        result ≡ bodies_of (Node construct.head (tree_at pool.now.trees construct.first)
        (tree_at pool.now.trees construct.second)) }
    ensures first { IfSome result (λ b. ChildBelow (length pool.now.trees) b.then) }
    ensures second { IfSome result (λ b. ChildBelow (length pool.now.trees) b.other) }
{
    match construct.head {
        Head::If => {
            let cell = first_cell(pool, construct.second)?;
            let last = first_cell(pool, cell.second)?;
            Some(Bodies {
                then: cell.first,
                other: last.first,
            })
        }
        _ => None,
    }
}

/// How many syntax nodes of a branch stand before its body.
fn before_body(pool: &Pool, branch: Option<NodeId>) -> Option<u32>
    requires live { ChildBelow (length pool.now.trees) branch }
    requires fits { tree.size (tree_at pool.now.trees branch) < 2 ^ 32 }
    ensures count { result ≡ before_body (tree_at pool.now.trees branch) }
    ensures few { IfSome result (λ n. n ≤ tree.size (tree_at pool.now.trees branch)) }
{
    let node = read_child(pool, branch)?;
    match node.head {
        Head::Branch => {
            let indices = size_below(pool, node.first);
            Some(1 + indices + guards(pool, node.second))
        }
        _ => None,
    }
}

/// The k-th branch of a list, from 1.
#[tactic(auto, using(cv_path::proofs::extents::Extents::extents))]
pub(crate) fn cut_at(pool: &Pool, list: Option<NodeId>, k: u64) -> Option<Cut>
    requires live { ChildBelow (length pool.now.trees) list }
    requires fits { tree.size (tree_at pool.now.trees list) < 2 ^ 32 }
    ensures place { (p : ℕ) → branch_body p (tree_at pool.now.trees list) k
        ≡ option_map (λ c. p + (c.nodes + c.before_body)) result }
    ensures nodes { IfSome result (λ c. tree.size (without_branch (tree_at pool.now.trees list) k)
        ≡ c.nodes + tree.size (tree_at pool.now.trees c.behind)) }
    ensures depth { IfSome result (λ c. tree.depth (without_branch (tree_at pool.now.trees list) k)
        ≡ max c.depth (tree.depth (tree_at pool.now.trees c.behind))) }
    ensures alone { IfSome result (λ c. k ≡ 1 → without_branch (tree_at pool.now.trees list) k
        ≡ tree_at pool.now.trees c.behind) }
    ensures live { IfSome result (λ c. ChildBelow (length pool.now.trees) c.behind) }
    ensures few { IfSome result (λ c. c.nodes + c.before_body
        + tree.size (tree_at pool.now.trees c.behind) ≤ tree.size (tree_at pool.now.trees list)) }
    ensures flat { IfSome result (λ c. c.depth ≤ c.nodes) }
{
    if k == 0 {
        return None;
    }
    let mut nodes = 0;
    let mut depth = 0;
    let mut left = k;
    let mut at = list;
    'items: while let Some(n) = at {
        let cell = first_cell(pool, Some(n))?;
        if left == 1 {
            let before_body = before_body(pool, cell.first)?;
            return Some(Cut {
                nodes,
                depth,
                before_body,
                behind: cell.second,
            });
        }
        nodes += size_below(pool, cell.first);
        depth = depth.max(depth_below(pool, cell.first));
        left -= 1;
        at = cell.second;
    }
    None
}
