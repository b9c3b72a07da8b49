ghost use Rattle.std.specs.Prelude.{◌≡◌, ◌+◌, ◌<◌, ◌≤◌, ◌^◌, ℕ, length, option_map, slice_get, Some, IfSome};
ghost use Rattle.cv_pool.specs.Nodes.{ChildBelow};
ghost use Rattle.cv_syntax_trees.specs.Tree as tree;
ghost use Rattle.cv_syntax.specs.PoolTrees.{tree_at};
ghost use Rattle.cv_syntax.specs.Walks.{above, Reaches};

use crate::open::read_node;
use cv_pool::{NodeId, Pool};

/// How many syntax nodes a tree has.
#[tactic(auto, using(crate::proofs::Walking::walking))]
pub fn size(pool: &Pool, n: NodeId) -> u32
    requires live { n.0 < length pool.now.trees }
    requires fits { tree.size (tree_at pool.now.trees (Some n)) < 2 ^ 32 }
    ensures { result ≡ tree.size (tree_at pool.now.trees (Some n)) }
{
    let mut total = 0;
    let mut at = Some(n);
    'chain: while let Some(k) = at {
        let node = read_node(pool, k);
        total += node.head.weight();
        if let Some(first) = node.first {
            total += size(pool, first);
        }
        at = node.second;
    }
    total
}

/// How many syntax nodes the longest path of a tree has.
#[tactic(auto, using(crate::proofs::Walking::walking))]
pub fn depth(pool: &Pool, n: NodeId) -> u32
    requires live { n.0 < length pool.now.trees }
    requires fits { tree.size (tree_at pool.now.trees (Some n)) < 2 ^ 32 }
    ensures { result ≡ tree.depth (tree_at pool.now.trees (Some n)) }
{
    let mut above = 0;
    let mut deepest = 0;
    let mut at = Some(n);
    'chain: while let Some(k) = at {
        let node = read_node(pool, k);
        above += node.head.weight();
        let below = match node.first {
            Some(first) => depth(pool, first),
            None => 0,
        };
        deepest = deepest.max(above + below);
        at = node.second;
    }
    deepest
}

/// The child of a node at a place, counted from 0. Lists and binders are looked through.
#[tactic(auto, using(crate::proofs::Walking::walking))]
pub fn child(pool: &Pool, n: NodeId, k: u32) -> Option<NodeId>
    requires { n.0 < length pool.now.trees }
    ensures child { option_map (λ c. tree_at pool.now.trees (Some c)) result
        ≡ slice_get (tree.children (tree_at pool.now.trees (Some n))) k }
    ensures below { ChildBelow n.0 result }
{
    let node = read_node(pool, n);
    match top(pool, node.first, k) {
        Ok(found) => Some(found),
        Err(left) => match top(pool, node.second, left) {
            Ok(found) => Some(found),
            Err(_) => None,
        },
    }
}

/// The syntax node at the top of a tree that stands at a place, or how many places are left after the tree.
#[tactic(auto, using(crate::proofs::Walking::walking))]
fn top(pool: &Pool, start: Option<NodeId>, place: u32) -> Result<NodeId, u32>
    requires { ChildBelow (length pool.now.trees) start }
    ensures { Reaches pool.now.trees (tree.tops (tree_at pool.now.trees start)) (above start) place
        result }
{
    let mut left = place;
    let mut at = start;
    'chain: while let Some(k) = at {
        let node = read_node(pool, k);
        if node.head.weight() == 1 {
            return if left == 0 { Ok(k) } else { Err(left - 1) };
        }
        match top(pool, node.first, left) {
            Ok(found) => return Ok(found),
            Err(rest) => left = rest,
        }
        at = node.second;
    }
    Err(left)
}
