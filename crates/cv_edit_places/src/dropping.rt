ghost use Rattle.std.specs.Prelude.{◌≡◌, ◌+◌, ◌<◌, ◌≤◌, ◌^◌, ◌++◌, ℕ, IfOk, IsErrOf, OnErr, OnOk, Some, length};
ghost use Rattle.cv_pool.specs.Nodes.{ChildBelow};
ghost use Rattle.cv_pool.specs.PoolView.{Grows};
ghost use Rattle.cv_syntax.specs.Postorder.{postorder};
ghost use Rattle.cv_syntax_trees.specs.Tree as tree;
ghost use Rattle.cv_syntax.specs.PoolTrees.{tree_at};
ghost use Rattle.cv_meaning.specs.Still.{defines};
ghost use Rattle.cv_steps.specs.Changes.{without, only};
ghost use Rattle.cv_edit_places.specs.Dropping.{need_without};

use cv_pool::PoolError;
use cv_syntax::limits::Extent;
use cv_syntax::listing::{close, plant_listed};
use cv_syntax::{Head, Make, NodeId, Pool, read_node};
use std::alloc::{AllocError, Global};

/// Whether a node defines a variable by `new` or `let`.
fn defines(x: u32, head: Head) -> bool
    ensures { result ≡ defines (only x) head }
{
    match head {
        Head::New(y, _) => y == x,
        Head::Let(y, _) => y == x,
        _ => false,
    }
}

/// How many syntax nodes a tree has without the definitions of a variable.
fn size_without(pool: &Pool, x: u32, start: Option<NodeId>) -> u32
    requires live { ChildBelow (length pool.now.trees) start }
    requires fits { tree.size (tree_at pool.now.trees start) < 2 ^ 32 }
    ensures { result ≡ tree.size (without (only x) (tree_at pool.now.trees start)) }
{
    let mut total = 0;
    let mut at = start;
    'chain: while let Some(k) = at {
        let node = read_node(pool, k);
        if !defines(x, node.head) {
            total += node.head.weight();
            total += size_without(pool, x, node.first);
        }
        at = node.second;
    }
    total
}

/// How many syntax nodes the longest path of a tree has without the definitions of a variable.
fn depth_without(pool: &Pool, x: u32, start: Option<NodeId>) -> u32
    requires live { ChildBelow (length pool.now.trees) start }
    requires fits { tree.size (tree_at pool.now.trees start) < 2 ^ 32 }
    ensures { result ≡ tree.depth (without (only x) (tree_at pool.now.trees start)) }
{
    let mut above = 0;
    let mut deepest = 0;
    let mut at = start;
    'chain: while let Some(k) = at {
        let node = read_node(pool, k);
        if !defines(x, node.head) {
            above += node.head.weight();
            deepest = deepest.max(above + depth_without(pool, x, node.first));
        }
        at = node.second;
    }
    deepest
}

/// How large a game is without the definitions of a variable.
pub fn measure_without(pool: &Pool, root: NodeId, x: u32) -> Extent
    requires live { root.0 < length pool.now.trees }
    requires fits { tree.size (tree_at pool.now.trees (Some root)) < 2 ^ 32 }
    ensures nodes { result.nodes
        ≡ tree.size (without (only x) (tree_at pool.now.trees (Some root))) }
    ensures depth { result.depth
        ≡ tree.depth (without (only x) (tree_at pool.now.trees (Some root))) }
{
    Extent {
        nodes: size_without(pool, x, Some(root)),
        depth: depth_without(pool, x, Some(root)),
    }
}

/// Lists a tree without the definitions of a variable, each node behind its children.
fn list(
    alloc: Global,
    pool: &Pool,
    makes: &mut Vec<Make>,
    x: u32,
    start: Option<NodeId>,
) -> Result<(), AllocError>
    requires live { ChildBelow (length pool.now.trees) start }
    ensures { OnOk result (makes.new.items
        ≡ makes.old.items ++ postorder (without (only x) (tree_at pool.now.trees start))) }
{
    let mut heads = Vec::new(alloc);
    let mut at = start;
    'chain: while let Some(k) = at {
        let node = read_node(pool, k);
        if !defines(x, node.head) {
            list(alloc, pool, makes, x, node.first)?;
            heads.push(node.head)?;
        }
        at = node.second;
    }
    makes.push(Make::Nothing)?;
    close(makes, heads)
}

/// Makes the game without the definitions of a variable. The pool is asked for room for all of its nodes at once,
/// also for those that are there; more than a pool can have are never made.
pub fn drop_variable(
    alloc: Global,
    pool: &mut Pool,
    root: NodeId,
    x: u32,
) -> Result<Option<NodeId>, PoolError>
    requires live { root.0 < length pool.old.trees }
    requires limit { pool.old.limit < 4294967295 }
    ensures tree { IfOk result (λ n. tree_at pool.new.trees n
        ≡ without (only x) (tree_at pool.old.trees (Some root))) }
    ensures live { IfOk result (λ n. ChildBelow (length pool.new.trees) n) }
    ensures grows { OnOk result (Grows pool.old pool.new) }
    ensures full { (n : ℕ) → IsErrOf result (PoolError.Full n)
        → (n ≡ need_without x (tree_at pool.old.trees (Some root)))
        × (pool.old.limit < length pool.old.trees + n) }
    ensures accepted { OnOk result (length pool.old.trees
        + need_without x (tree_at pool.old.trees (Some root)) ≤ pool.old.limit) }
    ensures kept { OnErr result (pool.new.trees ≡ pool.old.trees) }
    ensures limit { pool.new.limit ≡ pool.old.limit }
    ensures few { length pool.new.trees ≤ length pool.old.trees
        + need_without x (tree_at pool.old.trees (Some root)) }
{
    let mut makes = Vec::new(alloc);
    match list(alloc, pool, &mut makes, x, Some(root)) {
        Ok(()) => plant_listed(alloc, pool, &makes),
        Err(AllocError) => Err(PoolError::OutOfMemory),
    }
}
