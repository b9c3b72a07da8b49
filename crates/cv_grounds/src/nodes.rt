ghost use Rattle.std.specs.Prelude.{◌≡◌, ◌-◌, ◌<◌, ◌≤◌, ◌^◌, ◌↔◌, All, IfNone, IfOk, IfSome, IsNone, Some, length};
ghost use Rattle.cv_grounds.specs.Lists.{binder_names, full_items, trees_at};
ghost use Rattle.cv_pool.specs.Nodes.{ChildBelow};
ghost use Rattle.cv_syntax.specs.PoolTrees.{tree_at};
ghost use Rattle.cv_syntax_trees.specs.Tree.{Empty, Node, size};

use cv_syntax::{Head, NodeId, Opened, Pool, read_node};
use std::alloc::{AllocError, Global};

/// Reads a node, where the pool has it. Its children have smaller numbers.
pub fn open(pool: &Pool, n: NodeId) -> Option<Opened>
    ensures live { IfSome result (λ o. n.0 < length pool.now.trees) }
    ensures tree { IfSome result (λ o. tree_at pool.now.trees (Some n)
        ≡ Node o.head (tree_at pool.now.trees o.first) (tree_at pool.now.trees o.second)) }
    ensures first { IfSome result (λ o. ChildBelow n.0 o.first) }
    ensures second { IfSome result (λ o. ChildBelow n.0 o.second) }
    ensures no_first { IfSome result (λ o. IsNone o.first
        ↔ (tree_at pool.now.trees o.first ≡ Empty)) }
    ensures no_second { IfSome result (λ o. IsNone o.second
        ↔ (tree_at pool.now.trees o.second ≡ Empty)) }
    ensures none { IfNone result (tree_at pool.now.trees (Some n) ≡ Empty) }
{
    if n.0 < pool.live() {
        Some(read_node(pool, n))
    } else {
        None
    }
}

/// The items of a list.
pub fn items(alloc: Global, pool: &Pool, list: Option<NodeId>) -> Result<Vec<NodeId>, AllocError>
    ensures trees { IfOk result (λ ns. trees_at pool.now.trees ns.items
        ≡ full_items (tree_at pool.now.trees list)) }
    ensures live { IfOk result (λ ns. All (λ n. n.0 < length pool.now.trees) ns.items) }
{
    let mut items = Vec::new(alloc);
    let mut at = list;
    'cells: while let Some(n) = at {
        let Some(cell) = open(pool, n) else {
            return Ok(items);
        };
        if let Some(item) = cell.first {
            items.push(item)?;
        }
        at = cell.second;
    }
    Ok(items)
}

/// The names of a list of binders.
pub fn binders(alloc: Global, pool: &Pool, list: Option<NodeId>) -> Result<Vec<u32>, AllocError>
    ensures { IfOk result (λ xs. xs.items ≡ binder_names (tree_at pool.now.trees list)) }
{
    let mut names = Vec::new(alloc);
    let mut at = list;
    'cells: while let Some(n) = at {
        let Some(cell) = open(pool, n) else {
            return Ok(names);
        };
        if let Head::Binder(x, _) = cell.head {
            names.push(x)?;
        }
        at = cell.second;
    }
    Ok(names)
}

/// The arguments of a term, by its head; none of a tree that is no term.
pub fn arguments(
    alloc: Global,
    pool: &Pool,
    node: Opened,
) -> Result<Option<Vec<NodeId>>, AllocError> {
    match node.head {
        Head::Read(_) | Head::Apply(_) => Ok(Some(items(alloc, pool, node.first)?)),
        Head::Leaf(_) | Head::Yes | Head::No => Ok(Some(Vec::new(alloc))),
        Head::Not | Head::Eq | Head::And | Head::Or => {
            let mut both = Vec::new(alloc);
            if let Some(first) = node.first {
                both.push(first)?;
            }
            if let Some(second) = node.second {
                both.push(second)?;
            }
            Ok(Some(both))
        }
        _ => Ok(None),
    }
}

/// How many nodes a tree has, where it has no more than so many; or a number that is greater.
pub fn nodes_up_to(pool: &Pool, start: NodeId, most: u32) -> u32
    ensures few { result ≤ most → most < 2 ^ 32 - 1
        → result ≡ size (tree_at pool.now.trees (Some start)) }
    ensures least { result ≤ size (tree_at pool.now.trees (Some start)) }
{
    let mut total = 0_u32;
    let mut at = Some(start);
    'chain: while let Some(n) = at {
        let Some(node) = open(pool, n) else {
            return total;
        };
        total = total.saturating_add(node.head.weight());
        if let Some(child) = node.first {
            total = total.saturating_add(nodes_up_to(pool, child, most));
        }
        if total > most {
            return total;
        }
        at = node.second;
    }
    total
}
