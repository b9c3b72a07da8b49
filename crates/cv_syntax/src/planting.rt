ghost use Rattle.std.specs.Prelude.{◌≡◌, ◌+◌, ◌<◌, ◌≤◌, ◌^◌, ◌↔◌, [], ◌∷◌, ℕ, List, length, map, reverse, flat_map, All, Some, IfOk, OnOk, OnErr, IsErrOf};
ghost use Rattle.cv_pool.specs.Nodes.{ChildBelow};
ghost use Rattle.cv_syntax.specs.Planting.{overs};
ghost use Rattle.cv_pool.specs.PoolView.{Grows};
ghost use Rattle.cv_syntax.specs.Postorder.{joined, made, postorder};
ghost use Rattle.cv_syntax_trees.specs.Tree.{Tree};
ghost use Rattle.cv_syntax.specs.PoolTrees.{tree_at};

use crate::kind::kind_of;
use crate::make::Make;
use cv_pool::{NodeId, Pool, PoolError};
use cv_syntax_trees::Head;
use std::alloc::{AllocError, Global};

/// How many nodes a list makes.
pub fn overs(makes: &[Make]) -> u32
    requires { overs makes.now < 2 ^ 32 }
    ensures { result ≡ overs makes.now }
{
    let mut count = 0;
    for make in makes {
        if let Make::Over(_) = make {
            count += 1;
        }
    }
    count
}

/// Makes in the pool the trees of a list, in the order in which the list makes them.
pub fn plant(
    alloc: Global,
    pool: &mut Pool,
    makes: &[Make],
) -> Result<Vec<Option<NodeId>>, PoolError>
    requires { overs makes.now < 2 ^ 32 }
    ensures trees { IfOk result (λ ids. map (tree_at pool.new.trees) ids.items
        ≡ reverse (made [] makes.now)) }
    ensures back { (ts : List Tree) → makes.now ≡ flat_map postorder ts
        → IfOk result (λ ids. map (tree_at pool.new.trees) ids.items ≡ ts) }
    ensures live { IfOk result (λ ids. All (ChildBelow (length pool.new.trees)) ids.items) }
    ensures grows { OnOk result (Grows pool.old pool.new) }
    ensures full { IsErrOf result (PoolError.Full (overs makes.now))
        ↔ (pool.old.limit < length pool.old.trees + overs makes.now) }
    ensures other { (n : ℕ) → IsErrOf result (PoolError.Full n) → n ≡ overs makes.now }
    ensures kept { OnErr result (pool.new.trees ≡ pool.old.trees) }
    ensures limit { pool.new.limit ≡ pool.old.limit }
    ensures few { length pool.new.trees ≤ length pool.old.trees + overs makes.now }
{
    pool.reserve(overs(makes))?;
    let before = pool.mark();
    match planted(alloc, pool, makes) {
        Ok(ids) => Ok(ids),
        Err(AllocError) => {
            pool.release(before);
            Err(PoolError::OutOfMemory)
        }
    }
}

/// Makes the trees of a list for which the pool has room.
fn planted(
    alloc: Global,
    pool: &mut Pool,
    makes: &[Make],
) -> Result<Vec<Option<NodeId>>, AllocError>
    requires { overs makes.now ≤ pool.old.spare }
    ensures trees { IfOk result (λ ids. map (tree_at pool.new.trees) ids.items
        ≡ reverse (made [] makes.now)) }
    ensures live { IfOk result (λ ids. All (ChildBelow (length pool.new.trees)) ids.items) }
    ensures grows { Grows pool.old pool.new }
    ensures few { length pool.new.trees ≤ length pool.old.trees + overs makes.now }
{
    let mut stack = Vec::new(alloc);
    for make in makes {
        let top = match make {
            Make::Nothing => None,
            Make::Over(head) => Some(over(pool, &mut stack, *head)),
        };
        stack.push(top)?;
    }
    Ok(stack)
}

/// Takes two trees from the stack, and makes a node over them.
#[tactic(auto, using(crate::proofs::Plantings::takes))]
fn over(pool: &mut Pool, stack: &mut Vec<Option<NodeId>>, head: Head) -> NodeId
    requires spare { 0 < pool.old.spare }
    requires live { All (ChildBelow (length pool.old.trees)) stack.old.items }
    ensures trees { joined head (reverse (map (tree_at pool.old.trees) stack.old.items))
        ≡ tree_at pool.new.trees (Some result) ∷ reverse
        (map (tree_at pool.new.trees) stack.new.items) }
    ensures live { All (ChildBelow (length pool.new.trees)) stack.new.items }
    ensures id { result.0 < length pool.new.trees }
    ensures grows { Grows pool.old pool.new }
    ensures spare { pool.old.spare ≤ pool.new.spare + 1 }
    ensures few { length pool.new.trees ≤ length pool.old.trees + 1 }
{
    let second = stack.pop().unwrap_or(None);
    let first = stack.pop().unwrap_or(None);
    pool.node(kind_of(head), first, second)
}
