ghost use Rattle.std.specs.Prelude.{◌≡◌, ◌+◌, ◌<◌, ◌≤◌, ◌^◌, ◌↔◌, ℕ, IfOk, IsErrOf, OnErr, OnOk, length};
ghost use Rattle.cv_pool.specs.Nodes.{ChildBelow};
ghost use Rattle.cv_pool.specs.PoolView.{Grows};
ghost use Rattle.cv_syntax.specs.Planting.{overs};
ghost use Rattle.cv_syntax.specs.Postorder.{postorder};
ghost use Rattle.cv_syntax_trees.specs.Tree.{Tree};
ghost use Rattle.cv_syntax.specs.PoolTrees.{tree_at};
ghost use Rattle.cv_syntax.specs.listing.Needs.{need_for};

use crate::{Make, NodeId, Pool, plant};
use cv_pool::PoolError;
use std::alloc::Global;

/// Makes a listed tree that isn't too large to be counted.
fn planted(alloc: Global, pool: &mut Pool, makes: &[Make]) -> Result<Option<NodeId>, PoolError>
    requires { overs makes.now < 2 ^ 32 }
    ensures tree { (t : Tree) → makes.now ≡ postorder t
        → IfOk result (λ n. tree_at pool.new.trees n ≡ t) }
    ensures live { IfOk result (λ n. ChildBelow (length pool.new.trees) n) }
    ensures grows { OnOk result (Grows pool.old pool.new) }
    ensures full { IsErrOf result (PoolError.Full (overs makes.now))
        ↔ (pool.old.limit < length pool.old.trees + overs makes.now) }
    ensures other { (n : ℕ) → IsErrOf result (PoolError.Full n) → n ≡ overs makes.now }
    ensures kept { OnErr result (pool.new.trees ≡ pool.old.trees) }
    ensures limit { pool.new.limit ≡ pool.old.limit }
    ensures few { length pool.new.trees ≤ length pool.old.trees + overs makes.now }
{
    let mut roots = plant(alloc, pool, makes)?;
    Ok(roots.pop().unwrap_or(None))
}

/// Makes a listed tree. The pool is asked for room for all of its nodes at once, also for those that are there; more than a
/// pool can have are never made.
pub fn plant_listed(
    alloc: Global,
    pool: &mut Pool,
    makes: &[Make],
) -> Result<Option<NodeId>, PoolError>
    requires listed { (t : Tree) × (makes.now ≡ postorder t) }
    requires limit { pool.old.limit < 4294967295 }
    ensures tree { (t : Tree) → makes.now ≡ postorder t
        → IfOk result (λ n. tree_at pool.new.trees n ≡ t) }
    ensures live { IfOk result (λ n. ChildBelow (length pool.new.trees) n) }
    ensures grows { OnOk result (Grows pool.old pool.new) }
    ensures full { (t : Tree) → makes.now ≡ postorder t
        → (n : ℕ) → IsErrOf result (PoolError.Full n)
        → (n ≡ need_for t) × (pool.old.limit < length pool.old.trees + n) }
    ensures accepted { (t : Tree) → makes.now ≡ postorder t
        → OnOk result (length pool.old.trees + need_for t ≤ pool.old.limit) }
    ensures kept { OnErr result (pool.new.trees ≡ pool.old.trees) }
    ensures limit { pool.new.limit ≡ pool.old.limit }
    ensures few { (t : Tree) → makes.now ≡ postorder t
        → length pool.new.trees ≤ length pool.old.trees + need_for t }
{
    if makes.len() / 2 >= 4_294_967_295 {
        return Err(PoolError::Full {
            need: 4_294_967_295,
        });
    }
    planted(alloc, pool, makes)
}
