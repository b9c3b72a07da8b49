ghost use Rattle.std.specs.Prelude.{◌≡◌, ◌+◌, ◌<◌, ◌≤◌, [], ◌∷◌, ℕ, IfOk, IsErrOf, OnErr, OnOk, Some, length};
ghost use Rattle.cv_pool.specs.PoolView.{Grows};
ghost use Rattle.cv_syntax.specs.Planting.{overs};
ghost use Rattle.cv_syntax.specs.Postorder.{made, postorder};
ghost use Rattle.cv_syntax_trees.specs.Tree.{Tree};
ghost use Rattle.cv_syntax.specs.PoolTrees.{tree_at};

use crate::{Make, NodeId, Pool, PoolError, plant};
use std::alloc::Global;

/// Makes the one tree of a list of parts. Parts that are too many to be counted are want of memory.
#[tactic(auto, using(crate::proofs::limits::Counting::counting))]
pub fn plant_tree(alloc: Global, pool: &mut Pool, parts: &[Make]) -> Result<NodeId, PoolError>
    ensures tree { (t : Tree) → made [] parts.now ≡ t ∷ []
        → IfOk result (λ n. tree_at pool.new.trees (Some n) ≡ t) }
    ensures back { (t : Tree) → parts.now ≡ postorder t
        → IfOk result (λ n. tree_at pool.new.trees (Some n) ≡ t) }
    ensures live { IfOk result (λ n. n.0 < length pool.new.trees) }
    ensures grows { OnOk result (Grows pool.old pool.new) }
    ensures room { OnOk result (length pool.old.trees + overs parts.now ≤ pool.old.limit) }
    ensures full { IsErrOf result (PoolError.Full (overs parts.now))
        → pool.old.limit < length pool.old.trees + overs parts.now }
    ensures other { (n : ℕ) → IsErrOf result (PoolError.Full n) → n ≡ overs parts.now }
    ensures kept { OnErr result (pool.new.trees ≡ pool.old.trees) }
    ensures limit { pool.new.limit ≡ pool.old.limit }
{
    if parts.len() as u64 >= 4_294_967_296 {
        return Err(PoolError::OutOfMemory);
    }
    let before = pool.mark();
    let roots = plant(alloc, pool, parts)?;
    if let Some(Some(root)) = roots.first() {
        return Ok(*root);
    }
    pool.release(before);
    Err(PoolError::OutOfMemory)
}
