ghost use Rattle.std.specs.Prelude.{◌≡◌, ◌+◌, ◌<◌, ◌≤◌, ℕ, All, IfOk, IsErrOf, OnErr, OnOk, Some, length};
ghost use Rattle.cv_pool.specs.PoolView.{Grows};
ghost use Rattle.cv_syntax.specs.Layouts.{arranged, trees_of};
ghost use Rattle.cv_syntax.specs.PoolTrees.{tree_at};
ghost use Rattle.cv_step_writer.specs.Derivations.{IsBelow};

use cv_syntax::{Head, NodeId, Pool, PoolError, build, kind_of};

/// Makes a term of this head over terms of the pool, as lines need that stand in no game. Room is asked for all nodes that
/// it may take at once; where it fails, the pool is as it was.
pub fn write_term(pool: &mut Pool, head: Head, terms: &[NodeId]) -> Result<NodeId, PoolError>
    requires count { length terms.now < 4294967295 }
    requires terms { All (IsBelow (length pool.old.trees)) terms.now }
    ensures tree { IfOk result (λ n. tree_at pool.new.trees (Some n)
        ≡ arranged head (trees_of pool.old.trees terms.now)) }
    ensures live { IfOk result (λ n. n.0 < length pool.new.trees) }
    ensures grows { OnOk result (Grows pool.old pool.new) }
    ensures few { length pool.new.trees ≤ length pool.old.trees + length terms.now + 1 }
    ensures room { OnOk result (length pool.old.trees + length terms.now + 1 ≤ pool.old.limit) }
    ensures full { (n : ℕ) → IsErrOf result (PoolError.Full n)
        → (n ≡ length terms.now + 1) × (pool.old.limit < length pool.old.trees + n) }
    ensures kept { OnErr result (pool.new.trees ≡ pool.old.trees) }
    ensures limit { pool.new.limit ≡ pool.old.limit }
{
    pool.reserve(terms.len() as u32 + 1)?;
    Ok(build(pool, kind_of(head), terms))
}
