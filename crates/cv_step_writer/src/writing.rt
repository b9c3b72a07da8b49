ghost use Rattle.std.specs.Prelude.{◌≡◌, ◌+◌, ◌<◌, ◌≤◌, ℕ, IfOk, IsErrOf, OnErr, OnOk, Some, length};
ghost use Rattle.cv_pool.specs.Nodes.{ChildBelow};
ghost use Rattle.cv_pool.specs.PoolView.{Grows};
ghost use Rattle.cv_syntax.specs.PoolTrees.{tree_at};
ghost use Rattle.cv_syntax.specs.Postorder.{postorder};
ghost use Rattle.cv_syntax.specs.Planting.{overs};
ghost use Rattle.cv_syntax.specs.limits.Limits.{nodes_of};
ghost use Rattle.cv_syntax_trees.specs.Tree.{Tree};
ghost use Rattle.cv_step_writer.specs.Derivations.{AreLinesBelow, derivation};
ghost use Rattle.cv_step_writer.specs.Proposals.{IsProposalBelow, step_tree};

use crate::lines::Line;
use crate::parts::{push_lines, push_step};
use crate::proposals::Proposal;
use cv_syntax::{Make, NodeId, Pool, PoolError, plant};
use std::alloc::{AllocError, Global};

/// Makes the one tree of parts. Parts that are too many to be counted are want of memory.
fn plant_parts(alloc: Global, pool: &mut Pool, makes: &[Make]) -> Result<Option<NodeId>, PoolError>
    ensures tree { (t : Tree) → makes.now ≡ postorder t
        → IfOk result (λ n. tree_at pool.new.trees n ≡ t) }
    ensures live { IfOk result (λ n. ChildBelow (length pool.new.trees) n) }
    ensures grows { OnOk result (Grows pool.old pool.new) }
    ensures room { OnOk result (length pool.old.trees + overs makes.now ≤ pool.old.limit) }
    ensures full { (n : ℕ) → IsErrOf result (PoolError.Full n)
        → (n ≡ overs makes.now) × (pool.old.limit < length pool.old.trees + n) }
    ensures kept { OnErr result (pool.new.trees ≡ pool.old.trees) }
    ensures limit { pool.new.limit ≡ pool.old.limit }
    ensures few { length pool.new.trees ≤ length pool.old.trees + overs makes.now }
{
    if makes.len() as u64 >= 4_294_967_296 {
        return Err(PoolError::OutOfMemory);
    }
    let mut roots = plant(alloc, pool, makes)?;
    Ok(roots.pop().unwrap_or(None))
}

/// Makes the lines of a derivation, for a block of a line by cases: their first node, or none. Room is asked for all nodes
/// of their trees at once; where it fails, the pool is as it was.
pub fn write_lines(
    alloc: Global,
    pool: &mut Pool,
    lines: &[Line],
) -> Result<Option<NodeId>, PoolError>
    requires { AreLinesBelow (length pool.old.trees) lines.now }
    ensures tree { IfOk result (λ n.
        tree_at pool.new.trees n ≡ derivation pool.old.trees lines.now) }
    ensures live { IfOk result (λ n. ChildBelow (length pool.new.trees) n) }
    ensures grows { OnOk result (Grows pool.old pool.new) }
    ensures few { length pool.new.trees
        ≤ length pool.old.trees + nodes_of (derivation pool.old.trees lines.now) }

    // Full comes exactly where the pool has no room for all nodes of the tree.
    ensures room { OnOk result (length pool.old.trees
        + nodes_of (derivation pool.old.trees lines.now) ≤ pool.old.limit) }
    ensures full { (n : ℕ) → IsErrOf result (PoolError.Full n)
        → (n ≡ nodes_of (derivation pool.old.trees lines.now))
        × (pool.old.limit < length pool.old.trees + n) }
    ensures kept { OnErr result (pool.new.trees ≡ pool.old.trees) }
    ensures limit { pool.new.limit ≡ pool.old.limit }
{
    let mut makes = Vec::new(alloc);
    match push_lines(&mut makes, pool, lines) {
        Ok(()) => plant_parts(alloc, pool, &makes),
        Err(AllocError) => Err(PoolError::OutOfMemory),
    }
}

/// Makes a step, by what it says: its node stands for the tree that reading its text gives. Room is asked for all nodes of
/// its tree at once; where it fails, the pool is as it was.
pub fn write(alloc: Global, pool: &mut Pool, proposal: &Proposal) -> Result<NodeId, PoolError>
    requires { IsProposalBelow (length pool.old.trees) proposal.now }
    ensures tree { IfOk result (λ n.
        tree_at pool.new.trees (Some n) ≡ step_tree pool.old.trees proposal.now) }
    ensures live { IfOk result (λ n. n.0 < length pool.new.trees) }
    ensures grows { OnOk result (Grows pool.old pool.new) }
    ensures few { length pool.new.trees
        ≤ length pool.old.trees + nodes_of (step_tree pool.old.trees proposal.now) }

    // Full comes exactly where the pool has no room for all nodes of the tree.
    ensures room { OnOk result (length pool.old.trees
        + nodes_of (step_tree pool.old.trees proposal.now) ≤ pool.old.limit) }
    ensures full { (n : ℕ) → IsErrOf result (PoolError.Full n)
        → (n ≡ nodes_of (step_tree pool.old.trees proposal.now))
        × (pool.old.limit < length pool.old.trees + n) }
    ensures kept { OnErr result (pool.new.trees ≡ pool.old.trees) }
    ensures limit { pool.new.limit ≡ pool.old.limit }
{
    let mut makes = Vec::new(alloc);
    if let Err(AllocError) = push_step(&mut makes, pool, proposal) {
        return Err(PoolError::OutOfMemory);
    }
    let before = pool.mark();
    if let Some(node) = plant_parts(alloc, pool, &makes)? {
        return Ok(node);
    }
    pool.release(before);
    Err(PoolError::OutOfMemory)
}
