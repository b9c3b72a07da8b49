ghost use Rattle.std.specs.Prelude.{◌≡◌, ◌∷◌, ◌+◌, ◌<◌, ◌≤◌, [], ℕ, IfOk, IsErrOf, OnErr, OnOk, Some, length};
ghost use Rattle.cv_pool.specs.PoolView.{Grows};
ghost use Rattle.cv_syntax.specs.PoolTrees.{tree_at};
ghost use Rattle.cv_meaning.specs.contexts.Groups.{Group};
ghost use Rattle.cv_inline.specs.terms.Stacks.{stack};
ghost use Rattle.cv_syntax.specs.limits.Limits.{nodes_of};
ghost use Rattle.cv_inline_measure.specs.Settings.{AreLiveSites};
ghost use Rattle.cv_inline_walk.specs.Steps.{next_tree};

use crate::game::game;
use crate::step::Step;
use cv_inline::terms::{Calling, Drawing};
use cv_syntax::limits::plant_tree;
use cv_syntax::{Make, NodeId, Pool, PoolError};
use std::alloc::{AllocError, Global};

/// The parts of the next game of a context.
fn parts(
    alloc: Global,
    pool: &Pool,
    drawn: &Drawing,
    key: u32,
    right_key: (u32, u32),
    callings: &[Calling],
    context: NodeId,
) -> Result<Vec<Make>, AllocError>
    requires live { context.0 < length pool.now.trees }
    requires sites { AreLiveSites pool.now.trees callings.now }
    ensures { (g : Group) → g.key ≡ right_key → IfOk result (λ parts. stack parts.items
        ≡ next_tree pool.now.trees drawn.now key callings.now g context ∷ []) }
{
    let step = Step {
        pool,
        drawn,
        callings,
        key,
        right_key,
    };
    let mut parts = Vec::new(alloc);
    game(alloc, &step, &[], &mut parts, Some(context))?;
    Ok(parts)
}

/// Makes the next game of a context, however large. One reservation asks for all nodes of its tree. Where it fails, the pool has
/// the trees that it had.
pub(crate) fn plant_parts(
    alloc: Global,
    pool: &mut Pool,
    drawn: &Drawing,
    key: u32,
    right_key: (u32, u32),
    callings: &[Calling],
    context: NodeId,
) -> Result<NodeId, PoolError>
    requires live { context.0 < length pool.old.trees }
    requires sites { AreLiveSites pool.old.trees callings.now }
    ensures tree { (g : Group) → g.key ≡ right_key → IfOk result (λ n.
        tree_at pool.new.trees (Some n)
        ≡ next_tree pool.old.trees drawn.now key callings.now g context) }
    ensures live { IfOk result (λ n. n.0 < length pool.new.trees) }
    ensures grows { OnOk result (Grows pool.old pool.new) }
    ensures room { (g : Group) → g.key ≡ right_key → OnOk result (length pool.old.trees
        + nodes_of (next_tree pool.old.trees drawn.now key callings.now g context)
        ≤ pool.old.limit) }
    ensures full { (n : ℕ) → IsErrOf result (PoolError.Full n) → (g : Group) →
        g.key ≡ right_key →
        (n ≡ nodes_of (next_tree pool.old.trees drawn.now key callings.now g context))
        × (pool.old.limit < length pool.old.trees + n) }
    ensures kept { OnErr result (pool.new.trees ≡ pool.old.trees) }
    ensures limit { pool.new.limit ≡ pool.old.limit }
{
    match parts(alloc, pool, drawn, key, right_key, callings, context) {
        Ok(parts) => plant_tree(alloc, pool, parts.as_slice()),
        Err(AllocError) => Err(PoolError::OutOfMemory),
    }
}
