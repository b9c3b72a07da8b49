ghost use Rattle.std.specs.Prelude.{◌≡◌, ◌+◌, ◌<◌, ◌≤◌, ◌^◌, length, Some, IfErr, IfOk, OnErr, OnOk};
ghost use Rattle.cv_pool.specs.PoolView.{Grows};
ghost use Rattle.cv_syntax.specs.Postorder.{postorder};
ghost use Rattle.cv_syntax_trees.specs.Tree.{Tree};
ghost use Rattle.cv_syntax.specs.PoolTrees.{tree_at};
ghost use Rattle.cv_parse.specs.Building.{Crowds};
ghost use Rattle.cv_parse.specs.Games.{nodes_of};

use crate::ParseError;
use cv_syntax::{BuildError, Make, NodeId, Pool, plant};
use std::alloc::Global;

/// How many parts of a tree are too many to be counted.
const TOO_MANY: u64 = 4_294_967_296;

/// Makes a tree in the pool. Parts that are too many to be counted are want of memory.
pub fn plant_one(alloc: Global, pool: &mut Pool, makes: &[Make]) -> Result<NodeId, ParseError>
    ensures tree { (t : Tree) → makes.now ≡ postorder t
        → IfOk result (λ root. tree_at pool.new.trees (Some root) ≡ t) }
    ensures live { IfOk result (λ root. root.0 < length pool.new.trees) }
    ensures room { (t : Tree) → makes.now ≡ postorder t
        → OnOk result (length pool.old.trees + nodes_of t ≤ pool.old.limit) }
    ensures crowds { (t : Tree) → makes.now ≡ postorder t
        → IfErr result (λ e. Crowds pool.old.limit (length pool.old.trees) (nodes_of t) e) }
    ensures grows { Grows pool.old pool.new }
    ensures kept { OnErr result (pool.new.trees ≡ pool.old.trees) }
{
    if makes.len() as u64 >= TOO_MANY {
        return Err(ParseError::Build(BuildError::OutOfMemory));
    }
    let before = pool.mark();
    let mut roots = plant(alloc, pool, makes)?;
    match roots.pop() {
        Some(Some(root)) => Ok(root),
        _ => {
            pool.release(before);
            Err(ParseError::Build(BuildError::OutOfMemory))
        }
    }
}
