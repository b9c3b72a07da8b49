ghost use Rattle.std.specs.Prelude.{◌≡◌, ◌<◌, ◌^◌, IfOk, OnErr, OnOk, Some, length};
ghost use Rattle.cv_pool.specs.PoolView.{Grows};
ghost use Rattle.cv_syntax_trees.specs.Tree.{size};
ghost use Rattle.cv_syntax.specs.PoolTrees.{tree_at};
ghost use Rattle.cv_meaning.specs.contexts.Groups.{Group};
ghost use Rattle.cv_inline_measure.specs.Settings.{AreLiveSites};
ghost use Rattle.cv_inline_walk.specs.Made.{IsMade, error_of};
ghost use Rattle.cv_inline_walk.specs.Steps.{next_tree};

use crate::parts::plant_parts;
use cv_inline::terms::{Calling, Drawing};
use cv_inline_measure::measure;
use cv_syntax::limits::check_limits;
use cv_syntax::{BuildError, NodeId, Pool, PoolError};
use std::alloc::Global;

/// Why a game is not built, where the pool makes no tree of it.
fn build_error(fault: PoolError) -> BuildError
    ensures { result ≡ error_of fault }
{
    match fault {
        PoolError::Full { need } => BuildError::Full { need },
        PoolError::OutOfMemory => BuildError::OutOfMemory,
    }
}

/// Makes the next game of a context, where these are the drawn names, the variable of the key, the name and the type of the right
/// key, and the sites. It is measured first: a game beyond the limits is refused before a part of it is made. One reservation asks
/// for all nodes of its tree.
pub fn next_game(
    alloc: Global,
    pool: &mut Pool,
    drawn: &Drawing,
    key: u32,
    right_key: (u32, u32),
    callings: &[Calling],
    context: NodeId,
) -> Result<NodeId, BuildError>
    requires live { context.0 < length pool.old.trees }
    requires fits { size (tree_at pool.old.trees (Some context)) < 2 ^ 32 }
    requires sites { AreLiveSites pool.old.trees callings.now }
    ensures made { (g : Group) → g.key ≡ right_key → IsMade pool.old.limit
        (length pool.old.trees) (next_tree pool.old.trees drawn.now key callings.now g context)
        pool.new.trees result }
    ensures live { IfOk result (λ n. n.0 < length pool.new.trees) }
    ensures grows { OnOk result (Grows pool.old pool.new) }
    ensures kept { OnErr result (pool.new.trees ≡ pool.old.trees) }
    ensures limit { pool.new.limit ≡ pool.old.limit }
{
    let Ok(extent) = measure(alloc, pool, drawn, right_key.0, callings, context) else {
        return Err(BuildError::OutOfMemory);
    };
    check_limits(extent)?;
    match plant_parts(alloc, pool, drawn, key, right_key, callings, context) {
        Ok(root) => Ok(root),
        Err(fault) => Err(build_error(fault)),
    }
}
