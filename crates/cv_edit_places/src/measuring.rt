ghost use Rattle.std.specs.Prelude.{◌≡◌, ◌+◌, ◌<◌, ◌^◌, IfOk, Some, length};
ghost use Rattle.cv_syntax_trees.specs.Tree as tree;
ghost use Rattle.cv_syntax.specs.PoolTrees.{tree_at};
ghost use Rattle.cv_steps.specs.Changes.{change_at};
ghost use Rattle.cv_scene.specs.Scenes.{part_at};
ghost use Rattle.cv_edit_places.specs.Changes.{TermIsLive, change_of};

use crate::change::Change;
use cv_path::at;
use cv_path::extents::extent_with;
use cv_syntax::limits::Extent;
use cv_syntax::{NodeId, Pool};
use std::alloc::{AllocError, Global};

/// How large a game is with what stands at a place changed.
#[tactic(auto, using(crate::proofs::Extents::extents))]
pub fn measure(
    alloc: Global,
    pool: &Pool,
    root: NodeId,
    place: u32,
    change: &Change,
) -> Result<Extent, AllocError>
    requires live { root.0 < length pool.now.trees }
    requires term { TermIsLive pool.now.trees change.now }
    requires fits { tree.size (tree_at pool.now.trees (Some root))
        + tree.size (change_of pool.now.trees change.now
        (part_at (tree_at pool.now.trees (Some root)) place)) < 2 ^ 32 }
    requires there { place < tree.size (tree_at pool.now.trees (Some root)) }
    ensures nodes { IfOk result (λ e. e.nodes ≡ tree.size (change_at
        (tree_at pool.now.trees (Some root)) place (change_of pool.now.trees change.now))) }
    ensures depth { IfOk result (λ e. e.depth ≡ tree.depth (change_at
        (tree_at pool.now.trees (Some root)) place (change_of pool.now.trees change.now))) }
{
    let Some(part) = at(pool, root, place) else {
        unreachable!()
    };
    let new = change.extent(alloc, pool, part)?;
    Ok(extent_with(pool, root, place, part, new))
}
