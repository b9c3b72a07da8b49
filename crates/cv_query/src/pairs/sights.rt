ghost use Rattle.std.specs.Prelude.{◌≡◌, ◌++◌, ◌<◌, ◌^◌, IfOk, Some, length};
ghost use Rattle.cv_syntax_trees.specs.Tree.{size};
ghost use Rattle.cv_syntax.specs.PoolTrees.{tree_at};
ghost use Rattle.cv_typing.specs.Tables.{above_of};
ghost use Rattle.cv_scene.specs.Terms.{above_under, replications_at};
ghost use Rattle.cv_scene_view.specs.Kept.{scene_of};

use cv_query_parts::add_indices;
use cv_scene_view::indices_at;
use cv_syntax::{NodeId, Work};
use cv_syntax_trees::sites::Sort;
use std::alloc::{AllocError, Global};
use std::collections::HashMap;

/// The sorts of the indices of the replications above a place, and of those of a second copy.
pub(crate) fn indices_of_pair(
    alloc: Global,
    work: &Work,
    game: NodeId,
    place: u32,
    seconds: &[(u32, u32)],
) -> Result<HashMap<u32, Sort>, AllocError>
    requires live { game.0 < length work.now.pool.trees }
    requires fits { size (tree_at work.now.pool.trees (Some game)) < 2 ^ 32 }
    ensures { IfOk result (λ above. above_of above ≡ above_under
        (replications_at (scene_of work.now.pool work.now.decls game) place ++ seconds.now)) }
{
    let mut above = indices_at(alloc, work, game, place)?;
    add_indices(&mut above, seconds)?;
    Ok(above)
}
