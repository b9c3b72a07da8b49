ghost use Rattle.std.specs.Prelude.{◌≡◌, ◌<◌, ◌^◌, Some, length, option_map};
ghost use Rattle.cv_syntax_trees.specs.Tree as tree;
ghost use Rattle.cv_syntax.specs.PoolTrees.{tree_at};
ghost use Rattle.cv_edit_changes.specs.pruning.Bodies.{game_without, part_of};

use crate::pruning::body::Body;
use crate::pruning::left::left_extent;
use cv_path::at;
use cv_path::extents::extent_with;
use cv_syntax::limits::Extent;
use cv_syntax::{NodeId, Pool, read_node};

/// How large a game is without a body of the construct at a place. There is no answer where there is no such body.
pub fn measure_without_body(pool: &Pool, root: NodeId, place: u32, body: Body) -> Option<Extent>
    requires live { root.0 < length pool.now.trees }
    requires fits { tree.size (tree_at pool.now.trees (Some root)) < 2 ^ 31 }
    ensures nodes { option_map (λ e. e.nodes) result ≡ option_map tree.size
        (game_without (tree_at pool.now.trees (Some root)) place (part_of body)) }
    ensures depth { option_map (λ e. e.depth) result ≡ option_map tree.depth
        (game_without (tree_at pool.now.trees (Some root)) place (part_of body)) }
{
    let part = at(pool, root, place)?;
    let construct = read_node(pool, part);
    let new = left_extent(pool, construct, body)?;
    Some(extent_with(pool, root, place, part, new))
}
