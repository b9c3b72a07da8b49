ghost use Rattle.std.specs.Prelude.{◌≡◌, ◌<◌, ◌^◌, length};
ghost use Rattle.cv_pool.specs.Nodes.{ChildBelow};
ghost use Rattle.cv_syntax_trees.specs.Tree.{size};
ghost use Rattle.cv_syntax.specs.PoolTrees.{tree_at};
ghost use Rattle.cv_inline_laws.specs.extents.Extents.{extent};
ghost use Rattle.cv_inline_measure.specs.Counts.{measure_in};
ghost use Rattle.cv_syntax.specs.limits.Limits.{told};

use crate::measuring::Measure;
use cv_path::extents::depth_below;
use cv_path::size_below;
use cv_syntax::{NodeId, Pool};

/// What a tree of the pool has.
pub(crate) fn extent_below(pool: &Pool, measure: Measure, child: Option<NodeId>) -> u32
    requires live { ChildBelow (length pool.now.trees) child }
    requires fits { size (tree_at pool.now.trees child) < 2 ^ 32 }
    ensures { result ≡ told (extent (measure_in measure) (tree_at pool.now.trees child)) }
{
    match measure {
        Measure::Nodes => size_below(pool, child),
        Measure::Path => depth_below(pool, child),
    }
}
