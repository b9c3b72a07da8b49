ghost use Rattle.std.specs.Prelude.{◌≡◌, ◌+◌, ◌<◌, ◌^◌, length};
ghost use Rattle.cv_pool.specs.Nodes.{ChildBelow};
ghost use Rattle.cv_syntax_trees.specs.Head as head;
ghost use Rattle.cv_syntax_trees.specs.Tree as tree;
ghost use Rattle.cv_syntax.specs.PoolTrees.{tree_at};
ghost use Rattle.cv_path.specs.Places.{LiesAt};
ghost use Rattle.cv_derive_reasons.specs.sizes.Sizes.{AreSizes};

use crate::sizes::sizes::Sizes;
use cv_path::Lies;
use cv_pool::Pool;
use cv_syntax::Opened;

/// Where a place of a node lies, by the sizes that are known.
pub fn place_in(pool: &Pool, sizes: &Sizes, node: Opened, place: u32) -> Lies
    requires sizes { AreSizes pool.now.trees sizes.now }
    requires live { ChildBelow (length pool.now.trees) node.first }
    requires fits { head.weight node.head + tree.size (tree_at pool.now.trees node.first) < 2 ^ 32 }
    ensures { LiesAt node.head (tree_at pool.now.trees node.first) place result }
{
    let weight = node.head.weight();
    if place < weight {
        return Lies::Here;
    }
    let within = weight + sizes.size(pool, node.first);
    if place < within {
        return Lies::Within(place - weight);
    }
    Lies::Behind(place - within)
}
