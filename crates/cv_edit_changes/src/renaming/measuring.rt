ghost use Rattle.std.specs.Prelude.{◌≡◌, ◌<◌, ◌^◌, Some, length, ℕ};
ghost use Rattle.cv_syntax_trees.specs.Tree as tree;
ghost use Rattle.cv_syntax.specs.PoolTrees.{tree_at};
ghost use Rattle.cv_steps.specs.Renaming.{renamed};

use cv_syntax::limits::Extent;
use cv_syntax::{NodeId, Pool, depth, size};

/// How large a game is with another name in the place of a variable's: just as large as it was.
pub fn measure_renaming(pool: &Pool, game: NodeId) -> Extent
    requires live { game.0 < length pool.now.trees }
    requires fits { tree.size (tree_at pool.now.trees (Some game)) < 2 ^ 32 }
    ensures nodes { (x y : ℕ) → result.nodes
        ≡ tree.size (renamed x y (tree_at pool.now.trees (Some game))) }
    ensures depth { (x y : ℕ) → result.depth
        ≡ tree.depth (renamed x y (tree_at pool.now.trees (Some game))) }
{
    Extent {
        nodes: size(pool, game),
        depth: depth(pool, game),
    }
}
