ghost use Rattle.std.specs.Prelude.{◌≡◌, ◌<◌, ◌==◌, ◌^◌, length};
ghost use Rattle.cv_pool.specs.Nodes.{ChildBelow};
ghost use Rattle.cv_syntax_trees.specs.Tree.{size};
ghost use Rattle.cv_syntax.specs.PoolTrees.{tree_at};
ghost use Rattle.cv_scene.specs.Refusals as refusals;
ghost use Rattle.cv_match_terms.specs.uses.Tallies.{tally_at};

use cv_match_terms::uses::{UseTable, uses};
use cv_syntax::{NodeId, Pool};

/// Whether the game of a table uses a variable as often as a function's body uses a coin.
pub fn is_used_as_often(
    pool: &Pool,
    table: &UseTable,
    x: u32,
    coin: u32,
    body: Option<NodeId>,
) -> bool
    requires live { ChildBelow (length pool.now.trees) body }
    requires fits { size (tree_at pool.now.trees body) < 2 ^ 32 }
    ensures { result ≡ ((tally_at table.now.entries.items x).uses
        == refusals.uses coin (tree_at pool.now.trees body)) }
{
    table.uses_of(x) == uses(pool, coin, body)
}
