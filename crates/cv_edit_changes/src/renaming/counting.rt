ghost use Rattle.std.specs.Prelude.{◌≡◌, ◌<◌, length};
ghost use Rattle.cv_pool.specs.Nodes.{ChildBelow};
ghost use Rattle.cv_syntax.specs.PoolTrees.{tree_at};
ghost use Rattle.cv_edit_changes.specs.renaming.Needs.{need_renaming};

use crate::renaming::heads::head_names;
use cv_syntax::{NodeId, Pool, read_node};

/// How many nodes of a tree have a name, or a node below that has it; more than a pool can have are as many as can be counted.
pub(crate) fn count_renaming(pool: &Pool, x: u32, start: Option<NodeId>) -> u32
    requires live { ChildBelow (length pool.now.trees) start }
    ensures { result ≡ need_renaming x (tree_at pool.now.trees start) }
{
    let mut total: u32 = 0;
    let mut passed: u32 = 0;
    let mut at = start;
    'chain: while let Some(k) = at {
        let node = read_node(pool, k);
        let below = count_renaming(pool, x, node.first);
        passed = passed.saturating_add(1);
        if below > 0 || head_names(x, node.head) {
            total = total.saturating_add(passed).saturating_add(below);
            passed = 0;
        }
        at = node.second;
    }
    total
}
