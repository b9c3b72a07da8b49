ghost use Rattle.std.specs.Prelude.{◌≡◌, ◌<◌, ◌^◌, if◌then◌else◌, length};
ghost use Rattle.cv_pool.specs.Nodes.{ChildBelow};
ghost use Rattle.cv_syntax_trees.specs.Tree.{size};
ghost use Rattle.cv_syntax.specs.PoolTrees.{tree_at};
ghost use Rattle.cv_scene.specs.Scenes.{head_reads};
ghost use Rattle.cv_scene.specs.Refusals as refusals;

use crate::uses::heads::is_reading;
use cv_syntax::{Head, NodeId, Pool, read_node};

/// How many uses of a variable a node is itself.
fn use_here(x: u32, head: Head) -> u32
    ensures { result ≡ if head_reads x head then 1 else 0 }
{
    if is_reading(x, head) { 1 } else { 0 }
}

/// How many nodes of a tree read a variable or name it in a `defined` list.
pub fn uses(pool: &Pool, x: u32, tree: Option<NodeId>) -> u32
    requires live { ChildBelow (length pool.now.trees) tree }
    requires fits { size (tree_at pool.now.trees tree) < 2 ^ 32 }
    ensures { result ≡ refusals.uses x (tree_at pool.now.trees tree) }
{
    let mut total = 0;
    let mut at = tree;
    'tree: while let Some(k) = at {
        let node = read_node(pool, k);
        total += use_here(x, node.head);
        total += uses(pool, x, node.first);
        at = node.second;
    }
    total
}
