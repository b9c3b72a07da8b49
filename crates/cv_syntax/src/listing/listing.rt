ghost use Rattle.std.specs.Prelude.{◌≡◌, ◌<◌, ◌++◌, OnOk, length, map, reverse};
ghost use Rattle.cv_pool.specs.Nodes.{ChildBelow};
ghost use Rattle.cv_syntax.specs.Postorder.{postorder};
ghost use Rattle.cv_syntax.specs.PoolTrees.{tree_at};
ghost use Rattle.cv_syntax.specs.declared.make.Make.TheVariants as make;

use crate::{Head, Make, NodeId, Pool, read_node};
use std::alloc::{AllocError, Global};

/// Makes nodes over what was listed, the newest head first.
pub fn close(makes: &mut Vec<Make>, heads: Vec<Head>) -> Result<(), AllocError>
    ensures { OnOk result (makes.new.items
        ≡ makes.old.items ++ map make.Over (reverse heads.items)) }
{
    let mut left = heads;
    'up: while let Some(head) = left.pop() {
        makes.push(Make::Over(head))?;
    }
    Ok(())
}

/// Lists a tree of the pool, each node behind its children.
pub fn copy(
    alloc: Global,
    pool: &Pool,
    makes: &mut Vec<Make>,
    start: Option<NodeId>,
) -> Result<(), AllocError>
    requires live { ChildBelow (length pool.now.trees) start }
    ensures { OnOk result (makes.new.items
        ≡ makes.old.items ++ postorder (tree_at pool.now.trees start)) }
{
    let mut heads = Vec::new(alloc);
    let mut at = start;
    'chain: while let Some(k) = at {
        let node = read_node(pool, k);
        copy(alloc, pool, makes, node.first)?;
        heads.push(node.head)?;
        at = node.second;
    }
    makes.push(Make::Nothing)?;
    close(makes, heads)
}
