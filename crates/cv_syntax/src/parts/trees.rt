ghost use Rattle.std.specs.Prelude.{◌≡◌, ◌++◌, OnOk, length};
ghost use Rattle.cv_pool.specs.Nodes.{ChildBelow};
ghost use Rattle.cv_syntax.specs.Postorder.{postorder};
ghost use Rattle.cv_syntax.specs.PoolTrees.{tree_at};
ghost use Rattle.cv_syntax.specs.parts.Closing.{closing};

use crate::{Head, Make, NodeId, Pool, read_node};
use std::alloc::AllocError;

/// Makes nodes over the trees before them, the last head first.
#[tactic(auto, using(crate::proofs::parts::Making::making))]
pub fn close(makes: &mut Vec<Make>, heads: Vec<Head>) -> Result<(), AllocError>
    ensures { OnOk result (makes.new.items ≡ makes.old.items ++ closing heads.items) }
{
    let mut open = heads;
    'heads: while let Some(head) = open.pop() {
        makes.push(Make::Over(head))?;
    }
    Ok(())
}

/// Makes a copy of a tree.
#[tactic(auto, using(crate::proofs::parts::Making::making))]
pub fn push_tree(makes: &mut Vec<Make>, pool: &Pool, tree: Option<NodeId>) -> Result<(), AllocError>
    requires { ChildBelow (length pool.now.trees) tree }
    ensures { OnOk result (makes.new.items
        ≡ makes.old.items ++ postorder (tree_at pool.now.trees tree)) }
{
    let mut heads = Vec::new(*makes.allocator());
    let mut at = tree;
    'chain: while let Some(n) = at {
        let node = read_node(pool, n);
        push_tree(makes, pool, node.first)?;
        heads.push(node.head)?;
        at = node.second;
    }
    makes.push(Make::Nothing)?;
    close(makes, heads)
}
