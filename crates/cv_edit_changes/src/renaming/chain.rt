ghost use Rattle.std.specs.Prelude.{◌≡◌, ◌<◌, IfOk, None, length};
ghost use Rattle.cv_pool.specs.Nodes.{ChildBelow};
ghost use Rattle.cv_edit_changes.specs.renaming.Chains.{IsChain};

use cv_syntax::{NodeId, Opened, Pool, read_node};
use std::alloc::{AllocError, Global};

/// A node of a pool, and what it is.
#[derive(Clone, Copy)]
pub struct Link {
    pub id: NodeId,
    pub node: Opened,
}

/// A node, its second child, the second child of that, and so on to the last.
pub(crate) fn chain(
    alloc: Global,
    pool: &Pool,
    start: Option<NodeId>,
) -> Result<Vec<Link>, AllocError>
    requires live { ChildBelow (length pool.now.trees) start }
    ensures { IfOk result (λ links. IsChain pool.now.trees start links.items None) }
{
    let mut links = Vec::new(alloc);
    let mut at = start;
    'chain: while let Some(id) = at {
        let node = read_node(pool, id);
        links.push(Link { id, node })?;
        at = node.second;
    }
    Ok(links)
}
