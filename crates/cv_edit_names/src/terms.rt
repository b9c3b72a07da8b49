ghost use Rattle.std.specs.Prelude.{◌≡◌, ◌<◌, ◌++◌, OnOk, length};
ghost use Rattle.cv_pool.specs.Nodes.{ChildBelow};
ghost use Rattle.cv_syntax.specs.PoolTrees.{tree_at};
ghost use Rattle.cv_syntax.specs.Postorder.{postorder};
ghost use Rattle.cv_edit_names.specs.Cells as cells;
ghost use Rattle.cv_edit_names.specs.Cells.{with_names};
ghost use Rattle.cv_edit_names.specs.Kept.{AreLive, around_in, naming_in};
ghost use Rattle.cv_edit_names.specs.Splitting.{message_with_name, names_known, with_name};

use crate::around::{Around, name_known};
use crate::heads::{called_head, named_head};
use crate::naming::Naming;
use cv_syntax::listing::{close, copy};
use cv_syntax::{Head, Make, NodeId, Pool, read_node};
use std::alloc::{AllocError, Global};

/// The head of a term, where a read of a cell with a name is one of that name.
fn read_head(pool: &Pool, x: u32, around: &Around, head: Head, term: Option<NodeId>) -> Head
    requires looked { AreLive (length pool.now.trees) around.now.looked_for.now }
    requires live { ChildBelow (length pool.now.trees) term }
    ensures { result ≡ cells.called_head head (cells.name_of
        (names_known (around_in pool.now.trees x around.now)) (tree_at pool.now.trees term)) }
{
    match head {
        Head::Leaf(_) | Head::Read(_) => called_head(head, name_known(pool, x, around, term)),
        _ => head,
    }
}

/// Lists a tree in which each read of a cell that has a name is one of that name, each node behind its children.
pub(crate) fn list_named(
    alloc: Global,
    pool: &Pool,
    makes: &mut Vec<Make>,
    x: u32,
    around: &Around,
    start: Option<NodeId>,
) -> Result<(), AllocError>
    requires looked { AreLive (length pool.now.trees) around.now.looked_for.now }
    requires live { ChildBelow (length pool.now.trees) start }
    ensures { OnOk result (makes.new.items ≡ makes.old.items
        ++ postorder (with_names (names_known (around_in pool.now.trees x around.now))
        (tree_at pool.now.trees start))) }
{
    let mut heads = Vec::new(alloc);
    let mut at = start;
    'chain: while let Some(k) = at {
        let node = read_node(pool, k);
        list_named(alloc, pool, makes, x, around, node.first)?;
        heads.push(read_head(pool, x, around, node.head, at))?;
        at = node.second;
    }
    makes.push(Make::Nothing)?;
    close(makes, heads)
}

/// Lists binders at a place with the name of the definition there, each node behind its children.
pub(crate) fn list_binders(
    alloc: Global,
    pool: &Pool,
    makes: &mut Vec<Make>,
    naming: &Naming,
    place: u32,
    start: Option<NodeId>,
) -> Result<(), AllocError>
    requires live { ChildBelow (length pool.now.trees) start }
    ensures { OnOk result (makes.new.items ≡ makes.old.items
        ++ postorder (with_name (naming_in naming.now) place (tree_at pool.now.trees start))) }
{
    let mut heads = Vec::new(alloc);
    let mut at = start;
    'chain: while let Some(k) = at {
        let node = read_node(pool, k);
        list_binders(alloc, pool, makes, naming, place, node.first)?;
        heads.push(named_head(naming, place, node.head))?;
        at = node.second;
    }
    makes.push(Make::Nothing)?;
    close(makes, heads)
}

/// Lists the message of an input at a place, its binders with the name of the definition there.
pub(crate) fn list_message(
    alloc: Global,
    pool: &Pool,
    makes: &mut Vec<Make>,
    naming: &Naming,
    place: u32,
    message: Option<NodeId>,
) -> Result<(), AllocError>
    requires live { ChildBelow (length pool.now.trees) message }
    ensures { OnOk result (makes.new.items ≡ makes.old.items
        ++ postorder (message_with_name (naming_in naming.now) place
        (tree_at pool.now.trees message))) }
{
    let Some(n) = message else {
        makes.push(Make::Nothing)?;
        return Ok(());
    };
    let node = read_node(pool, n);
    copy(alloc, pool, makes, node.first)?;
    list_binders(alloc, pool, makes, naming, place, node.second)?;
    makes.push(Make::Over(node.head))?;
    Ok(())
}
