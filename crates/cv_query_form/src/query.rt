ghost use Rattle.std.specs.Prelude.{◌≡◌, ◌<◌, length, IfOk, Some};
ghost use Rattle.cv_pool.specs.Nodes.{ChildBelow};
ghost use Rattle.cv_syntax.specs.PoolTrees.{tree_at};
ghost use Rattle.cv_directory.specs.Tables.{seen};
ghost use Rattle.cv_query_form.specs.Held.{correspondence_passes, secret_passes, valued};
ghost use Rattle.cv_query_form.specs.Tests.{passes, sides_pass};

use crate::alternatives::has_few_alternatives;
use crate::arguments::is_left_event;
use crate::marks::are_marked_alike;
use crate::secrets::has_values;
use cv_directory::Directory;
use cv_syntax::children::variables_of;
use cv_syntax::{Head, NodeId, Opened, Pool, read_node};
use std::alloc::{AllocError, Global};

/// Whether a query may be asked of the game with these sites.
pub fn may_be_asked(
    alloc: Global,
    pool: &Pool,
    sites: &Directory,
    query: NodeId,
) -> Result<bool, AllocError>
    requires { query.0 < length pool.now.trees }
    ensures { IfOk result (λ yes. yes
        ≡ passes (valued (seen sites.now)) (tree_at pool.now.trees (Some query))) }
{
    let node = read_node(pool, query);
    match node.head {
        Head::Query => correspondence_may_be_asked(alloc, pool, node.first, node.second),
        Head::Secret(x) | Head::SecretOnce(x) => {
            Ok(node.first.is_none() && node.second.is_none() && has_values(sites, x))
        }
        _ => Ok(false),
    }
}

/// Whether a correspondence with these binders and events may be asked.
fn correspondence_may_be_asked(
    alloc: Global,
    pool: &Pool,
    binders: Option<NodeId>,
    events: Option<NodeId>,
) -> Result<bool, AllocError>
    requires binders { ChildBelow (length pool.now.trees) binders }
    requires events { ChildBelow (length pool.now.trees) events }
    ensures { IfOk result (λ yes. yes
        ≡ correspondence_passes (tree_at pool.now.trees binders) (tree_at pool.now.trees events)) }
{
    let Some(k) = events else {
        return Ok(false);
    };
    let cell = read_node(pool, k);
    if !matches!(cell.head, Head::Cons) {
        return Ok(false);
    }
    let variables = variables_of(alloc, pool, binders)?;
    if !is_left_event(pool, variables, cell.first) {
        return Ok(false);
    }
    Ok(sides_may_be_asked(pool, cell.first, cell.second))
}

/// Whether the sides of a correspondence go together.
fn sides_may_be_asked(pool: &Pool, left: Option<NodeId>, right: Option<NodeId>) -> bool
    requires left { ChildBelow (length pool.now.trees) left }
    requires right { ChildBelow (length pool.now.trees) right }
    ensures { result ≡ sides_pass (tree_at pool.now.trees left) (tree_at pool.now.trees right) }
{
    are_marked_alike(pool, left, right) && has_few_alternatives(pool, right)
}
