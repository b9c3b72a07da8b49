ghost use Rattle.std.specs.Prelude.{◌≡◌, ◌&&◌, ◌+◌, ◌<◌, ◌∷◌, OnOk, Some, length};
ghost use Rattle.cv_pool.specs.Nodes.{ChildBelow};
ghost use Rattle.cv_syntax_trees.specs.Children as children;
ghost use Rattle.cv_syntax.specs.PoolTrees.{tree_at};
ghost use Rattle.cv_scene.specs.lines.Inferences.{equations_of};
ghost use Rattle.cv_scope_rules.specs.Context.{items};
ghost use Rattle.cv_edit_places.specs.Parts.{AreLive, made_by, stack_of};
ghost use Rattle.cv_rule_birthday.specs.Comparing.{compared, same_indices};
ghost use Rattle.cv_rule_birthday.specs.Needs.{made_of_compared, made_of_equations, made_of_indices};

use cv_edit_places::Parts;
use cv_syntax::children::{first_of, is_empty};
use cv_syntax::{Head, NodeId, Pool, read_node};
use std::alloc::AllocError;

fn are_empty(pool: &Pool, left: Option<NodeId>, right: Option<NodeId>) -> bool
    requires left { ChildBelow (length pool.now.trees) left }
    requires right { ChildBelow (length pool.now.trees) right }
    ensures { result ≡ (children.is_empty (tree_at pool.now.trees left)
        && children.is_empty (tree_at pool.now.trees right)) }
{
    is_empty(pool, left) && is_empty(pool, right)
}

/// Lists the equations between two lists of indices, joined.
fn add_equations(
    pool: &Pool,
    parts: &mut Parts,
    left: Option<NodeId>,
    right: Option<NodeId>,
) -> Result<(), AllocError>
    requires left { ChildBelow (length pool.now.trees) left }
    requires right { ChildBelow (length pool.now.trees) right }
    ensures stack { OnOk result (stack_of pool.now.trees parts.new
        ≡ equations_of (items (tree_at pool.now.trees left))
        (items (tree_at pool.now.trees right)) ∷ stack_of pool.now.trees parts.old) }
    ensures made { OnOk result (made_by parts.new ≡ made_by parts.old
        + made_of_equations (items (tree_at pool.now.trees left))
        (items (tree_at pool.now.trees right))) }
    ensures live { OnOk result (AreLive (length pool.now.trees) parts.old
        → AreLive (length pool.now.trees) parts.new) }
{
    let Some(l) = left else {
        return parts.there(None);
    };
    let Some(r) = right else {
        return parts.there(None);
    };
    let m = read_node(pool, l);
    let n = read_node(pool, r);
    parts.there(m.first)?;
    parts.there(n.first)?;
    parts.over(Head::Eq)?;
    let ended = are_empty(pool, m.second, n.second);
    if ended {
        return Ok(());
    }
    add_equations(pool, parts, m.second, n.second)?;
    parts.over(Head::And)
}

/// Lists the comparison of two lists of indices, `true` where there are none.
fn add_indices(
    pool: &Pool,
    parts: &mut Parts,
    left: Option<NodeId>,
    right: Option<NodeId>,
) -> Result<(), AllocError>
    requires left { ChildBelow (length pool.now.trees) left }
    requires right { ChildBelow (length pool.now.trees) right }
    ensures stack { OnOk result (stack_of pool.now.trees parts.new
        ≡ same_indices (items (tree_at pool.now.trees left))
        (items (tree_at pool.now.trees right)) ∷ stack_of pool.now.trees parts.old) }
    ensures made { OnOk result (made_by parts.new ≡ made_by parts.old
        + made_of_indices (items (tree_at pool.now.trees left))
        (items (tree_at pool.now.trees right))) }
    ensures live { OnOk result (AreLive (length pool.now.trees) parts.old
        → AreLive (length pool.now.trees) parts.new) }
{
    let bare = is_empty(pool, left);
    if bare {
        parts.there(None)?;
        parts.there(None)?;
        return parts.over(Head::Yes);
    }
    add_equations(pool, parts, left, right)
}

/// Lists what becomes of a comparison of two cells.
pub(crate) fn add_compared(pool: &Pool, parts: &mut Parts, at: NodeId) -> Result<(), AllocError>
    requires live { at.0 < length pool.now.trees }
    ensures stack { OnOk result (stack_of pool.now.trees parts.new
        ≡ compared (tree_at pool.now.trees (Some at)) ∷ stack_of pool.now.trees parts.old) }
    ensures made { OnOk result (made_by parts.new ≡ made_by parts.old
        + made_of_compared (tree_at pool.now.trees (Some at))) }
    ensures live { OnOk result (AreLive (length pool.now.trees) parts.old
        → AreLive (length pool.now.trees) parts.new) }
{
    let node = read_node(pool, at);
    match node.head {
        Head::Eq => {
            let left = first_of(pool, node.first);
            let right = first_of(pool, node.second);
            add_indices(pool, parts, left, right)
        }
        _ => parts.there(Some(at)),
    }
}
