ghost use Rattle.std.specs.Prelude.{◌≡◌, ◌++◌, ◌*◌, ◌+◌, ◌^◌, ◌<◌, [], OnOk, Some, length, codes, replicate, is_none};
ghost use Rattle.cv_pool.specs.Nodes.{ChildBelow};
ghost use Rattle.cv_syntax_trees.specs.Tree.{Node, first, second};
ghost use Rattle.cv_syntax.specs.PoolTrees.{tree_at};
ghost use Rattle.cv_syntax_trees.specs.Children.{is_empty};
ghost use Rattle.cv_print.specs.Numbers.{above};
ghost use Rattle.cv_print.specs.Games.{line, channel_text, arguments_text, indices_text, cells_text};

use crate::terms::push_terms;
use crate::words::{push_entries, push_name};
use cv_syntax::{Names, NodeId, Opened, Pool, read_node};
use std::alloc::AllocError;

/// Appends the spaces in front of a line.
pub(crate) fn push_indent(out: &mut Vec<u8>, level: usize) -> Result<(), AllocError>
    requires { level < 2 ^ 40 }
    ensures { OnOk result (out.new.items ≡ out.old.items ++ replicate (2 * level) 32) }
{
    'spaces: for _ in 0..2 * level {
        out.push(b' ')?;
    }
    Ok(())
}

/// Appends a line.
pub(crate) fn push_line(out: &mut Vec<u8>, level: usize, text: &[u8]) -> Result<(), AllocError>
    requires { level < 2 ^ 40 }
    ensures { OnOk result (out.new.items ≡ out.old.items ++ line level text.now) }
{
    push_indent(out, level)?;
    out.extend_from_slice(text)?;
    out.extend_from_slice(b"\n")
}

/// A node as a node of a tree. Only an empty tree has no node.
pub(crate) fn open_node(pool: &Pool, n: NodeId) -> Opened
    requires { n.0 < length pool.now.trees }
    ensures tree { tree_at pool.now.trees (Some n)
        ≡ Node result.head (tree_at pool.now.trees result.first) (tree_at pool.now.trees result.second) }
    ensures first { ChildBelow n.0 result.first }
    ensures second { ChildBelow n.0 result.second }
    ensures no_first { is_none result.first ≡ is_empty (tree_at pool.now.trees result.first) }
    ensures no_second { is_none result.second ≡ is_empty (tree_at pool.now.trees result.second) }
{
    read_node(pool, n)
}

/// The children of a node, where there is one.
#[tactic(auto, using(crate::proofs::Readings::step_laws))]
pub(crate) fn children(pool: &Pool, node: Option<NodeId>) -> (Option<NodeId>, Option<NodeId>)
    requires { ChildBelow (length pool.now.trees) node }
    ensures below_first { ChildBelow (above node) result.0 }
    ensures below_second { ChildBelow (above node) result.1 }
    ensures live_first { ChildBelow (length pool.now.trees) result.0 }
    ensures live_second { ChildBelow (length pool.now.trees) result.1 }
    ensures first { tree_at pool.now.trees result.0 ≡ first (tree_at pool.now.trees node) }
    ensures second { tree_at pool.now.trees result.1 ≡ second (tree_at pool.now.trees node) }
    ensures no_first { is_none result.0 ≡ is_empty (tree_at pool.now.trees result.0) }
{
    match node {
        Some(n) => {
            let opened = open_node(pool, n);
            (opened.first, opened.second)
        }
        None => (None, None),
    }
}

/// Appends a channel at its indices.
#[tactic(auto, using(crate::proofs::Readings::step_laws))]
pub(crate) fn push_channel(
    out: &mut Vec<u8>,
    pool: &Pool,
    names: &Names,
    channel: u32,
    indices: Option<NodeId>,
) -> Result<(), AllocError>
    requires live { ChildBelow (length pool.now.trees) indices }
    requires shown { is_none indices ≡ is_empty (tree_at pool.now.trees indices) }
    ensures { OnOk result (out.new.items
        ≡ out.old.items ++ channel_text names.now channel (tree_at pool.now.trees indices)) }
{
    push_name(out, names, channel)?;
    if indices.is_none() {
        return Ok(());
    }
    out.extend_from_slice(b"[")?;
    push_entries(out, pool, names, b"", indices)?;
    out.extend_from_slice(b"]")
}

/// Appends the arguments of an event, where there are any.
#[tactic(auto, using(crate::proofs::Readings::step_laws))]
pub(crate) fn push_arguments(
    out: &mut Vec<u8>,
    pool: &Pool,
    names: &Names,
    terms: Option<NodeId>,
) -> Result<(), AllocError>
    requires live { ChildBelow (length pool.now.trees) terms }
    requires shown { is_none terms ≡ is_empty (tree_at pool.now.trees terms) }
    ensures { OnOk result (out.new.items
        ≡ out.old.items ++ arguments_text names.now (tree_at pool.now.trees terms)) }
{
    if terms.is_none() {
        return Ok(());
    }
    out.extend_from_slice(b"(")?;
    push_terms(out, pool, names, terms)?;
    out.extend_from_slice(b")")
}

/// Appends the indices of a branch, where there are any.
#[tactic(auto, using(crate::proofs::Readings::step_laws))]
pub(crate) fn push_indices(
    out: &mut Vec<u8>,
    pool: &Pool,
    names: &Names,
    indices: Option<NodeId>,
) -> Result<(), AllocError>
    requires live { ChildBelow (length pool.now.trees) indices }
    requires shown { is_none indices ≡ is_empty (tree_at pool.now.trees indices) }
    ensures { OnOk result (out.new.items
        ≡ out.old.items ++ indices_text names.now (tree_at pool.now.trees indices)) }
{
    if indices.is_none() {
        return Ok(());
    }
    out.extend_from_slice(b" ")?;
    push_entries(out, pool, names, b" <= ", indices)
}

/// Appends the cells that have to be defined, where there are any.
#[tactic(auto, using(crate::proofs::Readings::step_laws))]
pub(crate) fn push_cells(
    out: &mut Vec<u8>,
    pool: &Pool,
    names: &Names,
    cells: Option<NodeId>,
) -> Result<(), AllocError>
    requires live { ChildBelow (length pool.now.trees) cells }
    requires shown { is_none cells ≡ is_empty (tree_at pool.now.trees cells) }
    ensures { OnOk result (out.new.items
        ≡ out.old.items ++ cells_text names.now (tree_at pool.now.trees cells)) }
{
    if cells.is_none() {
        return Ok(());
    }
    out.extend_from_slice(b"defined(")?;
    push_terms(out, pool, names, cells)?;
    out.extend_from_slice(b") && ")
}
