ghost use Rattle.std.specs.Prelude.{◌≡◌, ◌+◌, ◌<◌, ◌∷◌, [], IfOk, IfSome, OnOk, Some, is_some, length};
ghost use Rattle.cv_pool.specs.Nodes.{ChildBelow};
ghost use Rattle.cv_syntax_trees.specs.Tree.{Node};
ghost use Rattle.cv_syntax.specs.PoolTrees.{tree_at};
ghost use Rattle.cv_edit_places.specs.Parts.{AreLive, made_by, stack_of};
ghost use Rattle.cv_rule_codef.specs.Lists as lists;
ghost use Rattle.cv_rule_codef.specs.Lists.{relisted, with_cell, without_cell};
ghost use Rattle.cv_rule_codef.specs.Needs.{made_of_relisted, made_with, made_without};
ghost use Rattle.cv_rule_codef.specs.Site.{IsBranch};

use cv_edit_places::Parts;
use cv_syntax::children::{first_of, read_child};
use cv_syntax::{Head, NodeId, Opened, Pool, read_node, same};
use std::alloc::{AllocError, Global};

/// Whether a list has a cell.
fn has_cell(pool: &Pool, cell: NodeId, list: Option<NodeId>) -> bool
    requires cell { cell.0 < length pool.now.trees }
    requires list { ChildBelow (length pool.now.trees) list }
    ensures { result ≡ lists.has_cell (tree_at pool.now.trees (Some cell))
        (tree_at pool.now.trees list) }
{
    let mut at = list;
    'cells: while let Some(n) = at {
        let link = read_node(pool, n);
        if same(pool, link.first, Some(cell)) {
            return true;
        }
        at = link.second;
    }
    false
}

/// Whether a tree is a branch whose list has a cell.
pub(crate) fn lists(pool: &Pool, cell: NodeId, branch: Option<NodeId>) -> bool
    requires cell { cell.0 < length pool.now.trees }
    requires branch { ChildBelow (length pool.now.trees) branch }
    ensures { result ≡ lists.lists (tree_at pool.now.trees (Some cell))
        (tree_at pool.now.trees branch) }
{
    let Some(node) = read_child(pool, branch) else {
        return false;
    };
    let Head::Branch = node.head else {
        return false;
    };
    has_cell(pool, cell, first_of(pool, node.second))
}

/// A branch, and the link of its list.
#[derive(Clone, Copy)]
pub(crate) struct Site {
    pub(crate) branch: Opened,
    pub(crate) link: Opened,
}

/// A branch whose list has a cell.
pub(crate) fn site_of(pool: &Pool, cell: NodeId, branch: Option<NodeId>) -> Option<Site>
    requires cell { cell.0 < length pool.now.trees }
    requires branch { ChildBelow (length pool.now.trees) branch }
    ensures site { IfSome result (IsBranch pool.now.trees (tree_at pool.now.trees branch)) }
    ensures test { is_some result ≡ lists.lists (tree_at pool.now.trees (Some cell))
        (tree_at pool.now.trees branch) }
{
    let node = read_child(pool, branch)?;
    let Head::Branch = node.head else {
        return None;
    };
    let link = read_child(pool, node.second)?;
    if has_cell(pool, cell, link.first) {
        return Some(Site { branch: node, link });
    }
    None
}

/// Lists a list with a cell last.
fn add_with(
    alloc: Global,
    pool: &Pool,
    parts: &mut Parts,
    cell: NodeId,
    list: Option<NodeId>,
) -> Result<(), AllocError>
    requires cell { cell.0 < length pool.now.trees }
    requires list { ChildBelow (length pool.now.trees) list }
    ensures stack { OnOk result (stack_of pool.now.trees parts.new
        ≡ with_cell (tree_at pool.now.trees (Some cell)) (tree_at pool.now.trees list)
        ∷ stack_of pool.now.trees parts.old) }
    ensures made { OnOk result (made_by parts.new
        ≡ made_by parts.old + made_with (tree_at pool.now.trees list)) }
    ensures live { OnOk result (AreLive (length pool.now.trees) parts.old
        → AreLive (length pool.now.trees) parts.new) }
{
    let mut links = Vec::new(alloc);
    let mut at = list;
    'cells: while let Some(n) = at {
        let link = read_node(pool, n);
        parts.there(link.first)?;
        links.push(link.head)?;
        at = link.second;
    }
    parts.there(Some(cell))?;
    parts.there(None)?;
    parts.over(Head::Cons)?;
    parts.close(links)
}

/// Lists a list without a cell where it first has it.
fn add_without(
    alloc: Global,
    pool: &Pool,
    parts: &mut Parts,
    cell: NodeId,
    list: Option<NodeId>,
) -> Result<(), AllocError>
    requires cell { cell.0 < length pool.now.trees }
    requires list { ChildBelow (length pool.now.trees) list }
    ensures stack { OnOk result (stack_of pool.now.trees parts.new
        ≡ without_cell (tree_at pool.now.trees (Some cell)) (tree_at pool.now.trees list)
        ∷ stack_of pool.now.trees parts.old) }
    ensures made { OnOk result (made_by parts.new ≡ made_by parts.old
        + made_without (tree_at pool.now.trees (Some cell)) (tree_at pool.now.trees list)) }
    ensures live { OnOk result (AreLive (length pool.now.trees) parts.old
        → AreLive (length pool.now.trees) parts.new) }
{
    let mut links = Vec::new(alloc);
    let mut at = list;
    'cells: while let Some(n) = at {
        let link = read_node(pool, n);
        if same(pool, link.first, Some(cell)) {
            parts.there(link.second)?;
            return parts.close(links);
        }
        parts.there(link.first)?;
        links.push(link.head)?;
        at = link.second;
    }
    parts.there(None)?;
    parts.close(links)
}

/// Lists a list with a cell more, or less.
fn add_relisted(
    alloc: Global,
    pool: &Pool,
    parts: &mut Parts,
    adds: bool,
    cell: NodeId,
    list: Option<NodeId>,
) -> Result<(), AllocError>
    requires cell { cell.0 < length pool.now.trees }
    requires list { ChildBelow (length pool.now.trees) list }
    ensures stack { OnOk result (stack_of pool.now.trees parts.new
        ≡ relisted adds (tree_at pool.now.trees (Some cell)) (tree_at pool.now.trees list)
        ∷ stack_of pool.now.trees parts.old) }
    ensures made { OnOk result (made_by parts.new ≡ made_by parts.old
        + made_of_relisted adds (tree_at pool.now.trees (Some cell))
        (tree_at pool.now.trees list)) }
    ensures live { OnOk result (AreLive (length pool.now.trees) parts.old
        → AreLive (length pool.now.trees) parts.new) }
{
    if adds {
        return add_with(alloc, pool, parts, cell, list);
    }
    add_without(alloc, pool, parts, cell, list)
}

/// A branch with a cell of its list more, or less.
pub(crate) fn relisted_parts(
    alloc: Global,
    pool: &Pool,
    adds: bool,
    cell: NodeId,
    branch: Opened,
    link: Opened,
) -> Result<Parts, AllocError>
    requires cell { cell.0 < length pool.now.trees }
    requires indices { ChildBelow (length pool.now.trees) branch.first }
    requires list { ChildBelow (length pool.now.trees) link.first }
    requires rest { ChildBelow (length pool.now.trees) link.second }
    ensures stack { IfOk result (λ parts. stack_of pool.now.trees parts
        ≡ Node branch.head (tree_at pool.now.trees branch.first)
        (Node link.head (relisted adds (tree_at pool.now.trees (Some cell))
        (tree_at pool.now.trees link.first)) (tree_at pool.now.trees link.second)) ∷ []) }
    ensures made { IfOk result (λ parts. made_by parts
        ≡ made_of_relisted adds (tree_at pool.now.trees (Some cell))
        (tree_at pool.now.trees link.first) + 2) }
    ensures live { IfOk result (AreLive (length pool.now.trees)) }
{
    let mut parts = Parts::new(alloc);
    parts.there(branch.first)?;
    add_relisted(alloc, pool, &mut parts, adds, cell, link.first)?;
    parts.there(link.second)?;
    parts.over(link.head)?;
    parts.over(branch.head)?;
    Ok(parts)
}
