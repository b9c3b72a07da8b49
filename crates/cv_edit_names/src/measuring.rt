ghost use Rattle.std.specs.Prelude.{◌≡◌, ◌+◌, ◌<◌, ◌^◌, ℕ, IfOk, length};
ghost use Rattle.cv_pool.specs.Nodes.{ChildBelow};
ghost use Rattle.cv_syntax_trees.specs.Head.{weight};
ghost use Rattle.cv_syntax_trees.specs.Tree.{size};
ghost use Rattle.cv_syntax.specs.PoolTrees.{tree_at};
ghost use Rattle.cv_syntax.specs.limits.Limits.{told};
ghost use Rattle.cv_edit_names.specs.Kept.{AreLive, IsLiveBranch, branches_of, cells_looked_for};
ghost use Rattle.cv_edit_names.specs.Sizes.{size_in, size_of_copies, size_of_copy, size_of_first, sizes_in};

use crate::around::{Looked, looking_for};
use crate::branches::{Branch, branch_at};
use crate::cells::first_unnamed;
use cv_path::size_below;
use cv_syntax::{Head, NodeId, Opened, Pool, read_node};
use std::alloc::{AllocError, Global};

/// The variable whose definitions get names, and how many there are of these, as that is told.
#[derive(Clone, Copy)]
pub(crate) struct Count {
    pub(crate) variable: u32,
    pub(crate) names: u32,
}

/// How many syntax nodes one copy of a branch has.
#[cycle(size_split)]
fn size_branch(
    alloc: Global,
    pool: &Pool,
    count: Count,
    looked_for: &[Looked],
    branch: &Branch,
) -> Result<u32, AllocError>
    requires looked { AreLive (length pool.now.trees) looked_for.now }
    requires live { IsLiveBranch (length pool.now.trees) branch.now }
    requires fits { size (branches_of pool.now.trees branch.now) < 2 ^ 32 }
    ensures { IfOk result (λ n. (k : ℕ) → count.names ≡ told k → n ≡ told (size_of_copy
        count.variable k (cells_looked_for pool.now.trees looked_for.now)
        (tree_at pool.now.trees branch.now.indices) (tree_at pool.now.trees branch.now.cells)
        (tree_at pool.now.trees branch.now.condition)
        (tree_at pool.now.trees branch.now.body))) }
{
    let guards = size_below(pool, branch.cells) + size_below(pool, branch.condition);
    let front = 1 + size_below(pool, branch.indices) + guards;
    let body = size_split(alloc, pool, count, looked_for, branch.body)?;
    Ok(front.saturating_add(body))
}

/// How many syntax nodes all copies of a branch have. They are equally large.
#[cycle(size_split)]
fn size_copies(
    alloc: Global,
    pool: &Pool,
    count: Count,
    looked_for: &[Looked],
    branch: &Branch,
) -> Result<u32, AllocError>
    requires looked { AreLive (length pool.now.trees) looked_for.now }
    requires live { IsLiveBranch (length pool.now.trees) branch.now }
    requires fits { size (branches_of pool.now.trees branch.now) < 2 ^ 32 }
    ensures { IfOk result (λ n. (k : ℕ) → count.names ≡ told k → n ≡ told (size_of_copies
        count.variable k (cells_looked_for pool.now.trees looked_for.now)
        (tree_at pool.now.trees branch.now.indices) (tree_at pool.now.trees branch.now.cells)
        (tree_at pool.now.trees branch.now.condition)
        (tree_at pool.now.trees branch.now.body))) }
{
    match first_unnamed(pool, count.variable, looked_for, branch.cells) {
        Some(cell) => {
            let inside = looking_for(alloc, looked_for, cell, 0)?;
            let one = size_branch(alloc, pool, count, inside.as_slice(), branch)?;
            Ok(one.saturating_mul(count.names))
        }
        None => size_branch(alloc, pool, count, looked_for, branch),
    }
}

/// How many syntax nodes the branches of a `find` have.
#[cycle(size_split)]
fn size_branches(
    alloc: Global,
    pool: &Pool,
    count: Count,
    looked_for: &[Looked],
    start: Option<NodeId>,
) -> Result<u32, AllocError>
    requires looked { AreLive (length pool.now.trees) looked_for.now }
    requires live { ChildBelow (length pool.now.trees) start }
    requires fits { size (tree_at pool.now.trees start) < 2 ^ 32 }
    ensures { IfOk result (λ n. (k : ℕ) → count.names ≡ told k → n ≡ told (sizes_in
        count.variable k (cells_looked_for pool.now.trees looked_for.now)
        (tree_at pool.now.trees start))) }
{
    let mut total: u32 = 0;
    let mut at = start;
    'branches: while let Some(branch) = branch_at(pool, at) {
        let copies = size_copies(alloc, pool, count, looked_for, &branch)?;
        total = total.saturating_add(copies);
        at = branch.more;
    }
    Ok(total.saturating_add(size_below(pool, at)))
}

/// How many syntax nodes the first child of a process has.
#[cycle(size_split)]
fn size_first(
    alloc: Global,
    pool: &Pool,
    count: Count,
    looked_for: &[Looked],
    node: Opened,
) -> Result<u32, AllocError>
    requires looked { AreLive (length pool.now.trees) looked_for.now }
    requires live { ChildBelow (length pool.now.trees) node.first }
    requires fits { size (tree_at pool.now.trees node.first) < 2 ^ 32 }
    ensures { IfOk result (λ n. (k : ℕ) → count.names ≡ told k → n ≡ told (size_of_first
        count.variable k (cells_looked_for pool.now.trees looked_for.now) node.head
        (tree_at pool.now.trees node.first))) }
{
    let first = node.first;
    match node.head {
        Head::Par | Head::Cons => size_split(alloc, pool, count, looked_for, first),
        Head::Find(_) => size_branches(alloc, pool, count, looked_for, first),
        _ => Ok(size_below(pool, first)),
    }
}

/// How many syntax nodes a process has where each definition of the variable has its name.
#[cycle(size_split)]
pub(crate) fn size_split(
    alloc: Global,
    pool: &Pool,
    count: Count,
    looked_for: &[Looked],
    start: Option<NodeId>,
) -> Result<u32, AllocError>
    requires looked { AreLive (length pool.now.trees) looked_for.now }
    requires live { ChildBelow (length pool.now.trees) start }
    requires fits { size (tree_at pool.now.trees start) < 2 ^ 32 }
    ensures { IfOk result (λ n. (k : ℕ) → count.names ≡ told k → n ≡ told (size_in
        count.variable k (cells_looked_for pool.now.trees looked_for.now)
        (tree_at pool.now.trees start))) }
{
    let Some(n) = start else {
        return Ok(0);
    };
    let node = read_node(pool, n);
    let first = size_first(alloc, pool, count, looked_for, node)?;
    let second = size_split(alloc, pool, count, looked_for, node.second)?;
    Ok(
        node.head
            .weight()
            .saturating_add(first)
            .saturating_add(second),
    )
}
