ghost use Rattle.std.specs.Prelude.{◌≡◌, ◌+◌, ◌<◌, ◌^◌, ◌++◌, OnOk, flat_map, length, map};
ghost use Rattle.cv_pool.specs.Nodes.{ChildBelow};
ghost use Rattle.cv_syntax_trees.specs.Head.{weight};
ghost use Rattle.cv_syntax_trees.specs.Tree.{Tree, second_place, size};
ghost use Rattle.cv_syntax_trees.specs.declared.head.Head.TheVariants.{Cons};
ghost use Rattle.cv_syntax.specs.PoolTrees.{tree_at};
ghost use Rattle.cv_syntax.specs.Postorder.{postorder};
ghost use Rattle.cv_edit_names.specs.Kept.{AreLive, IsLiveBranch, around_in, branches_of, copies_in, copy_in, naming_in};
ghost use Rattle.cv_edit_names.specs.Parts.{around_second, split_first};
ghost use Rattle.cv_edit_names.specs.Splitting as specs;
ghost use Rattle.cv_edit_names.specs.Splitting.{split_branches, split_in};

use crate::around::{Around, behind, looking_for, with_replication};
use crate::branches::{Branch, branch_at};
use crate::cells::first_unnamed;
use crate::heads::split_head;
use crate::naming::Naming;
use crate::terms::{list_binders, list_message, list_named};
use cv_path::size_below;
use cv_syntax::listing::{close, copy};
use cv_syntax::{Head, Make, NodeId, Opened, Pool, read_node};
use std::alloc::{AllocError, Global};

/// The place of a branch's body, where the branch stands at a place.
fn body_place(pool: &Pool, place: u32, branch: &Branch) -> u32
    requires live { IsLiveBranch (length pool.now.trees) branch.now }
    requires fits { place + size (branches_of pool.now.trees branch.now) < 2 ^ 32 }
    ensures { result ≡ specs.body_place place (tree_at pool.now.trees branch.now.indices)
        (tree_at pool.now.trees branch.now.cells) (tree_at pool.now.trees branch.now.condition) }
{
    let behind = place + Head::Branch.weight() + size_below(pool, branch.indices);
    behind + size_below(pool, branch.cells) + size_below(pool, branch.condition)
}

/// Lists a copy of a branch that stands at a place, with this around it, each node behind its children.
#[cycle(list_split)]
fn list_branch(
    alloc: Global,
    pool: &Pool,
    makes: &mut Vec<Make>,
    naming: &Naming,
    around: &Around,
    place: u32,
    branch: &Branch,
) -> Result<(), AllocError>
    requires looked { AreLive (length pool.now.trees) around.now.looked_for.now }
    requires live { IsLiveBranch (length pool.now.trees) branch.now }
    requires fits { place + size (branches_of pool.now.trees branch.now) < 2 ^ 32 }
    ensures { OnOk result (makes.new.items ≡ makes.old.items ++ postorder (copy_in
        pool.now.trees (naming_in naming.now) place branch.now
        (around_in pool.now.trees naming.now.variable around.now))) }
{
    let x = naming.variable;
    list_binders(alloc, pool, makes, naming, place, branch.indices)?;
    list_named(alloc, pool, makes, x, around, branch.cells)?;
    list_named(alloc, pool, makes, x, around, branch.condition)?;
    let below = body_place(pool, place, branch);
    list_split(alloc, pool, makes, naming, around, below, branch.body)?;
    makes.push(Make::Over(Head::Cons))?;
    makes.push(Make::Over(Head::Cons))?;
    makes.push(Make::Over(Head::Branch))?;
    Ok(())
}

/// Lists a copy of a branch for each name that a cell which it looks for gets, and a link for each.
#[cycle(list_split)]
fn list_each(
    alloc: Global,
    pool: &Pool,
    makes: &mut Vec<Make>,
    links: &mut Vec<Head>,
    naming: &Naming,
    around: &Around,
    place: u32,
    branch: &Branch,
    cell: Option<NodeId>,
) -> Result<(), AllocError>
    requires looked { AreLive (length pool.now.trees) around.now.looked_for.now }
    requires cell { ChildBelow (length pool.now.trees) cell }
    requires live { IsLiveBranch (length pool.now.trees) branch.now }
    requires fits { place + size (branches_of pool.now.trees branch.now) < 2 ^ 32 }
    ensures makes { OnOk result (makes.new.items ≡ makes.old.items ++ flat_map postorder (map
        (copy_in pool.now.trees (naming_in naming.now) place branch.now) (map (specs.looking_for
        (around_in pool.now.trees naming.now.variable around.now) (tree_at pool.now.trees cell))
        naming.now.names.now))) }
    ensures links { OnOk result (links.new.items
        ≡ links.old.items ++ map (λ y. Cons) naming.now.names.now) }
{
    'names: for y in naming.names {
        let looked_for = looking_for(alloc, around.looked_for, cell, *y)?;
        let inside = Around {
            replications: around.replications,
            looked_for: looked_for.as_slice(),
            site: around.site,
            name: around.name,
        };
        list_branch(alloc, pool, makes, naming, &inside, place, branch)?;
        links.push(Head::Cons)?;
    }
    Ok(())
}

/// Lists the copies of a branch that stands at a place, and a link for each.
#[cycle(list_split)]
fn list_copies(
    alloc: Global,
    pool: &Pool,
    makes: &mut Vec<Make>,
    links: &mut Vec<Head>,
    naming: &Naming,
    around: &Around,
    place: u32,
    branch: &Branch,
) -> Result<(), AllocError>
    requires looked { AreLive (length pool.now.trees) around.now.looked_for.now }
    requires live { IsLiveBranch (length pool.now.trees) branch.now }
    requires fits { place + size (branches_of pool.now.trees branch.now) < 2 ^ 32 }
    ensures makes { OnOk result (makes.new.items ≡ makes.old.items ++ flat_map postorder
        (copies_in pool.now.trees (naming_in naming.now)
        (around_in pool.now.trees naming.now.variable around.now) place branch.now)) }
    ensures links { OnOk result (links.new.items ≡ links.old.items ++ map (λ (t : Tree). Cons)
        (copies_in pool.now.trees (naming_in naming.now)
        (around_in pool.now.trees naming.now.variable around.now) place branch.now)) }
{
    let site = Opened {
        head: Head::Branch,
        first: branch.indices,
        second: None,
    };
    let inside = behind(pool, naming, around, place, site);
    match first_unnamed(pool, naming.variable, inside.looked_for, branch.cells) {
        Some(cell) => {
            list_each(
                alloc, pool, makes, links, naming, &inside, place, branch, cell,
            )
        }
        None => {
            list_branch(alloc, pool, makes, naming, &inside, place, branch)?;
            links.push(Head::Cons)?;
            Ok(())
        }
    }
}

/// Lists the branches of a `find` that stand at a place, each node behind its children.
#[cycle(list_split)]
fn list_branches(
    alloc: Global,
    pool: &Pool,
    makes: &mut Vec<Make>,
    naming: &Naming,
    around: &Around,
    place: u32,
    start: Option<NodeId>,
) -> Result<(), AllocError>
    requires looked { AreLive (length pool.now.trees) around.now.looked_for.now }
    requires live { ChildBelow (length pool.now.trees) start }
    requires fits { place + size (tree_at pool.now.trees start) < 2 ^ 32 }
    ensures { OnOk result (makes.new.items ≡ makes.old.items ++ postorder (split_branches
        (naming_in naming.now) (around_in pool.now.trees naming.now.variable around.now) place
        (tree_at pool.now.trees start))) }
{
    let mut links = Vec::new(alloc);
    let mut at = start;
    let mut here = place;
    'branches: while let Some(branch) = branch_at(pool, at) {
        list_copies(
            alloc, pool, makes, &mut links, naming, around, here, &branch,
        )?;
        here = body_place(pool, here, &branch) + size_below(pool, branch.body);
        at = branch.more;
    }
    copy(alloc, pool, makes, at)?;
    close(makes, links)
}

/// Lists the first child of a process that stands at a place.
#[cycle(list_split)]
fn list_first(
    alloc: Global,
    pool: &Pool,
    makes: &mut Vec<Make>,
    naming: &Naming,
    around: &Around,
    place: u32,
    node: Opened,
) -> Result<(), AllocError>
    requires looked { AreLive (length pool.now.trees) around.now.looked_for.now }
    requires live { ChildBelow (length pool.now.trees) node.first }
    requires fits { place + weight node.head + size (tree_at pool.now.trees node.first) < 2 ^ 32 }
    ensures { OnOk result (makes.new.items ≡ makes.old.items ++ postorder (split_first
        (naming_in naming.now) (around_in pool.now.trees naming.now.variable around.now) place
        node.head (tree_at pool.now.trees node.first))) }
{
    let first = node.first;
    let below = place + node.head.weight();
    match node.head {
        Head::Repl(_, _) => copy(alloc, pool, makes, first),
        Head::Par | Head::Cons => list_split(alloc, pool, makes, naming, around, below, first),
        Head::In(_) => list_message(alloc, pool, makes, naming, place, first),
        Head::Find(_) => list_branches(alloc, pool, makes, naming, around, below, first),
        _ => list_named(alloc, pool, makes, naming.variable, around, first),
    }
}

/// Lists the second child of a process that stands at a place.
#[cycle(list_split)]
fn list_second(
    alloc: Global,
    pool: &Pool,
    makes: &mut Vec<Make>,
    naming: &Naming,
    around: &Around,
    place: u32,
    node: Opened,
) -> Result<(), AllocError>
    requires looked { AreLive (length pool.now.trees) around.now.looked_for.now }
    requires first { ChildBelow (length pool.now.trees) node.first }
    requires second { ChildBelow (length pool.now.trees) node.second }
    requires fits { place + weight node.head + size (tree_at pool.now.trees node.first)
        + size (tree_at pool.now.trees node.second) < 2 ^ 32 }
    ensures { OnOk result (makes.new.items ≡ makes.old.items ++ postorder (split_in
        (naming_in naming.now) (around_second (naming_in naming.now) place node.head
        (tree_at pool.now.trees node.first)
        (around_in pool.now.trees naming.now.variable around.now))
        (second_place place node.head (tree_at pool.now.trees node.first))
        (tree_at pool.now.trees node.second))) }
{
    let below = place + node.head.weight() + size_below(pool, node.first);
    match node.head {
        Head::Repl(i, n) => {
            let replications = with_replication(alloc, around.replications, i, n)?;
            let inside = Around {
                replications: replications.as_slice(),
                looked_for: around.looked_for,
                site: around.site,
                name: around.name,
            };
            list_split(alloc, pool, makes, naming, &inside, below, node.second)
        }
        _ => {
            let inside = behind(pool, naming, around, place, node);
            list_split(alloc, pool, makes, naming, &inside, below, node.second)
        }
    }
}

/// Lists a process that stands at a place where each definition of the variable has its name, each node behind its children.
#[cycle(list_split)]
pub(crate) fn list_split(
    alloc: Global,
    pool: &Pool,
    makes: &mut Vec<Make>,
    naming: &Naming,
    around: &Around,
    place: u32,
    start: Option<NodeId>,
) -> Result<(), AllocError>
    requires looked { AreLive (length pool.now.trees) around.now.looked_for.now }
    requires live { ChildBelow (length pool.now.trees) start }
    requires fits { place + size (tree_at pool.now.trees start) < 2 ^ 32 }
    ensures { OnOk result (makes.new.items ≡ makes.old.items ++ postorder (split_in
        (naming_in naming.now) (around_in pool.now.trees naming.now.variable around.now) place
        (tree_at pool.now.trees start))) }
{
    let Some(n) = start else {
        makes.push(Make::Nothing)?;
        return Ok(());
    };
    let node = read_node(pool, n);
    list_first(alloc, pool, makes, naming, around, place, node)?;
    list_second(alloc, pool, makes, naming, around, place, node)?;
    makes.push(Make::Over(split_head(naming, place, node.head)))?;
    Ok(())
}
