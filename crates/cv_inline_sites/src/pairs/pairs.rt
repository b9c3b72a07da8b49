ghost use Rattle.std.specs.Prelude.{◌≡◌, ◌+◌, ◌<◌, ◌^◌, ◌==◌, ◌++◌, ◌∷◌, [], if◌then◌else◌, All, IfOk, OnOk, length, map};
ghost use Rattle.cv_pool.specs.Nodes.{ChildBelow};
ghost use Rattle.cv_syntax_trees.specs.Tree.{size};
ghost use Rattle.cv_syntax.specs.PoolTrees.{tree_at};
ghost use Rattle.cv_inline_sites.specs.pairs.Pairs as pairs;
ghost use Rattle.cv_inline_sites.specs.pairs.Pairs.{IsPairOver, pair_at, pair_in};

use crate::pairs::branches::{Branch, first_branch};
use cv_path::size_below;
use cv_syntax::{NodeId, Pool};
use std::alloc::{AllocError, Global};

/// A branch of a list, for the calls of a site: its number among all branches, its index, its parts, and the place of its
/// body.
#[derive(Clone, Copy)]
pub struct Pair {
    pub number: u32,
    pub index: u32,
    pub cells: Option<NodeId>,
    pub condition: Option<NodeId>,
    pub body: Option<NodeId>,
    pub place: u32,
}

/// The place of the body of the first branch of a list, of which the place is given.
fn body_place(pool: &Pool, place: u32, branch: Branch) -> u32
    requires binders { ChildBelow (length pool.now.trees) branch.binders }
    requires cells { ChildBelow (length pool.now.trees) branch.cells }
    requires condition { ChildBelow (length pool.now.trees) branch.condition }
    requires fits { place + 1 + size (tree_at pool.now.trees branch.binders)
        + size (tree_at pool.now.trees branch.cells)
        + size (tree_at pool.now.trees branch.condition) < 2 ^ 32 }
    ensures { result ≡ place + 1 + size (tree_at pool.now.trees branch.binders)
        + size (tree_at pool.now.trees branch.cells)
        + size (tree_at pool.now.trees branch.condition) }
{
    place
        + 1
        + size_below(pool, branch.binders)
        + size_below(pool, branch.cells)
        + size_below(pool, branch.condition)
}

/// Adds a branch with its number and the place of its body, if its bound is the one that is asked for.
fn add_pair(
    found: &mut Vec<Pair>,
    bound: u32,
    number: u32,
    place: u32,
    branch: Branch,
) -> Result<(), AllocError>
    ensures { OnOk result (found.new.items ≡ found.old.items
        ++ (if bound == branch.bound then pair_at number place branch ∷ [] else [])) }
{
    if bound == branch.bound {
        found.push(Pair {
            number,
            index: branch.index,
            cells: branch.cells,
            condition: branch.condition,
            body: branch.body,
            place,
        })?;
    }
    Ok(())
}

/// The branches of a list at a place that go over the calls of sites with a bound.
pub fn pairs_with(
    alloc: Global,
    pool: &Pool,
    bound: u32,
    place: u32,
    list: Option<NodeId>,
) -> Result<Vec<Pair>, AllocError>
    requires live { ChildBelow (length pool.now.trees) list }
    requires fits { place + size (tree_at pool.now.trees list) < 2 ^ 32 }
    ensures pairs { IfOk result (λ found. map (pair_in pool.now.trees) found.items
        ≡ pairs.pairs_with bound 0 place (tree_at pool.now.trees list)) }
    ensures over { IfOk result (λ found.
        All (IsPairOver pool.now.trees place list) found.items) }
{
    let mut found = Vec::new(alloc);
    let mut number = 0;
    let mut next = place;
    let mut at = list;
    'branches: while let Some(branch) = first_branch(pool, at) {
        let inner = body_place(pool, next, branch);
        add_pair(&mut found, bound, number, inner, branch)?;
        number += 1;
        next = inner + size_below(pool, branch.body);
        at = branch.more;
    }
    Ok(found)
}
