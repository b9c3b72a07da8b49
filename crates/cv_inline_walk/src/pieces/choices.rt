ghost use Rattle.std.specs.Prelude.{◌≡◌, ◌++◌, ◌+◌, ◌<◌, ◌^◌, All, IfOk, OnOk, length, map};
ghost use Rattle.cv_pool.specs.Nodes.{ChildBelow};
ghost use Rattle.cv_syntax_trees.specs.Tree.{size};
ghost use Rattle.cv_syntax.specs.PoolTrees.{tree_at};
ghost use Rattle.cv_inline_sites.specs.listing.Callings.{callers_in};
ghost use Rattle.cv_inline_walk.specs.pieces.Choices.{IsChoice, choice_in, choices_over, choose};

use cv_inline::terms::Calling;
use cv_inline_sites::pairs::{Pair, pairs_with};
use cv_syntax::{NodeId, Pool};
use std::alloc::{AllocError, Global};

/// A branch of the text for the calls of a site, which is given by its place among all.
#[derive(Clone, Copy)]
pub(crate) struct Choice {
    pub(crate) other: usize,
    pub(crate) pair: Pair,
}

/// Adds branches for the calls of a site.
fn add_choices(found: &mut Vec<Choice>, other: usize, pairs: &[Pair]) -> Result<(), AllocError>
    ensures { OnOk result (found.new.items ≡ found.old.items ++ map (choose other) pairs.now) }
{
    for pair in pairs {
        found.push(Choice { other, pair: *pair })?;
    }
    Ok(())
}

/// The branches of a list at a place, for each site those that go over its calls.
pub(crate) fn choices(
    alloc: Global,
    pool: &Pool,
    callings: &[Calling],
    place: u32,
    list: Option<NodeId>,
) -> Result<Vec<Choice>, AllocError>
    requires live { ChildBelow (length pool.now.trees) list }
    requires fits { place + size (tree_at pool.now.trees list) < 2 ^ 32 }
    ensures choices { IfOk result (λ found. map (choice_in pool.now.trees callings.now) found.items
        ≡ choices_over (callers_in pool.now.trees callings.now) place
        (tree_at pool.now.trees list)) }
    ensures each { IfOk result (λ found.
        All (IsChoice pool.now.trees callings.now place list) found.items) }
{
    let mut found = Vec::new(alloc);
    'sites: for other in 0..callings.len() {
        let pairs = pairs_with(alloc, pool, callings[other].caller.bound, place, list)?;
        add_choices(&mut found, other, pairs.as_slice())?;
    }
    Ok(found)
}
