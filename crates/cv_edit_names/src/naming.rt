ghost use Rattle.std.specs.Prelude.{◌≡◌, ◌+◌, ◌<◌, ◌^◌, ◌++◌, ◌∷◌, [], if◌then◌else◌, IfOk, OnOk, Some, length};
ghost use Rattle.cv_pool.specs.Nodes.{ChildBelow};
ghost use Rattle.cv_syntax_trees.specs.Tree.{size};
ghost use Rattle.cv_syntax.specs.PoolTrees.{tree_at};
ghost use Rattle.cv_scope_rules.specs.Behind.{sites_of};
ghost use Rattle.cv_derive_facts.specs.Definitions as sites;
ghost use Rattle.cv_derive_facts.specs.Definitions.{places_of};
ghost use Rattle.cv_edit_names.specs.Kept.{naming_in};
ghost use Rattle.cv_edit_names.specs.Naming as specs;
ghost use Rattle.cv_edit_names.specs.Naming.{named_places};

use cv_derive_facts::sites_stand_in_the_game;
use cv_path::is_definition;
use cv_syntax::{NodeId, Pool, read_node};
use std::alloc::{AllocError, Global};

/// A variable, the names that its definitions get, and the name of the definition at each place.
#[derive(Clone, Copy)]
pub(crate) struct Naming<'a> {
    pub(crate) variable: u32,
    pub(crate) names: &'a [u32],
    pub(crate) places: &'a [(u32, u32)],
}

/// The name of the definition at a place.
pub(crate) fn name_at(naming: &Naming, place: u32) -> u32
    ensures { result ≡ specs.name_at (naming_in naming.now) place }
{
    'places: for named in naming.places {
        if named.0 == place {
            return named.1;
        }
    }
    0
}

/// Adds the place of a construct, where it defines a variable.
fn add_place(places: &mut Vec<u32>, is_one: bool, place: u32) -> Result<(), AllocError>
    ensures { OnOk result (places.new.items
        ≡ places.old.items ++ (if is_one then place ∷ [] else [])) }
{
    if is_one {
        places.push(place)?;
    }
    Ok(())
}

/// Adds the places of the definitions of a variable in a tree that stands at a place, and gives the place behind it.
fn add_places(
    pool: &Pool,
    places: &mut Vec<u32>,
    x: u32,
    tree: Option<NodeId>,
    place: u32,
) -> Result<u32, AllocError>
    requires live { ChildBelow (length pool.now.trees) tree }
    requires fits { place + size (tree_at pool.now.trees tree) < 2 ^ 32 }
    ensures place { IfOk result (λ end. end ≡ place + size (tree_at pool.now.trees tree)) }
    ensures places { OnOk result (places.new.items
        ≡ places.old.items ++ places_of x place (tree_at pool.now.trees tree)) }
{
    let mut at = tree;
    let mut here = place;
    'chain: while let Some(n) = at {
        let node = read_node(pool, n);
        add_place(places, is_definition(pool, node, x), here)?;
        let next = add_places(pool, places, x, node.first, here + node.head.weight())?;
        here = next;
        at = node.second;
    }
    Ok(here)
}

/// The places of the definitions of a variable in a game, in preorder.
pub fn places(alloc: Global, pool: &Pool, game: NodeId, x: u32) -> Result<Vec<u32>, AllocError>
    requires live { game.0 < length pool.now.trees }
    requires fits { size (tree_at pool.now.trees (Some game)) < 2 ^ 32 }
    ensures { IfOk result (λ found. found.items
        ≡ sites.places (sites_of (tree_at pool.now.trees (Some game)) x)) }
{
    let mut found = Vec::new(alloc);
    add_places(pool, &mut found, x, Some(game), 0)?;
    sites_stand_in_the_game();
    Ok(found)
}

/// The places of the definitions of a variable in a game, each with the next name.
pub(crate) fn name_places(
    alloc: Global,
    pool: &Pool,
    game: NodeId,
    x: u32,
    names: &[u32],
) -> Result<Vec<(u32, u32)>, AllocError>
    requires live { game.0 < length pool.now.trees }
    requires fits { size (tree_at pool.now.trees (Some game)) < 2 ^ 32 }
    ensures { IfOk result (λ named. named.items
        ≡ named_places (sites_of (tree_at pool.now.trees (Some game)) x) names.now) }
{
    let found = places(alloc, pool, game, x)?;
    let mut named = Vec::new(alloc);
    'names: for k in 0..names.len() {
        let Some(place) = found.get(k) else {
            return Ok(named);
        };
        named.push((*place, names[k]))?;
    }
    Ok(named)
}
