// Variables that come later than a place.
ghost use Rattle.std.specs.Prelude.{◌≡◌, ◌<◌, ◌^◌, ◌&&◌, not, Some, length};
ghost use Rattle.cv_pool.specs.Nodes.{ChildBelow};
ghost use Rattle.cv_syntax_trees.specs.Tree.{size};
ghost use Rattle.cv_syntax.specs.PoolTrees.{tree_at};
ghost use Rattle.cv_scene.specs.Late as late;
ghost use Rattle.cv_derive_reasons.specs.sizes.Sizes.{AreSizes};
ghost use Rattle.cv_derive_reasons.specs.late.Ways.{IsWayBelow, Leads, is_behind_guards, way_if};

use crate::sizes::{Sizes, place_in};
use cv_path::{Lies, guards, is_definition};
use cv_syntax::{Game, Head, NodeId, Opened, Pool, read_node};

/// How the walk to a place goes on: it has ended, or the place is one of a child.
#[derive(Clone, Copy)]
enum Way {
    Ends(bool),
    Goes(Option<NodeId>, u32),
}

/// Whether a node of a tree defines a variable.
fn is_defined_in(pool: &Pool, x: u32, tree: Option<NodeId>) -> bool
    requires { ChildBelow (length pool.now.trees) tree }
    ensures { result ≡ late.is_defined_in x (tree_at pool.now.trees tree) }
{
    let mut at = tree;
    'tree: while let Some(k) = at {
        let node = read_node(pool, k);
        if is_definition(pool, node, x) {
            return true;
        }
        if is_defined_in(pool, x, node.first) {
            return true;
        }
        at = node.second;
    }
    false
}

/// Whether the other side of a parallel composition has no definition of a variable. Of other nodes that isn't asked.
fn is_free_beside(pool: &Pool, x: u32, head: Head, side: Option<NodeId>) -> bool
    requires { ChildBelow (length pool.now.trees) side }
    ensures { result ≡ late.is_free_beside x head (tree_at pool.now.trees side) }
{
    match head {
        Head::Par => !is_defined_in(pool, x, side),
        _ => true,
    }
}

/// Whether a place of the second child of a branch is one of its body. Of other nodes that isn't asked.
fn is_behind_guards(pool: &Pool, node: Opened, place: u32) -> bool
    requires second { ChildBelow (length pool.now.trees) node.second }
    requires fits { size (tree_at pool.now.trees node.second) < 2 ^ 32 }
    ensures { result ≡ is_behind_guards node.head (tree_at pool.now.trees node.second) place }
{
    match node.head {
        Head::Branch => !(place < guards(pool, node.second)),
        _ => true,
    }
}

/// Whether a node defines a variable above a place of its second child.
fn is_defined_above(pool: &Pool, x: u32, node: Opened, place: u32) -> bool
    requires first { ChildBelow (length pool.now.trees) node.first }
    requires second { ChildBelow (length pool.now.trees) node.second }
    requires fits { size (tree_at pool.now.trees node.second) < 2 ^ 32 }
    ensures { result ≡ late.is_defined_above x node.head (tree_at pool.now.trees node.first)
        (tree_at pool.now.trees node.second) place }
{
    if !is_definition(pool, node, x) {
        return false;
    }
    is_behind_guards(pool, node, place)
}

/// The way to a place of the first child of a node.
fn way_within(pool: &Pool, x: u32, node: Opened, place: u32) -> Way
    requires first { ChildBelow (length pool.now.trees) node.first }
    requires second { ChildBelow (length pool.now.trees) node.second }
    ensures { result ≡ way_if (late.is_free_beside x node.head (tree_at pool.now.trees node.second))
        node.first place }
{
    if is_free_beside(pool, x, node.head, node.second) {
        return Way::Goes(node.first, place);
    }
    Way::Ends(false)
}

/// The way to a place of the second child of a node.
fn way_behind(pool: &Pool, x: u32, node: Opened, place: u32) -> Way
    requires first { ChildBelow (length pool.now.trees) node.first }
    requires second { ChildBelow (length pool.now.trees) node.second }
    requires fits { size (tree_at pool.now.trees node.second) < 2 ^ 32 }
    ensures { result ≡ way_if (not (late.is_defined_above x node.head
        (tree_at pool.now.trees node.first) (tree_at pool.now.trees node.second) place)
        && late.is_free_beside x node.head (tree_at pool.now.trees node.first)) node.second place }
{
    if is_defined_above(pool, x, node, place) {
        return Way::Ends(false);
    }
    if is_free_beside(pool, x, node.head, node.first) {
        return Way::Goes(node.second, place);
    }
    Way::Ends(false)
}

/// One step down to a place.
fn step(pool: &Pool, sizes: &Sizes, x: u32, n: NodeId, place: u32) -> Way
    requires sizes { AreSizes pool.now.trees sizes.now }
    requires live { n.0 < length pool.now.trees }
    requires fits { size (tree_at pool.now.trees (Some n)) < 2 ^ 32 }
    ensures leads { Leads pool.now.trees x (tree_at pool.now.trees (Some n)) place result }
    ensures below { IsWayBelow n.0 result }
{
    let node = read_node(pool, n);
    match place_in(pool, sizes, node, place) {
        Lies::Here => Way::Ends(true),
        Lies::Within(rest) => way_within(pool, x, node, rest),
        Lies::Behind(rest) => way_behind(pool, x, node, rest),
    }
}

/// Whether each definition of a variable comes later than a place of a game. The other sides of parallel compositions above
/// the place are looked through, and nothing else.
pub fn is_late(pool: &Pool, sizes: &Sizes, game: Game, place: u32, x: u32) -> bool
    requires live { game.root.0 < length pool.now.trees }
    requires fits { size (tree_at pool.now.trees (Some game.root)) < 2 ^ 32 }
    requires sizes { AreSizes pool.now.trees sizes.now }
    ensures { result ≡ late.is_late x (tree_at pool.now.trees (Some game.root)) place }
{
    let mut at = Some(game.root);
    let mut left = place;
    'down: while let Some(n) = at {
        match step(pool, sizes, x, n, left) {
            Way::Ends(found) => return found,
            Way::Goes(next, rest) => {
                at = next;
                left = rest;
            }
        }
    }
    false
}
