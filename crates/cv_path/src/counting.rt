ghost use Rattle.std.specs.Prelude.{◌≡◌, ◌+◌, ◌<◌, ◌≤◌, ◌^◌, ◌++◌, length, option_map, Some, true, false};
ghost use Rattle.cv_pool.specs.Nodes.{ChildBelow};
ghost use Rattle.cv_syntax_trees.specs.Tree as tree;
ghost use Rattle.cv_syntax.specs.PoolTrees.{tree_at};
ghost use Rattle.cv_path.specs.Copies.{added, few_copies_at, guards, most_factors, parameter_of, parameters};

use crate::place::{Lies, place_in, size_below};
use crate::product::Product;
use arrayvec::ArrayVec;
use cv_pool::{NodeId, Pool};
use cv_syntax::children::{first_of, second_of};
use cv_syntax::{Head, Opened, read_node};

/// Adds the parameter of an index that is bound, and says whether there was room.
fn add_parameter(product: &mut ArrayVec<u32, 16>, head: Head) -> bool
    requires few { length product.old.items ≤ most_factors }
    ensures room { result ≡ true → product.new.items ≡ product.old.items ++ parameter_of head }
    ensures full { result ≡ false → most_factors < length (product.old.items ++ parameter_of head) }
    ensures few { length product.new.items ≤ most_factors }
{
    match head {
        Head::Binder(_, bound) => product.try_push(bound).is_ok(),
        _ => true,
    }
}

/// Adds the parameters of a list of indices, and says whether there was room.
#[tactic(auto, using(crate::proofs::Products::counting))]
fn add_parameters(pool: &Pool, product: &mut ArrayVec<u32, 16>, indices: Option<NodeId>) -> bool
    requires live { ChildBelow (length pool.now.trees) indices }
    requires few { length product.old.items ≤ most_factors }
    ensures room { result ≡ true → product.new.items
        ≡ product.old.items ++ parameters (tree_at pool.now.trees indices) }
    ensures full { result ≡ false → most_factors
        < length (product.old.items ++ parameters (tree_at pool.now.trees indices)) }
    ensures few { length product.new.items ≤ most_factors }
{
    let mut at = indices;
    'indices: while let Some(n) = at {
        let node = read_node(pool, n);
        if !add_parameter(product, node.head) {
            return false;
        }
        at = node.second;
    }
    true
}

/// How many syntax nodes stand in the list and in the condition of a branch, behind its indices.
#[tactic(auto, using(crate::proofs::Products::counting))]
pub fn guards(pool: &Pool, behind: Option<NodeId>) -> u32
    requires live { ChildBelow (length pool.now.trees) behind }
    requires fits { tree.size (tree_at pool.now.trees behind) < 2 ^ 32 }
    ensures { result ≡ guards (tree_at pool.now.trees behind) }
{
    let cells = first_of(pool, behind);
    let condition = first_of(pool, second_of(pool, behind));
    size_below(pool, cells) + size_below(pool, condition)
}

/// Adds what a node adds to the parameters of a place of its second child, and says whether there was room.
fn add(pool: &Pool, product: &mut ArrayVec<u32, 16>, node: Opened, place: u32) -> bool
    requires first { ChildBelow (length pool.now.trees) node.first }
    requires second { ChildBelow (length pool.now.trees) node.second }
    requires fits { tree.size (tree_at pool.now.trees node.second) < 2 ^ 32 }
    requires few { length product.old.items ≤ most_factors }
    ensures room { result ≡ true → product.new.items
        ≡ product.old.items ++ added node.head (tree_at pool.now.trees node.first)
        (tree_at pool.now.trees node.second) place }
    ensures full { result ≡ false → most_factors
        < length (product.old.items ++ added node.head (tree_at pool.now.trees node.first)
        (tree_at pool.now.trees node.second) place) }
    ensures few { length product.new.items ≤ most_factors }
{
    match node.head {
        Head::Repl(_, bound) => product.try_push(bound).is_ok(),
        Head::Branch if place < guards(pool, node.second) => {
            add_parameters(pool, product, node.first)
        }
        _ => true,
    }
}

/// The parameters of the replications above a place; in a branch's list and condition, those of its indices besides.
/// There are none where the tree has no such place, or where they would be more than 16, which in a well-formed game they
/// aren't.
#[tactic(auto, using(crate::proofs::Going::going, crate::proofs::Products::counting))]
pub fn copies(pool: &Pool, root: NodeId, place: u32) -> Option<Product>
    requires live { root.0 < length pool.now.trees }
    requires fits { tree.size (tree_at pool.now.trees (Some root)) < 2 ^ 32 }
    ensures { option_map (λ p. p.parameters.items) result
        ≡ few_copies_at (tree_at pool.now.trees (Some root)) place }
{
    let mut parameters = ArrayVec::new();
    let mut at = Some(root);
    let mut left = place;
    'down: while let Some(n) = at {
        let node = read_node(pool, n);
        match place_in(pool, node, left) {
            Lies::Here => return Some(Product { parameters }),
            Lies::Within(rest) => {
                at = node.first;
                left = rest;
            }
            Lies::Behind(rest) => {
                if !add(pool, &mut parameters, node, rest) {
                    return None;
                }
                at = node.second;
                left = rest;
            }
        }
    }
    None
}
