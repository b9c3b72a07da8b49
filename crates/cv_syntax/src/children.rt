ghost use Rattle.std.specs.Prelude.{◌≡◌, ◌+◌, ◌<◌, ◌↔◌, IfNone, IfOk, IfSome, IsNone, IsTrue, length};
ghost use Rattle.cv_pool.specs.Nodes.{ChildBelow};
ghost use Rattle.cv_syntax_trees.specs.Children as children;
ghost use Rattle.cv_syntax.specs.NameSets.{is_in, is_one_of};
ghost use Rattle.cv_syntax_trees.specs.Tree.{Empty, Node, bound_names, first, lone, second, size};
ghost use Rattle.cv_syntax.specs.PoolTrees.{tree_at};
ghost use Rattle.cv_syntax_trees.specs.declared.head.Head.TheVariants.{Leaf};

use crate::open::{Opened, read_node};
use cv_pool::{NodeId, Pool};
use cv_syntax_trees::Head;
use std::alloc::{AllocError, Global};
use std::collections::HashSet;

/// The node of a child, if there is one.
#[tactic(auto, using(crate::proofs::Trees::opened))]
pub fn read_child(pool: &Pool, child: Option<NodeId>) -> Option<Opened>
    requires { ChildBelow (length pool.now.trees) child }
    ensures node { IfSome result (λ o. tree_at pool.now.trees child
        ≡ Node o.head (tree_at pool.now.trees o.first) (tree_at pool.now.trees o.second)) }
    ensures first { IfSome result (λ o. ChildBelow (length pool.now.trees) o.first) }
    ensures second { IfSome result (λ o. ChildBelow (length pool.now.trees) o.second) }
    ensures none { IfNone result (tree_at pool.now.trees child ≡ Empty) }
{
    match child {
        Some(n) => Some(read_node(pool, n)),
        None => None,
    }
}

/// Whether there is nothing.
#[tactic(auto, using(crate::proofs::Trees::opened))]
pub fn is_empty(pool: &Pool, child: Option<NodeId>) -> bool
    requires { ChildBelow (length pool.now.trees) child }
    ensures test { result ≡ children.is_empty (tree_at pool.now.trees child) }
    ensures empty { IsTrue result ↔ (tree_at pool.now.trees child ≡ Empty) }
{
    read_child(pool, child).is_none()
}

/// The first child of a node that is a child.
#[tactic(auto, using(crate::proofs::Trees::opened))]
pub fn first_of(pool: &Pool, child: Option<NodeId>) -> Option<NodeId>
    requires { ChildBelow (length pool.now.trees) child }
    ensures tree { tree_at pool.now.trees result ≡ first (tree_at pool.now.trees child) }
    ensures live { ChildBelow (length pool.now.trees) result }
{
    match child {
        Some(n) => read_node(pool, n).first,
        None => None,
    }
}

/// The second child of a node that is a child.
#[tactic(auto, using(crate::proofs::Trees::opened))]
pub fn second_of(pool: &Pool, child: Option<NodeId>) -> Option<NodeId>
    requires { ChildBelow (length pool.now.trees) child }
    ensures tree { tree_at pool.now.trees result ≡ second (tree_at pool.now.trees child) }
    ensures live { ChildBelow (length pool.now.trees) result }
{
    match child {
        Some(n) => read_node(pool, n).second,
        None => None,
    }
}

/// Whether a term is a name without indices.
#[tactic(auto, using(crate::proofs::Trees::opened))]
pub fn is_leaf(pool: &Pool, name: u32, term: Option<NodeId>) -> bool
    requires { ChildBelow (length pool.now.trees) term }
    ensures test { result ≡ children.is_leaf name (tree_at pool.now.trees term) }
    ensures leaf { IsTrue result ↔ (tree_at pool.now.trees term ≡ lone (Leaf name)) }
{
    let Some(n) = term else {
        return false;
    };
    let node = read_node(pool, n);
    match node.head {
        Head::Leaf(x) => name == x && node.first.is_none() && node.second.is_none(),
        _ => false,
    }
}

/// How much of a room for so many syntax nodes a tree leaves, where it has no more of them. It looks at no more nodes than
/// that.
pub fn room_left(pool: &Pool, part: Option<NodeId>, room: u32) -> Option<u32>
    requires { ChildBelow (length pool.now.trees) part }
    ensures left { IfSome result (λ left. size (tree_at pool.now.trees part) + left ≡ room) }
    ensures more { IsNone result → room < size (tree_at pool.now.trees part) }
{
    let Some(n) = part else {
        return Some(room);
    };
    let node = read_node(pool, n);
    let weight = node.head.weight();
    if room < weight {
        return None;
    }
    let Some(rest) = room_left(pool, node.first, room - weight) else {
        return None;
    };
    room_left(pool, node.second, rest)
}

/// The variables of a list of binders.
pub fn variables_of(
    alloc: Global,
    pool: &Pool,
    binders: Option<NodeId>,
) -> Result<HashSet<u32>, AllocError>
    requires { ChildBelow (length pool.now.trees) binders }
    ensures { IfOk result (λ names.
        is_in names ≡ is_one_of (bound_names (tree_at pool.now.trees binders))) }
{
    let mut names = HashSet::new(alloc);
    let mut at = binders;
    'binders: while let Some(n) = at {
        let cell = read_node(pool, n);
        let Head::Binder(x, _) = cell.head else {
            return Ok(names);
        };
        names.insert(x)?;
        at = cell.second;
    }
    Ok(names)
}
