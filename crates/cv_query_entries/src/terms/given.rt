ghost use Rattle.std.specs.Prelude.{◌≡◌, ◌<◌, IfNone, IfSome, length};
ghost use Rattle.cv_pool.specs.Nodes.{ChildBelow};
ghost use Rattle.cv_syntax_trees.specs.Tree.{Empty, Node, same_tree};
ghost use Rattle.cv_syntax.specs.PoolTrees.{tree_at};
ghost use Rattle.cv_meaning.specs.Correspondences.{leaf_names};
ghost use Rattle.cv_scene.specs.lines.Given as derivations;
ghost use Rattle.cv_query_entries.specs.terms.Given.{given_by, names_in};
ghost use Rattle.cv_query_entries.specs.terms.Parts.{IsGivenBelow, found_tree, left_of, part_tree, terms_of};

use crate::terms::sides::leaf_name;
use cv_syntax::{Head, NodeId, Pool, read_node, same};

/// Terms that are given for names: the arguments for the variables that are the items of a list, and behind these the terms for
/// other names, each with its type or its parameter. Names and terms stand in one order, and of equal names the first counts.
#[derive(Clone, Copy)]
pub struct Given<'a> {
    pub variables: Option<NodeId>,
    pub arguments: Option<NodeId>,
    pub others: &'a [(u32, u32)],
    pub terms: Option<NodeId>,
}

/// A term that was found for a name.
#[derive(Clone, Copy)]
pub struct Found {
    pub term: Option<NodeId>,
}

/// A tree in which the given terms are still to be put, or in which nothing is.
#[derive(Clone, Copy)]
pub struct Part {
    pub node: Option<NodeId>,
    pub pending: bool,
}

/// A node of a tree with terms for names.
#[derive(Clone, Copy)]
pub struct PartNode {
    pub head: Head,
    pub first: Part,
    pub second: Part,
}

/// The term that is given for one of the other names.
#[tactic(auto, using(crate::proofs::terms::Putting::putting))]
fn other_term(pool: &Pool, others: &[(u32, u32)], terms: Option<NodeId>, x: u32) -> Option<Found>
    requires { ChildBelow (length pool.now.trees) terms }
    ensures tree { found_tree pool.now.trees result
        ≡ derivations.term_for (names_in others.now) (tree_at pool.now.trees terms) x }
    ensures live { IfSome result (λ f. ChildBelow (length pool.now.trees) f.term) }
{
    let mut at = terms;
    'names: for k in 0..others.len() {
        let Some(n) = at else {
            return None;
        };
        let node = read_node(pool, n);
        if others[k].0 == x {
            return Some(Found { term: node.first });
        }
        at = node.second;
    }
    None
}

/// The argument that is given for a variable.
#[tactic(auto, using(crate::proofs::terms::Putting::putting))]
fn argument(
    pool: &Pool,
    variables: Option<NodeId>,
    arguments: Option<NodeId>,
    x: u32,
) -> Option<Found>
    requires variables { ChildBelow (length pool.now.trees) variables }
    requires arguments { ChildBelow (length pool.now.trees) arguments }
    ensures tree { found_tree pool.now.trees result
        ≡ derivations.term_for (leaf_names (tree_at pool.now.trees variables))
        (tree_at pool.now.trees arguments) x }
    ensures live { IfSome result (λ f. ChildBelow (length pool.now.trees) f.term) }
{
    let mut at = variables;
    let mut behind = arguments;
    'variables: while let Some(v) = at {
        let name = read_node(pool, v);
        let Some(m) = behind else {
            return None;
        };
        let node = read_node(pool, m);
        if leaf_name(pool, name.first) == x {
            return Some(Found { term: node.first });
        }
        at = name.second;
        behind = node.second;
    }
    None
}

/// The term that is given for a name.
fn given_term(pool: &Pool, given: &Given, x: u32) -> Option<Found>
    requires { IsGivenBelow (length pool.now.trees) given.now }
    ensures tree { found_tree pool.now.trees result ≡ terms_of pool.now.trees given.now x }
    ensures live { IfSome result (λ f. ChildBelow (length pool.now.trees) f.term) }
{
    match argument(pool, given.variables, given.arguments, x) {
        Some(found) => Some(found),
        None => other_term(pool, given.others, given.terms, x),
    }
}

/// The term that is given for a node, where it is a name.
fn given_for(pool: &Pool, given: &Given, head: Head) -> Option<Found>
    requires { IsGivenBelow (length pool.now.trees) given.now }
    ensures tree { found_tree pool.now.trees result
        ≡ given_by (terms_of pool.now.trees given.now) head }
    ensures live { IfSome result (λ f. ChildBelow (length pool.now.trees) f.term) }
{
    match head {
        Head::Leaf(x) => given_term(pool, given, x),
        _ => None,
    }
}

/// A node with the same state of its children.
fn node_below(pool: &Pool, n: NodeId, pending: bool) -> PartNode
    requires { n.0 < length pool.now.trees }
    ensures head { tree_at pool.now.trees (Some n) ≡ Node result.head
        (tree_at pool.now.trees result.first.node) (tree_at pool.now.trees result.second.node) }
    ensures pending_first { result.first.pending ≡ pending }
    ensures pending_second { result.second.pending ≡ pending }
    ensures first { ChildBelow n.0 result.first.node }
    ensures second { ChildBelow n.0 result.second.node }
{
    let node = read_node(pool, n);
    PartNode {
        head: node.head,
        first: Part {
            node: node.first,
            pending,
        },
        second: Part {
            node: node.second,
            pending,
        },
    }
}

/// The node that a part is, if it is one. What is put for a name is not looked into.
#[tactic(auto, using(crate::proofs::terms::Putting::putting))]
pub fn read_part(pool: &Pool, given: &Given, part: Part) -> Option<PartNode>
    requires given { IsGivenBelow (length pool.now.trees) given.now }
    requires part { ChildBelow (length pool.now.trees) part.node }
    ensures tree { IfSome result (λ t. part_tree pool.now.trees given.now part ≡ Node t.head
        (part_tree pool.now.trees given.now t.first)
        (part_tree pool.now.trees given.now t.second)) }
    ensures none { IfNone result (part_tree pool.now.trees given.now part ≡ Empty) }
    ensures first { IfSome result (λ t. ChildBelow (length pool.now.trees) t.first.node) }
    ensures second { IfSome result (λ t. ChildBelow (length pool.now.trees) t.second.node) }
    ensures less { IfSome result (λ t. left_of (length pool.now.trees) t.second
        < left_of (length pool.now.trees) part) }
{
    let Some(n) = part.node else {
        return None;
    };
    if !part.pending {
        return Some(node_below(pool, n, false));
    }
    let node = read_node(pool, n);
    match given_for(pool, given, node.head) {
        Some(found) => match found.term {
            Some(t) => Some(node_below(pool, t, false)),
            None => None,
        },
        None => Some(node_below(pool, n, true)),
    }
}

/// Whether a tree is what a part stands for.
#[tactic(auto, using(crate::proofs::terms::Putting::putting))]
pub fn same_part(pool: &Pool, given: &Given, tree: Option<NodeId>, part: Part) -> bool
    requires given { IsGivenBelow (length pool.now.trees) given.now }
    requires tree { ChildBelow (length pool.now.trees) tree }
    requires part { ChildBelow (length pool.now.trees) part.node }
    ensures { result ≡ same_tree (tree_at pool.now.trees tree)
        (part_tree pool.now.trees given.now part) }
{
    let mut at = tree;
    let mut there = part;
    'chain: while let Some(n) = at {
        if !there.pending {
            return same(pool, at, there.node);
        }
        let node = read_node(pool, n);
        let Some(wanted) = read_part(pool, given, there) else {
            return false;
        };
        if node.head.code() != wanted.head.code() {
            return false;
        }
        if !same_part(pool, given, node.first, wanted.first) {
            return false;
        }
        at = node.second;
        there = wanted.second;
    }
    read_part(pool, given, there).is_none()
}
