ghost use Rattle.std.specs.Prelude.{◌≡◌, length, IfOk};
ghost use Rattle.cv_pool.specs.Nodes.{ChildBelow};
ghost use Rattle.cv_syntax_trees.specs.Tree.{second};
ghost use Rattle.cv_syntax.specs.PoolTrees.{tree_at};
ghost use Rattle.cv_meaning.specs.contexts.Groups.{bound_of};
ghost use Rattle.cv_group.specs.shapes.Shapes.{sides_agree};
ghost use Rattle.cv_group_rules.specs.Rules as rule;
ghost use Rattle.cv_group_rules.specs.Rules.{bounds, each_function};

use cv_syntax::children::{first_of, is_empty, second_of};
use cv_syntax::{Head, NodeId, Pool, read_node, same};
use std::alloc::{AllocError, Global};
use std::collections::HashSet;

/// Whether a body is a term.
#[tactic(auto, using(cv_syntax::proofs::Trees::opened))]
fn is_term(pool: &Pool, body: Option<NodeId>) -> bool
    requires { ChildBelow (length pool.now.trees) body }
    ensures { result ≡ rule.is_term (tree_at pool.now.trees body) }
{
    let Some(k) = body else {
        return false;
    };
    match read_node(pool, k).head {
        Head::Leaf(_) | Head::Read(_) | Head::Apply(_) => true,
        Head::Eq | Head::And | Head::Or | Head::Not | Head::Yes | Head::No => true,
        _ => false,
    }
}

/// Whether the bodies of functions are terms.
pub fn bodies_are_terms(pool: &Pool, functions: Option<NodeId>) -> bool
    requires { ChildBelow (length pool.now.trees) functions }
    ensures { result ≡ each_function (λ f. rule.is_term (second f))
        (tree_at pool.now.trees functions) }
{
    let mut at = functions;
    'list: while let Some(k) = at {
        let node = read_node(pool, k);
        if !is_term(pool, second_of(pool, node.first)) {
            return false;
        }
        at = node.second;
    }
    true
}

/// Whether a list has one binder.
#[tactic(auto, using(cv_syntax::proofs::Trees::opened))]
fn is_one_binder(pool: &Pool, list: Option<NodeId>) -> bool
    requires { ChildBelow (length pool.now.trees) list }
    ensures { result ≡ rule.is_one_binder (tree_at pool.now.trees list) }
{
    let Some(k) = list else {
        return false;
    };
    let node = read_node(pool, k);
    match node.head {
        Head::Binder(_, _) => node.second.is_none(),
        _ => false,
    }
}

/// Whether a node with this head and this first child has one index, if it is a branch.
fn has_one_index(pool: &Pool, head: Head, indices: Option<NodeId>) -> bool
    requires { ChildBelow (length pool.now.trees) indices }
    ensures { result ≡ rule.has_one_index head (tree_at pool.now.trees indices) }
{
    match head {
        Head::Branch => is_one_binder(pool, indices),
        _ => true,
    }
}

/// Whether each branch in a tree has one index.
pub fn have_one_index(pool: &Pool, part: Option<NodeId>) -> bool
    requires { ChildBelow (length pool.now.trees) part }
    ensures { result ≡ rule.have_one_index (tree_at pool.now.trees part) }
{
    let mut at = part;
    'chain: while let Some(k) = at {
        let node = read_node(pool, k);
        if !has_one_index(pool, node.head, node.first) {
            return false;
        }
        if !have_one_index(pool, node.first) {
            return false;
        }
        at = node.second;
    }
    true
}

/// Whether two replications, or two functions without one, have the same bound.
fn have_same_bound(left: Head, right: Head) -> bool
    ensures { result ≡ rule.same_bound left right }
{
    match (left, right) {
        (Head::Bound(_, n), Head::Bound(_, m)) => n == m,
        (Head::Single(f), Head::Single(g)) => f == g,
        _ => false,
    }
}

/// Whether two functions have the same bound and the same arguments, by the nodes over what they take.
#[tactic(auto, using(cv_syntax::proofs::Trees::opened))]
fn take_alike(pool: &Pool, left: Option<NodeId>, right: Option<NodeId>) -> bool
    requires left { ChildBelow (length pool.now.trees) left }
    requires right { ChildBelow (length pool.now.trees) right }
    ensures { result ≡ rule.take_alike (tree_at pool.now.trees left)
        (tree_at pool.now.trees right) }
{
    let (Some(m), Some(n)) = (left, right) else {
        return false;
    };
    let x = read_node(pool, m);
    let y = read_node(pool, n);
    have_same_bound(x.head, y.head) && same(pool, x.second, y.second)
}

/// Whether two functions agree in name, bound and arguments.
#[tactic(auto, using(cv_syntax::proofs::Trees::opened))]
fn functions_agree(pool: &Pool, left: Option<NodeId>, right: Option<NodeId>) -> bool
    requires left { ChildBelow (length pool.now.trees) left }
    requires right { ChildBelow (length pool.now.trees) right }
    ensures { result ≡ rule.functions_agree (tree_at pool.now.trees left)
        (tree_at pool.now.trees right) }
{
    let (Some(m), Some(n)) = (left, right) else {
        return false;
    };
    let x = read_node(pool, m);
    let y = read_node(pool, n);
    x.head.code() == y.head.code() && take_alike(pool, x.first, y.first)
}

/// Whether the functions of two lists agree, one by one.
fn all_agree(pool: &Pool, left: Option<NodeId>, right: Option<NodeId>) -> bool
    requires left { ChildBelow (length pool.now.trees) left }
    requires right { ChildBelow (length pool.now.trees) right }
    ensures { result ≡ rule.all_agree (tree_at pool.now.trees left)
        (tree_at pool.now.trees right) }
{
    let mut p = left;
    let mut q = right;
    'list: while let Some(m) = p {
        let x = read_node(pool, m);
        let Some(n) = q else {
            return false;
        };
        let y = read_node(pool, n);
        if !functions_agree(pool, x.first, y.first) {
            return false;
        }
        p = x.second;
        q = y.second;
    }
    is_empty(pool, q)
}

/// Whether two groups have the same bound, and functions that agree.
#[tactic(auto, using(cv_syntax::proofs::Trees::opened))]
fn groups_agree(pool: &Pool, left: Option<NodeId>, right: Option<NodeId>) -> bool
    requires left { ChildBelow (length pool.now.trees) left }
    requires right { ChildBelow (length pool.now.trees) right }
    ensures { result ≡ rule.groups_agree (tree_at pool.now.trees left)
        (tree_at pool.now.trees right) }
{
    let (Some(m), Some(n)) = (left, right) else {
        return false;
    };
    let x = read_node(pool, m);
    let y = read_node(pool, n);
    have_same_bound(x.head, y.head) && all_agree(pool, x.second, y.second)
}

/// The bound of a function, by the node over what it takes.
#[tactic(auto, using(cv_syntax::proofs::Trees::opened))]
pub fn bound_at(pool: &Pool, taken: Option<NodeId>) -> u32
    requires { ChildBelow (length pool.now.trees) taken }
    ensures { result ≡ bound_of (tree_at pool.now.trees taken) }
{
    let Some(k) = taken else {
        return 0;
    };
    match read_node(pool, k).head {
        Head::Bound(_, n) => n,
        Head::Single(f) => f,
        _ => 0,
    }
}

/// Whether functions have different bounds.
fn have_distinct_bounds(
    alloc: Global,
    pool: &Pool,
    functions: Option<NodeId>,
) -> Result<bool, AllocError>
    requires { ChildBelow (length pool.now.trees) functions }
    ensures { IfOk result (λ yes. yes
        ≡ rule.are_distinct (bounds (tree_at pool.now.trees functions))) }
{
    let mut seen = HashSet::new(alloc);
    let mut at = functions;
    'list: while let Some(k) = at {
        let node = read_node(pool, k);
        if !seen.insert(bound_at(pool, first_of(pool, node.first)))? {
            return Ok(false);
        }
        at = node.second;
    }
    Ok(true)
}

/// Whether the shapes of an equivalence's sides agree.
pub fn shapes_agree(
    alloc: Global,
    pool: &Pool,
    left: Option<NodeId>,
    right: Option<NodeId>,
) -> Result<bool, AllocError>
    requires left { ChildBelow (length pool.now.trees) left }
    requires right { ChildBelow (length pool.now.trees) right }
    ensures { IfOk result (λ yes. yes ≡ sides_agree (tree_at pool.now.trees left)
        (tree_at pool.now.trees right)) }
{
    if !groups_agree(pool, left, right) {
        return Ok(false);
    }
    if !have_distinct_bounds(alloc, pool, second_of(pool, left))? {
        return Ok(false);
    }
    have_distinct_bounds(alloc, pool, second_of(pool, right))
}
