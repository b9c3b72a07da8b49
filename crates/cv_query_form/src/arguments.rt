ghost use Rattle.std.specs.Prelude.{◌≡◌, length, Some};
ghost use Rattle.cv_pool.specs.Nodes.{ChildBelow};
ghost use Rattle.cv_syntax.specs.PoolTrees.{tree_at};
ghost use Rattle.cv_syntax.specs.NameSets.{is_in};
ghost use Rattle.cv_query_form.specs.Held.{cell_variable, variable_of as variable_in};
ghost use Rattle.cv_query_form.specs.Tests as test;

use cv_syntax::{Head, NodeId, Opened, Pool, read_node};
use std::collections::HashSet;

/// The variable that a term is.
#[tactic(auto, using(cv_syntax::proofs::Trees::opened))]
fn variable_of(pool: &Pool, term: Option<NodeId>) -> Option<u32>
    requires { ChildBelow (length pool.now.trees) term }
    ensures { result ≡ variable_in (tree_at pool.now.trees term) }
{
    let node = read_node(pool, term?);
    if node.first.is_some() || node.second.is_some() {
        return None;
    }
    match node.head {
        Head::Leaf(x) => Some(x),
        _ => None,
    }
}

/// The variable that a cell of a list holds.
fn variable(pool: &Pool, cell: Opened) -> Option<u32>
    requires { ChildBelow (length pool.now.trees) cell.first }
    ensures { result ≡ cell_variable cell.head (tree_at pool.now.trees cell.first) }
{
    if matches!(cell.head, Head::Cons) {
        return variable_of(pool, cell.first);
    }
    None
}

/// Whether the terms of a list are variables that are free, none twice. Takes them away.
fn are_distinct(pool: &Pool, free: &mut HashSet<u32>, terms: Option<NodeId>) -> bool
    requires { ChildBelow (length pool.now.trees) terms }
    ensures { result ≡ test.are_distinct (is_in free.old) (tree_at pool.now.trees terms) }
{
    let mut at = terms;
    'list: while let Some(k) = at {
        let cell = read_node(pool, k);
        let Some(x) = variable(pool, cell) else {
            return false;
        };
        if !free.remove(&x) {
            return false;
        }
        at = cell.second;
    }
    true
}

/// Whether a tree is an event whose arguments are distinct variables of a query.
pub fn is_left_event(pool: &Pool, variables: HashSet<u32>, left: Option<NodeId>) -> bool
    requires { ChildBelow (length pool.now.trees) left }
    ensures { result ≡ test.is_left_event (is_in variables) (tree_at pool.now.trees left) }
{
    let Some(k) = left else {
        return false;
    };
    let event = read_node(pool, k);
    match event.head {
        Head::Occurs(_) | Head::OccursOnce(_) => {
            let mut free = variables;
            event.second.is_none() && are_distinct(pool, &mut free, event.first)
        }
        _ => false,
    }
}
