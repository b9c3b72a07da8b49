ghost use Rattle.std.specs.Prelude.{◌≡◌, ◌<◌, List, length, option_map};
ghost use Rattle.cv_pool.specs.Nodes.{ChildBelow};
ghost use Rattle.cv_syntax.specs.PoolTrees.{tree_at};
ghost use Rattle.cv_syntax.specs.Declarations.{declarations};
ghost use Rattle.cv_pool.specs.KindTree.{KindTree};
ghost use Rattle.cv_typing.specs.Lookups.{HasLiveArguments, signature_in};
ghost use Rattle.cv_scope_rules.specs.typing.Signature as signature;
ghost use Rattle.cv_syntax_trees.specs.declared.sites.sort.Sort.TheVariants.{OfType};
ghost use Rattle.cv_typing.specs.Tables.{above_of, arrays_of};

use crate::arrays::Arrays;
use crate::function::{count_names, event_arguments, find_function};
use cv_syntax::children::first_of;
use cv_syntax::{Decls, Head, NodeId, Pool, read_node};
use cv_syntax_trees::sites::Sort;
use std::collections::HashMap;

/// The sort of what a function gives.
pub fn function_sort(decls: &Decls, f: u32) -> Option<Sort>
    ensures { (trees : List KindTree)
        → result ≡ option_map (λ (f : signature.Function). OfType f.result)
        (signature.function_in (declarations trees decls.now.list) f) }
{
    match find_function(decls, f) {
        Some(function) => Some(Sort::OfType(function.result)),
        None => None,
    }
}

/// The sort of a name that stands bare.
fn leaf_sort(decls: &Decls, arrays: &Arrays, above: &HashMap<u32, Sort>, x: u32) -> Option<Sort>
    ensures { (trees : List KindTree)
        → result ≡ signature.leaf_sort (signature_in trees decls.now.list arrays.now)
        (above_of above.now) x }
{
    if let Some(sort) = above.get(&x) {
        return Some(*sort);
    }
    if let Some(sort) = arrays.sort(x) {
        return Some(sort);
    }
    if let Some(sort) = function_sort(decls, x) {
        return Some(sort);
    }
    match arrays.index(x) {
        Some(n) => Some(Sort::BelowParameter(n)),
        None => None,
    }
}

/// The bound over which an index term ranges.
fn bound_of_term(pool: &Pool, above: &HashMap<u32, Sort>, term: Option<NodeId>) -> Option<u32>
    requires { ChildBelow (length pool.now.trees) term }
    ensures { result ≡ signature.bound_of_term (above_of above.now) (tree_at pool.now.trees term) }
{
    let Head::Leaf(u) = read_node(pool, term?).head else {
        return None;
    };
    match above.get(&u) {
        Some(Sort::BelowParameter(n)) => Some(*n),
        _ => None,
    }
}

/// The sort of a name at indices.
fn read_sort(
    pool: &Pool,
    arrays: &Arrays,
    above: &HashMap<u32, Sort>,
    x: u32,
    indices: Option<NodeId>,
) -> Option<Sort>
    requires { ChildBelow (length pool.now.trees) indices }
    ensures { result ≡ signature.read_sort (arrays_of arrays.now) (above_of above.now) x
        (tree_at pool.now.trees indices) }
{
    match arrays {
        Arrays::OfGame(sites) => sites.sort(x),
        Arrays::OfSide(locals, _) => {
            let bound = bound_of_term(pool, above, first_of(pool, indices))?;
            locals.sort(bound, x)
        }
        Arrays::OfNothing => above.get(&x).copied(),
    }
}

/// The sort of a term by its head and its first child.
pub fn sort_of_head(
    pool: &Pool,
    decls: &Decls,
    arrays: &Arrays,
    above: &HashMap<u32, Sort>,
    head: Head,
    child: Option<NodeId>,
) -> Option<Sort>
    requires { ChildBelow (length pool.now.trees) child }
    ensures { result ≡ signature.sort_by (signature_in pool.now.trees decls.now.list arrays.now)
        (above_of above.now) head (tree_at pool.now.trees child) }
{
    match head {
        Head::Leaf(x) => leaf_sort(decls, arrays, above, x),
        Head::Read(x) => read_sort(pool, arrays, above, x, child),
        Head::Apply(f) => function_sort(decls, f),
        Head::Eq | Head::And | Head::Or | Head::Not | Head::Yes | Head::No => {
            Some(Sort::OfType(0))
        }
        _ => None,
    }
}

/// The sort of a term.
pub fn sort_of_term(
    pool: &Pool,
    decls: &Decls,
    arrays: &Arrays,
    above: &HashMap<u32, Sort>,
    term: Option<NodeId>,
) -> Option<Sort>
    requires { ChildBelow (length pool.now.trees) term }
    ensures { result ≡ signature.sort_of (signature_in pool.now.trees decls.now.list arrays.now)
        (above_of above.now) (tree_at pool.now.trees term) }
{
    let node = read_node(pool, term?);
    sort_of_head(pool, decls, arrays, above, node.head, node.first)
}

/// How many indices a name takes that stands bare.
fn leaf_arity(
    pool: &Pool,
    decls: &Decls,
    arrays: &Arrays,
    above: &HashMap<u32, Sort>,
    x: u32,
) -> Option<usize>
    requires { HasLiveArguments (length pool.now.trees) decls.now.list }
    ensures { result ≡ signature.leaf_arity (signature_in pool.now.trees decls.now.list arrays.now)
        (above_of above.now) x }
{
    if above.contains_key(&x) {
        return None;
    }
    if let Some(n) = arrays.arity(x) {
        return Some(n);
    }
    function_arity(pool, decls, x)
}

/// How many arguments a function takes.
fn function_arity(pool: &Pool, decls: &Decls, f: u32) -> Option<usize>
    requires { HasLiveArguments (length pool.now.trees) decls.now.list }
    ensures { result ≡ option_map (λ (f : signature.Function). length f.arguments)
        (signature.function_in (declarations pool.now.trees decls.now.list) f) }
{
    match find_function(decls, f) {
        Some(function) => Some(count_names(pool, function.arguments)),
        None => None,
    }
}

/// How many arguments an event takes.
fn event_arity(pool: &Pool, decls: &Decls, e: u32) -> usize
    requires { HasLiveArguments (length pool.now.trees) decls.now.list }
    ensures { result ≡ length (signature.event_in (declarations pool.now.trees decls.now.list) e) }
{
    count_names(pool, event_arguments(decls, e))
}

/// How many arguments or indices a node takes, where that is known.
pub fn arity_of_head(
    pool: &Pool,
    decls: &Decls,
    arrays: &Arrays,
    above: &HashMap<u32, Sort>,
    head: Head,
) -> Option<usize>
    requires { HasLiveArguments (length pool.now.trees) decls.now.list }
    ensures { result ≡ signature.arity_by (signature_in pool.now.trees decls.now.list arrays.now)
        (above_of above.now) head }
{
    match head {
        Head::Leaf(x) => leaf_arity(pool, decls, arrays, above, x),
        Head::Read(x) => match arrays {
            Arrays::OfGame(sites) => sites.arity(x),
            Arrays::OfSide(_, _) => Some(1),
            Arrays::OfNothing => Some(0),
        },
        Head::Apply(f) => function_arity(pool, decls, f),
        Head::Event(e) => Some(event_arity(pool, decls, e)),
        Head::Occurs(e) => Some(event_arity(pool, decls, e)),
        Head::OccursOnce(e) => Some(event_arity(pool, decls, e)),
        _ => None,
    }
}
