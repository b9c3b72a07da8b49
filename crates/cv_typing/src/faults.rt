ghost use Rattle.std.specs.Prelude.{◌≡◌, ◌<◌, ◌||◌, List, length};
ghost use Rattle.cv_pool.specs.Nodes.{ChildBelow};
ghost use Rattle.cv_pool.specs.KindTree.{KindTree};
ghost use Rattle.cv_typing.specs.declared.arrays.Arrays.{Arrays};
ghost use Rattle.cv_syntax.specs.Declarations.{declarations};
ghost use Rattle.cv_syntax.specs.PoolTrees.{tree_at};
ghost use Rattle.cv_typing.specs.Lookups.{HasLiveArguments, signature_in, want_of};
ghost use Rattle.cv_syntax_trees.specs.sites.Counting as counting;
ghost use Rattle.cv_scope_rules.specs.typing.Signature.{is_arity};
ghost use Rattle.cv_syntax_trees.specs.sites.Sites.{binder_sort};
ghost use Rattle.cv_typing.specs.Tables.{above_of, arrays_of};
ghost use Rattle.cv_scope_rules.specs.typing.Typing as typing;
ghost use Rattle.cv_scope_rules.specs.typing.Wants as wants;

use crate::arrays::Arrays;
use crate::function::{count, is_fixed};
use crate::terms::{arity_of_head, sort_of_head};
use cv_directory::sort_of_binder;
use cv_scope_rules::typing::{Fault, Form, Want};
use cv_syntax::children::second_of;
use cv_syntax::{Decls, Head, NodeId, Opened, Pool, read_node};
use cv_syntax_trees::sites::{Sort, differs_from, same_sort};
use std::collections::HashMap;

/// Whether a sort is that of indices.
fn is_index(sort: Sort) -> bool
    ensures { result ≡ wants.is_index sort }
{
    matches!(sort, Sort::BelowParameter(_))
}

/// Whether a result is of another sort than is asked, or an index.
fn is_other_result(form: Form, sort: Sort) -> bool
    ensures { result ≡ wants.is_other_result form sort }
{
    match form {
        Form::InProcess => false,
        Form::InBody(None) => is_index(sort),
        Form::InBody(Some(wanted)) => !same_sort(wanted, sort),
    }
}

/// Whether values are of another type than is asked.
fn is_of_other_type(t: u32, sort: Sort) -> bool
    ensures { result ≡ wants.is_of_other_type t sort }
{
    match sort {
        Sort::OfType(u) => t != u,
        Sort::BelowParameter(_) => false,
    }
}

/// Whether a term is of another sort than is asked.
fn is_other_sort(want: Want, sort: Sort) -> bool
    ensures { (trees : List KindTree) (arrays : Arrays)
        → result ≡ wants.is_other_sort (want_of trees arrays want) sort }
{
    match want {
        Want::Run(form) => is_other_result(form, sort),
        Want::Atoms => !same_sort(Sort::OfType(0), sort),
        Want::AnyIndex => !is_index(sort),
        Want::AnyValue => is_index(sort),
        Want::Of(wanted) => !same_sort(wanted, sort),
        Want::Message(t) => is_of_other_type(t, sort),
        _ => false,
    }
}

/// Whether a value is asked that is sent or given to a function, an event or a variable.
fn is_message(want: Want) -> bool
    ensures { (trees : List KindTree) (arrays : Arrays)
        → result ≡ wants.is_message (want_of trees arrays want) }
{
    matches!(want, Want::AnyMessage | Want::Message(_))
}

/// Whether a binder of a list gives its variable another sort than its first site.
fn binders_differ(pool: &Pool, arrays: &Arrays, are_indices: bool, list: Option<NodeId>) -> bool
    requires { ChildBelow (length pool.now.trees) list }
    ensures { result ≡ typing.binders_differ (arrays_of arrays.now) (binder_sort are_indices)
        (tree_at pool.now.trees list) }
{
    let mut at = list;
    'list: while let Some(k) = at {
        let node = read_node(pool, k);
        if let Head::Binder(x, t) = node.head {
            if differs_from(arrays.variable_sort(x), sort_of_binder(are_indices, t)) {
                return true;
            }
        }
        at = node.second;
    }
    false
}

/// Whether a node defines a variable with another sort than its first site, or in a body of an equivalence a name with
/// another sort than its function.
fn site_differs(pool: &Pool, arrays: &Arrays, head: Head, first: Option<NodeId>) -> bool
    requires { ChildBelow (length pool.now.trees) first }
    ensures { result ≡ typing.site_differs (arrays_of arrays.now) head
        (tree_at pool.now.trees first) }
{
    match head {
        Head::New(x, t) => differs_from(arrays.sort(x), Sort::OfType(t)),
        Head::Let(x, t) => differs_from(arrays.sort(x), Sort::OfType(t)),
        Head::In(_) => binders_differ(pool, arrays, false, second_of(pool, first)),
        Head::Branch => binders_differ(pool, arrays, true, first),
        _ => false,
    }
}

/// Whether a node is a `new` of a type that isn't fixed.
fn is_unfixed(decls: &Decls, head: Head) -> bool
    ensures { (trees : List KindTree) (arrays : Arrays)
        → result ≡ typing.is_unfixed (signature_in trees decls.now.list arrays) head }
{
    match head {
        Head::New(_, t) => !is_fixed(decls, t),
        _ => false,
    }
}

/// Whether a term is of another sort than is asked. A term of unknown sort is not.
fn is_wrong(want: Want, sort: Option<Sort>) -> bool
    ensures { (trees : List KindTree) (arrays : Arrays)
        → result ≡ wants.is_wrong (want_of trees arrays want) sort }
{
    match sort {
        Some(sort) => is_other_sort(want, sort),
        None => false,
    }
}

/// Whether a term is an index where a value is sent.
fn is_index_sent(want: Want, sort: Option<Sort>) -> bool
    ensures { (trees : List KindTree) (arrays : Arrays)
        → result ≡ wants.is_index_sent (want_of trees arrays want) sort }
{
    match sort {
        Some(sort) => is_message(want) && is_index(sort),
        None => false,
    }
}

/// Whether a list has as many items as are asked, where that is known.
fn has_arity(pool: &Pool, wanted: Option<usize>, list: Option<NodeId>) -> bool
    requires { ChildBelow (length pool.now.trees) list }
    ensures { result ≡ is_arity wanted (counting.count (tree_at pool.now.trees list)) }
{
    match wanted {
        Some(n) => n == count(pool, list),
        None => true,
    }
}

/// Whether an index stands where a value is sent, or a `new` is of a type that isn't fixed.
fn value_fault(decls: &Decls, want: Want, sort: Option<Sort>, head: Head) -> Option<Fault>
    ensures { (trees : List KindTree) (arrays : Arrays)
        → result ≡ typing.value_fault (signature_in trees decls.now.list arrays)
        (want_of trees arrays want) sort head }
{
    if is_index_sent(want, sort) {
        return Some(Fault::IndexAsMessage);
    }
    if is_unfixed(decls, head) {
        return Some(Fault::NotFixed);
    }
    None
}

/// The fault of a node by itself.
pub fn own_fault(
    pool: &Pool,
    decls: &Decls,
    arrays: &Arrays,
    above: &HashMap<u32, Sort>,
    want: Want,
    node: Opened,
) -> Option<Fault>
    requires first { ChildBelow (length pool.now.trees) node.first }
    requires arguments { HasLiveArguments (length pool.now.trees) decls.now.list }
    ensures { result ≡ typing.fault_of (signature_in pool.now.trees decls.now.list arrays.now)
        (above_of above.now) (want_of pool.now.trees arrays.now want) node.head
        (tree_at pool.now.trees node.first) }
{
    let sort = sort_of_head(pool, decls, arrays, above, node.head, node.first);
    if is_wrong(want, sort) || site_differs(pool, arrays, node.head, node.first) {
        return Some(Fault::WrongType);
    }
    let arity = arity_of_head(pool, decls, arrays, above, node.head);
    if !has_arity(pool, arity, node.first) {
        return Some(Fault::Arity);
    }
    value_fault(decls, want, sort, node.head)
}
