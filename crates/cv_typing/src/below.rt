ghost use Rattle.std.specs.Prelude.{◌≡◌, ◌<◌, ◌+◌, ◌^◌, ℕ, List, length, option_map, IfSome};
ghost use Rattle.cv_pool.specs.KindTree.{KindTree};
ghost use Rattle.cv_pool.specs.Nodes.{ChildBelow};
ghost use Rattle.cv_syntax.specs.Declarations.{declarations};
ghost use Rattle.cv_syntax.specs.PoolTrees.{tree_at};
ghost use Rattle.cv_typing.specs.declared.arrays.Arrays.{Arrays};
ghost use Rattle.cv_typing.specs.Lookups.{AreLiveWants, HasLiveArguments, IsLiveWant, both_wants, signature_in, want_of};
ghost use Rattle.cv_scope_rules.specs.typing.Signature.{event_in, function_in, names_in};
ghost use Rattle.cv_scope_rules.specs.declared.typing.want.Want.TheVariants.{Indices};
ghost use Rattle.cv_typing.specs.Tables.{above_of, arrays_of};
ghost use Rattle.cv_scope_rules.specs.typing.Wants as wants;

use crate::arrays::Arrays;
use crate::function::{event_arguments, find_function};
use crate::terms::sort_of_term;
use cv_scope_rules::typing::{Form, Want};
use cv_syntax::{Decls, Head, NodeId, Opened, Pool, read_node};
use cv_syntax_trees::sites::Sort;
use std::collections::HashMap;

/// A term of a sort, or any term where it isn't known.
fn like(sort: Option<Sort>) -> Want
    ensures wants { (trees : List KindTree) (arrays : Arrays)
        → want_of trees arrays result ≡ wants.like sort }
    ensures live { (n : ℕ) → IsLiveWant n result }
{
    match sort {
        Some(sort) => Want::Of(sort),
        None => Want::AnyTerm,
    }
}

/// What a name asks of its indices.
fn wants_indices(arrays: &Arrays, x: u32) -> Want
    ensures wants { (trees : List KindTree)
        → want_of trees arrays.now result ≡ wants.wants_indices (arrays_of arrays.now) x }
    ensures live { (n : ℕ) → IsLiveWant n result }
{
    match arrays {
        Arrays::OfGame(sites) => match sites.arity(x) {
            Some(_) => Want::Indices(x, 0),
            None => Want::EachTerm,
        },
        Arrays::OfSide(_, _) => Want::EachIndex,
        Arrays::OfNothing => Want::EachTerm,
    }
}

/// What a function asks of its arguments.
fn wants_arguments(decls: &Decls, f: u32) -> Want
    ensures wants { (trees : List KindTree) (arrays : Arrays)
        → want_of trees arrays result ≡ wants.wants_arguments
        (function_in (declarations trees decls.now.list) f) }
    ensures live { (n : ℕ) → HasLiveArguments n decls.now.list → IsLiveWant n result }
{
    match find_function(decls, f) {
        Some(function) => Want::Messages(function.arguments),
        None => Want::EachTerm,
    }
}

/// What an event asks of its arguments.
fn wants_of_event(decls: &Decls, e: u32) -> Want
    ensures wants { (trees : List KindTree) (arrays : Arrays)
        → want_of trees arrays result ≡ wants.Messages
        (event_in (declarations trees decls.now.list) e) }
    ensures live { (n : ℕ) → HasLiveArguments n decls.now.list → IsLiveWant n result }
{
    Want::Messages(event_arguments(decls, e))
}

/// What a term asks of its parts.
fn term_wants(
    pool: &Pool,
    decls: &Decls,
    arrays: &Arrays,
    above: &HashMap<u32, Sort>,
    head: Head,
    first: Option<NodeId>,
) -> Option<(Want, Want)>
    requires { ChildBelow (length pool.now.trees) first }
    ensures wants { option_map (both_wants pool.now.trees arrays.now) result
        ≡ wants.term_wants (signature_in pool.now.trees decls.now.list arrays.now)
        (above_of above.now) head (tree_at pool.now.trees first) }
    ensures live { HasLiveArguments (length pool.now.trees) decls.now.list
        → IfSome result (AreLiveWants (length pool.now.trees)) }
{
    match head {
        Head::Read(x) => Some((wants_indices(arrays, x), Want::NoTerms)),
        Head::Apply(f) => Some((wants_arguments(decls, f), Want::NoTerms)),
        Head::Eq => {
            let left = sort_of_term(pool, decls, arrays, above, first);
            Some((Want::AnyTerm, like(left)))
        }
        Head::And => Some((Want::Of(Sort::OfType(0)), Want::Of(Sort::OfType(0)))),
        Head::Or => Some((Want::Of(Sort::OfType(0)), Want::Of(Sort::OfType(0)))),
        Head::Not => Some((Want::Of(Sort::OfType(0)), Want::NoTerms)),
        _ => None,
    }
}

/// What a process or a body asks of its parts.
fn run_wants(decls: &Decls, form: Form, head: Head) -> (Want, Want)
    ensures wants { (trees : List KindTree) (arrays : Arrays)
        → both_wants trees arrays result
        ≡ wants.run_wants (declarations trees decls.now.list) form head }
    ensures live { (n : ℕ) → HasLiveArguments n decls.now.list → AreLiveWants n result }
{
    match head {
        Head::Par => (Want::Run(form), Want::Run(form)),
        Head::Repl(_, _) => (Want::NoTerms, Want::Run(form)),
        Head::In(_) => (Want::NoTerms, Want::Run(form)),
        Head::Out(_) => (Want::Sent, Want::Run(form)),
        Head::Event(e) => (wants_of_event(decls, e), Want::Run(form)),
        Head::New(_, _) => (Want::NoTerms, Want::Run(form)),
        Head::Let(_, t) => (Want::Message(t), Want::Run(form)),
        Head::If => (Want::Of(Sort::OfType(0)), Want::Run(form)),
        Head::Find(_) => (Want::Branches(form), Want::Run(form)),
        Head::Cons => (Want::Run(form), Want::Run(form)),
        _ => (Want::NoTerms, Want::NoTerms),
    }
}

/// What branches ask of their parts.
fn branch_wants(form: Form, head: Head) -> (Want, Want)
    ensures wants { (trees : List KindTree) (arrays : Arrays)
        → both_wants trees arrays result ≡ wants.branch_wants form head }
    ensures live { (n : ℕ) → AreLiveWants n result }
{
    match head {
        Head::Cons => (Want::Branches(form), Want::Branches(form)),
        Head::Branch => (Want::NoTerms, Want::Guarded(form)),
        _ => (Want::NoTerms, Want::NoTerms),
    }
}

/// What a correspondence asks of its parts.
fn query_wants(head: Head) -> (Want, Want)
    ensures wants { (trees : List KindTree) (arrays : Arrays)
        → both_wants trees arrays result ≡ wants.query_wants head }
    ensures live { (n : ℕ) → AreLiveWants n result }
{
    match head {
        Head::Query => (Want::NoTerms, Want::Atoms),
        _ => (Want::NoTerms, Want::NoTerms),
    }
}

/// What the events of a correspondence ask of their parts.
fn atom_wants(decls: &Decls, head: Head) -> (Want, Want)
    ensures wants { (trees : List KindTree) (arrays : Arrays)
        → both_wants trees arrays result
        ≡ wants.atom_wants (declarations trees decls.now.list) head }
    ensures live { (n : ℕ) → HasLiveArguments n decls.now.list → AreLiveWants n result }
{
    match head {
        Head::Cons => (Want::Atoms, Want::Atoms),
        Head::SomeOf => (Want::Atoms, Want::Atoms),
        Head::Occurs(e) => (wants_of_event(decls, e), Want::NoTerms),
        Head::OccursOnce(e) => (wants_of_event(decls, e), Want::NoTerms),
        _ => (Want::NoTerms, Want::NoTerms),
    }
}

/// What a list of values of types asks of its first item and of the others.
fn messages_wants(pool: &Pool, types: Option<NodeId>) -> (Want, Want)
    requires { ChildBelow (length pool.now.trees) types }
    ensures wants { (arrays : Arrays)
        → both_wants pool.now.trees arrays result
        ≡ wants.list_wants (wants.Messages (names_in (tree_at pool.now.trees types))) }
    ensures live { AreLiveWants (length pool.now.trees) result }
{
    let Some(k) = types else {
        return (Want::AnyTerm, Want::EachTerm);
    };
    let cell = read_node(pool, k);
    match cell.head {
        Head::Name(t) => (Want::Message(t), Want::Messages(cell.second)),
        _ => (Want::AnyTerm, Want::EachTerm),
    }
}

/// What a list of indices of parameters asks of its first item and of the others.
fn indices_wants(arrays: &Arrays, x: u32, k: usize) -> (Want, Want)
    ensures wants { (trees : List KindTree)
        → both_wants trees arrays.now result
        ≡ wants.list_wants (want_of trees arrays.now (Indices x k)) }
    ensures live { (n : ℕ) → AreLiveWants n result }
{
    match arrays.parameter(x, k) {
        Some(n) => (Want::Of(Sort::BelowParameter(n)), Want::Indices(x, k + 1)),
        None => (Want::AnyTerm, Want::EachTerm),
    }
}

/// What a list asks of its first item and of the others.
fn list_wants(pool: &Pool, arrays: &Arrays, want: Want) -> (Want, Want)
    requires { IsLiveWant (length pool.now.trees) want }
    ensures wants { both_wants pool.now.trees arrays.now result
        ≡ wants.list_wants (want_of pool.now.trees arrays.now want) }
    ensures live { AreLiveWants (length pool.now.trees) result }
{
    match want {
        Want::Guarded(form) => (Want::EachTerm, Want::Tested(form)),
        Want::Tested(form) => (Want::Of(Sort::OfType(0)), Want::Run(form)),
        Want::Sent => (Want::NoTerms, Want::AllMessages),
        Want::EachTerm => (Want::AnyTerm, Want::EachTerm),
        Want::EachIndex => (Want::AnyIndex, Want::EachIndex),
        Want::AllMessages => (Want::AnyMessage, Want::AllMessages),
        Want::Messages(types) => messages_wants(pool, types),
        Want::Indices(x, k) => indices_wants(arrays, x, k),
        _ => (Want::NoTerms, Want::NoTerms),
    }
}

/// What a node that is no term asks of its parts, by its place and its head.
fn place_wants(pool: &Pool, decls: &Decls, arrays: &Arrays, want: Want, head: Head) -> (Want, Want)
    requires live { IsLiveWant (length pool.now.trees) want }
    requires arguments { HasLiveArguments (length pool.now.trees) decls.now.list }
    ensures wants { both_wants pool.now.trees arrays.now result
        ≡ wants.place_wants (declarations pool.now.trees decls.now.list)
        (want_of pool.now.trees arrays.now want) head }
    ensures live { AreLiveWants (length pool.now.trees) result }
{
    match want {
        Want::Run(form) => run_wants(decls, form, head),
        Want::Branches(form) => branch_wants(form, head),
        Want::Correspondence => query_wants(head),
        Want::Atoms => atom_wants(decls, head),
        _ => match head {
            Head::Cons => list_wants(pool, arrays, want),
            _ => (Want::NoTerms, Want::NoTerms),
        },
    }
}

/// What the two children of a node are asked.
pub fn wants_below(
    pool: &Pool,
    decls: &Decls,
    arrays: &Arrays,
    above: &HashMap<u32, Sort>,
    want: Want,
    node: Opened,
) -> (Want, Want)
    requires first { ChildBelow (length pool.now.trees) node.first }
    requires live { IsLiveWant (length pool.now.trees) want }
    requires arguments { HasLiveArguments (length pool.now.trees) decls.now.list }
    ensures wants { both_wants pool.now.trees arrays.now result
        ≡ wants.wants (signature_in pool.now.trees decls.now.list arrays.now) (above_of above.now)
        (want_of pool.now.trees arrays.now want) node.head (tree_at pool.now.trees node.first) }
    ensures live { AreLiveWants (length pool.now.trees) result }
{
    match term_wants(pool, decls, arrays, above, node.head, node.first) {
        Some(asked) => asked,
        None => place_wants(pool, decls, arrays, want, node.head),
    }
}

/// Whether a node binds names for its second child.
pub fn binds(want: Want, head: Head) -> bool
    ensures { (trees : List KindTree) (arrays : Arrays)
        → result ≡ wants.binds (want_of trees arrays want) head }
{
    match head {
        Head::Repl(_, _) => true,
        Head::New(_, _) => is_in_body(want),
        Head::Let(_, _) => is_in_body(want),
        Head::Branch => is_in_body(want),
        _ => false,
    }
}

/// Whether a body of an equivalence stands at a position, or a branch of one.
fn is_in_body(want: Want) -> bool
    ensures { (trees : List KindTree) (arrays : Arrays)
        → result ≡ wants.is_in_body (want_of trees arrays want) }
{
    match want {
        Want::Run(Form::InBody(_)) => true,
        Want::Branches(Form::InBody(_)) => true,
        _ => false,
    }
}
