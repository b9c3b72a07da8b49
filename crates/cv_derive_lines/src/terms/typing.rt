ghost use Rattle.std.specs.Prelude.{◌≡◌, ◌<◌, ◌&&◌, ◌||◌, All, List, is_some, length, not};
ghost use Rattle.cv_pool.specs.KindTree.{KindTree};
ghost use Rattle.cv_pool.specs.Nodes.{ChildBelow};
ghost use Rattle.cv_syntax.specs.Declarations.{declarations};
ghost use Rattle.cv_syntax.specs.PoolTrees.{tree_at};
ghost use Rattle.cv_typing.specs.Lookups.{HasLiveArguments, IsLiveWant, signature_in, want_of};
ghost use Rattle.cv_directory.specs.Live.{IsLive};
ghost use Rattle.cv_scope_rules.specs.typing.Signature.{function_in, variable_in};
ghost use Rattle.cv_syntax_trees.specs.sites.Sorts.{same_sort};
ghost use Rattle.cv_typing.specs.Tables.{above_of, arrays_of};
ghost use Rattle.cv_scope_rules.specs.typing.Typing.{fault_of};
ghost use Rattle.cv_scene.specs.Sights as sights;
ghost use Rattle.cv_scene.specs.Sights.{Sight};
ghost use Rattle.cv_scene.specs.Terms as terms;
ghost use Rattle.cv_derive_lines.specs.Views.{IsClaimBelow, statement_of};
ghost use Rattle.cv_derive_lines.specs.terms.Typed as typed;
ghost use Rattle.cv_derive_lines.specs.terms.Typed.{IsSightOf, names_of};

use crate::Claim;
use cv_scene_view::phrases::{Phrase, is_phrase};
use cv_scope_rules::typing::Want;
use cv_syntax::children::read_child;
use cv_syntax::{Decls, Head, NodeId, Opened, Pool, Work, read_node};
use cv_syntax_trees::sites::Sort;
use cv_typing::{Arrays, function_sort, own_fault, sort_of_term, wants_below};
use std::collections::HashMap;

/// Whether a name is a variable of the game.
#[tactic(auto, using(crate::proofs::terms::Known::known))]
fn is_variable(arrays: &Arrays, x: u32) -> bool
    ensures { result ≡ is_some (variable_in (arrays_of arrays.now) x) }
{
    arrays.arity(x).is_some()
}

/// Whether a name is a function.
fn is_function(decls: &Decls, f: u32) -> bool
    ensures { (trees : List KindTree)
        → result ≡ is_some (function_in (declarations trees decls.now.list) f) }
{
    function_sort(decls, f).is_some()
}

/// Whether a name that stands bare is there.
fn is_known_name(decls: &Decls, arrays: &Arrays, above: &HashMap<u32, Sort>, x: u32) -> bool
    ensures { (trees : List KindTree) → result ≡ (is_some (above_of above.now x)
        || (is_some (function_in (declarations trees decls.now.list) x)
        || is_some (variable_in (arrays_of arrays.now) x))) }
{
    if above.contains_key(&x) {
        return true;
    }
    if is_function(decls, x) {
        return true;
    }
    is_variable(arrays, x)
}

/// Whether what a node of a term names is there.
fn is_known_head(decls: &Decls, arrays: &Arrays, above: &HashMap<u32, Sort>, head: Head) -> bool
    ensures { (trees : List KindTree) → result ≡ typed.is_known_head
        (names_of (declarations trees decls.now.list) arrays.now above.now) head }
{
    match head {
        Head::Leaf(x) => is_known_name(decls, arrays, above, x),
        Head::Read(x) => is_variable(arrays, x),
        Head::Apply(f) => is_function(decls, f),
        _ => true,
    }
}

/// Whether what a node of a term names is there, and the node is typed by itself.
fn is_typed_node(
    pool: &Pool,
    decls: &Decls,
    arrays: &Arrays,
    above: &HashMap<u32, Sort>,
    want: Want,
    node: Opened,
) -> bool
    requires first { ChildBelow (length pool.now.trees) node.first }
    requires arguments { HasLiveArguments (length pool.now.trees) decls.now.list }
    ensures { result ≡ (typed.is_known_head
        (names_of (declarations pool.now.trees decls.now.list) arrays.now above.now) node.head
        && not (is_some (fault_of (signature_in pool.now.trees decls.now.list arrays.now)
        (above_of above.now) (want_of pool.now.trees arrays.now want) node.head
        (tree_at pool.now.trees node.first)))) }
{
    if !is_known_head(decls, arrays, above, node.head) {
        return false;
    }
    own_fault(pool, decls, arrays, above, want, node).is_none()
}

/// Whether all that a tree names is there, and the tree is typed where no node binds a name.
fn is_typed_tree(
    pool: &Pool,
    decls: &Decls,
    arrays: &Arrays,
    above: &HashMap<u32, Sort>,
    want: Want,
    tree: Option<NodeId>,
) -> bool
    requires live { ChildBelow (length pool.now.trees) tree }
    requires want { IsLiveWant (length pool.now.trees) want }
    requires arguments { HasLiveArguments (length pool.now.trees) decls.now.list }
    ensures { result ≡ typed.is_typed_tree
        (names_of (declarations pool.now.trees decls.now.list) arrays.now above.now)
        (signature_in pool.now.trees decls.now.list arrays.now) (above_of above.now)
        (want_of pool.now.trees arrays.now want) (tree_at pool.now.trees tree) }
{
    let mut asked = want;
    let mut at = tree;
    'tree: while let Some(k) = at {
        let node = read_node(pool, k);
        if !is_typed_node(pool, decls, arrays, above, asked, node) {
            return false;
        }
        let below = wants_below(pool, decls, arrays, above, asked, node);
        if !is_typed_tree(pool, decls, arrays, above, below.0, node.first) {
            return false;
        }
        asked = below.1;
        at = node.second;
    }
    true
}

/// Whether a tree is a term whose names are there, and that is typed.
pub fn is_term(
    work: &Work,
    arrays: &Arrays,
    above: &HashMap<u32, Sort>,
    term: Option<NodeId>,
) -> bool
    requires declared { All (IsLive (length work.now.pool.trees)) work.now.decls.list }
    requires term { ChildBelow (length work.now.pool.trees) term }
    ensures { (s : Sight)
        → IsSightOf work.now.pool.trees work.now.decls.list arrays.now above.now s
        → result ≡ terms.is_term_under s.scene s.replications (tree_at work.now.pool.trees term) }
{
    if !is_phrase(&work.pool, Phrase::Term, term) {
        return false;
    }
    is_typed_tree(&work.pool, &work.decls, arrays, above, Want::AnyTerm, term)
}

/// Whether what a cell without indices names is a variable.
fn is_known_cell(pool: &Pool, arrays: &Arrays, cell: Option<NodeId>) -> bool
    requires { ChildBelow (length pool.now.trees) cell }
    ensures { result ≡ typed.is_known_cell (λ x. is_some (variable_in (arrays_of arrays.now) x))
        (tree_at pool.now.trees cell) }
{
    let Some(node) = read_child(pool, cell) else {
        return true;
    };
    match node.head {
        Head::Leaf(x) => is_variable(arrays, x),
        _ => true,
    }
}

/// Whether a tree is a cell whose names are there, and that is typed.
fn is_cell(work: &Work, arrays: &Arrays, above: &HashMap<u32, Sort>, cell: Option<NodeId>) -> bool
    requires declared { All (IsLive (length work.now.pool.trees)) work.now.decls.list }
    requires cell { ChildBelow (length work.now.pool.trees) cell }
    ensures { (s : Sight)
        → IsSightOf work.now.pool.trees work.now.decls.list arrays.now above.now s
        → result ≡ sights.is_cell_under s.scene s.replications (tree_at work.now.pool.trees cell) }
{
    if !is_phrase(&work.pool, Phrase::OneCell, cell) {
        return false;
    }
    if !is_known_cell(&work.pool, arrays, cell) {
        return false;
    }
    is_typed_tree(&work.pool, &work.decls, arrays, above, Want::AnyTerm, cell)
}

/// Whether the term or the cell of a line is one at the place.
pub fn is_typed_claim(
    work: &Work,
    arrays: &Arrays,
    above: &HashMap<u32, Sort>,
    claim: Claim,
) -> bool
    requires declared { All (IsLive (length work.now.pool.trees)) work.now.decls.list }
    requires claim { IsClaimBelow (length work.now.pool.trees) claim }
    ensures { (s : Sight)
        → IsSightOf work.now.pool.trees work.now.decls.list arrays.now above.now s
        → result ≡ sights.is_typed s (statement_of work.now.pool.trees claim) }
{
    match claim {
        Claim::Holds(t) => is_term(work, arrays, above, t),
        Claim::IsDefined(c) => is_cell(work, arrays, above, c),
    }
}

/// Whether a sort is known and is this one.
fn is_sort(found: Option<Sort>, sort: Sort) -> bool
    ensures { result ≡ terms.is_sort found sort }
{
    match (found, sort) {
        (Some(Sort::OfType(t)), Sort::OfType(u)) => t == u,
        (Some(Sort::BelowParameter(n)), Sort::BelowParameter(m)) => n == m,
        _ => false,
    }
}

/// Whether a tree is a term of a sort.
pub fn is_term_of(
    work: &Work,
    arrays: &Arrays,
    above: &HashMap<u32, Sort>,
    sort: Sort,
    term: Option<NodeId>,
) -> bool
    requires declared { All (IsLive (length work.now.pool.trees)) work.now.decls.list }
    requires term { ChildBelow (length work.now.pool.trees) term }
    ensures { (s : Sight)
        → IsSightOf work.now.pool.trees work.now.decls.list arrays.now above.now s
        → result ≡ sights.is_term_of s sort (tree_at work.now.pool.trees term) }
{
    if !is_term(work, arrays, above, term) {
        return false;
    }
    let found = sort_of_term(&work.pool, &work.decls, arrays, above, term);
    is_sort(found, sort)
}

/// Whether a tree is a term of type `bool`.
pub fn is_condition(
    work: &Work,
    arrays: &Arrays,
    above: &HashMap<u32, Sort>,
    term: Option<NodeId>,
) -> bool
    requires declared { All (IsLive (length work.now.pool.trees)) work.now.decls.list }
    requires term { ChildBelow (length work.now.pool.trees) term }
    ensures { (s : Sight)
        → IsSightOf work.now.pool.trees work.now.decls.list arrays.now above.now s
        → result ≡ sights.is_condition s (tree_at work.now.pool.trees term) }
{
    is_term_of(work, arrays, above, Sort::OfType(0), term)
}
