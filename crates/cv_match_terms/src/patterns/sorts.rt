ghost use Rattle.std.specs.Prelude.{◌≡◌, length, map};
ghost use Rattle.cv_pool.specs.Nodes.{ChildBelow};
ghost use Rattle.cv_syntax.specs.PoolTrees.{tree_at};
ghost use Rattle.cv_meaning.specs.Correspondences.{typed_names};
ghost use Rattle.cv_meaning.specs.contexts.Groups.{function_of};
ghost use Rattle.cv_syntax_trees.specs.declared.sites.sort.Sort.TheVariants.{OfType};
ghost use Rattle.cv_scene.specs.Instances.{are_of_types, term_for};
ghost use Rattle.cv_scene.specs.Terms as terms;
ghost use Rattle.cv_match_terms.specs.patterns.Searches.{IsReady, may_be_argument, may_be_coin, signature_by};

use crate::patterns::filling::term_of;
use crate::patterns::names::variable_of;
use crate::patterns::search::Search;
use cv_syntax::{Head, NodeId, Work, read_node};
use cv_syntax_trees::sites::Sort;
use cv_typing::sort_of_term;

/// Whether a sort is that of the values of a type.
fn is_of_type(sort: Option<Sort>, t: u32) -> bool
    ensures { result ≡ terms.is_sort sort (OfType t) }
{
    match sort {
        Some(Sort::OfType(s)) => s == t,
        _ => false,
    }
}

/// Whether a term may stand for a coin of a type.
fn is_coin(work: &Work, search: &Search, t: u32, term: Option<NodeId>) -> bool
    requires ready { IsReady work.now.pool search.now }
    requires term { ChildBelow (length work.now.pool.trees) term }
    ensures { result ≡ may_be_coin (signature_by work.now.pool work.now.decls search.now) t
        (tree_at work.now.pool.trees term) }
{
    match variable_of(&work.pool, term) {
        Some(y) => is_of_type(search.arrays.variable_sort(y), t),
        None => false,
    }
}

/// Whether a term may stand for an argument of a type.
fn is_argument(work: &Work, search: &Search, t: u32, term: Option<NodeId>) -> bool
    requires ready { IsReady work.now.pool search.now }
    requires term { ChildBelow (length work.now.pool.trees) term }
    ensures { result ≡ may_be_argument (signature_by work.now.pool work.now.decls search.now) t
        (tree_at work.now.pool.trees term) }
{
    let sort = sort_of_term(&work.pool, &work.decls, search.arrays, &search.above, term);
    is_of_type(sort, t)
}

/// Whether each coin of a list has a term that may stand for it.
#[tactic(auto, using(crate::proofs::patterns::Parts::lists))]
pub fn are_coins(
    work: &Work,
    search: &Search,
    f: Option<NodeId>,
    term: Option<NodeId>,
    list: Option<NodeId>,
) -> bool
    requires ready { IsReady work.now.pool search.now }
    requires function { ChildBelow (length work.now.pool.trees) f }
    requires term { ChildBelow (length work.now.pool.trees) term }
    requires list { ChildBelow (length work.now.pool.trees) list }
    ensures { result ≡ are_of_types
        (may_be_coin (signature_by work.now.pool work.now.decls search.now))
        (typed_names (tree_at work.now.pool.trees list))
        (map (term_for (function_of (tree_at work.now.pool.trees f)).body
        (tree_at work.now.pool.trees term)) (typed_names (tree_at work.now.pool.trees list))) }
{
    let mut at = list;
    'list: while let Some(n) = at {
        let node = read_node(&work.pool, n);
        let Head::Binder(x, t) = node.head else {
            return true;
        };
        if !is_coin(work, search, t, term_of(&work.pool, f, term, x)) {
            return false;
        }
        at = node.second;
    }
    true
}

/// Whether each argument of a list has a term that may stand for it.
#[tactic(auto, using(crate::proofs::patterns::Parts::lists))]
pub fn are_arguments(
    work: &Work,
    search: &Search,
    f: Option<NodeId>,
    term: Option<NodeId>,
    list: Option<NodeId>,
) -> bool
    requires ready { IsReady work.now.pool search.now }
    requires function { ChildBelow (length work.now.pool.trees) f }
    requires term { ChildBelow (length work.now.pool.trees) term }
    requires list { ChildBelow (length work.now.pool.trees) list }
    ensures { result ≡ are_of_types
        (may_be_argument (signature_by work.now.pool work.now.decls search.now))
        (typed_names (tree_at work.now.pool.trees list))
        (map (term_for (function_of (tree_at work.now.pool.trees f)).body
        (tree_at work.now.pool.trees term)) (typed_names (tree_at work.now.pool.trees list))) }
{
    let mut at = list;
    'list: while let Some(n) = at {
        let node = read_node(&work.pool, n);
        let Head::Binder(x, t) = node.head else {
            return true;
        };
        if !is_argument(work, search, t, term_of(&work.pool, f, term, x)) {
            return false;
        }
        at = node.second;
    }
    true
}
