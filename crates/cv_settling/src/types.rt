// Types of terms of a game.
ghost use Rattle.std.specs.Prelude.{◌≡◌, ◌==◌, List, not, option_map};
ghost use Rattle.cv_pool.specs.KindTree.{KindTree};
ghost use Rattle.cv_syntax_trees.specs.declared.sites.sort.Sort.TheVariants.{OfType};
ghost use Rattle.cv_syntax.specs.Declarations.{declarations};
ghost use Rattle.cv_syntax.specs.PoolTrees.{tree_at};
ghost use Rattle.cv_scope_rules.specs.typing.Parts.{nothing_above};
ghost use Rattle.cv_scope_rules.specs.typing.Signature as signature;
ghost use Rattle.cv_scene.specs.Large as large;
ghost use Rattle.cv_scene.specs.Scenes.{Scene};
ghost use Rattle.cv_scene.specs.Terms.{signature_in};
ghost use Rattle.cv_settling_rules.specs.Measure.{is_of_large};
ghost use Rattle.cv_settling.specs.Seen.{IsTableOf, type_in};
ghost use Rattle.cv_settling.specs.Seen as seen;

use crate::parts::opened;
use cv_settling_overview::variables::{Variable, Variables};
use cv_syntax::{Class, Decls, Head, NameId, NodeId, Pool};
use cv_syntax_trees::sites::Sort;
use cv_typing::function_sort;

/// What tells the types of terms: the pool, what the file declares, and what was seen of the variables of the game.
#[derive(Clone, Copy)]
pub(crate) struct Table<'a> {
    pub(crate) pool: &'a Pool,
    pub(crate) decls: &'a Decls,
    pub(crate) variables: &'a Variables,
}

/// The type of what a function gives.
fn function_type(decls: &Decls, f: u32) -> Option<u32>
    ensures { (trees : List KindTree)
        → result ≡ type_in (option_map (λ (f : signature.Function). OfType f.result)
        (signature.function_in (declarations trees decls.now.list) f)) }
{
    let Some(sort) = function_sort(decls, f) else {
        return None;
    };
    match sort {
        Sort::OfType(t) => Some(t),
        Sort::BelowParameter(_) => None,
    }
}

/// Whether a name has a definition.
fn is_defined(variable: Variable) -> bool
    ensures { result ≡ not (variable.sites == 0) }
{
    variable.sites != 0
}

/// The type of a name without indices.
fn leaf_type(table: &Table, x: u32) -> Option<u32>
    ensures { (s : Scene) → IsTableOf s table.now
        → result ≡ type_in (signature.leaf_sort (signature_in s) nothing_above x) }
{
    let variable = table.variables.get(x);
    if is_defined(variable) {
        return variable.of_type;
    }
    function_type(table.decls, x)
}

/// The type of a variable at indices.
fn read_type(table: &Table, x: u32) -> Option<u32>
    ensures { (s : Scene) → IsTableOf s table.now
        → result ≡ type_in (signature.variable_sort (signature_in s).arrays x) }
{
    let variable = table.variables.get(x);
    if is_defined(variable) {
        return variable.of_type;
    }
    None
}

/// Whether a head makes a truth value.
fn is_truth_value(head: Head) -> bool
    ensures { result ≡ seen.is_truth_value head }
{
    match head {
        Head::Eq | Head::And | Head::Or | Head::Not | Head::Yes | Head::No => true,
        _ => false,
    }
}

/// The type of a term. An index has none.
pub(crate) fn type_of(table: &Table, term: Option<NodeId>) -> Option<u32>
    ensures { (s : Scene) → IsTableOf s table.now
        → result ≡ seen.type_of s (tree_at table.now.pool.now.trees term) }
{
    let node = opened(table.pool, term)?;
    if is_truth_value(node.head) {
        return Some(0);
    }
    match node.head {
        Head::Leaf(x) => leaf_type(table, x),
        Head::Read(x) => read_type(table, x),
        Head::Apply(f) => function_type(table.decls, f),
        _ => None,
    }
}

/// Whether a type is a large one.
fn is_large_type(decls: &Decls, t: u32) -> bool
    ensures { (s : Scene) (trees : List KindTree)
        → s.declarations ≡ declarations trees decls.now.list → result ≡ large.is_large s t }
{
    match decls.class(NameId(t)) {
        Class::TypeName { large, .. } => large,
        _ => false,
    }
}

/// Whether a term is of a large type.
pub(crate) fn is_large(table: &Table, term: Option<NodeId>) -> bool
    ensures { (s : Scene) → IsTableOf s table.now
        → result ≡ is_of_large s (signature.sort_of (signature_in s) nothing_above
        (tree_at table.now.pool.now.trees term)) }
{
    match type_of(table, term) {
        Some(t) => is_large_type(table.decls, t),
        None => false,
    }
}
