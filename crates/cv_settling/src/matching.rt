// Whether a term is the left side of an equation, with terms for its variables.
ghost use Rattle.std.specs.Prelude.{◌≡◌, IfOk, IfSome, List, Some, option_map};
ghost use Rattle.cv_pool.specs.KindTree.{KindTree};
ghost use Rattle.cv_syntax_trees.specs.Tree.{Tree, Node, bound_names, same_tree};
ghost use Rattle.cv_syntax.specs.PoolTrees.{tree_at};
ghost use Rattle.cv_scene.specs.Instances as instances;
ghost use Rattle.cv_scene.specs.Scenes.{Scene};
ghost use Rattle.cv_settling_rules.specs.Equations as equations;
ghost use Rattle.cv_settling.specs.Instances.{HasRoot, instance_of, lower_instance_of, seen_in, typed_term, typed_terms};
ghost use Rattle.cv_settling.specs.Putting.{names_of, put_in, terms_of};
ghost use Rattle.cv_settling.specs.Rewritings.{IsMeasurable};
ghost use Rattle.cv_settling.specs.Seen.{IsTableOf};

use crate::equations::{Equation, may_have};
use crate::measure::{is_less, measure_of, measure_put};
use crate::parts::{are_same, are_same_heads, first_part, is_nothing, opened, second_part};
use crate::terms::{Given, given_at};
use crate::types::{Table, type_of};
use cv_syntax::{Head, NodeId, Pool};
use std::alloc::{AllocError, Global};

/// What stands for a name: a part of a term, which may be none.
#[derive(Clone, Copy)]
struct Part {
    tree: Option<NodeId>,
}

/// What stands for a name at a node of a pattern.
fn standing_here(head: Head, x: u32, tree: Option<NodeId>) -> Option<Part>
    ensures { (trees : List KindTree) → option_map (λ o. tree_at trees o.tree) result
        ≡ instances.standing_here x head (tree_at trees tree) }
{
    match head {
        Head::Leaf(y) => { if y == x { Some(Part { tree }) } else { None } }
        _ => None,
    }
}

/// What stands in a term where a pattern first has a name.
fn standing(pool: &Pool, x: u32, pattern: Option<NodeId>, term: Option<NodeId>) -> Option<Part>
    ensures { option_map (λ o. tree_at pool.now.trees o.tree) result
        ≡ instances.standing_for x (tree_at pool.now.trees pattern) (tree_at pool.now.trees term) }
{
    let Some(node) = opened(pool, pattern) else {
        return None;
    };
    if let Some(there) = standing_here(node.head, x, term) {
        return Some(there);
    }
    if let Some(there) = standing(pool, x, node.first, first_part(pool, term)) {
        return Some(there);
    }
    standing(pool, x, node.second, second_part(pool, term))
}

/// Whether a term is a pattern with terms for names.
fn is_put(pool: &Pool, given: &[Given], pattern: Option<NodeId>, term: Option<NodeId>) -> bool
    ensures { result ≡ same_tree (put_in pool.now.trees given.now (tree_at pool.now.trees pattern))
        (tree_at pool.now.trees term) }
{
    let Some(node) = opened(pool, pattern) else {
        return is_nothing(pool, term);
    };
    if let Some(there) = given_at(given, node.head) {
        return are_same(pool, Some(there), term);
    }
    let Some(other) = opened(pool, term) else {
        return false;
    };
    if !are_same_heads(node.head, other.head) {
        return false;
    }
    if !is_put(pool, given, node.first, other.first) {
        return false;
    }
    is_put(pool, given, node.second, other.second)
}

/// Whether a term is of a type.
fn is_of_type(table: &Table, term: Option<NodeId>, t: u32) -> bool
    ensures { (s : Scene) → IsTableOf s table.now
        → result ≡ equations.is_of_type s t (tree_at table.now.pool.now.trees term) }
{
    match type_of(table, term) {
        Some(u) => u == t,
        None => false,
    }
}

/// The term of a type that stands for a variable.
fn typed_term(table: &Table, left: Option<NodeId>, term: NodeId, x: u32, t: u32) -> Option<NodeId>
    ensures { (s : Scene) → IsTableOf s table.now
        → option_map (λ n. tree_at table.now.pool.now.trees (Some n)) result
        ≡ typed_term s t x (tree_at table.now.pool.now.trees left)
        (tree_at table.now.pool.now.trees (Some term)) }
{
    let there = standing(table.pool, x, left, Some(term))?;
    if is_of_type(table, there.tree, t) {
        there.tree
    } else {
        None
    }
}

/// What stands for the variables of an equation where its left side first has them, each term of its type.
fn typed_terms_of(
    alloc: Global,
    table: &Table,
    equation: &Equation,
    term: NodeId,
) -> Result<Option<Vec<Given>>, AllocError>
    ensures terms { IfOk result (λ o. (s : Scene) → IsTableOf s table.now
        → option_map (λ gs. terms_of table.now.pool.now.trees gs.items) o
        ≡ typed_terms s (tree_at table.now.pool.now.trees equation.now.binders)
        (tree_at table.now.pool.now.trees equation.now.left)
        (tree_at table.now.pool.now.trees (Some term))) }
    ensures names { IfOk result (λ o. IfSome o (λ gs. names_of gs.items
        ≡ bound_names (tree_at table.now.pool.now.trees equation.now.binders))) }
{
    let mut given = Vec::new(alloc);
    let mut at = equation.binders;
    'binders: while let Some(cell) = opened(table.pool, at) {
        let Head::Binder(name, of_type) = cell.head else {
            return Ok(Some(given));
        };
        let Some(there) = typed_term(table, equation.left, term, name, of_type) else {
            return Ok(None);
        };
        given.push(Given { name, term: there })?;
        at = cell.second;
    }
    Ok(Some(given))
}

/// What stands for the variables of an equation whose left side a term is.
fn instance(
    alloc: Global,
    table: &Table,
    equation: &Equation,
    term: NodeId,
) -> Result<Option<Vec<Given>>, AllocError>
    ensures terms { IfOk result (λ o. (s : Scene) → IsTableOf s table.now
        → option_map (λ gs. terms_of table.now.pool.now.trees gs.items) o
        ≡ instance_of s (seen_in table.now.pool.now.trees equation.now)
        (tree_at table.now.pool.now.trees (Some term))) }
    ensures names { IfOk result (λ o. IfSome o (λ gs. names_of gs.items
        ≡ bound_names (tree_at table.now.pool.now.trees equation.now.binders))) }
{
    let terms = typed_terms_of(alloc, table, equation, term)?;
    let Some(given) = terms else {
        return Ok(None);
    };
    if is_put(table.pool, &given, equation.left, Some(term)) {
        Ok(Some(given))
    } else {
        Ok(None)
    }
}

/// What stands for the variables of an equation whose left side a term with this head is, where the right side has a lower measure.
pub(crate) fn lower_instance(
    alloc: Global,
    table: &Table,
    equation: &Equation,
    head: Head,
    term: NodeId,
) -> Result<Option<Vec<Given>>, AllocError>
    requires { HasRoot table.now.pool.now.trees equation.now }
    ensures { IfOk result (λ o. (s : Scene) (a b : Tree) → IsTableOf s table.now
        → IsMeasurable (tree_at table.now.pool.now.trees (Some term))
        → tree_at table.now.pool.now.trees (Some term) ≡ Node head a b
        → option_map (λ gs. terms_of table.now.pool.now.trees gs.items) o
        ≡ lower_instance_of s (seen_in table.now.pool.now.trees equation.now)
        (tree_at table.now.pool.now.trees (Some term))) }
{
    if !may_have(equation.root, head) {
        return Ok(None);
    }
    let terms = instance(alloc, table, equation, term)?;
    let Some(given) = terms else {
        return Ok(None);
    };
    let before = measure_of(table, Some(term));
    let after = measure_put(table, &given, equation.right);
    if is_less(after, before) {
        Ok(Some(given))
    } else {
        Ok(None)
    }
}
