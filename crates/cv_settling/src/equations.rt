// The equations of a file, from left to right.
ghost use Rattle.std.specs.Prelude.{◌≡◌, ◌++◌, [], All, IfOk, IfSome, OnOk, Some, map, option_and_then, option_map, slice_get};
ghost use Rattle.cv_syntax_trees.specs.Tree.{bound_names, first, second};
ghost use Rattle.cv_syntax.specs.Declarations.{declarations};
ghost use Rattle.cv_syntax.specs.NameSets.{is_one_of};
ghost use Rattle.cv_syntax.specs.PoolTrees.{tree_at};
ghost use Rattle.cv_scene.specs.Reasons.{equations_in};
ghost use Rattle.cv_settling.specs.Instances as instances;
ghost use Rattle.cv_settling.specs.Instances.{HasRoot, declared_equation, may_have, numbered_from, seen_in, with_sides};
ghost use Rattle.cv_settling.specs.Rewritings.{listed};

use crate::parts::opened;
use cv_grounds::open;
use cv_syntax::{Code, Decl, Decls, Head, NodeId, Pool};
use std::alloc::{AllocError, Global};

/// An equation: its number in the file, from 1, its variables, its sides, and the head of its left side, where that is no variable.
#[derive(Clone, Copy)]
pub(crate) struct Equation {
    pub(crate) number: u64,
    pub(crate) binders: Option<NodeId>,
    pub(crate) left: Option<NodeId>,
    pub(crate) right: Option<NodeId>,
    pub(crate) root: Option<Code>,
}

/// Whether binders bind a name.
fn is_bound(pool: &Pool, binders: Option<NodeId>, x: u32) -> bool
    ensures { result ≡ is_one_of (bound_names (tree_at pool.now.trees binders)) x }
{
    let mut at = binders;
    'binders: while let Some(cell) = opened(pool, at) {
        let Head::Binder(y, _) = cell.head else {
            return false;
        };
        if y == x {
            return true;
        }
        at = cell.second;
    }
    false
}

/// Whether a head is a variable of binders.
fn is_variable(pool: &Pool, binders: Option<NodeId>, head: Head) -> bool
    ensures { result ≡ instances.is_variable (bound_names (tree_at pool.now.trees binders)) head }
{
    match head {
        Head::Leaf(x) => is_bound(pool, binders, x),
        _ => false,
    }
}

/// The head of a left side, where that is no variable.
fn root_of(pool: &Pool, binders: Option<NodeId>, left: Option<NodeId>) -> Option<Code>
    ensures { result ≡ instances.root_of (bound_names (tree_at pool.now.trees binders))
        (tree_at pool.now.trees left) }
{
    let node = opened(pool, left)?;
    if is_variable(pool, binders, node.head) {
        return None;
    }
    Some(node.head.code())
}

/// An equation of a file, where its term is one.
fn equation_of(pool: &Pool, number: u64, n: NodeId) -> Option<Equation>
    ensures sides { listed (option_map (seen_in pool.now.trees) result)
        ≡ with_sides number (first (tree_at pool.now.trees (Some n)))
        (second (tree_at pool.now.trees (Some n))) [] }
    ensures root { IfSome result (HasRoot pool.now.trees) }
{
    let Some(node) = open(pool, n) else {
        return None;
    };
    let Some(body) = opened(pool, node.second) else {
        return None;
    };
    match body.head {
        Head::Eq => Some(Equation {
            number,
            binders: node.first,
            left: body.first,
            right: body.second,
            root: root_of(pool, node.first, body.first),
        }),
        _ => None,
    }
}

/// The term of the declaration at a place, where it is an equation.
fn equation_at(decls: &Decls, k: u32) -> Option<NodeId>
    ensures { result ≡ option_and_then declared_equation (slice_get decls.now.list k) }
{
    match decls.get(k)? {
        Decl::Equation(n) => Some(*n),
        _ => None,
    }
}

/// Adds an equation of a file, where its term is one.
fn push_equation(
    pool: &Pool,
    number: u64,
    n: NodeId,
    equations: &mut Vec<Equation>,
) -> Result<(), AllocError>
    ensures told { OnOk result (map (seen_in pool.now.trees) equations.new.items
        ≡ map (seen_in pool.now.trees) equations.old.items
        ++ with_sides number (first (tree_at pool.now.trees (Some n)))
        (second (tree_at pool.now.trees (Some n))) []) }
    ensures roots { OnOk result (All (HasRoot pool.now.trees) equations.old.items
        → All (HasRoot pool.now.trees) equations.new.items) }
{
    let Some(equation) = equation_of(pool, number, n) else {
        return Ok(());
    };
    equations.push(equation)?;
    Ok(())
}

/// The equations of a file, in their order.
pub(crate) fn equations_of(
    alloc: Global,
    pool: &Pool,
    decls: &Decls,
) -> Result<Vec<Equation>, AllocError>
    ensures equations { IfOk result (λ es. map (seen_in pool.now.trees) es.items
        ≡ numbered_from 1 (equations_in (declarations pool.now.trees decls.now.list))) }
    ensures roots { IfOk result (λ es. All (HasRoot pool.now.trees) es.items) }
{
    let mut equations = Vec::new(alloc);
    let mut number = 1_u64;
    for k in 0..decls.len() {
        if let Some(n) = equation_at(decls, k) {
            push_equation(pool, number, n, &mut equations)?;
            number += 1;
        }
    }
    Ok(equations)
}

/// Whether a left side may have a head.
pub(crate) fn may_have(root: Option<Code>, head: Head) -> bool
    ensures { result ≡ may_have root head }
{
    match root {
        Some(code) => code == head.code(),
        None => true,
    }
}
