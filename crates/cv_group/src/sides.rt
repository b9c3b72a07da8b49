ghost use Rattle.std.specs.Prelude.{◌≡◌, [], length, IfOk, OnOk};
ghost use Rattle.cv_pool.specs.Nodes.{ChildBelow};
ghost use Rattle.cv_syntax_trees.specs.Tree.{first, second};
ghost use Rattle.cv_syntax.specs.PoolTrees.{tree_at};
ghost use Rattle.cv_group.specs.Tables.{around_by, symbols_in};
ghost use Rattle.cv_group.specs.bodies.Levels.{around_of, is_paired};
ghost use Rattle.cv_group_rules.specs.Rules as rule;
ghost use Rattle.cv_group_rules.specs.Rules.{names_of as names_in};

use crate::bodies::{Around, body_is_bound};
use crate::names::{names_of, taken_names};
use crate::shapes::bound_at;
use cv_syntax::children::{first_of, second_of};
use cv_syntax::{NodeId, Pool, read_node};
use std::alloc::{AllocError, Global};

/// Goes to the functions of a side.
fn enter_side(
    alloc: Global,
    pool: &Pool,
    around: &mut Around,
    functions: Option<NodeId>,
) -> Result<(), AllocError>
    requires { ChildBelow (length pool.now.trees) functions }
    ensures names { OnOk result (is_paired around.new.names
        ≡ names_in (tree_at pool.now.trees functions)) }
    ensures symbols { around.new.symbols ≡ around.old.symbols }
{
    around.names = names_of(alloc, pool, functions)?;
    Ok(())
}

/// Goes to a function of a side with this key.
fn enter_function(
    alloc: Global,
    pool: &Pool,
    around: &mut Around,
    key: Option<NodeId>,
    function: Option<NodeId>,
) -> Result<(), AllocError>
    requires key { ChildBelow (length pool.now.trees) key }
    requires function { ChildBelow (length pool.now.trees) function }
    ensures around { OnOk result (around_of around.new
        ≡ around_by (symbols_in around.old.symbols) (is_paired around.old.names)
        (tree_at pool.now.trees key) (tree_at pool.now.trees function)) }
    ensures symbols { around.new.symbols ≡ around.old.symbols }
    ensures names { around.new.names ≡ around.old.names }
{
    let taken = first_of(pool, function);
    around.taken = taken_names(alloc, pool, key, taken)?;
    around.bound = bound_at(pool, taken);
    Ok(())
}

/// Whether the body of a function names only what is bound there. It goes to the function.
fn function_is_bound(
    alloc: Global,
    pool: &Pool,
    around: &mut Around,
    key: Option<NodeId>,
    function: Option<NodeId>,
) -> Result<bool, AllocError>
    requires key { ChildBelow (length pool.now.trees) key }
    requires function { ChildBelow (length pool.now.trees) function }
    ensures bound { IfOk result (λ yes. yes ≡ rule.is_bound
        (around_by (symbols_in around.old.symbols) (is_paired around.old.names)
        (tree_at pool.now.trees key) (tree_at pool.now.trees function)) []
        (second (tree_at pool.now.trees function))) }
    ensures symbols { around.new.symbols ≡ around.old.symbols }
    ensures names { around.new.names ≡ around.old.names }
{
    enter_function(alloc, pool, around, key, function)?;
    body_is_bound(alloc, pool, around, second_of(pool, function))
}

/// Whether the bodies of functions name only what is bound there.
fn bodies_are_bound(
    alloc: Global,
    pool: &Pool,
    around: &mut Around,
    key: Option<NodeId>,
    functions: Option<NodeId>,
) -> Result<bool, AllocError>
    requires key { ChildBelow (length pool.now.trees) key }
    requires functions { ChildBelow (length pool.now.trees) functions }
    ensures bound { IfOk result (λ yes. yes ≡ rule.each_function
        (λ f. rule.is_bound (around_by (symbols_in around.old.symbols) (is_paired around.old.names)
        (tree_at pool.now.trees key) f) [] (second f)) (tree_at pool.now.trees functions)) }
    ensures symbols { around.new.symbols ≡ around.old.symbols }
    ensures names { around.new.names ≡ around.old.names }
{
    let mut at = functions;
    'list: while let Some(k) = at {
        let node = read_node(pool, k);
        if !function_is_bound(alloc, pool, around, key, node.first)? {
            return Ok(false);
        }
        at = node.second;
    }
    Ok(true)
}

/// Whether the bodies of a side name only what is bound there. It goes to the side.
pub fn side_is_bound(
    alloc: Global,
    pool: &Pool,
    around: &mut Around,
    group: Option<NodeId>,
) -> Result<bool, AllocError>
    requires { ChildBelow (length pool.now.trees) group }
    ensures bound { IfOk result (λ yes. yes ≡ rule.side_is_bound (symbols_in around.old.symbols)
        (first (tree_at pool.now.trees group)) (second (tree_at pool.now.trees group))) }
    ensures symbols { around.new.symbols ≡ around.old.symbols }
{
    let functions = second_of(pool, group);
    enter_side(alloc, pool, around, functions)?;
    bodies_are_bound(alloc, pool, around, first_of(pool, group), functions)
}
