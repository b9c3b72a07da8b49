ghost use Rattle.std.specs.Prelude.{◌≡◌, ◌==◌, ◌&&◌, ◌||◌, ℕ, length, IfOk, OnOk};
ghost use Rattle.cv_pool.specs.Nodes.{ChildBelow};
ghost use Rattle.cv_syntax.specs.NameSets.{is_in, is_one_of};
ghost use Rattle.cv_syntax_trees.specs.Tree.{bound_names};
ghost use Rattle.cv_syntax.specs.PoolTrees.{tree_at};
ghost use Rattle.cv_group_rules.specs.Rules.{binds_name, defines, defines_here, names_of as names_in, takes};
ghost use Rattle.cv_group.specs.Tables.{function_names};
ghost use Rattle.cv_group.specs.bodies.Levels.{is_paired};

use crate::bodies::pair_name;
use crate::shapes::bound_at;
use cv_syntax::children::{first_of, second_of};
use cv_syntax::{Head, NodeId, Pool, read_node};
use std::alloc::{AllocError, Global};
use std::collections::HashSet;

/// Notes the names of a list of binders.
pub fn note_binders(
    pool: &Pool,
    names: &mut HashSet<u32>,
    binders: Option<NodeId>,
) -> Result<(), AllocError>
    requires { ChildBelow (length pool.now.trees) binders }
    ensures { OnOk result ((x : ℕ) → is_in names.new x
        ≡ (is_in names.old x || is_one_of (bound_names (tree_at pool.now.trees binders)) x)) }
{
    let mut at = binders;
    'binders: while let Some(k) = at {
        let cell = read_node(pool, k);
        let Head::Binder(x, _) = cell.head else {
            return Ok(());
        };
        names.insert(x)?;
        at = cell.second;
    }
    Ok(())
}

/// Pairs the names of a list of binders with a bound.
fn pair_binders(
    pool: &Pool,
    names: &mut HashSet<(u32, u32)>,
    bound: u32,
    binders: Option<NodeId>,
) -> Result<(), AllocError>
    requires { ChildBelow (length pool.now.trees) binders }
    ensures { OnOk result ((n x : ℕ) → is_paired names.new n x ≡ (is_paired names.old n x
        || ((bound == n) && is_one_of (bound_names (tree_at pool.now.trees binders)) x))) }
{
    let mut at = binders;
    'binders: while let Some(k) = at {
        let cell = read_node(pool, k);
        let Head::Binder(x, _) = cell.head else {
            return Ok(());
        };
        pair_name(names, bound, x)?;
        at = cell.second;
    }
    Ok(())
}

/// Pairs the name that `new` or `let` defines with a bound.
fn pair_defined(names: &mut HashSet<(u32, u32)>, bound: u32, head: Head) -> Result<(), AllocError>
    ensures { OnOk result ((n x : ℕ) → is_paired names.new n x ≡ (is_paired names.old n x
        || ((bound == n) && defines_here head x))) }
{
    match head {
        Head::New(x, _) => pair_name(names, bound, x),
        Head::Let(x, _) => pair_name(names, bound, x),
        _ => Ok(()),
    }
}

/// Pairs the names that a body defines with a bound.
fn pair_body(
    pool: &Pool,
    names: &mut HashSet<(u32, u32)>,
    bound: u32,
    body: Option<NodeId>,
) -> Result<(), AllocError>
    requires { ChildBelow (length pool.now.trees) body }
    ensures { OnOk result ((n x : ℕ) → is_paired names.new n x ≡ (is_paired names.old n x
        || ((bound == n) && defines (tree_at pool.now.trees body) x))) }
{
    let mut at = body;
    'body: while let Some(k) = at {
        let node = read_node(pool, k);
        pair_defined(names, bound, node.head)?;
        pair_body(pool, names, bound, node.first)?;
        at = node.second;
    }
    Ok(())
}

/// Pairs the names that a function binds with its bound.
fn pair_function(
    pool: &Pool,
    names: &mut HashSet<(u32, u32)>,
    function: Option<NodeId>,
) -> Result<(), AllocError>
    requires { ChildBelow (length pool.now.trees) function }
    ensures { OnOk result ((n x : ℕ) → is_paired names.new n x ≡ (is_paired names.old n x
        || function_names (tree_at pool.now.trees function) n x)) }
{
    let taken = first_of(pool, function);
    let bound = bound_at(pool, taken);
    pair_binders(pool, names, bound, first_of(pool, taken))?;
    pair_binders(pool, names, bound, second_of(pool, taken))?;
    pair_body(pool, names, bound, second_of(pool, function))
}

/// What functions bind, each name with its function's bound.
pub fn names_of(
    alloc: Global,
    pool: &Pool,
    functions: Option<NodeId>,
) -> Result<HashSet<(u32, u32)>, AllocError>
    requires { ChildBelow (length pool.now.trees) functions }
    ensures { IfOk result (λ s. is_paired s ≡ names_in (tree_at pool.now.trees functions)) }
{
    let mut names = HashSet::new(alloc);
    let mut at = functions;
    'list: while let Some(k) = at {
        let node = read_node(pool, k);
        pair_function(pool, &mut names, node.first)?;
        at = node.second;
    }
    Ok(names)
}

/// The names of the key and of what a function takes.
pub fn taken_names(
    alloc: Global,
    pool: &Pool,
    key: Option<NodeId>,
    taken: Option<NodeId>,
) -> Result<HashSet<u32>, AllocError>
    requires key { ChildBelow (length pool.now.trees) key }
    requires taken { ChildBelow (length pool.now.trees) taken }
    ensures { IfOk result (λ s. (x : ℕ) → is_in s x
        ≡ (is_one_of (bound_names (tree_at pool.now.trees key)) x
        || takes (tree_at pool.now.trees taken) x)) }
{
    let mut names = HashSet::new(alloc);
    note_binders(pool, &mut names, key)?;
    note_binders(pool, &mut names, first_of(pool, taken))?;
    note_binders(pool, &mut names, second_of(pool, taken))?;
    Ok(names)
}
