ghost use Rattle.std.specs.Prelude.{◌≡◌, ◌++◌, ◌<◌, ℕ, IfOk, OnOk, length, map};
ghost use Rattle.cv_pool.specs.Nodes.{ChildBelow};
ghost use Rattle.cv_syntax.specs.PoolTrees.{tree_at};
ghost use Rattle.cv_meaning.specs.Correspondences.{typed_names};
ghost use Rattle.cv_inline.specs.NextGame.{names_assigned};
ghost use Rattle.cv_inline_draws.specs.callings.RightFunctions.{function_in, names_of};

use cv_syntax::children::{first_of, second_of};
use cv_syntax::{Head, NodeId, Pool, read_node};
use std::alloc::{AllocError, Global};

/// Adds the variables of a list of binders.
fn add_binders(pool: &Pool, names: &mut Vec<u32>, binders: Option<NodeId>) -> Result<(), AllocError>
    requires { ChildBelow (length pool.now.trees) binders }
    ensures { OnOk result (names.new.items ≡ names.old.items
        ++ map (λ (x : ℕ × ℕ). x.0) (typed_names (tree_at pool.now.trees binders))) }
{
    let mut at = binders;
    'binders: while let Some(n) = at {
        let node = read_node(pool, n);
        let Head::Binder(x, _) = node.head else {
            return Ok(());
        };
        names.push(x)?;
        at = node.second;
    }
    Ok(())
}

/// Adds the names that a body assigns.
fn add_assigned(pool: &Pool, names: &mut Vec<u32>, body: Option<NodeId>) -> Result<(), AllocError>
    requires { ChildBelow (length pool.now.trees) body }
    ensures { OnOk result (names.new.items ≡ names.old.items
        ++ names_assigned (tree_at pool.now.trees body)) }
{
    let mut at = body;
    'body: while let Some(n) = at {
        let node = read_node(pool, n);
        match node.head {
            Head::New(z, _) => names.push(z)?,
            Head::Let(z, _) => names.push(z)?,
            _ => add_assigned(pool, names, node.first)?,
        }
        at = node.second;
    }
    Ok(())
}

/// The names that a function assigns: its arguments, and those of its body.
pub(crate) fn names_of(alloc: Global, pool: &Pool, function: NodeId) -> Result<Vec<u32>, AllocError>
    requires { function.0 < length pool.now.trees }
    ensures { IfOk result (λ names. names.items
        ≡ names_of (function_in pool.now.trees function)) }
{
    let function = Some(function);
    let mut names = Vec::new(alloc);
    let arguments = second_of(pool, first_of(pool, function));
    add_binders(pool, &mut names, arguments)?;
    add_assigned(pool, &mut names, second_of(pool, function))?;
    Ok(names)
}
