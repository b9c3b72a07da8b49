ghost use Rattle.std.specs.Prelude.{◌≡◌, ◌<◌, ◌∷◌, [], length, IfOk, OnOk};
ghost use Rattle.cv_pool.specs.Nodes.{ChildBelow};
ghost use Rattle.cv_syntax.specs.PoolTrees.{tree_at};
ghost use Rattle.cv_syntax_trees.specs.sites.Sites.{binder_sort};
ghost use Rattle.cv_typing.specs.Tables.{above_of, restored};
ghost use Rattle.cv_scope_rules.specs.declared.typing.precedence.Precedence.TheVariants.{Newest};
ghost use Rattle.cv_scope_rules.specs.typing.Wants.{all_bound, bound as with_bound, with_names};

use cv_directory::sort_of_binder;
use cv_scope_rules::typing::Precedence;
use cv_syntax::{Head, NodeId, Pool, read_node};
use cv_syntax_trees::sites::Sort;
use std::alloc::{AllocError, Global};
use std::collections::HashMap;

/// Binds a name, and notes what stood there before.
fn put(
    above: &mut HashMap<u32, Sort>,
    bound: &mut Vec<(u32, Option<Sort>)>,
    x: u32,
    sort: Sort,
) -> Result<(), AllocError>
    ensures names { OnOk result (above_of above.new
        ≡ with_bound Newest (above_of above.old) x sort) }
    ensures back { OnOk result (restored (above_of above.new) bound.new.items
        ≡ restored (above_of above.old) bound.old.items) }
{
    let before = above.get(&x).copied();
    above.insert(x, sort)?;
    bound.push((x, before))?;
    Ok(())
}

/// Binds a name: a name that is bound keeps its sort, where the first binding counts.
fn bind(
    above: &mut HashMap<u32, Sort>,
    bound: &mut Vec<(u32, Option<Sort>)>,
    precedence: Precedence,
    x: u32,
    sort: Sort,
) -> Result<(), AllocError>
    ensures names { OnOk result (above_of above.new
        ≡ with_bound precedence (above_of above.old) x sort) }
    ensures back { OnOk result (restored (above_of above.new) bound.new.items
        ≡ restored (above_of above.old) bound.old.items) }
{
    match precedence {
        Precedence::Newest => put(above, bound, x, sort),
        Precedence::First => {
            if above.contains_key(&x) {
                return Ok(());
            }
            put(above, bound, x, sort)
        }
    }
}

/// Binds the names of a list of binders.
pub fn bind_all(
    pool: &Pool,
    above: &mut HashMap<u32, Sort>,
    bound: &mut Vec<(u32, Option<Sort>)>,
    precedence: Precedence,
    are_indices: bool,
    list: Option<NodeId>,
) -> Result<(), AllocError>
    requires { ChildBelow (length pool.now.trees) list }
    ensures names { OnOk result (above_of above.new
        ≡ all_bound precedence (above_of above.old) (binder_sort are_indices)
        (tree_at pool.now.trees list)) }
    ensures back { OnOk result (restored (above_of above.new) bound.new.items
        ≡ restored (above_of above.old) bound.old.items) }
{
    let mut at = list;
    'list: while let Some(k) = at {
        let node = read_node(pool, k);
        if let Head::Binder(x, t) = node.head {
            bind(above, bound, precedence, x, sort_of_binder(are_indices, t))?;
        }
        at = node.second;
    }
    Ok(())
}

/// Binds the names that a node binds.
fn bind_node(
    pool: &Pool,
    above: &mut HashMap<u32, Sort>,
    bound: &mut Vec<(u32, Option<Sort>)>,
    head: Head,
    first: Option<NodeId>,
) -> Result<(), AllocError>
    requires { ChildBelow (length pool.now.trees) first }
    ensures names { OnOk result (above_of above.new
        ≡ with_names head (tree_at pool.now.trees first) (above_of above.old)) }
    ensures back { OnOk result (restored (above_of above.new) bound.new.items
        ≡ restored (above_of above.old) bound.old.items) }
{
    match head {
        Head::Repl(i, n) => bind(above, bound, Precedence::First, i, Sort::BelowParameter(n)),
        Head::New(x, t) => bind(above, bound, Precedence::Newest, x, Sort::OfType(t)),
        Head::Let(x, t) => bind(above, bound, Precedence::Newest, x, Sort::OfType(t)),
        Head::Branch => bind_all(pool, above, bound, Precedence::Newest, true, first),
        _ => Ok(()),
    }
}

/// Binds the names that a node binds, and answers what stood there before.
#[tactic(auto, using(crate::proofs::Removals::removals))]
pub fn bind_names(
    alloc: Global,
    pool: &Pool,
    above: &mut HashMap<u32, Sort>,
    head: Head,
    first: Option<NodeId>,
) -> Result<Vec<(u32, Option<Sort>)>, AllocError>
    requires { ChildBelow (length pool.now.trees) first }
    ensures names { OnOk result (above_of above.new
        ≡ with_names head (tree_at pool.now.trees first) (above_of above.old)) }
    ensures back { IfOk result (λ bound. restored (above_of above.new) bound.items
        ≡ above_of above.old) }
{
    let mut bound = Vec::new(alloc);
    bind_node(pool, above, &mut bound, head, first)?;
    Ok(bound)
}

/// Brings back what a name had before.
fn put_back(above: &mut HashMap<u32, Sort>, x: u32, before: Option<Sort>) -> Result<(), AllocError>
    ensures { OnOk result (above_of above.new ≡ restored (above_of above.old) ((x, before) ∷ [])) }
{
    match before {
        Some(sort) => {
            above.insert(x, sort)?;
        }
        None => {
            let _ = above.remove(&x);
        }
    }
    Ok(())
}

/// Brings back what names had before.
pub fn unbind(
    above: &mut HashMap<u32, Sort>,
    mut bound: Vec<(u32, Option<Sort>)>,
) -> Result<(), AllocError>
    ensures { OnOk result (above_of above.new ≡ restored (above_of above.old) bound.items) }
{
    'bound: while let Some((x, before)) = bound.pop() {
        put_back(above, x, before)?;
    }
    Ok(())
}
