ghost use Rattle.std.specs.Prelude.{◌≡◌, ◌+◌, ◌<◌, ◌^◌, [], IfOk, OnOk, length};
ghost use Rattle.cv_pool.specs.Nodes.{ChildBelow};
ghost use Rattle.cv_syntax_trees.specs.Tree.{size};
ghost use Rattle.cv_syntax.specs.PoolTrees.{tree_at};
ghost use Rattle.cv_inline.specs.NextGame.{call_of, replications_under};
ghost use Rattle.cv_inline_draws.specs.callings.FirstCalls.{AreLiveCalls, calls_in, with_call, with_calls, with_node};

use cv_syntax::{Head, NodeId, Opened, Pool, read_node};
use std::alloc::{AllocError, Global};
use std::collections::HashMap;

/// A call: the replications above it, and its key with its arguments.
#[derive(Drop)]
pub(crate) struct Call {
    pub(crate) replications: Vec<(u32, u32)>,
    pub(crate) terms: Option<NodeId>,
}

/// Notes a call, unless there is one with its number.
fn note(
    alloc: Global,
    pool: &Pool,
    calls: &mut HashMap<u32, Call>,
    number: u32,
    replications: &[(u32, u32)],
    terms: Option<NodeId>,
) -> Result<(), AllocError>
    requires terms { ChildBelow (length pool.now.trees) terms }
    requires few { length replications.now < 2 ^ 32 }
    requires calls { AreLiveCalls pool.now.trees calls.old }
    ensures calls { OnOk result (calls_in pool.now.trees calls.new
        ≡ with_call (calls_in pool.now.trees calls.old) number
        (replications.now, tree_at pool.now.trees terms)) }
    ensures live { OnOk result (AreLiveCalls pool.now.trees calls.new) }
{
    if !calls.contains_key(&number) {
        let replications = Vec::from_slice(alloc, replications)?;
        calls.insert(
            number,
            Call {
                replications,
                terms,
            },
        )?;
    }
    Ok(())
}

/// Notes a node, if it is a call.
fn note_node(
    alloc: Global,
    pool: &Pool,
    calls: &mut HashMap<u32, Call>,
    replications: &[(u32, u32)],
    node: Opened,
) -> Result<(), AllocError>
    requires first { ChildBelow (length pool.now.trees) node.first }
    requires few { length replications.now < 2 ^ 32 }
    requires calls { AreLiveCalls pool.now.trees calls.old }
    ensures calls { OnOk result (calls_in pool.now.trees calls.new
        ≡ with_node (calls_in pool.now.trees calls.old) replications.now node.head
        (tree_at pool.now.trees node.first)) }
    ensures live { OnOk result (AreLiveCalls pool.now.trees calls.new) }
{
    match node.head {
        Head::Call(_, l) => note(alloc, pool, calls, l, replications, node.first),
        _ => Ok(()),
    }
}

/// Adds the replication that stands at a node, if one does.
fn add_replication(replications: &mut Vec<(u32, u32)>, head: Head) -> Result<(), AllocError>
    ensures { OnOk result (replications.new.items
        ≡ replications_under head replications.old.items) }
{
    match head {
        Head::Repl(i, n) => {
            replications.push((i, n))?;
            Ok(())
        }
        _ => Ok(()),
    }
}

/// Notes the calls in a part of a context that stands below replications.
fn note_calls(
    alloc: Global,
    pool: &Pool,
    calls: &mut HashMap<u32, Call>,
    replications: &mut Vec<(u32, u32)>,
    part: Option<NodeId>,
) -> Result<(), AllocError>
    requires part { ChildBelow (length pool.now.trees) part }
    requires few { length replications.old.items + size (tree_at pool.now.trees part) < 2 ^ 32 }
    requires calls { AreLiveCalls pool.now.trees calls.old }
    ensures calls { OnOk result (calls_in pool.now.trees calls.new
        ≡ with_calls (calls_in pool.now.trees calls.old) replications.old.items
        (tree_at pool.now.trees part)) }
    ensures live { OnOk result (AreLiveCalls pool.now.trees calls.new) }
    ensures replications { OnOk result (replications.new.items ≡ replications.old.items) }
{
    let outside = replications.len();
    let mut at = part;
    'part: while let Some(n) = at {
        let node = read_node(pool, n);
        note_node(alloc, pool, calls, replications.as_slice(), node)?;
        add_replication(replications, node.head)?;
        note_calls(alloc, pool, calls, replications, node.first)?;
        at = node.second;
    }
    replications.truncate(outside);
    Ok(())
}

/// The first calls of a context, by number.
pub(crate) fn first_calls(
    alloc: Global,
    pool: &Pool,
    context: Option<NodeId>,
) -> Result<HashMap<u32, Call>, AllocError>
    requires live { ChildBelow (length pool.now.trees) context }
    requires fits { size (tree_at pool.now.trees context) < 2 ^ 32 }
    ensures calls { IfOk result (λ calls. calls_in pool.now.trees calls
        ≡ λ l. call_of [] l (tree_at pool.now.trees context)) }
    ensures live { IfOk result (AreLiveCalls pool.now.trees) }
{
    let mut calls = HashMap::new(alloc);
    let mut replications = Vec::new(alloc);
    note_calls(alloc, pool, &mut calls, &mut replications, context)?;
    Ok(calls)
}
