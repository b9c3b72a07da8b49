ghost use Rattle.std.specs.Prelude.{◌≡◌, ◌<◌, length, nat_lt, None, IfOk};
ghost use Rattle.cv_pool.specs.Nodes.{ChildBelow};
ghost use Rattle.cv_syntax_trees.specs.Tree.{first};
ghost use Rattle.cv_syntax.specs.PoolTrees.{tree_at};
ghost use Rattle.cv_syntax_trees.specs.sites.Counting.{count};
ghost use Rattle.cv_scope.specs.Held.{AreListed, HasLiveBinders, IsOpened, OnlySites, names_held, state_held};
ghost use Rattle.cv_scope_rules.specs.Rules.{carries_current as are_current};
ghost use Rattle.cv_scope.specs.Seen.{fault_seen, is_well_replicated as are_well_replicated};
ghost use Rattle.cv_scope_rules.specs.Sites.{sites_here};
ghost use Rattle.cv_scope_rules.specs.Tests.{binds_new_index as is_new_index, is_few_indices};

use crate::names::NameKinds;
use crate::reads::is_in_scope;
use crate::state::State;
use crate::terms::{carries, is_index};
use cv_scope_rules::{Fault, Position};
use cv_syntax::{Head, NodeId, Opened, Pool, read_node};
use std::alloc::{AllocError, Global};

/// One more than the replications that may stand above a node, and than the indices of a branch.
const TOO_MANY: usize = 9;

/// Whether a list has fewer items than too many.
fn has_few(pool: &Pool, list: Option<NodeId>) -> bool
    requires { ChildBelow (length pool.now.trees) list }
    ensures { result ≡ nat_lt (count (tree_at pool.now.trees list)) 9 }
{
    let mut items = 0;
    let mut at = list;
    'list: while let Some(k) = at {
        at = read_node(pool, k).second;
        items += 1;
        if items == TOO_MANY {
            return false;
        }
    }
    true
}

/// Whether an input or an output carries exactly the current indices.
fn carries_current(state: &State, pool: &Pool, head: Head, first: Option<NodeId>) -> bool
    requires { ChildBelow (length pool.now.trees) first }
    ensures { result ≡ are_current state.now.replications.items head
        (tree_at pool.now.trees first) }
{
    match head {
        Head::In(_) => carries(pool, state.replications.as_slice(), front(pool, first)),
        Head::Out(_) => carries(pool, state.replications.as_slice(), front(pool, first)),
        _ => true,
    }
}

/// The first child of a tree.
fn front(pool: &Pool, tree: Option<NodeId>) -> Option<NodeId>
    requires { ChildBelow (length pool.now.trees) tree }
    ensures tree { tree_at pool.now.trees result ≡ first (tree_at pool.now.trees tree) }
    ensures below { ChildBelow (length pool.now.trees) result }
{
    let Some(k) = tree else {
        return None;
    };
    read_node(pool, k).first
}

/// Whether an index that a node binds is bound by nothing above and is no variable.
fn binds_new_index(state: &State, names: &NameKinds, head: Head) -> bool
    ensures { result ≡ is_new_index (names_held names.now) state.now.replications.items head }
{
    match head {
        Head::Repl(i, _) => { !is_index(state.replications.as_slice(), i) && !names.is_variable(i) }
        _ => true,
    }
}

/// Whether few replications stand above a node, and its own indices are few and new.
fn is_well_replicated(
    state: &State,
    pool: &Pool,
    names: &NameKinds,
    head: Head,
    first: Option<NodeId>,
) -> bool
    requires { ChildBelow (length pool.now.trees) first }
    ensures { result ≡ are_well_replicated (names_held names.now) state.now.replications.items head
        (tree_at pool.now.trees first) }
{
    state.replications.len() < TOO_MANY
        && (!matches!(head, Head::Branch) || has_few(pool, first))
        && binds_new_index(state, names, head)
}

/// The first kind of rules that a node breaks. Else its sites are noted.
pub fn node_fault(
    alloc: Global,
    state: &mut State,
    pool: &Pool,
    names: &NameKinds,
    position: Position,
    place: u32,
    k: NodeId,
    node: Opened,
) -> Result<Option<Fault>, AllocError>
    requires node { IsOpened pool.now.trees k node }
    requires listed { AreListed pool.now.trees state.old.listed }
    requires live { HasLiveBinders (length pool.now.trees) state.old.last }
    ensures fault { IfOk result (λ fault. fault
        ≡ fault_seen (names_held names.now) (state_held pool.now.trees state.old) position place
        node.head (tree_at pool.now.trees node.first) (tree_at pool.now.trees node.second)) }
    ensures noted { IfOk result (λ fault. fault ≡ None
        → OnlySites pool.now.trees state.old state.new
        (sites_here state.old.replications.items place node.head
        (tree_at pool.now.trees node.first))) }
{
    if !is_in_scope(state, pool, names, position, k, node) {
        return Ok(Some(Fault::Unscoped));
    }
    if !state.note_named(alloc, pool, place, node.head, node.first)? {
        return Ok(Some(Fault::TwoSites));
    }
    if !carries_current(state, pool, node.head, node.first) {
        return Ok(Some(Fault::Channel));
    }
    if !state.note_channel(alloc, pool, place, node.head, node.first)? {
        return Ok(Some(Fault::Channel));
    }
    if !is_well_replicated(state, pool, names, node.head, node.first) {
        return Ok(Some(Fault::Replications));
    }
    Ok(None)
}
