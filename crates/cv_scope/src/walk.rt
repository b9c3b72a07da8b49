ghost use Rattle.std.specs.Prelude.{◌≡◌, ◌<◌, ◌+◌, ◌^◌, None, length, IfOk, IfErr, OnOk};
ghost use Rattle.cv_pool.specs.Nodes.{ChildBelow};
ghost use Rattle.cv_syntax_trees.specs.Tree.{size};
ghost use Rattle.cv_syntax.specs.PoolTrees.{tree_at};
ghost use Rattle.cv_scope.specs.Held.{AreListed, HasLiveBinders, OnlySites, names_held, state_held};
ghost use Rattle.cv_scope_rules.specs.Ranges.{EndBy};
ghost use Rattle.cv_scope_rules.specs.Refusals.{IsRefusalOf};
ghost use Rattle.cv_scope.specs.Seen.{found};
ghost use Rattle.cv_scope_rules.specs.Sites.{sites_from};

use crate::names::NameKinds;
use crate::rules::node_fault;
use crate::state::State;
use cv_scope_rules::{Position, ScopeFault};
use cv_syntax::{NodeId, Pool, read_node};
use std::alloc::Global;

/// The place behind a tree that is scoped where it stands, or its first fault. Its sites are noted.
pub fn walk(
    alloc: Global,
    pool: &Pool,
    names: &NameKinds,
    state: &mut State,
    position: Position,
    from: u32,
    tree: Option<NodeId>,
) -> Result<u32, ScopeFault>
    requires live { ChildBelow (length pool.now.trees) tree }
    requires listed { AreListed pool.now.trees state.old.listed }
    requires binders { HasLiveBinders (length pool.now.trees) state.old.last }
    requires passed { EndBy from state.old.passed }
    requires fits { from + size (tree_at pool.now.trees tree) < 2 ^ 32 }
    ensures scoped { OnOk result (found (names_held names.now)
        (state_held pool.now.trees state.old) position from (tree_at pool.now.trees tree) ≡ None) }
    ensures next { IfOk result (λ next. next ≡ from + size (tree_at pool.now.trees tree)) }
    ensures noted { OnOk result (OnlySites pool.now.trees state.old state.new
        (sites_from state.old.replications.items from (tree_at pool.now.trees tree))) }
    ensures fault { IfErr result (IsRefusalOf
        (found (names_held names.now) (state_held pool.now.trees state.old) position from
        (tree_at pool.now.trees tree))) }
{
    let marks = state.marks();
    let mut place = from;
    let mut here = position;
    let mut at = tree;
    'tree: while let Some(k) = at {
        let node = read_node(pool, k);
        if let Some(fault) = node_fault(alloc, state, pool, names, here, place, k, node)? {
            return Err(fault.at(place));
        }
        let first = place + node.head.weight();
        place = walk(
            alloc,
            pool,
            names,
            state,
            here.first(node.head),
            first,
            node.first,
        )?;
        state.enter(pool, here, node.head, node.first, first, place)?;
        here = here.second(node.head);
        at = node.second;
    }
    state.release(marks);
    Ok(place)
}
