ghost use Rattle.std.specs.Prelude.{◌≡◌, ◌+◌, ◌<◌, ◌≤◌, ◌^◌, ◌⊎◌, IfOk, IsErrOf, None, OnErr, OnOk, Some, length, option_map};
ghost use Rattle.cv_pool.specs.Nodes.{ChildBelow};
ghost use Rattle.cv_pool.specs.PoolView.{Grows};
ghost use Rattle.cv_syntax_trees.specs.Tree as tree;
ghost use Rattle.cv_syntax.specs.PoolTrees.{tree_at};
ghost use Rattle.cv_path.specs.Refusals.{no_memory};
ghost use Rattle.cv_edit_changes.specs.unletting.Assigned.{IsRead};
ghost use Rattle.cv_edit_changes.specs.unletting.Games.{need_unletting, refusal, unlet};

use crate::faults::no_room;
use crate::unletting::assigned::only_assignment;
use crate::unletting::putting::{depth_put, list_put, size_put};
use cv_directory::Directory;
use cv_path::PathError;
use cv_pool::PoolError;
use cv_syntax::limits::Extent;
use cv_syntax::listing::plant_listed;
use cv_syntax::{NodeId, Pool};
use std::alloc::{AllocError, Global};

/// How large a game is without the `let` of a variable. There is no answer where the variable hasn't one definition, a `let`.
pub fn measure_unletting(pool: &Pool, game: NodeId, directory: &Directory, x: u32) -> Option<Extent>
    requires live { game.0 < length pool.now.trees }
    requires small { tree.size (tree_at pool.now.trees (Some game)) ≤ 50000 }
    requires read { IsRead pool.now.trees (tree_at pool.now.trees (Some game)) directory.now }
    ensures nodes { option_map (λ e. e.nodes) result
        ≡ option_map tree.size (unlet x (tree_at pool.now.trees (Some game))) }
    ensures depth { option_map (λ e. e.depth) result
        ≡ option_map tree.depth (unlet x (tree_at pool.now.trees (Some game))) }
{
    let assigned = only_assignment(pool, game, directory, x)?;
    Some(Extent {
        nodes: size_put(pool, directory, x, assigned.term, Some(game)),
        depth: depth_put(pool, directory, x, assigned.term, Some(game)),
    })
}

/// Makes the game without the `let` of a variable. The pool is asked for room for all of its nodes at once, also for those
/// that are there; more than a pool can have are never made.
pub fn make_unletting(
    alloc: Global,
    pool: &mut Pool,
    game: NodeId,
    directory: &Directory,
    x: u32,
) -> Result<Option<NodeId>, PathError>
    requires live { game.0 < length pool.old.trees }
    requires fits { tree.size (tree_at pool.old.trees (Some game)) < 2 ^ 32 }
    requires read { IsRead pool.old.trees (tree_at pool.old.trees (Some game)) directory.now }
    requires limit { pool.old.limit < 4294967295 }
    ensures tree { IfOk result (λ n. unlet x (tree_at pool.old.trees (Some game))
        ≡ Some (tree_at pool.new.trees n)) }
    ensures live { IfOk result (λ n. ChildBelow (length pool.new.trees) n) }
    ensures grows { OnOk result (Grows pool.old pool.new) }
    ensures accepted { OnOk result
        (refusal pool.old x (tree_at pool.old.trees (Some game)) ≡ None) }
    ensures refused { (e : PathError) → IsErrOf result e → (e ≡ no_memory)
        ⊎ (refusal pool.old x (tree_at pool.old.trees (Some game)) ≡ Some e) }
    ensures kept { OnErr result (pool.new.trees ≡ pool.old.trees) }
    ensures limit { pool.new.limit ≡ pool.old.limit }
    ensures few { length pool.new.trees ≤ length pool.old.trees
        + need_unletting x (tree_at pool.old.trees (Some game)) }
{
    let Some(assigned) = only_assignment(pool, game, directory, x) else {
        return Err(PathError::NoSuchPlace);
    };
    let mut makes = Vec::new(alloc);
    match list_put(
        alloc,
        pool,
        directory,
        &mut makes,
        x,
        assigned.term,
        Some(game),
    ) {
        Ok(()) => match plant_listed(alloc, pool, &makes) {
            Ok(next) => Ok(next),
            Err(fault) => Err(no_room(fault)),
        },
        Err(AllocError) => Err(no_room(PoolError::OutOfMemory)),
    }
}
