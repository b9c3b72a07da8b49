ghost use Rattle.std.specs.Prelude.{◌≡◌, ◌+◌, ◌<◌, ◌≤◌, ◌^◌, ℕ, IfOk, IsErrOf, OnErr, OnOk, Some, length};
ghost use Rattle.cv_pool.specs.Nodes.{ChildBelow};
ghost use Rattle.cv_pool.specs.PoolView.{Grows};
ghost use Rattle.cv_syntax_trees.specs.Tree as tree;
ghost use Rattle.cv_syntax.specs.PoolTrees.{tree_at};
ghost use Rattle.cv_syntax.specs.Postorder.{postorder};
ghost use Rattle.cv_syntax.specs.limits.Limits.{told};
ghost use Rattle.cv_edit_names.specs.Needs.{need_splitting};
ghost use Rattle.cv_edit_names.specs.Splitting.{split_game};

use crate::around::Around;
use crate::measuring::{Count, size_split};
use crate::naming::{Naming, name_places};
use crate::splitting::list_split;
use cv_pool::PoolError;
use cv_syntax::limits::Extent;
use cv_syntax::listing::plant_listed;
use cv_syntax::{Make, NodeId, Pool, depth};
use std::alloc::{AllocError, Global};

/// How many names there are, as that is told.
fn count_of(names: &[u32]) -> u32
    ensures { result ≡ told (length names.now) }
{
    if names.len() > 4_294_967_295 {
        return 4_294_967_295;
    }
    names.len() as u32
}

/// How large a game is in which each definition of a variable has its own name. What is above the greatest number of 32
/// bits is told as that number.
pub fn measure_splitting(
    alloc: Global,
    pool: &Pool,
    game: NodeId,
    x: u32,
    names: &[u32],
) -> Result<Extent, AllocError>
    requires live { game.0 < length pool.now.trees }
    requires fits { tree.size (tree_at pool.now.trees (Some game)) < 2 ^ 32 }
    requires some { 0 < length names.now }
    ensures nodes { IfOk result (λ e. e.nodes ≡ told (tree.size
        (split_game x names.now (tree_at pool.now.trees (Some game))))) }
    ensures depth { IfOk result (λ e. e.depth ≡ told (tree.depth
        (split_game x names.now (tree_at pool.now.trees (Some game))))) }
{
    let count = Count {
        variable: x,
        names: count_of(names),
    };
    let nodes = size_split(alloc, pool, count, &[], Some(game))?;
    Ok(Extent {
        nodes,
        depth: depth(pool, game),
    })
}

/// Lists a game in which each definition of a variable has its own name, each node behind its children.
fn list_game(
    alloc: Global,
    pool: &Pool,
    game: NodeId,
    x: u32,
    names: &[u32],
) -> Result<Vec<Make>, AllocError>
    requires live { game.0 < length pool.now.trees }
    requires fits { tree.size (tree_at pool.now.trees (Some game)) < 2 ^ 32 }
    ensures { IfOk result (λ makes. makes.items ≡ postorder
        (split_game x names.now (tree_at pool.now.trees (Some game)))) }
{
    let places = name_places(alloc, pool, game, x, names)?;
    let naming = Naming {
        variable: x,
        names,
        places: places.as_slice(),
    };
    let nothing = Around {
        replications: &[],
        looked_for: &[],
        site: &[],
        name: None,
    };
    let mut makes = Vec::new(alloc);
    list_split(alloc, pool, &mut makes, &naming, &nothing, 0, Some(game))?;
    Ok(makes)
}

/// Makes the game in which each definition of a variable has its own name. The pool is asked for room for all of its nodes at
/// once, also for those that are there; more than a pool can have are never made.
pub fn make_splitting(
    alloc: Global,
    pool: &mut Pool,
    game: NodeId,
    x: u32,
    names: &[u32],
) -> Result<Option<NodeId>, PoolError>
    requires live { game.0 < length pool.old.trees }
    requires fits { tree.size (tree_at pool.old.trees (Some game)) < 2 ^ 32 }
    requires limit { pool.old.limit < 4294967295 }
    ensures tree { IfOk result (λ n. tree_at pool.new.trees n
        ≡ split_game x names.now (tree_at pool.old.trees (Some game))) }
    ensures live { IfOk result (λ n. ChildBelow (length pool.new.trees) n) }
    ensures grows { OnOk result (Grows pool.old pool.new) }
    ensures full { (n : ℕ) → IsErrOf result (PoolError.Full n)
        → (n ≡ need_splitting x names.now (tree_at pool.old.trees (Some game)))
        × (pool.old.limit < length pool.old.trees + n) }
    ensures accepted { OnOk result (length pool.old.trees
        + need_splitting x names.now (tree_at pool.old.trees (Some game)) ≤ pool.old.limit) }
    ensures kept { OnErr result (pool.new.trees ≡ pool.old.trees) }
    ensures limit { pool.new.limit ≡ pool.old.limit }
    ensures few { length pool.new.trees ≤ length pool.old.trees
        + need_splitting x names.now (tree_at pool.old.trees (Some game)) }
{
    match list_game(alloc, pool, game, x, names) {
        Ok(makes) => plant_listed(alloc, pool, &makes),
        Err(AllocError) => Err(PoolError::OutOfMemory),
    }
}
