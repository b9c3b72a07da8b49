// What stays of a pool behind an accepted step: what stands up to a mark, and the game that the step leads to.
ghost use Rattle.std.specs.Prelude.{◌≡◌, ◌+◌, ◌<◌, ◌≤◌, IfOk, IfSome, None, Ok, OnOk, Some, length};
ghost use Rattle.cv_pool.specs.PoolView.{Grows};
ghost use Rattle.cv_syntax.specs.PoolTrees.{tree_at};
ghost use Rattle.cv_syntax.specs.Postorder.{postorder};
ghost use Rattle.cv_syntax_trees.specs.Tree.{Tree};
ghost use Rattle.cv_kernel.specs.Keeping.{IsFreed, StaysUpTo};

use cv_syntax::listing::{copy, plant_listed};
use cv_syntax::{Make, Mark, NodeId, Pool};
use std::alloc::{AllocError, Global};

/// The most nodes that stand behind the mark before some are given back, so that a game is seldom made again.
const MOST_BEHIND: u32 = 262_144;

/// The nodes of a game, each behind its children, where there are so many behind the mark that some are to be given back, and this game
/// takes fewer.
#[tactic(auto, using(crate::proofs::Marks::freeing))]
fn listed(
    alloc: Global,
    pool: &Pool,
    mark: Mark,
    game: NodeId,
) -> Result<Option<Vec<Make>>, AllocError>
    requires mark { mark.0 ≤ length pool.now.trees }
    requires game { game.0 < length pool.now.trees }
    ensures listed { IfOk result (λ o. IfSome o (λ v.
        v.items ≡ postorder (tree_at pool.now.trees (Some game)))) }
    ensures fewer { IfOk result (λ o. IfSome o (λ v.
        mark.0 + length v.items ≤ length pool.now.trees)) }
    ensures none { result ≡ Ok None
        → IsFreed mark.0 (tree_at pool.now.trees (Some game)) pool.now }
{
    let behind = pool.mark().0 - mark.0;
    if behind < MOST_BEHIND {
        return Ok(None);
    }
    let mut makes = Vec::new(alloc);
    copy(alloc, pool, &mut makes, Some(game))?;
    if makes.len() > behind as usize {
        return Ok(None);
    }
    Ok(Some(makes))
}

/// Makes a listed game again. Want of room counts as want of memory.
#[tactic(auto, using(crate::proofs::Marks::keeping))]
fn plant_again(alloc: Global, pool: &mut Pool, makes: &[Make]) -> Result<NodeId, AllocError>
    requires listed { (t : Tree) × (makes.now ≡ postorder t) }
    requires limit { pool.old.limit < 4294967295 }
    ensures tree { (t : Tree) → makes.now ≡ postorder t
        → IfOk result (λ n. tree_at pool.new.trees (Some n) ≡ t) }
    ensures live { IfOk result (λ n. n.0 < length pool.new.trees) }
    ensures grows { Grows pool.old pool.new }
    ensures few { length pool.new.trees ≤ length pool.old.trees + length makes.now }
{
    match plant_listed(alloc, pool, makes) {
        Ok(Some(n)) => Ok(n),
        Ok(None) => Err(AllocError),
        Err(_) => Err(AllocError),
    }
}

/// Gives back what stands behind a mark, but for a game: only where there is much of it. The game stands at the answered node then; without
/// memory it is lost.
#[tactic(auto, using(crate::proofs::Marks::keeping))]
pub(crate) fn keep_game(
    alloc: Global,
    pool: &mut Pool,
    mark: Mark,
    game: NodeId,
) -> Result<Option<NodeId>, AllocError>
    requires mark { mark.0 ≤ length pool.old.trees }
    requires game { game.0 < length pool.old.trees }
    requires limit { pool.old.limit < 4294967295 }
    ensures stays { StaysUpTo mark.0 pool.old pool.new }
    ensures all { result ≡ Ok None → pool.new.trees ≡ pool.old.trees }
    ensures game { IfOk result (λ o. IfSome o (λ n. tree_at pool.new.trees (Some n)
        ≡ tree_at pool.old.trees (Some game))) }
    ensures live { IfOk result (λ o. IfSome o (λ n. n.0 < length pool.new.trees)) }
    ensures few { length pool.new.trees ≤ length pool.old.trees }
    ensures freed { OnOk result
        (IsFreed mark.0 (tree_at pool.old.trees (Some game)) pool.new) }
{
    let Some(makes) = listed(alloc, pool, mark, game)? else {
        return Ok(None);
    };
    pool.release(mark);
    let root = plant_again(alloc, pool, &makes)?;
    Ok(Some(root))
}
