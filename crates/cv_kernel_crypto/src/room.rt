ghost use Rattle.std.specs.Prelude.{◌≡◌, ◌+◌, ◌<◌, ◌≤◌, ℕ, IfOk, IfSome, IsErrOf, OnOk, Some, length};
ghost use Rattle.cv_pool.specs.Nodes.{ChildBelow};
ghost use Rattle.cv_syntax.specs.PoolTrees.{tree_at};
ghost use Rattle.cv_syntax.specs.limits.Limits.{nodes_of};

use cv_syntax::{NodeId, Pool, PoolError, read_node};
use std::alloc::AllocError;

/// How much of a room for so many nodes a tree leaves, where it has no more of them.
fn nodes_left(pool: &Pool, tree: Option<NodeId>, room: u32) -> Option<u32>
    requires { ChildBelow (length pool.now.trees) tree }
    ensures { IfSome result (λ left. nodes_of (tree_at pool.now.trees tree) + left ≡ room) }
{
    let Some(n) = tree else {
        return Some(room);
    };
    if room == 0 {
        return None;
    }
    let node = read_node(pool, n);
    let Some(rest) = nodes_left(pool, node.first, room - 1) else {
        return None;
    };
    nodes_left(pool, node.second, rest)
}

/// How many numbers of nodes are left behind so many and those of a context that was made behind them. A pool that grew by
/// more is told as want of memory.
pub(crate) fn room_behind(pool: &Pool, before: u32, context: NodeId) -> Result<u32, AllocError>
    requires { context.0 < length pool.now.trees }
    ensures room { IfOk result (λ room.
        before + nodes_of (tree_at pool.now.trees (Some context)) + room ≡ u32.MAX) }
    ensures few { IfOk result (λ room. length pool.now.trees + room ≤ u32.MAX) }
{
    let Some(room) = nodes_left(pool, Some(context), u32::MAX - before) else {
        return Err(AllocError);
    };
    if pool.live() > u32::MAX - room {
        return Err(AllocError);
    }
    Ok(room)
}

/// Whether the pool would have room for a next game behind all nodes but this room, even if they shared none. A pool that grew
/// by more is told as want of memory.
pub(crate) fn check_room(pool: &mut Pool, room: u32, next: NodeId) -> Result<(), PoolError>
    requires { next.0 < length pool.old.trees }
    ensures room { (all : ℕ) → all + room ≡ u32.MAX → OnOk result
        (all + nodes_of (tree_at pool.old.trees (Some next)) ≤ pool.old.limit) }
    ensures few { (all : ℕ) → all + room ≡ u32.MAX → OnOk result (length pool.new.trees
        ≤ all + nodes_of (tree_at pool.old.trees (Some next))) }
    ensures asks { (n : ℕ) → IsErrOf result (PoolError.Full n) →
        n ≡ nodes_of (tree_at pool.old.trees (Some next)) }
    ensures over { (n all : ℕ) → IsErrOf result (PoolError.Full n) → all + room ≡ u32.MAX →
        pool.old.limit < all + n }
    ensures kept { pool.new.trees ≡ pool.old.trees }
    ensures limit { pool.new.limit ≡ pool.old.limit }
{
    let Some(rest) = nodes_left(pool, Some(next), room) else {
        return Err(PoolError::OutOfMemory);
    };
    let all = u32::MAX - rest;
    let live = pool.live();
    if live > all {
        return Err(PoolError::OutOfMemory);
    }
    match pool.reserve(all - live) {
        Ok(()) => Ok(()),
        Err(PoolError::Full { need: _ }) => Err(PoolError::Full { need: room - rest }),
        Err(PoolError::OutOfMemory) => Err(PoolError::OutOfMemory),
    }
}
