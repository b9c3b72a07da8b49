ghost use Rattle.std.specs.Prelude.{◌≡◌, ◌+◌, ◌<◌, ◌≤◌, ◌^◌, ◌⊎◌, All, IfErr, IfOk, IsErrOf, OnErr, OnOk, None, Some, length, option_map};
ghost use Rattle.cv_pool.specs.Nodes.{ChildBelow};
ghost use Rattle.cv_pool.specs.PoolView.{Grows};
ghost use Rattle.cv_syntax_trees.specs.Tree.{size};
ghost use Rattle.cv_syntax.specs.PoolTrees.{tree_at};
ghost use Rattle.cv_syntax.specs.Walks.{above};
ghost use Rattle.cv_path.specs.Refusals.{no_memory};
ghost use Rattle.cv_path.specs.Ways.{led};
ghost use Rattle.cv_scene.specs.Pruning.{without_branch};
ghost use Rattle.cv_edit_changes.specs.pruning.Bodies.{game_without, need_of, nodes_of, part_of, refusal};
ghost use Rattle.cv_edit_changes.specs.pruning.Lefts.{items, left_of};

use crate::faults::no_room;
use crate::pruning::body::Body;
use crate::pruning::left::{Left, left_without};
use cv_path::{PathError, Turn, push, rebuilt, way_to};
use cv_syntax::{NodeId, Pool, read_node};
use std::alloc::Global;

/// Adds the branches before the k-th to a way. It goes on with those behind.
fn add_branches(
    pool: &Pool,
    way: &mut Vec<Turn>,
    list: Option<NodeId>,
    k: u64,
) -> Result<Option<NodeId>, PathError>
    requires live { ChildBelow (length pool.now.trees) list }
    requires number { 1 ≤ k }
    requires enough { k ≤ items (tree_at pool.now.trees list) }
    requires nodes { All (λ t. t.node.0 < length pool.now.trees) way.old.items }
    ensures leads { IfOk result (λ n. led pool.now.trees way.new.items (tree_at pool.now.trees n)
        ≡ led pool.now.trees way.old.items (without_branch (tree_at pool.now.trees list) k)) }
    ensures long { OnOk result (length way.new.items + 1 ≡ length way.old.items + k) }
    ensures few { OnOk result (length way.new.items + 1 ≤ length way.old.items + above list) }
    ensures nodes { OnOk result (All (λ t. t.node.0 < length pool.now.trees) way.new.items) }
    ensures live { IfOk result (λ n. ChildBelow (length pool.now.trees) n) }
    ensures err { IfErr result (λ e. e ≡ no_memory) }
{
    let mut left = k;
    let mut at = list;
    'items: while let Some(n) = at {
        let cell = read_node(pool, n);
        if left == 1 {
            return Ok(cell.second);
        }
        push(way, n, true)?;
        left -= 1;
        at = cell.second;
    }
    Ok(None)
}

/// Adds the nodes of a construct that are made to a way. It goes on with what stays below them.
fn add_construct(
    pool: &Pool,
    way: &mut Vec<Turn>,
    node: NodeId,
    body: Body,
) -> Result<Option<NodeId>, PathError>
    requires live { node.0 < length pool.now.trees }
    requires fits { size (tree_at pool.now.trees (Some node)) < 2 ^ 32 }
    requires nodes { All (λ t. t.node.0 < length pool.now.trees) way.old.items }
    ensures leads { IfOk result (λ n.
        option_map (led pool.now.trees way.old.items)
        (left_of (tree_at pool.now.trees (Some node)) (part_of body))
        ≡ Some (led pool.now.trees way.new.items (tree_at pool.now.trees n))) }
    ensures long { OnOk result (length way.new.items ≡ length way.old.items
        + nodes_of (tree_at pool.now.trees (Some node)) (part_of body)) }
    ensures few { OnOk result (length way.new.items ≤ length way.old.items + node.0) }
    ensures nodes { OnOk result (All (λ t. t.node.0 < length pool.now.trees) way.new.items) }
    ensures live { IfOk result (λ n. ChildBelow (length pool.now.trees) n) }
    ensures refused { (e : PathError) → IsErrOf result e → (e ≡ no_memory)
        ⊎ ((e ≡ PathError.NoSuchPlace)
        × (left_of (tree_at pool.now.trees (Some node)) (part_of body) ≡ None)) }
{
    let construct = read_node(pool, node);
    let Some(left) = left_without(pool, construct, body) else {
        return Err(PathError::NoSuchPlace);
    };
    match left {
        Left::Body(other) => Ok(other),
        Left::Rest(k, _) => {
            push(way, node, false)?;
            add_branches(pool, way, construct.first, k)
        }
    }
}

/// Makes the game without a body of the construct at a place. Only the nodes above what stays are new, and the pool is
/// asked for room for all of them at once.
#[tactic(auto, using(cv_pool::proofs::Growth::growth))]
pub fn make_without_body(
    alloc: Global,
    pool: &mut Pool,
    root: NodeId,
    place: u32,
    body: Body,
) -> Result<Option<NodeId>, PathError>
    requires live { root.0 < length pool.old.trees }
    requires fits { size (tree_at pool.old.trees (Some root)) < 2 ^ 32 }
    ensures tree { IfOk result (λ n. game_without (tree_at pool.old.trees (Some root)) place
        (part_of body) ≡ Some (tree_at pool.new.trees n)) }
    ensures live { IfOk result (λ n. ChildBelow (length pool.new.trees) n) }
    ensures grows { Grows pool.old pool.new }
    ensures accepted { OnOk result (refusal pool.old (tree_at pool.old.trees (Some root)) place
        (part_of body) ≡ None) }
    ensures refused { (e : PathError) → IsErrOf result e → (e ≡ no_memory)
        ⊎ (refusal pool.old (tree_at pool.old.trees (Some root)) place (part_of body) ≡ Some e) }
    ensures kept { OnErr result (pool.new.trees ≡ pool.old.trees) }
    ensures few { length pool.new.trees ≤ length pool.old.trees
        + need_of (tree_at pool.old.trees (Some root)) place (part_of body) }
{
    let mut way = way_to(alloc, pool, root, place)?;
    let by = add_construct(pool, &mut way.turns, way.end, body)?;
    match pool.reserve(way.turns.len() as u32) {
        Ok(()) => Ok(rebuilt(pool, way.turns, by)),
        Err(fault) => Err(no_room(fault)),
    }
}
