ghost use Rattle.std.specs.Prelude.{◌≡◌, ◌+◌, ◌<◌, ◌^◌, ◌∷◌, [], IfOk, OnOk, Some, length};
ghost use Rattle.cv_pool.specs.Nodes.{ChildBelow};
ghost use Rattle.cv_syntax_trees.specs.Tree as tree;
ghost use Rattle.cv_syntax.specs.PoolTrees.{tree_at};
ghost use Rattle.cv_edit_places.specs.Parts.{AreLive, made_by, stack_of};
ghost use Rattle.cv_costs.specs.wording.Changing as changing;
ghost use Rattle.cv_costs.specs.wording.Changing.{changed_at};
ghost use Rattle.cv_rule_birthday.specs.Comparing as comparing;
ghost use Rattle.cv_rule_birthday.specs.Comparing.{compared};
ghost use Rattle.cv_rule_birthday.specs.Needs.{made_of_changed};

use crate::equations::add_compared;
use cv_edit_places::Parts;
use cv_syntax::{Head, NodeId, Pool, read_node, size};
use std::alloc::{AllocError, Global};

/// Whether a place is one of a list.
pub(crate) fn is_one_of(places: &[u32], place: u32) -> bool
    ensures { result ≡ comparing.is_one_of places.now place }
{
    'places: for k in 0..places.len() {
        let same = places[k] == place;
        if same {
            return true;
        }
    }
    false
}

/// Whether a node that stands at a place is changed there.
fn is_changed(places: &[u32], place: u32, head: Head) -> bool
    ensures { result ≡ changing.is_changed (comparing.is_one_of places.now) place head }
{
    head.weight() > 0 && is_one_of(places, place)
}

/// Lists a tree that stands at a place, with comparisons of indices at some places; and the place behind it.
fn add_changed(
    alloc: Global,
    pool: &Pool,
    parts: &mut Parts,
    places: &[u32],
    from: u32,
    start: Option<NodeId>,
) -> Result<u32, AllocError>
    requires live { ChildBelow (length pool.now.trees) start }
    requires fits { from + tree.size (tree_at pool.now.trees start) < 2 ^ 32 }
    ensures next { IfOk result (λ next. next ≡ from + tree.size (tree_at pool.now.trees start)) }
    ensures stack { OnOk result (stack_of pool.now.trees parts.new
        ≡ changed_at (comparing.is_one_of places.now) compared from
        (tree_at pool.now.trees start) ∷ stack_of pool.now.trees parts.old) }
    ensures made { OnOk result (made_by parts.new ≡ made_by parts.old
        + made_of_changed (comparing.is_one_of places.now) from
        (tree_at pool.now.trees start)) }
    ensures live { OnOk result (AreLive (length pool.now.trees) parts.old
        → AreLive (length pool.now.trees) parts.new) }
{
    let mut heads = Vec::new(alloc);
    let mut place = from;
    let mut at = start;
    'chain: while let Some(k) = at {
        let node = read_node(pool, k);
        let here = is_changed(places, place, node.head);
        if here {
            add_compared(pool, parts, k)?;
            parts.close(heads)?;
            return Ok(place + size(pool, k));
        }
        let below = place + node.head.weight();
        place = add_changed(alloc, pool, parts, places, below, node.first)?;
        heads.push(node.head)?;
        at = node.second;
    }
    parts.there(None)?;
    parts.close(heads)?;
    Ok(place)
}

/// The parts of a game with comparisons of indices at some places.
pub(crate) fn changed_parts(
    alloc: Global,
    pool: &Pool,
    game: NodeId,
    places: &[u32],
) -> Result<Parts, AllocError>
    requires live { game.0 < length pool.now.trees }
    requires fits { tree.size (tree_at pool.now.trees (Some game)) < 2 ^ 32 }
    ensures stack { IfOk result (λ parts. stack_of pool.now.trees parts
        ≡ changed_at (comparing.is_one_of places.now) compared 0
        (tree_at pool.now.trees (Some game)) ∷ []) }
    ensures made { IfOk result (λ parts. made_by parts
        ≡ made_of_changed (comparing.is_one_of places.now) 0
        (tree_at pool.now.trees (Some game))) }
    ensures live { IfOk result (AreLive (length pool.now.trees)) }
{
    let mut parts = Parts::new(alloc);
    add_changed(alloc, pool, &mut parts, places, 0, Some(game))?;
    Ok(parts)
}
