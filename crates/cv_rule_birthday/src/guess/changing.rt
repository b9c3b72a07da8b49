ghost use Rattle.std.specs.Prelude.{◌≡◌, ◌+◌, ◌<◌, ◌^◌, ◌∷◌, [], IfOk, OnOk, Some, length};
ghost use Rattle.cv_pool.specs.Nodes.{ChildBelow};
ghost use Rattle.cv_syntax_trees.specs.Tree as tree;
ghost use Rattle.cv_syntax.specs.PoolTrees.{tree_at};
ghost use Rattle.cv_syntax.specs.limits.Limits.{nodes_of};
ghost use Rattle.cv_scene.specs.lines.Truths.{no};
ghost use Rattle.cv_edit_places.specs.Parts.{AreLive, made_by, stack_of};
ghost use Rattle.cv_scene_view.specs.phrases.Phrases.{phrase_of};
ghost use Rattle.cv_rule_birthday.specs.Comparing.{is_one_of};
ghost use Rattle.cv_rule_birthday.specs.guess.Guessing.{falsified, without_guesses};
ghost use Rattle.cv_rule_birthday.specs.guess.Needs.{made_without_guesses};

use crate::guess::guesses::is_guess;
use cv_edit_places::{Parts, parts_within};
use cv_scene_view::phrases::Phrase;
use cv_syntax::{Head, NodeId, Pool, read_node, size};
use std::alloc::{AllocError, Global};

/// Lists `false`.
fn add_falsity(pool: &Pool, parts: &mut Parts) -> Result<(), AllocError>
    ensures stack { OnOk result (stack_of pool.now.trees parts.new
        ≡ no ∷ stack_of pool.now.trees parts.old) }
    ensures made { OnOk result (made_by parts.new ≡ made_by parts.old + 1) }
    ensures live { OnOk result (AreLive (length pool.now.trees) parts.old
        → AreLive (length pool.now.trees) parts.new) }
{
    parts.there(None)?;
    parts.there(None)?;
    parts.over(Head::No)
}

/// Lists a tree that stands at a place, with `false` for the guesses at some places; and the place behind it.
fn add_falsified(
    alloc: Global,
    pool: &Pool,
    parts: &mut Parts,
    x: u32,
    places: &[u32],
    phrase: Phrase,
    from: u32,
    start: Option<NodeId>,
) -> Result<u32, AllocError>
    requires live { ChildBelow (length pool.now.trees) start }
    requires fits { from + tree.size (tree_at pool.now.trees start) < 2 ^ 32 }
    ensures next { IfOk result (λ next. next ≡ from + tree.size (tree_at pool.now.trees start)) }
    ensures stack { OnOk result (stack_of pool.now.trees parts.new
        ≡ falsified x (is_one_of places.now) (phrase_of phrase) from (tree_at pool.now.trees start)
        ∷ stack_of pool.now.trees parts.old) }
    ensures made { OnOk result (made_by parts.new ≡ made_by parts.old
        + nodes_of (falsified x (is_one_of places.now) (phrase_of phrase) from
        (tree_at pool.now.trees start))) }
    ensures live { OnOk result (AreLive (length pool.now.trees) parts.old
        → AreLive (length pool.now.trees) parts.new) }
{
    let mut heads = Vec::new(alloc);
    let mut within = phrase;
    let mut place = from;
    let mut at = start;
    'chain: while let Some(k) = at {
        let node = read_node(pool, k);
        let here = is_guess(pool, x, places, within, place, node);
        if here {
            add_falsity(pool, parts)?;
            parts.close(heads)?;
            return Ok(place + size(pool, k));
        }
        let (first, second) = parts_within(within, node.head);
        let below = place + node.head.weight();
        place = add_falsified(alloc, pool, parts, x, places, first, below, node.first)?;
        heads.push(node.head)?;
        within = second;
        at = node.second;
    }
    parts.there(None)?;
    parts.close(heads)?;
    Ok(place)
}

/// The parts of a game with `false` for the guesses at some places.
pub(crate) fn falsified_parts(
    alloc: Global,
    pool: &Pool,
    game: NodeId,
    x: u32,
    places: &[u32],
) -> Result<Parts, AllocError>
    requires live { game.0 < length pool.now.trees }
    requires fits { tree.size (tree_at pool.now.trees (Some game)) < 2 ^ 32 }
    ensures stack { IfOk result (λ parts. stack_of pool.now.trees parts
        ≡ without_guesses x places.now (tree_at pool.now.trees (Some game)) ∷ []) }
    ensures made { IfOk result (λ parts. made_by parts
        ≡ made_without_guesses x places.now (tree_at pool.now.trees (Some game))) }
    ensures live { IfOk result (AreLive (length pool.now.trees)) }
{
    let mut parts = Parts::new(alloc);
    add_falsified(
        alloc,
        pool,
        &mut parts,
        x,
        places,
        Phrase::Inputs,
        0,
        Some(game),
    )?;
    Ok(parts)
}
