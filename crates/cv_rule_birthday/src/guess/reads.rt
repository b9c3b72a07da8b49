ghost use Rattle.std.specs.Prelude.{◌≡◌, ◌&&◌, ◌+◌, ◌<◌, ◌^◌, IfErr, IfOk, None, OnOk, Some, length, not};
ghost use Rattle.cv_pool.specs.Nodes.{ChildBelow};
ghost use Rattle.cv_syntax_trees.specs.Tree.{size};
ghost use Rattle.cv_syntax.specs.PoolTrees.{tree_at};
ghost use Rattle.cv_scene.specs.Scenes as scenes;
ghost use Rattle.cv_scene_view.specs.phrases.Phrases.{phrase_of};
ghost use Rattle.cv_rule_birthday.specs.guess.Guessing as guessing;
ghost use Rattle.cv_rule_birthday.specs.Comparing.{is_one_of};
ghost use Rattle.cv_rule_birthday.specs.guess.Guessing.{first_read};

use crate::guess::comparisons::head_reads;
use crate::guess::guesses::sides_of;
use cv_edit_places::parts_within;
use cv_scene_view::phrases::Phrase;
use cv_syntax::{Head, NodeId, Pool, read_node};

/// Whether values are read of what stands there.
fn has_value(phrase: Phrase) -> bool
    ensures { result ≡ guessing.has_value (phrase_of phrase) }
{
    match phrase {
        Phrase::Nil => true,
        Phrase::Term => true,
        _ => false,
    }
}

/// Whether the value of a variable is read at a node that is no side of a guess.
fn is_read(x: u32, phrase: Phrase, is_side: bool, head: Head) -> bool
    ensures { result ≡ (guessing.has_value (phrase_of phrase)
        && (scenes.head_reads x head && not is_side)) }
{
    has_value(phrase) && (head_reads(x, head) && !is_side)
}

/// The place behind a tree that stands at a place, where the value of a variable is read in sides of guesses alone; or the first place
/// where it is read otherwise.
fn other_reads(
    pool: &Pool,
    x: u32,
    places: &[u32],
    phrase: Phrase,
    is_side: bool,
    from: u32,
    tree: Option<NodeId>,
) -> Result<u32, u32>
    requires live { ChildBelow (length pool.now.trees) tree }
    requires fits { from + size (tree_at pool.now.trees tree) < 2 ^ 32 }
    ensures none { OnOk result (first_read x (is_one_of places.now) (phrase_of phrase) is_side from
        (tree_at pool.now.trees tree) ≡ None) }
    ensures next { IfOk result (λ next. next ≡ from + size (tree_at pool.now.trees tree)) }
    ensures found { IfErr result (λ p. first_read x (is_one_of places.now) (phrase_of phrase)
        is_side from (tree_at pool.now.trees tree) ≡ Some p) }
{
    let mut within = phrase;
    let mut side = is_side;
    let mut place = from;
    let mut at = tree;
    'tree: while let Some(k) = at {
        let node = read_node(pool, k);
        if is_read(x, within, side, node.head) {
            return Err(place);
        }
        let sides = sides_of(pool, x, places, within, place, node);
        let (first, second) = parts_within(within, node.head);
        let below = place + node.head.weight();
        match other_reads(pool, x, places, first, sides.left, below, node.first) {
            Ok(next) => place = next,
            Err(found) => return Err(found),
        }
        within = second;
        side = sides.right;
        at = node.second;
    }
    Ok(place)
}

/// The first place of a game where the value of a variable is read, but for one side of each equality at some places.
pub(crate) fn first_other_read(pool: &Pool, game: NodeId, x: u32, places: &[u32]) -> Option<u32>
    requires live { game.0 < length pool.now.trees }
    requires fits { size (tree_at pool.now.trees (Some game)) < 2 ^ 32 }
    ensures { result ≡ guessing.first_other_read places.now x
        (tree_at pool.now.trees (Some game)) }
{
    match other_reads(pool, x, places, Phrase::Inputs, false, 0, Some(game)) {
        Ok(_) => None,
        Err(found) => Some(found),
    }
}
