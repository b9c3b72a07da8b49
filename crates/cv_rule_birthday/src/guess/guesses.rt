ghost use Rattle.std.specs.Prelude.{◌≡◌, ◌&&◌, length, not};
ghost use Rattle.cv_pool.specs.Nodes.{ChildBelow};
ghost use Rattle.cv_syntax.specs.PoolTrees.{tree_at};
ghost use Rattle.cv_scene_view.specs.phrases.Phrases.{phrase_of};
ghost use Rattle.cv_rule_birthday.specs.Comparing as comparing;
ghost use Rattle.cv_rule_birthday.specs.guess.Guessing as guessing;

use crate::changing::is_one_of;
use crate::guess::comparisons::reads;
use cv_edit_places::is_term;
use cv_scene_view::phrases::Phrase;
use cv_syntax::{Head, Opened, Pool};

fn is_equality(head: Head) -> bool
    ensures { result ≡ guessing.is_equality head }
{
    match head {
        Head::Eq => true,
        _ => false,
    }
}

/// Whether a node that stands at one of some places is an equality in the terms, with a side that reads a variable.
pub(crate) fn is_guess(
    pool: &Pool,
    x: u32,
    places: &[u32],
    phrase: Phrase,
    place: u32,
    node: Opened,
) -> bool
    requires first { ChildBelow (length pool.now.trees) node.first }
    requires second { ChildBelow (length pool.now.trees) node.second }
    ensures { result ≡ guessing.is_guess x (comparing.is_one_of places.now) (phrase_of phrase)
        place node.head (tree_at pool.now.trees node.first) (tree_at pool.now.trees node.second) }
{
    is_term(phrase)
        && (is_equality(node.head)
            && (is_one_of(places, place)
                && (reads(pool, x, node.first) || reads(pool, x, node.second))))
}

/// Which child of a node is the side of a guess that reads the variable: the left one where it does, else the right one.
#[derive(Clone, Copy)]
pub(crate) struct Sides {
    pub(crate) left: bool,
    pub(crate) right: bool,
}

/// Which child of a node that stands at a place is the side of a guess that reads the variable.
pub(crate) fn sides_of(
    pool: &Pool,
    x: u32,
    places: &[u32],
    phrase: Phrase,
    place: u32,
    node: Opened,
) -> Sides
    requires first { ChildBelow (length pool.now.trees) node.first }
    requires second { ChildBelow (length pool.now.trees) node.second }
    ensures left { result.left ≡ (guessing.is_guess x (comparing.is_one_of places.now)
        (phrase_of phrase) place node.head
        (tree_at pool.now.trees node.first) (tree_at pool.now.trees node.second)
        && guessing.reads x (tree_at pool.now.trees node.first)) }
    ensures right { result.right ≡ (guessing.is_guess x (comparing.is_one_of places.now)
        (phrase_of phrase) place node.head
        (tree_at pool.now.trees node.first) (tree_at pool.now.trees node.second)
        && not (guessing.reads x (tree_at pool.now.trees node.first))) }
{
    let is_guess = is_guess(pool, x, places, phrase, place, node);
    let left = reads(pool, x, node.first);
    Sides {
        left: is_guess && left,
        right: is_guess && !left,
    }
}
