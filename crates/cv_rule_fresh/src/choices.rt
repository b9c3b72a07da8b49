ghost use Rattle.std.specs.Prelude.{◌≡◌, ◌<◌, ◌^◌, Some, length, option_map};
ghost use Rattle.cv_syntax_trees.specs.Tree.{size};
ghost use Rattle.cv_syntax.specs.PoolTrees.{tree_at};
ghost use Rattle.cv_rule_fresh.specs.collisions.Choices as choices;
ghost use Rattle.cv_rule_fresh.specs.Looks.{choice_of};

use cv_path::{Lies, place_in};
use cv_syntax::{Head, NodeId, Pool, read_node};

/// A `new` by its place, with its type.
#[derive(Clone, Copy)]
pub(crate) struct Choice {
    pub(crate) place: u32,
    pub(crate) of_type: u32,
}

/// The last `new` of a variable above the second child of a node at a place. An input begins another body.
fn choice_behind(x: u32, last: Option<Choice>, place: u32, head: Head) -> Option<Choice>
    ensures { option_map choice_of result
        ≡ choices.choice_behind x (option_map choice_of last) place head }
{
    match head {
        Head::In(_) => None,
        Head::New(y, of_type) => {
            if y == x {
                return Some(Choice { place, of_type });
            }
            last
        }
        _ => last,
    }
}

/// The last `new` of a variable above a place of a game in the same body.
#[tactic(auto, using(cv_path::proofs::Going::going))]
pub(crate) fn choice_above(pool: &Pool, game: NodeId, x: u32, place: u32) -> Option<Choice>
    requires live { game.0 < length pool.now.trees }
    requires fits { size (tree_at pool.now.trees (Some game)) < 2 ^ 32 }
    ensures { option_map choice_of result
        ≡ choices.choice_above (tree_at pool.now.trees (Some game)) x place }
{
    let mut last = None;
    let mut at = Some(game);
    let mut left = place;
    'down: while let Some(n) = at {
        let node = read_node(pool, n);
        match place_in(pool, node, left) {
            Lies::Here => return last,
            Lies::Within(rest) => {
                at = node.first;
                left = rest;
            }
            Lies::Behind(rest) => {
                last = choice_behind(x, last, place - left, node.head);
                at = node.second;
                left = rest;
            }
        }
    }
    None
}
