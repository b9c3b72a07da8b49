ghost use Rattle.std.specs.Prelude.{◌≡◌, ◌<◌, ◌^◌, Some, length};
ghost use Rattle.cv_syntax_trees.specs.Tree.{Tree, size};
ghost use Rattle.cv_syntax.specs.PoolTrees.{tree_at};
ghost use Rattle.cv_syntax_trees.specs.sites.Sites.{sites_of};
ghost use Rattle.cv_scope_rules.specs.typing.Signature.{OfGame};
ghost use Rattle.cv_typing.specs.Tables.{arrays_of};
ghost use Rattle.cv_scope_rules.specs.Phrases as grammar;
ghost use Rattle.cv_scene.specs.Terms as terms;
ghost use Rattle.cv_steps.specs.Rewriting as rewriting;
ghost use Rattle.cv_scene_view.specs.phrases.Phrases.{both, phrase_of};

use cv_path::{Lies, place_in};
use cv_scene_view::phrases::{Phrase, parts};
use cv_syntax::{Head, NodeId, Pool, read_node};
use cv_typing::Arrays;

/// What the children of a node are; the indices of a read are passed over.
pub fn parts_within(phrase: Phrase, head: Head) -> (Phrase, Phrase)
    ensures { both result ≡ rewriting.parts_of (phrase_of phrase) head }
{
    match head {
        Head::Read(_) => (Phrase::Nil, Phrase::Nil),
        _ => match parts(phrase, head) {
            Some(both) => both,
            None => (Phrase::Nil, Phrase::Nil),
        },
    }
}

/// Whether what stands there is a term.
pub fn is_term(phrase: Phrase) -> bool
    ensures { result ≡ rewriting.is_term (phrase_of phrase) }
{
    match phrase {
        Phrase::Term => true,
        _ => false,
    }
}

/// Whether at a place of a game stands a term that is no index and no cell.
#[tactic(auto, using(cv_path::proofs::Going::going))]
pub fn has_term_at(pool: &Pool, game: NodeId, place: u32) -> bool
    requires live { game.0 < length pool.now.trees }
    requires fits { size (tree_at pool.now.trees (Some game)) < 2 ^ 32 }
    ensures { result ≡ rewriting.has_term_at grammar.Inputs (tree_at pool.now.trees (Some game))
        place }
{
    let mut phrase = Phrase::Inputs;
    let mut at = Some(game);
    let mut left = place;
    'down: while let Some(k) = at {
        let node = read_node(pool, k);
        let (first, second) = parts_within(phrase, node.head);
        match place_in(pool, node, left) {
            Lies::Here => return is_term(phrase),
            Lies::Within(rest) => {
                phrase = first;
                at = node.first;
                left = rest;
            }
            Lies::Behind(rest) => {
                phrase = second;
                at = node.second;
                left = rest;
            }
        }
    }
    false
}

/// Whether a name is a variable of the game.
pub fn has_site(arrays: &Arrays, x: u32) -> bool
    ensures { (game : Tree) → arrays_of arrays.now ≡ OfGame (sites_of game)
        → result ≡ terms.has_site game x }
{
    arrays.arity(x).is_some()
}
