ghost use Rattle.std.specs.Prelude.{◌≡◌, ◌<◌, ◌^◌, Some, length};
ghost use Rattle.cv_pool.specs.Nodes.{ChildBelow};
ghost use Rattle.cv_syntax_trees.specs.Tree.{size};
ghost use Rattle.cv_syntax.specs.PoolTrees.{tree_at};
ghost use Rattle.cv_syntax_trees.specs.sites.Sites.{sites_of};
ghost use Rattle.cv_typing.specs.Tables.{arrays_of};
ghost use Rattle.cv_scope_rules.specs.typing.Signature.{OfGame};
ghost use Rattle.cv_scene.specs.Instances.{is_read_of};
ghost use Rattle.cv_scene.specs.Sights.{variable_of};
ghost use Rattle.cv_rule_birthday.specs.Comparing as comparing;

use cv_edit_places::{has_site, has_term_at};
use cv_scene_view::part_at;
use cv_syntax::children::read_child;
use cv_syntax::{Head, NodeId, Pool};
use cv_typing::Arrays;

/// Whether a term reads a variable.
fn is_read_of(pool: &Pool, x: u32, term: Option<NodeId>) -> bool
    requires { ChildBelow (length pool.now.trees) term }
    ensures { result ≡ is_read_of x (variable_of (tree_at pool.now.trees term)) }
{
    let Some(node) = read_child(pool, term) else {
        return false;
    };
    match node.head {
        Head::Leaf(y) => y == x,
        Head::Read(y) => y == x,
        _ => false,
    }
}

/// Whether a term is an equality of which both sides read a variable.
fn is_comparison(pool: &Pool, x: u32, term: Option<NodeId>) -> bool
    requires { ChildBelow (length pool.now.trees) term }
    ensures { result ≡ comparing.is_comparison x (tree_at pool.now.trees term) }
{
    let Some(node) = read_child(pool, term) else {
        return false;
    };
    match node.head {
        Head::Eq => is_read_of(pool, x, node.first) && is_read_of(pool, x, node.second),
        _ => false,
    }
}

/// Whether two cells of a variable are compared at a place of a game.
fn is_compared_at(pool: &Pool, game: NodeId, arrays: &Arrays, x: u32, place: u32) -> bool
    requires live { game.0 < length pool.now.trees }
    requires fits { size (tree_at pool.now.trees (Some game)) < 2 ^ 32 }
    requires arrays { arrays_of arrays.now
        ≡ OfGame (sites_of (tree_at pool.now.trees (Some game))) }
    ensures { result ≡ comparing.is_compared_at (tree_at pool.now.trees (Some game)) x place }
{
    if !has_site(arrays, x) {
        return false;
    }
    has_term_at(pool, game, place) && is_comparison(pool, x, part_at(pool, game, place))
}

/// The first of some places where no two cells of a variable are compared.
pub(crate) fn first_uncompared(
    pool: &Pool,
    game: NodeId,
    arrays: &Arrays,
    x: u32,
    places: &[u32],
) -> Option<u32>
    requires live { game.0 < length pool.now.trees }
    requires fits { size (tree_at pool.now.trees (Some game)) < 2 ^ 32 }
    requires arrays { arrays_of arrays.now
        ≡ OfGame (sites_of (tree_at pool.now.trees (Some game))) }
    ensures { result ≡ comparing.first_uncompared (tree_at pool.now.trees (Some game)) x
        places.now }
{
    'places: for k in 0..places.len() {
        if !is_compared_at(pool, game, arrays, x, places[k]) {
            return Some(places[k]);
        }
    }
    None
}
