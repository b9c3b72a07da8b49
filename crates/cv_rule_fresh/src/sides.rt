ghost use Rattle.std.specs.Prelude.{◌≡◌, ◌<◌, ◌^◌, IfSome, Some, length, option_map};
ghost use Rattle.cv_pool.specs.Nodes.{ChildBelow};
ghost use Rattle.cv_syntax_trees.specs.Tree.{Tree, size};
ghost use Rattle.cv_syntax.specs.PoolTrees.{tree_at};
ghost use Rattle.cv_syntax_trees.specs.sites.Sites.{sites_of};
ghost use Rattle.cv_scope_rules.specs.typing.Signature.{OfGame};
ghost use Rattle.cv_typing.specs.Tables.{arrays_of};
ghost use Rattle.cv_rule_fresh.specs.collisions.Equalities as equalities;
ghost use Rattle.cv_rule_fresh.specs.Looks.{equality_of};

use crate::cells::is_cell;
use cv_derive_reasons::cells::variable;
use cv_edit_places::{has_site, has_term_at};
use cv_scene_view::part_at;
use cv_syntax::children::read_child;
use cv_syntax::{Head, NodeId, Pool};
use cv_typing::Arrays;

/// The sides of an equality.
#[derive(Clone, Copy)]
pub(crate) struct Equality {
    pub(crate) left: Option<NodeId>,
    pub(crate) right: Option<NodeId>,
}

/// The sides of the equality in the terms of a game at a place, where one stands there.
pub(crate) fn equality_at(pool: &Pool, game: NodeId, place: u32) -> Option<Equality>
    requires live { game.0 < length pool.now.trees }
    requires fits { size (tree_at pool.now.trees (Some game)) < 2 ^ 32 }
    ensures sides { option_map (equality_of pool.now.trees) result
        ≡ equalities.equality_at (tree_at pool.now.trees (Some game)) place }
    ensures left { IfSome result (λ e. ChildBelow (length pool.now.trees) e.left) }
    ensures right { IfSome result (λ e. ChildBelow (length pool.now.trees) e.right) }
{
    if !has_term_at(pool, game, place) {
        return None;
    }
    let node = read_child(pool, part_at(pool, game, place))?;
    match node.head {
        Head::Eq => Some(Equality {
            left: node.first,
            right: node.second,
        }),
        _ => None,
    }
}

/// The variable of a game that a term reads at the indices of replications.
pub(crate) fn current_variable(
    pool: &Pool,
    arrays: &Arrays,
    replications: &[(u32, u32)],
    term: Option<NodeId>,
) -> Option<u32>
    requires { ChildBelow (length pool.now.trees) term }
    ensures { (game : Tree) → arrays_of arrays.now ≡ OfGame (sites_of game) → result
        ≡ equalities.cell_variable game replications.now (tree_at pool.now.trees term) }
{
    let x = variable(pool, term)?;
    if !has_site(arrays, x) {
        return None;
    }
    if !is_cell(pool, term, x, replications) {
        return None;
    }
    Some(x)
}
