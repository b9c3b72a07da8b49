ghost use Rattle.std.specs.Prelude.{◌≡◌, ◌+◌, ◌<◌, ◌^◌, if◌then◌else◌, Some, length};
ghost use Rattle.cv_pool.specs.Nodes.{ChildBelow};
ghost use Rattle.cv_syntax_trees.specs.Tree.{size};
ghost use Rattle.cv_syntax.specs.PoolTrees.{tree_at};
ghost use Rattle.cv_derive_facts.specs.Definitions.{counted_on, only, places, places_of, seen_then};
ghost use Rattle.cv_scope_rules.specs.Behind.{sites_of};

use cv_path::is_definition;
use cv_syntax::{Game, NameId, NodeId, Pool, Work, read_node};

/// How many definitions were seen, with the place of the only one.
#[derive(Clone, Copy)]
enum Seen {
    Nothing,
    Once(u32),
    Often,
}

/// What was seen behind a construct at a place, which may be a definition.
fn seen_then(seen: Seen, is_one: bool, place: u32) -> Seen
    ensures { result ≡ (if is_one then seen_then seen place else seen) }
{
    match seen {
        _ if !is_one => seen,
        Seen::Nothing => Seen::Once(place),
        _ => Seen::Often,
    }
}

/// Counts the definitions of a variable in a tree that stands at a place, and gives the place behind it.
fn count(pool: &Pool, x: u32, tree: Option<NodeId>, place: u32, seen: &mut Seen) -> u32
    requires live { ChildBelow (length pool.now.trees) tree }
    requires fits { place + size (tree_at pool.now.trees tree) < 2 ^ 32 }
    ensures place { result ≡ place + size (tree_at pool.now.trees tree) }
    ensures seen { seen.new ≡ counted_on seen.old
        (places_of x place (tree_at pool.now.trees tree)) }
{
    let mut at = tree;
    let mut here = place;
    'chain: while let Some(n) = at {
        let node = read_node(pool, n);
        *seen = seen_then(*seen, is_definition(pool, node, x), here);
        here = count(pool, x, node.first, here + node.head.weight(), seen);
        at = node.second;
    }
    here
}

/// The place of the definition of a variable that is defined at one place of the game.
pub fn site(work: &Work, game: Game, x: NameId) -> Option<u32>
    requires live { game.root.0 < length work.now.pool.trees }
    requires fits { size (tree_at work.now.pool.trees (Some game.root)) < 2 ^ 32 }
    ensures { result ≡ only (places (sites_of (tree_at work.now.pool.trees (Some game.root)) x.0)) }
{
    let mut seen = Seen::Nothing;
    let _ = count(&work.pool, x.0, Some(game.root), 0, &mut seen);
    match seen {
        Seen::Once(place) => Some(place),
        _ => None,
    }
}
