ghost use Rattle.std.specs.Prelude.{◌≡◌, ◌+◌, ◌<◌, ◌≤◌, ◌^◌, ◌||◌, IfSome, Some, length};
ghost use Rattle.std.specs.List.{list_any};
ghost use Rattle.cv_pool.specs.Nodes.{ChildBelow};
ghost use Rattle.cv_syntax_trees.specs.Tree.{same_tree, size};
ghost use Rattle.cv_syntax.specs.PoolTrees.{tree_at};
ghost use Rattle.cv_scope_rules.specs.Above.{stands_at};
ghost use Rattle.cv_scope_rules.specs.Context.{Context, cells_of};
ghost use Rattle.cv_scene.specs.Terms.{replications_by};
ghost use Rattle.cv_derive_reasons.specs.cells.Cells.{defined_second, is_among_under};
ghost use Rattle.cv_derive_reasons.specs.sizes.Sizes.{AreSizes};
ghost use Rattle.cv_derive.specs.Standing.{cells_under};
ghost use Rattle.cv_derive.specs.Walks.{Descends};

use cv_derive_facts::above_behind;
use cv_derive_reasons::cells::{defines, front, own_behind};
use cv_derive_reasons::sizes::{Sizes, place_in};
use cv_path::Lies;
use cv_scope_rules::Position;
use cv_syntax::{Game, NodeId, Opened, Pool, Work, read_node};

/// A node on the way to a place, with the place that is left below it, the indices of the branch around, the number of
/// replications above, and whether the cell that is looked for is defined above.
#[derive(Clone, Copy)]
struct Walk {
    at: Option<NodeId>,
    left: u32,
    position: Position,
    own: Option<NodeId>,
    above: u32,
    found: bool,
}

/// Whether a cell is defined above, or a node below replications defines it for its second child, with terms for names.
fn is_found(
    pool: &Pool,
    cell: Option<NodeId>,
    walk: Walk,
    node: Opened,
    replications: &[(u32, u32)],
    names: &[(u32, u32)],
    terms: Option<NodeId>,
) -> bool
    requires cell { ChildBelow (length pool.now.trees) cell }
    requires first { ChildBelow (length pool.now.trees) node.first }
    requires own { ChildBelow (length pool.now.trees) walk.own }
    requires terms { ChildBelow (length pool.now.trees) terms }
    ensures { (Γ : Context) → Γ.replications ≡ replications.now
        → Γ.own ≡ cells_of replications.now (tree_at pool.now.trees walk.own)
        → result ≡ (walk.found || is_among_under names.now (tree_at pool.now.trees terms)
        (tree_at pool.now.trees cell)
        (defined_second walk.position node.head (tree_at pool.now.trees node.first) Γ)) }
{
    if walk.found {
        return true;
    }
    defines(
        pool,
        cell,
        walk.position,
        walk.own,
        node,
        replications,
        names,
        terms,
    )
}

/// One step down, where the place is not the walk's own node. The replications are those above
/// the place.
fn down(
    pool: &Pool,
    sizes: &Sizes,
    cell: Option<NodeId>,
    walk: Walk,
    n: NodeId,
    replications: &[(u32, u32)],
    names: &[(u32, u32)],
    terms: Option<NodeId>,
) -> Option<Walk>
    requires sizes { AreSizes pool.now.trees sizes.now }
    requires at { walk.at ≡ Some n }
    requires live { n.0 < length pool.now.trees }
    requires fits { walk.above + size (tree_at pool.now.trees (Some n)) < 2 ^ 32 }
    requires cell { ChildBelow (length pool.now.trees) cell }
    requires own { ChildBelow (length pool.now.trees) walk.own }
    requires terms { ChildBelow (length pool.now.trees) terms }
    ensures descends { Descends pool.now.trees replications.now
        (is_among_under names.now (tree_at pool.now.trees terms) (tree_at pool.now.trees cell))
        walk result }
    ensures below { IfSome result (λ next. ChildBelow n.0 next.at) }
    ensures fits { IfSome result (λ next. next.above + size (tree_at pool.now.trees next.at)
        ≤ walk.above + size (tree_at pool.now.trees (Some n))) }
    ensures own { IfSome result (λ next. ChildBelow (length pool.now.trees) next.own) }
{
    let node = read_node(pool, n);
    match place_in(pool, sizes, node, walk.left) {
        Lies::Here => None,
        Lies::Within(rest) => Some(Walk {
            at: node.first,
            left: rest,
            position: walk.position.first(node.head),
            own: walk.own,
            above: walk.above,
            found: walk.found,
        }),
        Lies::Behind(rest) => {
            let current = front(replications, walk.above);
            Some(Walk {
                at: node.second,
                left: rest,
                position: walk.position.second(node.head),
                own: own_behind(walk.position, node, walk.own),
                above: above_behind(node.head, walk.above),
                found: is_found(pool, cell, walk, node, current, names, terms),
            })
        }
    }
}

/// Whether a cell is directly defined at a place of a game, with terms for names. The replications are those above the place.
/// At a place that the game hasn't, none is.
pub(crate) fn is_defined_under(
    work: &Work,
    sizes: &Sizes,
    game: Game,
    place: u32,
    replications: &[(u32, u32)],
    names: &[(u32, u32)],
    terms: Option<NodeId>,
    cell: Option<NodeId>,
) -> bool
    requires live { game.root.0 < length work.now.pool.trees }
    requires fits { size (tree_at work.now.pool.trees (Some game.root)) < 2 ^ 32 }
    requires sizes { AreSizes work.now.pool.trees sizes.now }
    requires replications { replications_by
        (stands_at (tree_at work.now.pool.trees (Some game.root)) place) ≡ replications.now }
    requires terms { ChildBelow (length work.now.pool.trees) terms }
    requires cell { ChildBelow (length work.now.pool.trees) cell }
    ensures { result ≡ list_any (same_tree (tree_at work.now.pool.trees cell))
        (cells_under (tree_at work.now.pool.trees (Some game.root)) place names.now
        (tree_at work.now.pool.trees terms)) }
{
    let mut walk = Walk {
        at: Some(game.root),
        left: place,
        position: Position::Anywhere,
        own: None,
        above: 0,
        found: false,
    };
    'down: while let Some(n) = walk.at {
        let Some(next) = down(&work.pool, sizes, cell, walk, n, replications, names, terms) else {
            return walk.found;
        };
        walk = next;
    }
    false
}
