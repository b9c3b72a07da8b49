ghost use Rattle.std.specs.Prelude.{◌≡◌, ◌+◌, ◌<◌, ◌≤◌, ◌^◌, ◌&&◌, ◌||◌, ◌∷◌, [], IfErr, IfOk, None, Some, length, map, ℕ};
ghost use Rattle.cv_pool.specs.Nodes.{ChildBelow};
ghost use Rattle.cv_syntax_trees.specs.Tree.{Node, Tree, chain, size};
ghost use Rattle.cv_syntax.specs.PoolTrees.{tree_at};
ghost use Rattle.cv_scene.specs.Late.{index_term};
ghost use Rattle.cv_scene.specs.Pairs.{second_indices};
ghost use Rattle.cv_scene.specs.lines.Ends.{is_end};
ghost use Rattle.cv_scene.specs.lines.Lines.{Holds, lines_of, statements};
ghost use Rattle.cv_scene.specs.lines.Truths.{no};
ghost use Rattle.cv_scene_view.specs.Kept.{scene_of};
ghost use Rattle.cv_query_certificates.specs.PairParts.{ends_pair};
ghost use Rattle.cv_query_certificates.specs.Pairs as pairs;
ghost use Rattle.cv_query_entries.specs.ends.Said.{said_equal};
ghost use Rattle.cv_query.specs.pairs.Made.{IsMadeBelow, parted};

use cv_path::size_below;
use cv_query_entries::ends::{ends_with_equations, ends_with_falsity};
use cv_query_entries::terms::{Given, Part};
use cv_query_parts::pairs::rows_at;
use cv_syntax::{Head, NodeId, Opened, Pool, Work, read_node};
use std::alloc::{AllocError, Global};

/// The construct to whose list of bodies or branches the first child of a node at a place belongs.
fn of_first(place: u32, head: Head) -> Option<u32>
    ensures { result ≡ pairs.of_first place head }
{
    match head {
        Head::Find(_) => Some(place),
        _ => None,
    }
}

/// The construct to whose list of bodies or branches the second child of a node at a place belongs.
fn of_second_child(construct: Option<u32>, place: u32, head: Head) -> Option<u32>
    ensures { result ≡ pairs.of_second_child construct place head }
{
    match head {
        Head::If => Some(place),
        Head::Cons => construct,
        _ => None,
    }
}

/// The construct in two of whose bodies places below the two children of a node at a place stand.
fn between(construct: Option<u32>, place: u32, head: Head) -> Option<u32>
    ensures { result ≡ pairs.between construct place head }
{
    match head {
        Head::Cons => construct,
        Head::Find(_) => Some(place),
        _ => None,
    }
}

/// A node on the way down to two places, with its place, and the construct to whose list of bodies or branches it belongs.
#[derive(Clone, Copy)]
pub(crate) struct Descent {
    pub(crate) construct: Option<u32>,
    pub(crate) place: u32,
    pub(crate) at: Option<NodeId>,
}

/// The child that both places are in or behind, or else where they part.
fn descend(pool: &Pool, from: Descent, node: Opened, p: u64, q: u64) -> Result<Descent, Option<u32>>
    requires first { ChildBelow (length pool.now.trees) node.first }
    requires second { ChildBelow (length pool.now.trees) node.second }
    requires tree { tree_at pool.now.trees from.at ≡ Node node.head
        (tree_at pool.now.trees node.first) (tree_at pool.now.trees node.second) }
    requires fits { from.place + size (tree_at pool.now.trees from.at) < 2 ^ 32 }
    ensures next { IfOk result (λ next. parted pool.now.trees next p q
        ≡ parted pool.now.trees from p q) }
    ensures fits { IfOk result (λ next. next.place + size (tree_at pool.now.trees next.at)
        ≤ from.place + size (tree_at pool.now.trees from.at)) }
    ensures child { IfOk result (λ next. (n : ℕ) → ChildBelow n node.first
        → ChildBelow n node.second → ChildBelow n next.at) }
    ensures found { IfErr result (λ found. found ≡ parted pool.now.trees from p q) }
{
    let below = from.place + node.head.weight();
    let behind = below + size_below(pool, node.first);
    if q < u64::from(behind) {
        return Ok(Descent {
            construct: of_first(from.place, node.head),
            place: below,
            at: node.first,
        });
    }
    if p < u64::from(behind) {
        return Err(between(from.construct, from.place, node.head));
    }
    Ok(Descent {
        construct: of_second_child(from.construct, from.place, node.head),
        place: behind,
        at: node.second,
    })
}

/// The `if` or the `find` of a game at which two places part, where they stand in two bodies of it.
fn parting(pool: &Pool, game: NodeId, p: u64, q: u64) -> Option<u32>
    requires live { game.0 < length pool.now.trees }
    requires fits { size (tree_at pool.now.trees (Some game)) < 2 ^ 32 }
    ensures { result ≡ pairs.parting None 0 (tree_at pool.now.trees (Some game)) p q }
{
    let mut here = Descent {
        construct: None,
        place: 0,
        at: Some(game),
    };
    'down: while let Some(n) = here.at {
        let node = read_node(pool, n);
        match descend(pool, here, node, p, q) {
            Ok(next) => here = next,
            Err(found) => return found,
        }
    }
    None
}

/// With what the derivation of a pair may end: with the equality of these indices of both copies, or with `false`.
#[derive(Drop)]
pub(crate) struct Ends {
    pub(crate) same: bool,
    pub(crate) never: bool,
    pub(crate) rows: Vec<(u32, u32)>,
}

/// With what the derivation of a pair at two places may end.
pub(crate) fn ends_of(
    alloc: Global,
    work: &Work,
    game: NodeId,
    p: u64,
    q: u64,
) -> Result<Ends, AllocError>
    requires live { game.0 < length work.now.pool.trees }
    requires fits { size (tree_at work.now.pool.trees (Some game)) < 2 ^ 32 }
    ensures { IfOk result (λ e. (k : ℕ) (by : Tree) →
        ends_pair (scene_of work.now.pool work.now.decls game) k p q by
        ≡ ((e.same && is_end (statements (lines_of by))
        (said_equal (chain (map index_term e.rows.items))
        (chain (map index_term (second_indices k e.rows.items)))))
        || (e.never && is_end (statements (lines_of by)) (Holds no ∷ [])))) }
{
    if p == q {
        let rows = rows_at(alloc, work, game, p)?;
        return Ok(Ends {
            same: true,
            never: false,
            rows,
        });
    }
    match parting(&work.pool, game, p, q) {
        Some(n) => {
            let rows = rows_at(alloc, work, game, u64::from(n))?;
            Ok(Ends {
                same: true,
                never: true,
                rows,
            })
        }
        None => Ok(Ends {
            same: false,
            never: true,
            rows: Vec::new(alloc),
        }),
    }
}

/// The lists that were made to test a pair.
#[derive(Clone, Copy)]
pub(crate) struct Made {
    pub(crate) given: Option<NodeId>,
    pub(crate) raised: Option<NodeId>,
    pub(crate) same: Option<NodeId>,
    pub(crate) others: Option<NodeId>,
    pub(crate) by: Option<NodeId>,
}

/// Whether the derivation ends with the equality of the indices of both copies.
fn ends_with_same(pool: &Pool, made: Made) -> bool
    requires { IsMadeBelow (length pool.now.trees) made }
    ensures { result ≡ is_end (statements (lines_of (tree_at pool.now.trees made.by)))
        (said_equal (tree_at pool.now.trees made.same) (tree_at pool.now.trees made.others)) }
{
    let nothing = Given {
        variables: None,
        arguments: None,
        others: &[],
        terms: None,
    };
    let same = Part {
        node: made.same,
        pending: false,
    };
    let others = Part {
        node: made.others,
        pending: false,
    };
    ends_with_equations(pool, made.by, &nothing, same, &nothing, others)
}

/// Whether the derivation of a pair ends as it may.
pub(crate) fn has_end(pool: &Pool, same: bool, never: bool, made: Made) -> bool
    requires { IsMadeBelow (length pool.now.trees) made }
    ensures { result ≡ ((same && is_end (statements (lines_of (tree_at pool.now.trees made.by)))
        (said_equal (tree_at pool.now.trees made.same) (tree_at pool.now.trees made.others)))
        || (never && is_end (statements (lines_of (tree_at pool.now.trees made.by)))
        (Holds no ∷ []))) }
{
    (same && ends_with_same(pool, made)) || (never && ends_with_falsity(pool, made.by))
}
