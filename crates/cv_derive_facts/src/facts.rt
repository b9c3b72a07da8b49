ghost use Rattle.std.specs.Prelude.{◌≡◌, ◌+◌, ◌<◌, ◌≤◌, ◌^◌, ◌++◌, ℕ, List, IfSome, Some, length, option_map};
ghost use Rattle.cv_pool.specs.KindTree.{KindTree};
ghost use Rattle.cv_pool.specs.Nodes.{ChildBelow};
ghost use Rattle.cv_syntax_trees.specs.Head.{weight};
ghost use Rattle.cv_syntax_trees.specs.Tree.{size};
ghost use Rattle.cv_syntax.specs.PoolTrees.{tree_at};
ghost use Rattle.cv_derive_facts.specs.Facts.{FactAt, fact_at, fact_of};
ghost use Rattle.cv_derive_facts.specs.Walks.{above_behind, given_first, given_second, tested_behind, given_facts, Counts, Goes, IsLive};

use crate::known::Fact;
use cv_path::{Lies, place_in};
use cv_scope_rules::Position;
use cv_syntax::{Game, Head, NodeId, Opened, Pool, Work, read_node};

/// A node on the way to a place, with the place that is left below it, the condition of the `if` around,
/// and the number of replications above.
#[derive(Clone, Copy)]
struct Walk {
    at: Option<NodeId>,
    left: u32,
    position: Position,
    tested: Option<NodeId>,
    above: u32,
}

/// How many facts are left up to the one that is asked for, and that one once it has come.
#[derive(Clone, Copy)]
struct Count {
    left: u32,
    fact: Option<Fact>,
}

/// The fact that a node gives to the places of its first child.
fn given_first(position: Position, head: Head, tested: Option<NodeId>) -> Option<Fact>
    ensures { result ≡ given_first position head tested }
{
    match head {
        Head::Cons => match position {
            Position::Bodies => tested.map(Fact::Holds),
            Position::ElseBody => tested.map(Fact::Fails),
            _ => None,
        },
        _ => None,
    }
}

/// The fact that a node gives to the places of its second child.
fn given_second(position: Position, above: u32, n: NodeId, node: Opened) -> Option<Fact>
    ensures { result ≡ given_second position above n node.head node.first }
{
    match node.head {
        Head::Let(_, _) => Some(Fact::Defines {
            definition: n,
            above,
        }),
        Head::Cons => match position {
            Position::Guarded => node.first.map(Fact::Holds),
            _ => None,
        },
        _ => None,
    }
}

/// The condition that is tested at the second child of a node.
fn tested_behind(node: Opened, tested: Option<NodeId>) -> Option<NodeId>
    ensures { result ≡ tested_behind node.head node.first tested }
{
    match node.head {
        Head::If => node.first,
        _ => tested,
    }
}

/// The number of replications above the second child of a node.
pub fn above_behind(head: Head, above: u32) -> u32
    requires { above + weight head < 2 ^ 32 }
    ensures { result ≡ above_behind head above }
{
    match head {
        Head::Repl(_, _) => above + 1,
        _ => above,
    }
}

/// One step down, with the fact that it gives, where the place is not the walk's own node.
#[tactic(auto, using(crate::proofs::Standings::standings))]
fn step(pool: &Pool, walk: Walk, n: NodeId) -> Option<(Walk, Option<Fact>)>
    requires at { walk.at ≡ Some n }
    requires live { n.0 < length pool.now.trees }
    requires tested { ChildBelow (length pool.now.trees) walk.tested }
    requires fits { walk.above + size (tree_at pool.now.trees (Some n)) < 2 ^ 32 }
    ensures goes { Goes pool.now.trees walk result }
    ensures below { IfSome result (λ next. ChildBelow n.0 next.0.at) }
    ensures fits { IfSome result (λ next. next.0.above + size (tree_at pool.now.trees next.0.at)
        ≤ walk.above + size (tree_at pool.now.trees (Some n))) }
    ensures tested { IfSome result (λ next. ChildBelow (length pool.now.trees) next.0.tested) }
    ensures live { IfSome result (λ next. IsLive (length pool.now.trees) next.1) }
{
    let node = read_node(pool, n);
    match place_in(pool, node, walk.left) {
        Lies::Here => None,
        Lies::Within(rest) => Some((
            Walk {
                at: node.first,
                left: rest,
                position: walk.position.first(node.head),
                tested: walk.tested,
                above: walk.above,
            },
            given_first(walk.position, node.head, walk.tested),
        )),
        Lies::Behind(rest) => Some((
            Walk {
                at: node.second,
                left: rest,
                position: walk.position.second(node.head),
                tested: tested_behind(node, walk.tested),
                above: above_behind(node.head, walk.above),
            },
            given_second(walk.position, walk.above, n, node),
        )),
    }
}

/// The count behind a step, which may give a fact.
fn count_behind(count: Count, given: Option<Fact>) -> Count
    ensures counts { (trees : List KindTree) (k : ℕ) (passed : List FactAt) → 1 ≤ k →
        Counts trees k passed count → Counts trees k (passed ++ given_facts trees given) result }
    ensures live { (n : ℕ) → IsLive n count.fact → IsLive n given → IsLive n result.fact }
{
    if given.is_none() {
        return count;
    }
    match count.left {
        0 => count,
        1 => Count {
            left: 0,
            fact: given,
        },
        left => Count {
            left: left - 1,
            fact: count.fact,
        },
    }
}

/// The fact of this number, from 1, at a place of a game. There is none where the facts are fewer, or where
/// the game has no such place.
#[tactic(auto, using(crate::proofs::Standings::standings))]
pub fn fact(work: &Work, game: Game, place: u32, k: u32) -> Option<Fact>
    requires live { game.root.0 < length work.now.pool.trees }
    requires fits { size (tree_at work.now.pool.trees (Some game.root)) < 2 ^ 32 }
    requires from_one { 1 ≤ k }
    ensures fact { option_map (fact_of work.now.pool.trees) result
        ≡ fact_at (tree_at work.now.pool.trees (Some game.root)) place k }
    ensures live { IsLive (length work.now.pool.trees) result }
{
    let mut walk = Walk {
        at: Some(game.root),
        left: place,
        position: Position::Anywhere,
        tested: None,
        above: 0,
    };
    let mut count = Count {
        left: k,
        fact: None,
    };
    'down: while let Some(n) = walk.at {
        let Some((next, given)) = step(&work.pool, walk, n) else {
            return count.fact;
        };
        count = count_behind(count, given);
        walk = next;
    }
    None
}
