ghost use Rattle.std.specs.Prelude.{◌≡◌, false, length, map, if◌then◌else◌, None, Some};
ghost use Rattle.std.specs.List.{list_any};
ghost use Rattle.cv_pool.specs.Nodes.{ChildBelow};
ghost use Rattle.cv_syntax.specs.PoolTrees.{tree_at};
ghost use Rattle.cv_group.specs.bodies.Levels.{around_of, level_of};
ghost use Rattle.cv_group_rules.specs.Rules as rule;

use crate::bodies::around::Around;
use cv_syntax::{Head, NodeId, Pool, read_node};
use std::collections::HashSet;

/// What a body binds on the way to a node.
#[derive(Drop)]
pub enum Level {
    /// A name, by `new` or `let`.
    Defined(u32),
    /// The index of a branch with its bound, and of the branch's list the cells v[u] and the names without an index.
    Found {
        index: u32,
        bound: u32,
        reads: HashSet<(u32, u32)>,
        names: HashSet<u32>,
    },
}

impl Level {
    /// Whether a level gives a name.
    fn gives(&self, x: u32) -> bool
        ensures { result ≡ rule.gives x (level_of self.now) }
    {
        match self {
            Level::Defined(y) => *y == x,
            Level::Found { index, names, .. } => *index == x || names.contains(&x),
        }
    }

    /// The bound over which a name ranges behind a level, if it is an index.
    fn ranging(&self, u: u32, over: Option<u32>) -> Option<u32>
        ensures { result ≡ rule.ranging u over (level_of self.now) }
    {
        match self {
            Level::Defined(y) => if *y == u { None } else { over },
            Level::Found { index, bound, .. } => if *index == u { Some(*bound) } else { over },
        }
    }

    /// Whether a list asks for v[u] behind a level.
    fn asking(&self, v: u32, u: u32, asked: bool) -> bool
        ensures { result ≡ rule.asking v u asked (level_of self.now) }
    {
        match self {
            Level::Defined(y) => *y != u && asked,
            Level::Found { index, reads, .. } => reads.contains(&(v, u)) || (*index != u && asked),
        }
    }
}

/// Whether a name may be read below these levels.
pub fn is_readable(around: &Around, levels: &[Level], x: u32) -> bool
    ensures { result ≡ rule.is_readable (around_of around.now) (map level_of levels.now) x }
{
    around.is_outside(x) || is_given(levels, x)
}

/// Whether a level gives a name.
fn is_given(levels: &[Level], x: u32) -> bool
    ensures { result ≡ list_any (rule.gives x) (map level_of levels.now) }
{
    'levels: for k in 0..levels.len() {
        if levels[k].gives(x) {
            return true;
        }
    }
    false
}

/// The bound over which a name ranges below these levels, if it is an index.
pub fn range_of(levels: &[Level], u: u32) -> Option<u32>
    ensures { result ≡ rule.range_of u None (map level_of levels.now) }
{
    let mut over = None;
    'levels: for k in 0..levels.len() {
        over = levels[k].ranging(u, over);
    }
    over
}

/// Whether a list around asks for v[u].
fn is_asked(levels: &[Level], v: u32, u: u32) -> bool
    ensures { result ≡ rule.is_asked v u false (map level_of levels.now) }
{
    let mut asked = false;
    'levels: for k in 0..levels.len() {
        asked = levels[k].asking(v, u, asked);
    }
    asked
}

/// A name, where something holds.
fn only(x: u32, holds: bool) -> Option<u32>
    ensures { result ≡ (if holds then Some x else None) }
{
    if holds { Some(x) } else { None }
}

/// The index of v[u].
#[tactic(auto, using(cv_syntax::proofs::Trees::opened))]
pub fn index_in(pool: &Pool, indices: Option<NodeId>) -> Option<u32>
    requires { ChildBelow (length pool.now.trees) indices }
    ensures { result ≡ rule.index_in (tree_at pool.now.trees indices) }
{
    let Some(k) = indices else {
        return None;
    };
    let cell = read_node(pool, k);
    let Some(m) = cell.first else {
        return None;
    };
    let index = read_node(pool, m);
    match index.head {
        Head::Leaf(u) => only(
            u,
            cell.second.is_none() && index.first.is_none() && index.second.is_none(),
        ),
        _ => None,
    }
}

/// Whether a list around asks for a name at these indices.
pub fn is_asked_at(pool: &Pool, levels: &[Level], v: u32, indices: Option<NodeId>) -> bool
    requires { ChildBelow (length pool.now.trees) indices }
    ensures { result ≡ rule.is_asked_at (map level_of levels.now) v
        (rule.index_in (tree_at pool.now.trees indices)) }
{
    match index_in(pool, indices) {
        Some(u) => is_asked(levels, v, u),
        None => false,
    }
}
