// Terms that are made in the pool.
ghost use Rattle.std.specs.Prelude.{◌≡◌, List, Some, option_map};
ghost use Rattle.cv_pool.specs.KindTree.{KindTree};
ghost use Rattle.cv_pool.specs.PoolView.{Grows};
ghost use Rattle.cv_syntax_trees.specs.Tree.{chain};
ghost use Rattle.cv_syntax.specs.PoolTrees.{tree_at};
ghost use Rattle.cv_scene.specs.lines.Given as lines;
ghost use Rattle.cv_settling.specs.Putting.{names_of, terms_of};

use crate::checking::are_below;
use crate::stop::Stop;
use cv_grounds::{items, open};
use cv_step_writer::write_term;
use cv_syntax::{Head, NodeId, Opened, Pool, PoolError};
use std::alloc::{AllocError, Global};

/// A name, and the term that stands for it.
#[derive(Clone, Copy)]
pub struct Given {
    pub name: u32,
    pub term: NodeId,
}

/// The term that stands for a name.
fn given_for(given: &[Given], name: u32) -> Option<NodeId>
    ensures { (trees : List KindTree) → option_map (λ n. tree_at trees (Some n)) result
        ≡ lines.term_for (names_of given.now) (chain (terms_of trees given.now)) name }
{
    for there in given {
        if there.name == name {
            return Some(there.term);
        }
    }
    None
}

/// The term that stands for a node, where it is a name for which one does.
pub(crate) fn given_at(given: &[Given], head: Head) -> Option<NodeId>
    ensures { (trees : List KindTree) → option_map (λ n. tree_at trees (Some n)) result
        ≡ lines.given_for (names_of given.now) (chain (terms_of trees given.now)) head }
{
    match head {
        Head::Leaf(x) => given_for(given, x),
        _ => None,
    }
}

/// The arguments of a term, by its head.
fn arguments(alloc: Global, pool: &Pool, node: Opened) -> Result<Vec<NodeId>, AllocError> {
    match node.head {
        Head::Read(_) | Head::Apply(_) => items(alloc, pool, node.first),
        _ => {
            let mut both = Vec::new(alloc);
            if let Some(first) = node.first {
                both.push(first)?;
            }
            if let Some(second) = node.second {
                both.push(second)?;
            }
            Ok(both)
        }
    }
}

/// Makes a term of this head over terms. Where one of these isn't there it is want of memory.
#[tactic(auto, using(crate::proofs::Growing::growing))]
pub fn made(pool: &mut Pool, head: Head, terms: &[NodeId]) -> Result<NodeId, Stop>
    ensures { Grows pool.old pool.new }
{
    if terms.len() as u64 >= 4_294_967_295 || !are_below(pool.live(), terms) {
        return Err(Stop(PoolError::OutOfMemory));
    }
    match write_term(pool, head, terms) {
        Ok(n) => Ok(n),
        Err(e) => Err(Stop(e)),
    }
}

/// Makes a term with terms for names. Where a part isn't there it is want of memory.
#[tactic(auto, using(crate::proofs::Growing::growing))]
pub fn put(alloc: Global, pool: &mut Pool, given: &[Given], n: NodeId) -> Result<NodeId, Stop>
    ensures { Grows pool.old pool.new }
{
    let Some(node) = open(pool, n) else {
        return Err(Stop(PoolError::OutOfMemory));
    };
    if let Head::Leaf(x) = node.head {
        return Ok(given_for(given, x).unwrap_or(n));
    }
    let parts = arguments(alloc, pool, node)?;
    if given.is_empty() || parts.is_empty() {
        return Ok(n);
    }
    let mut terms = Vec::new(alloc);
    for part in &parts {
        if part.0 >= n.0 {
            return Err(Stop(PoolError::OutOfMemory));
        }
        let term = put(alloc, pool, given, *part)?;
        terms.push(term)?;
    }
    made(pool, node.head, &terms)
}
