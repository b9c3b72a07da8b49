ghost use Rattle.std.specs.Prelude.{◌≡◌, ◌<◌, ◌^◌, IfOk, Some, length};
ghost use Rattle.cv_syntax_trees.specs.Tree as tree;
ghost use Rattle.cv_syntax.specs.PoolTrees.{tree_at};
ghost use Rattle.cv_syntax.specs.listing.Needs.{most_asked};
ghost use Rattle.cv_edit_places.specs.Changes.{TermIsLive, change_of, nodes_of};

use crate::building::extent_of;
use crate::parts::Parts;
use cv_syntax::limits::Extent;
use cv_syntax::{NodeId, Pool, depth, size};
use std::alloc::{AllocError, Global};

/// How a step changes what stands at a place.
#[derive(Drop)]
pub enum Change {
    /// An `if` with this condition, and the part as both of its bodies.
    Split {
        condition: NodeId,
    },
    /// A `let` before the part.
    AfterLet {
        name: u32,
        of_type: u32,
        term: NodeId,
    },
    /// A `new` before the part.
    AfterNew {
        name: u32,
        of_type: u32,
    },
    /// This node in place of the part.
    Replace {
        by: NodeId,
    },
    /// The tree of these parts in place of the part.
    Built {
        parts: Parts,
    },
}

impl Change {
    /// How many nodes of the pool a change makes at most; more than a pool can have are counted as the most that can be
    /// counted.
    pub(crate) fn nodes(&self) -> u32
        ensures { result ≡ most_asked (nodes_of self.now) }
    {
        match self {
            Change::Split { .. } => 3,
            Change::AfterLet { .. } => 1,
            Change::AfterNew { .. } => 1,
            Change::Replace { .. } => 0,
            Change::Built { parts } => parts.made(),
        }
    }

    /// How large a changed part is.
    #[tactic(auto, using(crate::proofs::Extents::extents))]
    pub(crate) fn extent(
        &self,
        alloc: Global,
        pool: &Pool,
        part: NodeId,
    ) -> Result<Extent, AllocError>
        requires live { part.0 < length pool.now.trees }
        requires term { TermIsLive pool.now.trees self.now }
        requires fits { tree.size (change_of pool.now.trees self.now
            (tree_at pool.now.trees (Some part))) < 2 ^ 32 }
        ensures nodes { IfOk result (λ e. e.nodes ≡ tree.size (change_of pool.now.trees self.now
            (tree_at pool.now.trees (Some part)))) }
        ensures depth { IfOk result (λ e. e.depth ≡ tree.depth (change_of pool.now.trees self.now
            (tree_at pool.now.trees (Some part)))) }
    {
        match self {
            Change::Split { condition } => {
                let bodies = 2 * size(pool, part);
                Ok(Extent {
                    nodes: 1 + size(pool, *condition) + bodies,
                    depth: 1 + depth(pool, *condition).max(depth(pool, part)),
                })
            }
            Change::AfterLet { term, .. } => Ok(Extent {
                nodes: 1 + size(pool, *term) + size(pool, part),
                depth: 1 + depth(pool, *term).max(depth(pool, part)),
            }),
            Change::AfterNew { .. } => Ok(Extent {
                nodes: 1 + size(pool, part),
                depth: 1 + depth(pool, part),
            }),
            Change::Replace { by } => Ok(Extent {
                nodes: size(pool, *by),
                depth: depth(pool, *by),
            }),
            Change::Built { parts } => extent_of(alloc, pool, parts),
        }
    }
}
