ghost use Rattle.std.specs.Prelude.{◌≡◌, ◌+◌, ◌<◌, ◌^◌, Some, length, option_map};
ghost use Rattle.cv_syntax_trees.specs.Tree as tree;
ghost use Rattle.cv_syntax.specs.PoolTrees.{tree_at};
ghost use Rattle.cv_scene.specs.Pruning.{pruned};
ghost use Rattle.cv_edit_changes.specs.pruning.Bodies.{part_of};
ghost use Rattle.cv_edit_changes.specs.pruning.Lefts.{is_find};

use crate::pruning::cut::{bodies_in, cut_at};
use cv_path::size_below;
use cv_syntax::{Head, NodeId, Pool, read_node};

/// A body of an `if`, or that of a branch of a `find`, counted from 1.
#[derive(Clone, Copy, Debug, PartialEq, Eq)]
pub enum Body {
    Then,
    Else,
    Branch(u64),
}

/// Whether a node is a `find`.
pub(crate) fn is_find(head: Head) -> bool
    ensures { result ≡ is_find head }
{
    match head {
        Head::Find(_) => true,
        _ => false,
    }
}

/// The place of a body of a construct that stands at a place, if it has such a body.
#[tactic(auto, using(cv_path::proofs::extents::Extents::extents))]
pub fn body_to_prune(pool: &Pool, node: NodeId, place: u32, body: Body) -> Option<u32>
    requires live { node.0 < length pool.now.trees }
    requires fits { place + tree.size (tree_at pool.now.trees (Some node)) < 2 ^ 32 }
    ensures { result ≡ option_map (λ b. b.body)
        (pruned place (tree_at pool.now.trees (Some node)) (part_of body)) }
{
    let construct = read_node(pool, node);
    match body {
        Body::Then => {
            bodies_in(pool, construct)?;
            Some(place + 1 + size_below(pool, construct.first))
        }
        Body::Else => {
            let bodies = bodies_in(pool, construct)?;
            let before = 1 + size_below(pool, construct.first);
            Some(place + before + size_below(pool, bodies.then))
        }
        Body::Branch(k) => {
            if !is_find(construct.head) {
                return None;
            }
            let cut = cut_at(pool, construct.first, k)?;
            Some(place + 1 + (cut.nodes + cut.before_body))
        }
    }
}
