ghost use Rattle.std.specs.Prelude.{◌≡◌, ◌+◌, ◌<◌, ◌≤◌, ◌^◌, IfSome, IsNone, None, length, option_map};
ghost use Rattle.cv_pool.specs.Nodes.{ChildBelow};
ghost use Rattle.cv_syntax_trees.specs.Head as head;
ghost use Rattle.cv_syntax_trees.specs.Tree as tree;
ghost use Rattle.cv_syntax_trees.specs.Tree.{Node};
ghost use Rattle.cv_syntax.specs.PoolTrees.{tree_at};
ghost use Rattle.cv_edit_changes.specs.pruning.Bodies.{part_of};
ghost use Rattle.cv_edit_changes.specs.pruning.Lefts.{IsLeft, IsLive, left_of};

use crate::pruning::body::{Body, is_find};
use crate::pruning::cut::{Cut, bodies_in, cut_at};
use cv_path::extents::depth_below;
use cv_path::size_below;
use cv_syntax::children::is_empty;
use cv_syntax::limits::Extent;
use cv_syntax::{NodeId, Opened, Pool};

/// What is left of a construct: another body of it, or a `find` without the branch of this number.
#[derive(Clone, Copy)]
pub(crate) enum Left {
    Body(Option<NodeId>),
    Rest(u64, Cut),
}

/// What is left of a `find` without its k-th branch.
fn left_of_find(pool: &Pool, construct: Opened, k: u64) -> Option<Left>
    requires first { ChildBelow (length pool.now.trees) construct.first }
    requires second { ChildBelow (length pool.now.trees) construct.second }
    requires fits { tree.size (tree_at pool.now.trees construct.first) < 2 ^ 32 }
    ensures some { IfSome result (λ l. IsLeft pool.now.trees construct.head
        (tree_at pool.now.trees construct.first) (tree_at pool.now.trees construct.second)
        (part_of (Body.Branch k)) l) }
    ensures none { IsNone result → left_of (Node construct.head
        (tree_at pool.now.trees construct.first) (tree_at pool.now.trees construct.second))
        (part_of (Body.Branch k)) ≡ None }
    ensures live { IfSome result (λ l. IsLive (length pool.now.trees) l) }
{
    if !is_find(construct.head) {
        return None;
    }
    let cut = cut_at(pool, construct.first, k)?;
    if k == 1 && is_empty(pool, cut.behind) {
        return Some(Left::Body(construct.second));
    }
    Some(Left::Rest(k, cut))
}

/// What is left of a construct without a body, if it has that body.
pub(crate) fn left_without(pool: &Pool, construct: Opened, body: Body) -> Option<Left>
    requires first { ChildBelow (length pool.now.trees) construct.first }
    requires second { ChildBelow (length pool.now.trees) construct.second }
    requires fits { tree.size (tree_at pool.now.trees construct.first) < 2 ^ 32 }
    ensures some { IfSome result (λ l. IsLeft pool.now.trees construct.head
        (tree_at pool.now.trees construct.first) (tree_at pool.now.trees construct.second)
        (part_of body) l) }
    ensures none { IsNone result → left_of (Node construct.head
        (tree_at pool.now.trees construct.first) (tree_at pool.now.trees construct.second))
        (part_of body) ≡ None }
    ensures live { IfSome result (λ l. IsLive (length pool.now.trees) l) }
{
    match body {
        Body::Then => Some(Left::Body(bodies_in(pool, construct)?.other)),
        Body::Else => Some(Left::Body(bodies_in(pool, construct)?.then)),
        Body::Branch(k) => left_of_find(pool, construct, k),
    }
}

/// How large a construct is without a body, if it has that body.
#[tactic(auto, using(cv_path::proofs::extents::Extents::extents))]
pub(crate) fn left_extent(pool: &Pool, construct: Opened, body: Body) -> Option<Extent>
    requires first { ChildBelow (length pool.now.trees) construct.first }
    requires second { ChildBelow (length pool.now.trees) construct.second }
    requires fits { head.weight construct.head + tree.size (tree_at pool.now.trees construct.first)
        + tree.size (tree_at pool.now.trees construct.second) < 2 ^ 32 }
    ensures nodes { option_map (λ e. e.nodes) result ≡ option_map tree.size (left_of
        (Node construct.head (tree_at pool.now.trees construct.first)
        (tree_at pool.now.trees construct.second)) (part_of body)) }
    ensures depth { option_map (λ e. e.depth) result ≡ option_map tree.depth (left_of
        (Node construct.head (tree_at pool.now.trees construct.first)
        (tree_at pool.now.trees construct.second)) (part_of body)) }
    ensures deep { IfSome result (λ e. e.depth ≤ e.nodes) }
    ensures few { IfSome result (λ e. e.nodes ≤ head.weight construct.head
        + tree.size (tree_at pool.now.trees construct.first)
        + tree.size (tree_at pool.now.trees construct.second)) }
{
    let extent = match left_without(pool, construct, body)? {
        Left::Body(other) => Extent {
            nodes: size_below(pool, other),
            depth: depth_below(pool, other),
        },
        Left::Rest(_, cut) => {
            let weight = construct.head.weight();
            let branches = cut.depth.max(depth_below(pool, cut.behind));
            let before = weight + cut.nodes + size_below(pool, cut.behind);
            Extent {
                nodes: before + size_below(pool, construct.second),
                depth: weight + branches.max(depth_below(pool, construct.second)),
            }
        }
    };
    Some(extent)
}
