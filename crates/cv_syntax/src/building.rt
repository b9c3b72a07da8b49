ghost use Rattle.std.specs.Prelude.{◌≡◌, ◌+◌, ◌<◌, ◌≤◌, List, All, Some, length};
ghost use Rattle.cv_pool.specs.KindTree.{kind_of};
ghost use Rattle.cv_syntax.specs.Layouts.{arranged, shape_of, layout_of, IsLaidOut, first_part, second_part, first_cost, second_cost, trees_of, IsSyntax};
ghost use Rattle.cv_pool.specs.Nodes.{at, ChildBelow};
ghost use Rattle.cv_pool.specs.PoolView.{Grows};
ghost use Rattle.cv_syntax_trees.specs.Tree as tree;
ghost use Rattle.cv_syntax_trees.specs.Tree.{Tree, Node};
ghost use Rattle.cv_syntax.specs.PoolTrees.{head_of_kind, tree_at};

use crate::kind::{head_of, kind_of};
use crate::layout::Layout;
use cv_pool::{Kind, NodeId, Pool};
use cv_syntax_trees::Head;

/// A node over the children that are given, laid out as nodes of this kind are: without binders, and without
/// the indices of a channel. Where a kind does not have so many children, all but the last become a list.
#[tactic(auto, using(cv_pool::proofs::Growth::growth, crate::proofs::Buildings::kept))]
pub fn build(pool: &mut Pool, kind: Kind, kids: &[NodeId]) -> NodeId
    requires spare { length kids.now + 1 ≤ pool.old.spare }
    requires kids { All (λ n. n.0 < length pool.old.trees) kids.now }
    ensures tree { tree_at pool.new.trees (Some result)
        ≡ arranged (head_of_kind kind) (trees_of pool.old.trees kids.now) }
    ensures kind { kind_of (at pool.new.trees result.0) ≡ kind }
    ensures live { result.0 < length pool.new.trees }
    ensures grows { Grows pool.old pool.new }
    ensures spare { pool.old.spare ≤ pool.new.spare + length kids.now + 1 }
    ensures few { length pool.new.trees ≤ length pool.old.trees + length kids.now + 1 }
{
    let layout = Layout::of(head_of(kind), kids.len());
    let first = first_part(pool, layout, kids);
    let second = second_part(pool, layout, kids);
    join(pool, kind, first, second)
}

/// The children of a tree that is built are those that it is built of.
#[tactic(auto, using(crate::proofs::Arrangements::children_arranged))]
pub fn built_children()
    ensures { (h : Head) (kids : List Tree) → All IsSyntax kids
        → tree.children (arranged h kids) ≡ kids }
{}

/// The first child of a node of this layout.
#[tactic(auto, using(cv_pool::proofs::Growth::growth, crate::proofs::Buildings::kept))]
fn first_part(pool: &mut Pool, layout: Layout, kids: &[NodeId]) -> Option<NodeId>
    requires laid { IsLaidOut layout (length kids.now) }
    requires spare { first_cost layout (length kids.now) ≤ pool.old.spare }
    requires kids { All (λ n. n.0 < length pool.old.trees) kids.now }
    ensures tree { tree_at pool.new.trees result
        ≡ first_part layout (trees_of pool.old.trees kids.now) }
    ensures live { ChildBelow (length pool.new.trees) result }
    ensures grows { Grows pool.old pool.new }
    ensures spare { pool.old.spare ≤ pool.new.spare + first_cost layout (length kids.now) }
    ensures few { length pool.new.trees
        ≤ length pool.old.trees + first_cost layout (length kids.now) }
{
    match layout {
        Layout::Lone => None,
        Layout::Chosen => None,
        Layout::One | Layout::Two | Layout::Three => Some(kids[0]),
        Layout::Listed => chain(pool, kids),
        Layout::Rest => chain(pool, &kids[..kids.len() - 1]),
        Layout::Taking => {
            let list = chain(pool, &kids[..kids.len() - 1]);
            Some(join(pool, kind_of(Head::Cons), list, None))
        }
        Layout::Giving => {
            let list = chain(pool, &kids[..kids.len() - 1]);
            Some(join(pool, kind_of(Head::Cons), None, list))
        }
    }
}

/// The second child of a node of this layout.
#[tactic(auto, using(cv_pool::proofs::Growth::growth, crate::proofs::Buildings::kept))]
fn second_part(pool: &mut Pool, layout: Layout, kids: &[NodeId]) -> Option<NodeId>
    requires laid { IsLaidOut layout (length kids.now) }
    requires spare { second_cost layout (length kids.now) ≤ pool.old.spare }
    requires kids { All (λ n. n.0 < length pool.old.trees) kids.now }
    ensures tree { tree_at pool.new.trees result
        ≡ second_part layout (trees_of pool.old.trees kids.now) }
    ensures live { ChildBelow (length pool.new.trees) result }
    ensures grows { Grows pool.old pool.new }
    ensures spare { pool.old.spare ≤ pool.new.spare + second_cost layout (length kids.now) }
    ensures few { length pool.new.trees
        ≤ length pool.old.trees + second_cost layout (length kids.now) }
{
    let count = kids.len();
    match layout {
        Layout::Lone => None,
        Layout::One => None,
        Layout::Listed => None,
        Layout::Two => Some(kids[1]),
        Layout::Rest | Layout::Taking | Layout::Giving => Some(kids[count - 1]),
        Layout::Three => {
            let rest = join(pool, kind_of(Head::Cons), Some(kids[2]), None);
            Some(join(pool, kind_of(Head::Cons), Some(kids[1]), Some(rest)))
        }
        Layout::Chosen => {
            let cells = chain(pool, &kids[..count - 2]);
            let body = join(
                pool,
                kind_of(Head::Cons),
                Some(kids[count - 2]),
                Some(kids[count - 1]),
            );
            Some(join(pool, kind_of(Head::Cons), cells, Some(body)))
        }
    }
}

/// A list of trees.
#[tactic(auto, using(cv_pool::proofs::Growth::growth, crate::proofs::Buildings::kept))]
fn chain(pool: &mut Pool, kids: &[NodeId]) -> Option<NodeId>
    requires spare { length kids.now ≤ pool.old.spare }
    requires kids { All (λ n. n.0 < length pool.old.trees) kids.now }
    ensures tree { tree_at pool.new.trees result ≡ tree.chain (trees_of pool.old.trees kids.now) }
    ensures live { ChildBelow (length pool.new.trees) result }
    ensures grows { Grows pool.old pool.new }
    ensures spare { pool.old.spare ≤ pool.new.spare + length kids.now }
    ensures few { length pool.new.trees ≤ length pool.old.trees + length kids.now }
{
    let mut list = None;
    let mut left = kids.len();
    'items: while left > 0 {
        left -= 1;
        list = Some(join(pool, kind_of(Head::Cons), Some(kids[left]), list));
    }
    list
}

/// A node over two children.
#[tactic(auto, using(cv_pool::proofs::Growth::growth))]
fn join(pool: &mut Pool, kind: Kind, first: Option<NodeId>, second: Option<NodeId>) -> NodeId
    requires spare { 0 < pool.old.spare }
    requires first { ChildBelow (length pool.old.trees) first }
    requires second { ChildBelow (length pool.old.trees) second }
    ensures tree { tree_at pool.new.trees (Some result)
        ≡ Node (head_of_kind kind) (tree_at pool.old.trees first) (tree_at pool.old.trees second) }
    ensures kind { kind_of (at pool.new.trees result.0) ≡ kind }
    ensures live { result.0 < length pool.new.trees }
    ensures grows { Grows pool.old pool.new }
    ensures spare { pool.old.spare ≤ pool.new.spare + 1 }
    ensures few { length pool.new.trees ≤ length pool.old.trees + 1 }
{
    pool.node(kind, first, second)
}
