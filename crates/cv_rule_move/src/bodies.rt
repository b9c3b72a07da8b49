ghost use Rattle.std.specs.Prelude.{◌≡◌, ◌+◌, ◌<◌, ◌∷◌, [], ℕ, IfOk, IfSome, List, OnOk, length, option_map};
ghost use Rattle.cv_syntax_trees.specs.declared.head.Head.TheVariants.{Find, If};
ghost use Rattle.cv_pool.specs.KindTree.{KindTree};
ghost use Rattle.cv_pool.specs.Nodes.{ChildBelow};
ghost use Rattle.cv_syntax_trees.specs.Tree.{Node};
ghost use Rattle.cv_syntax.specs.PoolTrees.{tree_at};
ghost use Rattle.cv_syntax.specs.Walks.{above};
ghost use Rattle.cv_edit_places.specs.Parts.{AreLive, made_by, stack_of};
ghost use Rattle.cv_rule_move.specs.Moving.{in_bodies, in_branches};
ghost use Rattle.cv_rule_move.specs.Bodies.{AreLiveItems, IsLiveArm, arm_at, arm_of, arm_with, items_at, items_in};
ghost use Rattle.cv_rule_move.specs.Steps.{made_in_bodies, made_in_branches};

use crate::naming::branch_in;
use cv_edit_places::Parts;
use cv_syntax::children::read_child;
use cv_syntax::{Head, NodeId, Opened, Pool, read_node};
use std::alloc::{AllocError, Global};

/// The first two items of a list, and what stands behind them: the bodies of an `if`; or the list and the condition of a
/// branch, and its body.
#[derive(Clone, Copy)]
pub(crate) struct Items {
    pub(crate) first: Option<NodeId>,
    pub(crate) second: Option<NodeId>,
    pub(crate) rest: Option<NodeId>,
}

/// A branch of a list, and those behind it.
#[derive(Clone, Copy)]
pub(crate) struct Arm {
    pub(crate) indices: Option<NodeId>,
    pub(crate) behind: Items,
    pub(crate) more: Option<NodeId>,
}

/// The first two items of a list.
fn items_in(pool: &Pool, list: Option<NodeId>) -> Option<Items>
    requires { ChildBelow (length pool.now.trees) list }
    ensures items { option_map (items_at pool.now.trees) result
        ≡ items_in (tree_at pool.now.trees list) }
    ensures live { IfSome result (AreLiveItems (length pool.now.trees)) }
{
    let link = read_child(pool, list)?;
    let Head::Cons = link.head else {
        return None;
    };
    let behind = read_child(pool, link.second)?;
    match behind.head {
        Head::Cons => Some(Items {
            first: link.first,
            second: behind.first,
            rest: behind.second,
        }),
        _ => None,
    }
}

/// The first branch of a list.
fn arm_at(pool: &Pool, list: Option<NodeId>) -> Option<Arm>
    requires { ChildBelow (length pool.now.trees) list }
    ensures arm { option_map (arm_at pool.now.trees) result ≡ arm_of (tree_at pool.now.trees list) }
    ensures live { IfSome result (IsLiveArm (length pool.now.trees)) }
    ensures below { IfSome result (λ a. above a.more < above list) }
{
    let n = list?;
    let link = read_node(pool, n);
    let branch = branch_in(pool, link)?;
    let behind = items_in(pool, branch.second)?;
    Some(Arm {
        indices: branch.first,
        behind,
        more: link.second,
    })
}

/// Lists a definition before a body.
fn add_definition(
    parts: &mut Parts,
    definition: Opened,
    body: Option<NodeId>,
) -> Result<(), AllocError>
    ensures stack { OnOk result ((trees : List KindTree) → stack_of trees parts.new
        ≡ Node definition.head (tree_at trees definition.first) (tree_at trees body)
        ∷ stack_of trees parts.old) }
    ensures made { OnOk result (made_by parts.new ≡ made_by parts.old + 1) }
    ensures live { OnOk result ((n : ℕ) → AreLive n parts.old → ChildBelow n definition.first
        → ChildBelow n body → AreLive n parts.new) }
{
    parts.there(definition.first)?;
    parts.there(body)?;
    parts.over(definition.head)
}

/// Lists a branch with a definition before its body.
fn add_branch(parts: &mut Parts, definition: Opened, arm: Arm) -> Result<(), AllocError>
    ensures stack { OnOk result ((trees : List KindTree) → stack_of trees parts.new
        ≡ arm_with (Node definition.head (tree_at trees definition.first)) (arm_at trees arm)
        ∷ stack_of trees parts.old) }
    ensures made { OnOk result (made_by parts.new ≡ made_by parts.old + 4) }
    ensures live { OnOk result ((n : ℕ) → AreLive n parts.old → ChildBelow n definition.first
        → IsLiveArm n arm → AreLive n parts.new) }
{
    parts.there(arm.indices)?;
    parts.there(arm.behind.first)?;
    parts.there(arm.behind.second)?;
    add_definition(parts, definition, arm.behind.rest)?;
    parts.over(Head::Cons)?;
    parts.over(Head::Cons)?;
    parts.over(Head::Branch)
}

/// Lists branches with a definition before each of their bodies.
fn add_branches(
    alloc: Global,
    pool: &Pool,
    parts: &mut Parts,
    definition: Opened,
    branches: Option<NodeId>,
) -> Result<(), AllocError>
    requires first { ChildBelow (length pool.now.trees) definition.first }
    requires live { ChildBelow (length pool.now.trees) branches }
    ensures stack { OnOk result (stack_of pool.now.trees parts.new
        ≡ in_branches (Node definition.head (tree_at pool.now.trees definition.first))
        (tree_at pool.now.trees branches) ∷ stack_of pool.now.trees parts.old) }
    ensures made { OnOk result (made_by parts.new
        ≡ made_by parts.old + made_in_branches (tree_at pool.now.trees branches)) }
    ensures live { OnOk result (AreLive (length pool.now.trees) parts.old
        → AreLive (length pool.now.trees) parts.new) }
{
    let mut links = Vec::new(alloc);
    let mut at = branches;
    'branches: while let Some(arm) = arm_at(pool, at) {
        add_branch(parts, definition, arm)?;
        links.push(Head::Cons)?;
        at = arm.more;
    }
    parts.there(at)?;
    parts.close(links)
}

/// Lists a construct with a definition before what stands behind it.
fn add_process(parts: &mut Parts, definition: Opened, construct: Opened) -> Result<(), AllocError>
    ensures stack { OnOk result ((trees : List KindTree) → stack_of trees parts.new
        ≡ Node construct.head (tree_at trees construct.first)
        (Node definition.head (tree_at trees definition.first) (tree_at trees construct.second))
        ∷ stack_of trees parts.old) }
    ensures made { OnOk result (made_by parts.new ≡ made_by parts.old + 2) }
    ensures live { OnOk result ((n : ℕ) → AreLive n parts.old → ChildBelow n definition.first
        → ChildBelow n construct.first → ChildBelow n construct.second → AreLive n parts.new) }
{
    parts.there(construct.first)?;
    add_definition(parts, definition, construct.second)?;
    parts.over(construct.head)
}

/// Lists an `if` with a definition before each of its bodies.
fn add_if(
    pool: &Pool,
    parts: &mut Parts,
    definition: Opened,
    construct: Opened,
) -> Result<(), AllocError>
    requires definition { ChildBelow (length pool.now.trees) definition.first }
    requires first { ChildBelow (length pool.now.trees) construct.first }
    requires second { ChildBelow (length pool.now.trees) construct.second }
    requires head { construct.head ≡ If }
    ensures stack { OnOk result (stack_of pool.now.trees parts.new
        ≡ in_bodies (Node definition.head (tree_at pool.now.trees definition.first))
        (Node construct.head (tree_at pool.now.trees construct.first)
        (tree_at pool.now.trees construct.second)) ∷ stack_of pool.now.trees parts.old) }
    ensures made { OnOk result (made_by parts.new ≡ made_by parts.old
        + made_in_bodies (Node construct.head (tree_at pool.now.trees construct.first)
        (tree_at pool.now.trees construct.second))) }
    ensures live { OnOk result (AreLive (length pool.now.trees) parts.old
        → AreLive (length pool.now.trees) parts.new) }
{
    let Some(bodies) = items_in(pool, construct.second) else {
        return add_process(parts, definition, construct);
    };
    parts.there(construct.first)?;
    add_definition(parts, definition, bodies.first)?;
    add_definition(parts, definition, bodies.second)?;
    parts.there(bodies.rest)?;
    parts.over(Head::Cons)?;
    parts.over(Head::Cons)?;
    parts.over(Head::If)
}

/// Lists a `find` with a definition before each of its bodies.
fn add_find(
    alloc: Global,
    pool: &Pool,
    parts: &mut Parts,
    definition: Opened,
    construct: Opened,
) -> Result<(), AllocError>
    requires definition { ChildBelow (length pool.now.trees) definition.first }
    requires first { ChildBelow (length pool.now.trees) construct.first }
    requires second { ChildBelow (length pool.now.trees) construct.second }
    requires find { (l : ℕ) × (construct.head ≡ Find l) }
    ensures stack { OnOk result (stack_of pool.now.trees parts.new
        ≡ in_bodies (Node definition.head (tree_at pool.now.trees definition.first))
        (Node construct.head (tree_at pool.now.trees construct.first)
        (tree_at pool.now.trees construct.second)) ∷ stack_of pool.now.trees parts.old) }
    ensures made { OnOk result (made_by parts.new ≡ made_by parts.old
        + made_in_bodies (Node construct.head (tree_at pool.now.trees construct.first)
        (tree_at pool.now.trees construct.second))) }
    ensures live { OnOk result (AreLive (length pool.now.trees) parts.old
        → AreLive (length pool.now.trees) parts.new) }
{
    add_branches(alloc, pool, parts, definition, construct.first)?;
    let otherwise = construct.second;
    add_definition(parts, definition, otherwise)?;
    parts.over(construct.head)
}

/// Lists a construct with a definition before each of its bodies.
fn add_bodies(
    alloc: Global,
    pool: &Pool,
    parts: &mut Parts,
    definition: Opened,
    construct: Opened,
) -> Result<(), AllocError>
    requires definition { ChildBelow (length pool.now.trees) definition.first }
    requires first { ChildBelow (length pool.now.trees) construct.first }
    requires second { ChildBelow (length pool.now.trees) construct.second }
    ensures stack { OnOk result (stack_of pool.now.trees parts.new
        ≡ in_bodies (Node definition.head (tree_at pool.now.trees definition.first))
        (Node construct.head (tree_at pool.now.trees construct.first)
        (tree_at pool.now.trees construct.second)) ∷ stack_of pool.now.trees parts.old) }
    ensures made { OnOk result (made_by parts.new ≡ made_by parts.old
        + made_in_bodies (Node construct.head (tree_at pool.now.trees construct.first)
        (tree_at pool.now.trees construct.second))) }
    ensures live { OnOk result (AreLive (length pool.now.trees) parts.old
        → AreLive (length pool.now.trees) parts.new) }
{
    match construct.head {
        Head::Find(_) => add_find(alloc, pool, parts, definition, construct),
        Head::If => add_if(pool, parts, definition, construct),
        _ => add_process(parts, definition, construct),
    }
}

/// A definition below the construct behind it.
pub(crate) fn moved_parts(
    alloc: Global,
    pool: &Pool,
    definition: Opened,
    construct: Opened,
) -> Result<Parts, AllocError>
    requires definition { ChildBelow (length pool.now.trees) definition.first }
    requires first { ChildBelow (length pool.now.trees) construct.first }
    requires second { ChildBelow (length pool.now.trees) construct.second }
    ensures stack { IfOk result (λ parts. stack_of pool.now.trees parts
        ≡ in_bodies (Node definition.head (tree_at pool.now.trees definition.first))
        (Node construct.head (tree_at pool.now.trees construct.first)
        (tree_at pool.now.trees construct.second)) ∷ []) }
    ensures made { IfOk result (λ parts. made_by parts
        ≡ made_in_bodies (Node construct.head (tree_at pool.now.trees construct.first)
        (tree_at pool.now.trees construct.second))) }
    ensures live { IfOk result (AreLive (length pool.now.trees)) }
{
    let mut parts = Parts::new(alloc);
    add_bodies(alloc, pool, &mut parts, definition, construct)?;
    Ok(parts)
}
