ghost use Rattle.std.specs.Prelude.{◌≡◌, ◌+◌, ◌<◌, ◌^◌, ◌∷◌, [], ℕ, IfSome, Some, length, option_map};
ghost use Rattle.cv_syntax_trees.specs.declared.head.Head.TheVariants.{Find};
ghost use Rattle.cv_pool.specs.Nodes.{ChildBelow};
ghost use Rattle.cv_syntax_trees.specs.Tree as tree;
ghost use Rattle.cv_syntax_trees.specs.Tree.{Node};
ghost use Rattle.cv_syntax.specs.PoolTrees.{tree_at};
ghost use Rattle.cv_rule_move.specs.merge.Looks.{arm_in, body_at, first_in};
ghost use Rattle.cv_rule_move.specs.merge.Merging as merging;
ghost use Rattle.cv_rule_move.specs.merge.Merging.{bodies, branch_bodies, branch_body, if_bodies};

use cv_path::{guards, size_below};
use cv_syntax::children::{first_of, read_child, second_of};
use cv_syntax::{Head, NodeId, Opened, Pool, read_node, same};

/// A body of a construct, with its place.
#[derive(Clone, Copy)]
pub(crate) struct Body {
    pub(crate) place: u32,
    pub(crate) process: Option<NodeId>,
}

/// The branch of a link of a list.
fn branch_in(pool: &Pool, link: Opened) -> Option<Opened>
    requires { ChildBelow (length pool.now.trees) link.first }
    ensures branch { option_map
        (λ o. (tree_at pool.now.trees o.first, tree_at pool.now.trees o.second)) result
        ≡ arm_in link.head (tree_at pool.now.trees link.first) }
    ensures first { IfSome result (λ o. ChildBelow (length pool.now.trees) o.first) }
    ensures second { IfSome result (λ o. ChildBelow (length pool.now.trees) o.second) }
{
    let Head::Cons = link.head else {
        return None;
    };
    let branch = read_child(pool, link.first)?;
    match branch.head {
        Head::Branch => Some(branch),
        _ => None,
    }
}

/// The body of a branch that stands at a place.
fn body_in(pool: &Pool, place: u32, branch: Opened) -> Body
    requires first { ChildBelow (length pool.now.trees) branch.first }
    requires second { ChildBelow (length pool.now.trees) branch.second }
    requires fits { place + 1 + tree.size (tree_at pool.now.trees branch.first)
        + tree.size (tree_at pool.now.trees branch.second) < 2 ^ 32 }
    ensures body { body_at pool.now.trees result ≡ branch_body place
        (tree_at pool.now.trees branch.first) (tree_at pool.now.trees branch.second) }
    ensures live { ChildBelow (length pool.now.trees) result.process }
{
    let before = guards(pool, branch.second);
    Body {
        place: place + 1 + size_below(pool, branch.first) + before,
        process: second_of(pool, second_of(pool, branch.second)),
    }
}

/// The first body of a `find`.
fn first_of_find(
    pool: &Pool,
    place: u32,
    branches: Option<NodeId>,
    otherwise: Option<NodeId>,
) -> Body
    requires branches { ChildBelow (length pool.now.trees) branches }
    requires otherwise { ChildBelow (length pool.now.trees) otherwise }
    requires fits { place + 1 + tree.size (tree_at pool.now.trees branches) < 2 ^ 32 }
    ensures body { (l : ℕ) → Some (body_at pool.now.trees result) ≡ first_in (bodies place
        (Node (Find l) (tree_at pool.now.trees branches) (tree_at pool.now.trees otherwise))) }
    ensures live { ChildBelow (length pool.now.trees) result.process }
{
    let otherwise = Body {
        place: place + 1 + size_below(pool, branches),
        process: otherwise,
    };
    let Some(n) = branches else {
        return otherwise;
    };
    match branch_in(pool, read_node(pool, n)) {
        Some(branch) => body_in(pool, place + 1, branch),
        None => otherwise,
    }
}

/// The first body of a construct that stands at a place.
pub(crate) fn first_body(pool: &Pool, place: u32, construct: Opened) -> Option<Body>
    requires first { ChildBelow (length pool.now.trees) construct.first }
    requires second { ChildBelow (length pool.now.trees) construct.second }
    requires fits { place + 1 + tree.size (tree_at pool.now.trees construct.first) < 2 ^ 32 }
    ensures body { option_map (body_at pool.now.trees) result ≡ first_in (bodies place
        (Node construct.head (tree_at pool.now.trees construct.first)
        (tree_at pool.now.trees construct.second))) }
    ensures live { IfSome result (λ b. ChildBelow (length pool.now.trees) b.process) }
{
    match construct.head {
        Head::If => Some(Body {
            place: place + 1 + size_below(pool, construct.first),
            process: first_of(pool, construct.second),
        }),
        Head::Find(_) => Some(first_of_find(pool, place, construct.first, construct.second)),
        _ => None,
    }
}

/// The place of the first branch's body that is another process, of branches that stand at a place.
fn other_branch(
    pool: &Pool,
    process: Option<NodeId>,
    place: u32,
    branches: Option<NodeId>,
) -> Option<u32>
    requires process { ChildBelow (length pool.now.trees) process }
    requires branches { ChildBelow (length pool.now.trees) branches }
    requires fits { place + tree.size (tree_at pool.now.trees branches) < 2 ^ 32 }
    ensures { result ≡ merging.first_other (tree_at pool.now.trees process)
        (branch_bodies place (tree_at pool.now.trees branches)) }
{
    let mut from = place;
    let mut at = branches;
    'branches: while let Some(n) = at {
        let link = read_node(pool, n);
        let Some(branch) = branch_in(pool, link) else {
            return None;
        };
        let body = body_in(pool, from, branch);
        if !same(pool, process, body.process) {
            return Some(body.place);
        }
        from += size_below(pool, link.first);
        at = link.second;
    }
    None
}

/// The place of a body, where it is another process.
fn other(pool: &Pool, process: Option<NodeId>, body: Body) -> Option<u32>
    requires process { ChildBelow (length pool.now.trees) process }
    requires body { ChildBelow (length pool.now.trees) body.process }
    ensures { result ≡ merging.first_other (tree_at pool.now.trees process)
        (body_at pool.now.trees body ∷ []) }
{
    if same(pool, process, body.process) {
        return None;
    }
    Some(body.place)
}

/// The place of the first body of an `if` that is another process.
fn other_of_if(
    pool: &Pool,
    process: Option<NodeId>,
    place: u32,
    rest: Option<NodeId>,
) -> Option<u32>
    requires process { ChildBelow (length pool.now.trees) process }
    requires rest { ChildBelow (length pool.now.trees) rest }
    requires fits { place + tree.size (tree_at pool.now.trees rest) < 2 ^ 32 }
    ensures { result ≡ merging.first_other (tree_at pool.now.trees process)
        (if_bodies place (tree_at pool.now.trees rest)) }
{
    let then = Body {
        place,
        process: first_of(pool, rest),
    };
    if let Some(place) = other(pool, process, then) {
        return Some(place);
    }
    let otherwise = Body {
        place: place + size_below(pool, then.process),
        process: first_of(pool, second_of(pool, rest)),
    };
    other(pool, process, otherwise)
}

/// The place of the first body of a construct that is another process.
pub(crate) fn first_other(
    pool: &Pool,
    place: u32,
    construct: Opened,
    process: Option<NodeId>,
) -> Option<u32>
    requires first { ChildBelow (length pool.now.trees) construct.first }
    requires second { ChildBelow (length pool.now.trees) construct.second }
    requires process { ChildBelow (length pool.now.trees) process }
    requires fits { place + 1 + tree.size (tree_at pool.now.trees construct.first)
        + tree.size (tree_at pool.now.trees construct.second) < 2 ^ 32 }
    ensures { result ≡ merging.first_other (tree_at pool.now.trees process) (bodies place
        (Node construct.head (tree_at pool.now.trees construct.first)
        (tree_at pool.now.trees construct.second))) }
{
    let behind = place + 1 + size_below(pool, construct.first);
    match construct.head {
        Head::If => other_of_if(pool, process, behind, construct.second),
        Head::Find(_) => match other_branch(pool, process, place + 1, construct.first) {
            Some(found) => Some(found),
            None => other(
                pool,
                process,
                Body {
                    place: behind,
                    process: construct.second,
                },
            ),
        },
        _ => None,
    }
}
