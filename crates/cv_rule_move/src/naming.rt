ghost use Rattle.std.specs.Prelude.{◌≡◌, ◌+◌, ◌<◌, ◌^◌, IfSome, Some, length, option_map};
ghost use Rattle.cv_pool.specs.Nodes.{ChildBelow};
ghost use Rattle.cv_syntax_trees.specs.Head as head;
ghost use Rattle.cv_syntax_trees.specs.Tree as tree;
ghost use Rattle.cv_syntax_trees.specs.Tree.{Node};
ghost use Rattle.cv_syntax.specs.PoolTrees.{tree_at};
ghost use Rattle.cv_meaning.specs.Still.{defines};
ghost use Rattle.cv_scene.specs.Scenes as scenes;
ghost use Rattle.cv_steps.specs.Changes.{only};
ghost use Rattle.cv_rule_move.specs.Moving.{first_naming, first_naming_branch};
ghost use Rattle.cv_rule_move.specs.Parts.{arm_in, naming_before};

use cv_path::{is_bound, size_below};
use cv_scene_view::first_reading;
use cv_syntax::children::{first_of, read_child, second_of};
use cv_syntax::{Head, NodeId, Opened, Pool, read_node};

/// Whether a node defines a variable by `new` or `let`.
fn defines(x: u32, head: Head) -> bool
    ensures { result ≡ defines (only x) head }
{
    match head {
        Head::New(y, _) => y == x,
        Head::Let(y, _) => y == x,
        _ => false,
    }
}

/// The first place where a tree that stands at a place names a variable in a term or a `defined` list.
fn reading(pool: &Pool, x: u32, from: u32, part: Option<NodeId>) -> Option<u32>
    requires live { ChildBelow (length pool.now.trees) part }
    requires fits { from + tree.size (tree_at pool.now.trees part) < 2 ^ 32 }
    ensures { result ≡ scenes.first_reading x from (tree_at pool.now.trees part) }
{
    let Some(node) = part else {
        return None;
    };
    match first_reading(pool, node, x) {
        Some(place) => Some(from + place),
        None => None,
    }
}

/// The branch of a link of a list.
pub(crate) fn branch_in(pool: &Pool, link: Opened) -> Option<Opened>
    requires { ChildBelow (length pool.now.trees) link.first }
    ensures branch { option_map (λ o. (tree_at pool.now.trees o.first, tree_at pool.now.trees o.second))
        result ≡ arm_in link.head (tree_at pool.now.trees link.first) }
    ensures first { IfSome result (λ o. ChildBelow (length pool.now.trees) o.first) }
    ensures second { IfSome result (λ o. ChildBelow (length pool.now.trees) o.second) }
{
    let Head::Cons = link.head else {
        return None;
    };
    let branch = read_child(pool, link.first)?;
    match branch.head {
        Head::Branch => Some(branch),
        _ => None,
    }
}

/// The first place where a branch that stands at a place names a variable before its body.
fn naming_in_branch(pool: &Pool, x: u32, from: u32, branch: Opened) -> Option<u32>
    requires first { ChildBelow (length pool.now.trees) branch.first }
    requires second { ChildBelow (length pool.now.trees) branch.second }
    requires fits { from + 1 + tree.size (tree_at pool.now.trees branch.first)
        + tree.size (tree_at pool.now.trees branch.second) < 2 ^ 32 }
    ensures { result ≡ naming_before x from (tree_at pool.now.trees branch.first)
        (tree_at pool.now.trees branch.second) }
{
    if is_bound(pool, branch.first, x) {
        return Some(from);
    }
    let cells = first_of(pool, branch.second);
    let behind = from + 1 + size_below(pool, branch.first);
    if let Some(place) = reading(pool, x, behind, cells) {
        return Some(place);
    }
    let condition = first_of(pool, second_of(pool, branch.second));
    reading(pool, x, behind + size_below(pool, cells), condition)
}

/// The first place where branches that stand at a place name a variable before their bodies.
fn naming_in_branches(pool: &Pool, x: u32, from: u32, branches: Option<NodeId>) -> Option<u32>
    requires live { ChildBelow (length pool.now.trees) branches }
    requires fits { from + tree.size (tree_at pool.now.trees branches) < 2 ^ 32 }
    ensures { result ≡ first_naming_branch x from (tree_at pool.now.trees branches) }
{
    let mut place = from;
    let mut at = branches;
    'branches: while let Some(n) = at {
        let link = read_node(pool, n);
        let Some(branch) = branch_in(pool, link) else {
            return None;
        };
        if let Some(found) = naming_in_branch(pool, x, place, branch) {
            return Some(found);
        }
        place += size_below(pool, link.first);
        at = link.second;
    }
    None
}

/// The first place where a construct that stands at a place names a variable outside of its bodies.
pub(crate) fn first_naming(pool: &Pool, x: u32, from: u32, construct: Opened) -> Option<u32>
    requires first { ChildBelow (length pool.now.trees) construct.first }
    requires second { ChildBelow (length pool.now.trees) construct.second }
    requires fits { from + head.weight construct.head
        + tree.size (tree_at pool.now.trees construct.first) < 2 ^ 32 }
    ensures { result ≡ first_naming x from (Node construct.head
        (tree_at pool.now.trees construct.first) (tree_at pool.now.trees construct.second)) }
{
    if let Head::Find(_) = construct.head {
        return naming_in_branches(pool, x, from + 1, construct.first);
    }
    if defines(x, construct.head) {
        return Some(from);
    }
    reading(pool, x, from + construct.head.weight(), construct.first)
}
