ghost use Rattle.std.specs.Prelude.{◌≡◌, ◌+◌, ◌<◌, ◌^◌, ◌&&◌, IfErr, IfOk, None, OnOk, Some, length, not};
ghost use Rattle.cv_pool.specs.Nodes.{ChildBelow};
ghost use Rattle.cv_syntax_trees.specs.Tree.{size};
ghost use Rattle.cv_syntax.specs.PoolTrees.{tree_at};
ghost use Rattle.cv_directory.specs.Definitions as definitions;
ghost use Rattle.cv_scope_rules.specs.Sites.{Variable};
ghost use Rattle.cv_scope_rules.specs.Made.{made_by};
ghost use Rattle.cv_scene_view.specs.Kept.{scene_of};
ghost use Rattle.cv_costs.specs.Large as order;
ghost use Rattle.cv_scene.specs.Large as specs;

use cv_path::is_definition;
use cv_syntax::{Class, Head, NameId, NodeId, Opened, Work, read_node};

/// Whether names of a class are large types.
fn is_large_class(class: Class) -> bool
    ensures { result ≡ definitions.is_large class }
{
    match class {
        Class::TypeName { large, .. } => large,
        _ => false,
    }
}

/// Whether a name is declared as one of a large type.
pub fn is_large(work: &Work, game: NodeId, t: u32) -> bool
    ensures { result ≡ specs.is_large (scene_of work.now.pool work.now.decls game) t }
{
    is_large_class(work.decls.class(NameId(t)))
}

/// Whether a node is a `new` of a large type.
fn chooses(work: &Work, game: NodeId, head: Head) -> bool
    ensures { result ≡ specs.chooses
        (specs.is_large (scene_of work.now.pool work.now.decls game)) head }
{
    match head {
        Head::New(_, t) => is_large(work, game, t),
        _ => false,
    }
}

/// Whether a node defines a variable otherwise.
fn is_other(work: &Work, game: NodeId, node: Opened, x: u32) -> bool
    requires { ChildBelow (length work.now.pool.trees) node.first }
    ensures { result ≡ (made_by node.head (tree_at work.now.pool.trees node.first) (Variable x)
        && not (specs.chooses
        (specs.is_large (scene_of work.now.pool work.now.decls game)) node.head)) }
{
    is_definition(&work.pool, node, x) && !chooses(work, game, node.head)
}

/// The place behind a tree that stands at a place, where a variable is defined by `new` of large types alone; or the first place where
/// it is defined otherwise.
fn others(work: &Work, game: NodeId, x: u32, from: u32, tree: Option<NodeId>) -> Result<u32, u32>
    requires live { ChildBelow (length work.now.pool.trees) tree }
    requires fits { from + size (tree_at work.now.pool.trees tree) < 2 ^ 32 }
    ensures none { OnOk result (specs.first_other_site
        (specs.is_large (scene_of work.now.pool work.now.decls game)) x from
        (tree_at work.now.pool.trees tree) ≡ None) }
    ensures next { IfOk result (λ next.
        next ≡ from + size (tree_at work.now.pool.trees tree)) }
    ensures found { IfErr result (λ p. specs.first_other_site
        (specs.is_large (scene_of work.now.pool work.now.decls game)) x from
        (tree_at work.now.pool.trees tree) ≡ Some p) }
{
    let mut place = from;
    let mut at = tree;
    'tree: while let Some(k) = at {
        let node = read_node(&work.pool, k);
        if is_other(work, game, node, x) {
            return Err(place);
        }
        match others(work, game, x, place + node.head.weight(), node.first) {
            Ok(next) => place = next,
            Err(found) => return Err(found),
        }
        at = node.second;
    }
    Ok(place)
}

/// The first place of a game where a variable is defined otherwise than by `new` of a large type.
pub fn first_other_site(work: &Work, game: NodeId, x: u32) -> Option<u32>
    requires live { game.0 < length work.now.pool.trees }
    requires fits { size (tree_at work.now.pool.trees (Some game)) < 2 ^ 32 }
    ensures { result ≡ specs.first_other_site
        (specs.is_large (scene_of work.now.pool work.now.decls game)) x 0
        (tree_at work.now.pool.trees (Some game)) }
{
    match others(work, game, x, 0, Some(game)) {
        Ok(_) => None,
        Err(found) => Some(found),
    }
}

/// Whether each of some numbers is below the next.
pub fn are_increasing(places: &[u32]) -> bool
    ensures { result ≡ order.are_increasing places.now }
{
    if places.is_empty() {
        return true;
    }
    let mut last = places[0];
    'places: for k in 1..places.len() {
        let place = places[k];
        if place <= last {
            return false;
        }
        last = place;
    }
    true
}
