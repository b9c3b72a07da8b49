ghost use Rattle.std.specs.Prelude.{◌≡◌, ◌<◌, ◌^◌, ◌&&◌, ◌++◌, IfOk, IfSome, OnOk, Some, is_some, length};
ghost use Rattle.std.specs.List.{list_all};
ghost use Rattle.cv_pool.specs.Nodes.{ChildBelow};
ghost use Rattle.cv_syntax_trees.specs.Tree.{size};
ghost use Rattle.cv_syntax.specs.NameSets.{is_in, is_one_of};
ghost use Rattle.cv_syntax.specs.PoolTrees.{tree_at};
ghost use Rattle.cv_scene.specs.Scenes as scenes;
ghost use Rattle.cv_scene_view.specs.Kept.{scene_of};
ghost use Rattle.cv_rule_array_names.specs.Sites as sites;
ghost use Rattle.cv_rule_array_names.specs.Sites.{are_apart, are_unknown, has_some, listed_names};

use cv_edit_names::places;
use cv_syntax::children::read_child;
use cv_syntax::{Head, NodeId, Pool, Work, read_node};
use std::alloc::{AllocError, Global};
use std::collections::HashSet;

/// Adds the name that an item of a list of names is.
fn add_name(pool: &Pool, names: &mut Vec<u32>, item: Option<NodeId>) -> Result<(), AllocError>
    requires { ChildBelow (length pool.now.trees) item }
    ensures { OnOk result (names.new.items
        ≡ names.old.items ++ sites.name_item (tree_at pool.now.trees item)) }
{
    let Some(node) = read_child(pool, item) else {
        return Ok(());
    };
    match node.head {
        Head::Name(y) => {
            names.push(y)?;
            Ok(())
        }
        _ => Ok(()),
    }
}

/// The names of a list of names.
pub(crate) fn names_in(
    alloc: Global,
    pool: &Pool,
    list: Option<NodeId>,
) -> Result<Vec<u32>, AllocError>
    requires { ChildBelow (length pool.now.trees) list }
    ensures { IfOk result (λ names. names.items
        ≡ listed_names (tree_at pool.now.trees list)) }
{
    let mut names = Vec::new(alloc);
    let mut at = list;
    'items: while let Some(n) = at {
        let link = read_node(pool, n);
        add_name(pool, &mut names, link.first)?;
        at = link.second;
    }
    Ok(names)
}

/// Names as a set, where the file has none of them and none is listed twice.
fn set_of_new(alloc: Global, work: &Work, names: &[u32]) -> Result<Option<HashSet<u32>>, AllocError>
    ensures set { IfOk result (λ o. IfSome o (λ set. is_in set ≡ is_one_of names.now)) }
    ensures new { (game : NodeId) → IfOk result (λ o. is_some o
        ≡ (are_unknown (scene_of work.now.pool work.now.decls game) names.now
        && are_apart names.now)) }
{
    let mut set = HashSet::new(alloc);
    let mut k = names.len();
    'names: while k > 0 {
        k -= 1;
        let y = names[k];
        if y < work.decls.own() {
            return Ok(None);
        }
        if !set.insert(y)? {
            return Ok(None);
        }
    }
    Ok(Some(set))
}

/// Whether a node has one of these names as that of a variable or of an index.
fn head_has(names: &HashSet<u32>, head: Head) -> bool
    ensures { result ≡ sites.head_has (is_in names.now) head }
{
    match head {
        Head::Repl(y, _)
        | Head::Name(y)
        | Head::New(y, _)
        | Head::Let(y, _)
        | Head::Binder(y, _)
        | Head::Leaf(y)
        | Head::Read(y)
        | Head::Key(y)
        | Head::Call(y, _) => names.contains(&y),
        _ => false,
    }
}

/// Whether a node of a tree has one of these names.
fn has_some(pool: &Pool, names: &HashSet<u32>, tree: Option<NodeId>) -> bool
    requires { ChildBelow (length pool.now.trees) tree }
    ensures { result ≡ has_some (is_in names.now) (tree_at pool.now.trees tree) }
{
    let mut at = tree;
    'tree: while let Some(k) = at {
        let node = read_node(pool, k);
        if head_has(names, node.head) {
            return true;
        }
        if has_some(pool, names, node.first) {
            return true;
        }
        at = node.second;
    }
    false
}

/// Whether names are new to a game and its file, and none is listed twice.
fn are_new(alloc: Global, work: &Work, game: NodeId, names: &[u32]) -> Result<bool, AllocError>
    requires { game.0 < length work.now.pool.trees }
    ensures { IfOk result (λ new. new
        ≡ (list_all (scenes.is_new (scene_of work.now.pool work.now.decls game)) names.now
        && are_apart names.now)) }
{
    let Some(set) = set_of_new(alloc, work, names)? else {
        return Ok(false);
    };
    Ok(!has_some(&work.pool, &set, Some(game)))
}

/// Whether a variable has several definitions, and there is a new name for each of them.
pub(crate) fn has_names(
    alloc: Global,
    work: &Work,
    game: NodeId,
    x: u32,
    names: &[u32],
) -> Result<bool, AllocError>
    requires live { game.0 < length work.now.pool.trees }
    requires fits { size (tree_at work.now.pool.trees (Some game)) < 2 ^ 32 }
    ensures { IfOk result (λ has. has
        ≡ sites.has_names (scene_of work.now.pool work.now.decls game) x names.now) }
{
    if names.len() <= 1 {
        return Ok(false);
    }
    let found = places(alloc, &work.pool, game, x)?;
    if found.len() != names.len() {
        return Ok(false);
    }
    are_new(alloc, work, game, names)
}
