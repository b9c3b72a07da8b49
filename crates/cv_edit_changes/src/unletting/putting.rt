ghost use Rattle.std.specs.Prelude.{◌≡◌, ◌<◌, ◌^◌, ◌++◌, OnOk, length};
ghost use Rattle.cv_pool.specs.Nodes.{ChildBelow};
ghost use Rattle.cv_syntax_trees.specs.Tree as tree;
ghost use Rattle.cv_syntax.specs.PoolTrees.{tree_at};
ghost use Rattle.cv_syntax.specs.Postorder.{postorder};
ghost use Rattle.cv_meaning.specs.Still.{defines};
ghost use Rattle.cv_scene.specs.Scenes.{head_reads};
ghost use Rattle.cv_steps.specs.Changes.{only};
ghost use Rattle.cv_edit_changes.specs.unletting.Assigned.{names_above};
ghost use Rattle.cv_edit_changes.specs.unletting.Putting.{put_in};

use crate::unletting::under::{depth_under, list_under, size_under};
use cv_directory::Directory;
use cv_syntax::listing::close;
use cv_syntax::{Head, Make, NodeId, Pool, read_node};
use std::alloc::{AllocError, Global};

/// Whether a node reads a variable.
fn is_read(x: u32, head: Head) -> bool
    ensures { result ≡ head_reads x head }
{
    match head {
        Head::Leaf(y) => y == x,
        Head::Read(y) => y == x,
        _ => false,
    }
}

/// Whether a node defines a variable by `new` or `let`.
fn is_definition(x: u32, head: Head) -> bool
    ensures { result ≡ defines (only x) head }
{
    match head {
        Head::New(y, _) => y == x,
        Head::Let(y, _) => y == x,
        _ => false,
    }
}

/// How many syntax nodes a tree has without the definitions of a variable, with a term in place of each read of it.
pub(crate) fn size_put(
    pool: &Pool,
    directory: &Directory,
    x: u32,
    term: Option<NodeId>,
    start: Option<NodeId>,
) -> u32
    requires term { ChildBelow (length pool.now.trees) term }
    requires live { ChildBelow (length pool.now.trees) start }
    requires fits { tree.size (put_in x (names_above pool.now.trees directory.now x)
        (tree_at pool.now.trees term) (tree_at pool.now.trees start)) < 2 ^ 32 }
    ensures { result ≡ tree.size (put_in x (names_above pool.now.trees directory.now x)
        (tree_at pool.now.trees term) (tree_at pool.now.trees start)) }
{
    let mut total = 0;
    let mut at = start;
    'chain: while let Some(k) = at {
        let node = read_node(pool, k);
        if is_read(x, node.head) {
            return total + size_under(pool, directory, x, node.first, term);
        }
        if !is_definition(x, node.head) {
            total += node.head.weight();
            total += size_put(pool, directory, x, term, node.first);
        }
        at = node.second;
    }
    total
}

/// How many syntax nodes the longest path of a tree has without the definitions of a variable, with a term in place of each
/// read of it.
pub(crate) fn depth_put(
    pool: &Pool,
    directory: &Directory,
    x: u32,
    term: Option<NodeId>,
    start: Option<NodeId>,
) -> u32
    requires term { ChildBelow (length pool.now.trees) term }
    requires live { ChildBelow (length pool.now.trees) start }
    requires fits { tree.size (put_in x (names_above pool.now.trees directory.now x)
        (tree_at pool.now.trees term) (tree_at pool.now.trees start)) < 2 ^ 32 }
    ensures { result ≡ tree.depth (put_in x (names_above pool.now.trees directory.now x)
        (tree_at pool.now.trees term) (tree_at pool.now.trees start)) }
{
    let mut above = 0;
    let mut deepest = 0;
    let mut at = start;
    'chain: while let Some(k) = at {
        let node = read_node(pool, k);
        if is_read(x, node.head) {
            return deepest.max(above + depth_under(pool, directory, x, node.first, term));
        }
        if !is_definition(x, node.head) {
            above += node.head.weight();
            deepest = deepest.max(above + depth_put(pool, directory, x, term, node.first));
        }
        at = node.second;
    }
    deepest
}

/// Lists a tree without the definitions of a variable, with a term in place of each read of it, each node behind its children.
pub(crate) fn list_put(
    alloc: Global,
    pool: &Pool,
    directory: &Directory,
    makes: &mut Vec<Make>,
    x: u32,
    term: Option<NodeId>,
    start: Option<NodeId>,
) -> Result<(), AllocError>
    requires term { ChildBelow (length pool.now.trees) term }
    requires live { ChildBelow (length pool.now.trees) start }
    ensures { OnOk result (makes.new.items ≡ makes.old.items
        ++ postorder (put_in x (names_above pool.now.trees directory.now x)
        (tree_at pool.now.trees term) (tree_at pool.now.trees start))) }
{
    let mut heads = Vec::new(alloc);
    let mut at = start;
    'chain: while let Some(k) = at {
        let node = read_node(pool, k);
        if is_read(x, node.head) {
            list_under(alloc, pool, directory, makes, x, node.first, term)?;
            return close(makes, heads);
        }
        if !is_definition(x, node.head) {
            list_put(alloc, pool, directory, makes, x, term, node.first)?;
            heads.push(node.head)?;
        }
        at = node.second;
    }
    makes.push(Make::Nothing)?;
    close(makes, heads)
}
