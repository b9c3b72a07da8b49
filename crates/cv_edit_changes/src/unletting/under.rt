ghost use Rattle.std.specs.Prelude.{◌≡◌, ◌<◌, ◌^◌, ◌++◌, OnOk, length};
ghost use Rattle.cv_pool.specs.Nodes.{ChildBelow};
ghost use Rattle.cv_syntax_trees.specs.Tree as tree;
ghost use Rattle.cv_syntax.specs.PoolTrees.{tree_at};
ghost use Rattle.cv_syntax.specs.Postorder.{postorder};
ghost use Rattle.cv_scene.specs.lines.Given.{with_given};
ghost use Rattle.cv_edit_changes.specs.unletting.Assigned.{names_above};

use crate::unletting::given::given_for;
use cv_directory::Directory;
use cv_path::extents::depth_below;
use cv_path::size_below;
use cv_syntax::listing::{close, copy};
use cv_syntax::{Make, NodeId, Pool, read_node};
use std::alloc::{AllocError, Global};

/// How many syntax nodes a tree has with terms for the indices above the definition of a variable.
pub(crate) fn size_under(
    pool: &Pool,
    directory: &Directory,
    x: u32,
    terms: Option<NodeId>,
    start: Option<NodeId>,
) -> u32
    requires terms { ChildBelow (length pool.now.trees) terms }
    requires live { ChildBelow (length pool.now.trees) start }
    requires fits { tree.size (with_given (names_above pool.now.trees directory.now x)
        (tree_at pool.now.trees terms) (tree_at pool.now.trees start)) < 2 ^ 32 }
    ensures { result ≡ tree.size (with_given (names_above pool.now.trees directory.now x)
        (tree_at pool.now.trees terms) (tree_at pool.now.trees start)) }
{
    let mut total = 0;
    let mut at = start;
    'chain: while let Some(k) = at {
        let node = read_node(pool, k);
        if let Some(put) = given_for(pool, directory, x, terms, node.head) {
            return total + size_below(pool, put.term);
        }
        total += node.head.weight();
        total += size_under(pool, directory, x, terms, node.first);
        at = node.second;
    }
    total
}

/// How many syntax nodes the longest path of a tree has with terms for the indices above the definition of a variable.
pub(crate) fn depth_under(
    pool: &Pool,
    directory: &Directory,
    x: u32,
    terms: Option<NodeId>,
    start: Option<NodeId>,
) -> u32
    requires terms { ChildBelow (length pool.now.trees) terms }
    requires live { ChildBelow (length pool.now.trees) start }
    requires fits { tree.size (with_given (names_above pool.now.trees directory.now x)
        (tree_at pool.now.trees terms) (tree_at pool.now.trees start)) < 2 ^ 32 }
    ensures { result ≡ tree.depth (with_given (names_above pool.now.trees directory.now x)
        (tree_at pool.now.trees terms) (tree_at pool.now.trees start)) }
{
    let mut above = 0;
    let mut deepest = 0;
    let mut at = start;
    'chain: while let Some(k) = at {
        let node = read_node(pool, k);
        if let Some(put) = given_for(pool, directory, x, terms, node.head) {
            return deepest.max(above + depth_below(pool, put.term));
        }
        above += node.head.weight();
        deepest = deepest.max(above + depth_under(pool, directory, x, terms, node.first));
        at = node.second;
    }
    deepest
}

/// Lists a tree with terms for the indices above the definition of a variable, each node behind its children.
pub(crate) fn list_under(
    alloc: Global,
    pool: &Pool,
    directory: &Directory,
    makes: &mut Vec<Make>,
    x: u32,
    terms: Option<NodeId>,
    start: Option<NodeId>,
) -> Result<(), AllocError>
    requires terms { ChildBelow (length pool.now.trees) terms }
    requires live { ChildBelow (length pool.now.trees) start }
    ensures { OnOk result (makes.new.items ≡ makes.old.items
        ++ postorder (with_given (names_above pool.now.trees directory.now x)
        (tree_at pool.now.trees terms) (tree_at pool.now.trees start))) }
{
    let mut heads = Vec::new(alloc);
    let mut at = start;
    'chain: while let Some(k) = at {
        let node = read_node(pool, k);
        if let Some(put) = given_for(pool, directory, x, terms, node.head) {
            copy(alloc, pool, makes, put.term)?;
            return close(makes, heads);
        }
        list_under(alloc, pool, directory, makes, x, terms, node.first)?;
        heads.push(node.head)?;
        at = node.second;
    }
    makes.push(Make::Nothing)?;
    close(makes, heads)
}
