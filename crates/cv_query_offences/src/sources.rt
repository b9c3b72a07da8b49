ghost use Rattle.std.specs.Prelude.{◌≡◌, ◌+◌, ◌++◌, ◌<◌, ◌^◌, [], None, OnOk, Some, if◌then◌else◌, is_some, length};
ghost use Rattle.std.specs.List.{filter};
ghost use Rattle.cv_pool.specs.Nodes.{ChildBelow};
ghost use Rattle.cv_syntax_trees.specs.Tree.{size};
ghost use Rattle.cv_syntax.specs.PoolTrees.{tree_at};
ghost use Rattle.cv_scene.specs.Sights.{variable_of};
ghost use Rattle.cv_query_certificates.specs.Secrets.{has_definition, is_let_of, put_source, sources};

use crate::definitions::{Passing, first_definition_but};
use cv_derive_reasons::cells::variable;
use cv_syntax::{Head, NodeId, Opened, Pool, read_node};
use std::alloc::AllocError;

/// Whether a name has a definition in a game: that of a variable has one, a constant and an index have none.
fn has_definition_in(pool: &Pool, game: NodeId, y: u32) -> bool
    requires live { game.0 < length pool.now.trees }
    requires fits { size (tree_at pool.now.trees (Some game)) < 2 ^ 32 }
    ensures { result ≡ has_definition (tree_at pool.now.trees (Some game)) y }
{
    first_definition_but(pool, game, Passing::Nothing, y).is_some()
}

/// Adds the variable that a node copies, where it is a `let` of another one.
fn add_source(
    pool: &Pool,
    game: NodeId,
    found: &mut Vec<u32>,
    x: u32,
    node: Opened,
) -> Result<(), AllocError>
    requires game { game.0 < length pool.now.trees }
    requires small { size (tree_at pool.now.trees (Some game)) < 2 ^ 32 }
    requires first { ChildBelow (length pool.now.trees) node.first }
    ensures { OnOk result (found.new.items ≡ found.old.items
        ++ filter (has_definition (tree_at pool.now.trees (Some game)))
        (put_source (if is_let_of x node.head
        then variable_of (tree_at pool.now.trees node.first) else None) [])) }
{
    let Head::Let(y, _) = node.head else {
        return Ok(());
    };
    if y != x {
        return Ok(());
    }
    let Some(source) = variable(pool, node.first) else {
        return Ok(());
    };
    if has_definition_in(pool, game, source) {
        found.push(source)?;
    }
    Ok(())
}

/// Adds the variables of a game that the `let`s of a variable in a tree copy.
pub(crate) fn add_sources(
    pool: &Pool,
    game: NodeId,
    found: &mut Vec<u32>,
    x: u32,
    tree: Option<NodeId>,
) -> Result<(), AllocError>
    requires game { game.0 < length pool.now.trees }
    requires small { size (tree_at pool.now.trees (Some game)) < 2 ^ 32 }
    requires tree { ChildBelow (length pool.now.trees) tree }
    ensures { OnOk result (found.new.items ≡ found.old.items
        ++ filter (has_definition (tree_at pool.now.trees (Some game)))
        (sources x (tree_at pool.now.trees tree))) }
{
    let mut at = tree;
    'tree: while let Some(k) = at {
        let node = read_node(pool, k);
        add_source(pool, game, found, x, node)?;
        add_sources(pool, game, found, x, node.first)?;
        at = node.second;
    }
    Ok(())
}
