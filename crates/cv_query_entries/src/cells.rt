ghost use Rattle.std.specs.Prelude.{◌≡◌, IfOk, length, option_map};
ghost use Rattle.cv_pool.specs.Nodes.{ChildBelow};
ghost use Rattle.cv_syntax.specs.PoolTrees.{tree_at};
ghost use Rattle.cv_directory.specs.Definitions.{entries_of, large_in};
ghost use Rattle.cv_directory.specs.Tables.{entries_in};
ghost use Rattle.cv_query_certificates.specs.EventNodes.{only_site};
ghost use Rattle.cv_query_entries.specs.Nodes as nodes;
ghost use Rattle.cv_query_parts.specs.Views.{IsReady, game_of, trees_of};

use cv_derive_reasons::cells::{only_definition, variable};
use cv_directory::Directory;
use cv_query_parts::View;
use cv_syntax::NodeId;
use cv_typing::Arrays;
use std::alloc::{AllocError, Global};

/// The place of the only definition of a cell's variable, by the directory of the game.
fn place_by(view: &View, directory: &Directory, cell: Option<NodeId>) -> Option<u32>
    requires ready { IsReady view.now }
    requires entries { entries_in (trees_of view.now) directory.now
        ≡ entries_of (large_in view.now.work.now.decls.list) (game_of view.now) }
    requires cell { ChildBelow (length (trees_of view.now)) cell }
    ensures { result ≡ option_map (λ d. d.0)
        (only_site (game_of view.now) (tree_at (trees_of view.now) cell)) }
{
    let Some(x) = variable(&view.work.pool, cell) else {
        return None;
    };
    only_definition(directory, x)
}

/// The place of the only definition of a cell's variable, where there is one.
pub fn site_place(view: &View, cell: Option<NodeId>) -> Option<u32>
    requires ready { IsReady view.now }
    requires cell { ChildBelow (length (trees_of view.now)) cell }
    ensures { result ≡ option_map (λ d. d.0)
        (only_site (game_of view.now) (tree_at (trees_of view.now) cell)) }
{
    match view.arrays {
        Arrays::OfGame(directory) => place_by(view, directory, cell),
        Arrays::OfSide(_, _) => None,
        Arrays::OfNothing => None,
    }
}

/// The replications above the only definition of a cell's variable, by the directory of the game.
fn rows_by(
    alloc: Global,
    view: &View,
    directory: &Directory,
    cell: Option<NodeId>,
) -> Result<Vec<(u32, u32)>, AllocError>
    requires ready { IsReady view.now }
    requires entries { entries_in (trees_of view.now) directory.now
        ≡ entries_of (large_in view.now.work.now.decls.list) (game_of view.now) }
    requires cell { ChildBelow (length (trees_of view.now)) cell }
    ensures { IfOk result (λ rows. rows.items ≡ nodes.rows_above
        (only_site (game_of view.now) (tree_at (trees_of view.now) cell))) }
{
    let mut rows = Vec::new(alloc);
    let Some(x) = variable(&view.work.pool, cell) else {
        return Ok(rows);
    };
    let Some(_site) = only_definition(directory, x) else {
        return Ok(rows);
    };
    'rows: while let Some(row) = directory.replication(x, rows.len()) {
        rows.push(row)?;
    }
    Ok(rows)
}

/// The replications above the only definition of a cell's variable, where there is one.
pub fn rows_above(
    alloc: Global,
    view: &View,
    cell: Option<NodeId>,
) -> Result<Vec<(u32, u32)>, AllocError>
    requires ready { IsReady view.now }
    requires cell { ChildBelow (length (trees_of view.now)) cell }
    ensures { IfOk result (λ rows. rows.items ≡ nodes.rows_above
        (only_site (game_of view.now) (tree_at (trees_of view.now) cell))) }
{
    match view.arrays {
        Arrays::OfGame(directory) => rows_by(alloc, view, directory, cell),
        Arrays::OfSide(_, _) => Ok(Vec::new(alloc)),
        Arrays::OfNothing => Ok(Vec::new(alloc)),
    }
}
