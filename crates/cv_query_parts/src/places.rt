ghost use Rattle.std.specs.Prelude.{◌≡◌, IfOk, OnOk, Some, length, option_map};
ghost use Rattle.cv_pool.specs.Nodes.{ChildBelow};
ghost use Rattle.cv_syntax_trees.specs.Tree.{subtree};
ghost use Rattle.cv_syntax_trees.specs.declared.sites.sort.Sort.TheVariants.{BelowParameter};
ghost use Rattle.cv_syntax.specs.PoolTrees.{tree_at};
ghost use Rattle.cv_scope_rules.specs.Context.{replications_below};
ghost use Rattle.cv_scope_rules.specs.declared.typing.precedence.Precedence.TheVariants.{First};
ghost use Rattle.cv_scope_rules.specs.typing.Wants.{bound};
ghost use Rattle.cv_typing.specs.Tables.{above_of};
ghost use Rattle.cv_scene.specs.Scenes as scenes;
ghost use Rattle.cv_scene.specs.Terms as terms;
ghost use Rattle.cv_scene.specs.Terms.{above_at, indices_above};
ghost use Rattle.cv_query_parts.specs.Views.{IsReady, game_of, scene_of, trees_of};

use crate::views::View;
use cv_derive_reasons::sizes::place_in;
use cv_path::Lies;
use cv_syntax::{Head, NodeId, read_node};
use cv_syntax_trees::sites::Sort;
use std::alloc::{AllocError, Global};
use std::collections::HashMap;

/// The node at a place of the game, by the sizes that are known.
#[tactic(auto, using(cv_path::proofs::Going::going))]
pub fn node_at(view: &View, place: u32) -> Option<NodeId>
    requires { IsReady view.now }
    ensures tree { option_map (λ n. tree_at (trees_of view.now) (Some n)) result
        ≡ subtree (game_of view.now) place }
    ensures part { tree_at (trees_of view.now) result
        ≡ scenes.part_at (game_of view.now) place }
    ensures live { ChildBelow (length (trees_of view.now)) result }
{
    let pool = &view.work.pool;
    let mut at = Some(view.game);
    let mut left = place;
    'down: while let Some(n) = at {
        let node = read_node(pool, n);
        match place_in(pool, view.sizes, node, left) {
            Lies::Here => return Some(n),
            Lies::Within(rest) => {
                at = node.first;
                left = rest;
            }
            Lies::Behind(rest) => {
                at = node.second;
                left = rest;
            }
        }
    }
    None
}

/// Notes the index of a replication with its parameter.
fn pass_replication(passed: &mut Vec<(u32, u32)>, head: Head) -> Result<(), AllocError>
    ensures { OnOk result (passed.new.items ≡ replications_below head passed.old.items) }
{
    match head {
        Head::Repl(i, n) => {
            passed.push((i, n))?;
            Ok(())
        }
        _ => Ok(()),
    }
}

/// The indices of the replications above a place of the game with their parameters, outermost first, by the sizes that are known.
#[tactic(auto, using(cv_path::proofs::Going::going))]
pub fn replications_at(
    alloc: Global,
    view: &View,
    place: u32,
) -> Result<Vec<(u32, u32)>, AllocError>
    requires { IsReady view.now }
    ensures { IfOk result (λ passed. passed.items
        ≡ terms.replications_at (scene_of view.now) place) }
{
    let mut passed = Vec::new(alloc);
    let mut at = Some(view.game);
    let mut left = place;
    'down: while let Some(n) = at {
        let node = read_node(&view.work.pool, n);
        match place_in(&view.work.pool, view.sizes, node, left) {
            Lies::Here => return Ok(passed),
            Lies::Within(rest) => {
                at = node.first;
                left = rest;
            }
            Lies::Behind(rest) => {
                pass_replication(&mut passed, node.head)?;
                at = node.second;
                left = rest;
            }
        }
    }
    Ok(Vec::new(alloc))
}

/// Notes an index with its parameter, unless its name is there.
fn add_index(above: &mut HashMap<u32, Sort>, i: u32, n: u32) -> Result<(), AllocError>
    ensures { OnOk result (above_of above.new
        ≡ bound First (above_of above.old) i (BelowParameter n)) }
{
    if above.contains_key(&i) {
        return Ok(());
    }
    above.insert(i, Sort::BelowParameter(n))?;
    Ok(())
}

/// Notes indices with their parameters, unless their names are there.
pub fn add_indices(above: &mut HashMap<u32, Sort>, rows: &[(u32, u32)]) -> Result<(), AllocError>
    ensures { OnOk result (above_of above.new ≡ indices_above (above_of above.old) rows.now) }
{
    'rows: for k in 0..rows.len() {
        let row = rows[k];
        add_index(above, row.0, row.1)?;
    }
    Ok(())
}

/// The sorts of the indices of the replications above a place of the game.
pub fn indices_at(alloc: Global, view: &View, place: u32) -> Result<HashMap<u32, Sort>, AllocError>
    requires { IsReady view.now }
    ensures { IfOk result (λ above. above_of above ≡ above_at (scene_of view.now) place) }
{
    let rows = replications_at(alloc, view, place)?;
    let mut above = HashMap::new(alloc);
    add_indices(&mut above, rows.as_slice())?;
    Ok(above)
}
