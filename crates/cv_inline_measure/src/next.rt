ghost use Rattle.std.specs.Prelude.{◌≡◌, ◌<◌, ◌^◌, ℕ, [], IfOk, Some, length};
ghost use Rattle.cv_syntax_trees.specs.Tree as tree;
ghost use Rattle.cv_syntax.specs.PoolTrees.{tree_at};
ghost use Rattle.cv_meaning.specs.contexts.Groups.{Group};
ghost use Rattle.cv_inline.specs.NextGame.{next_in};
ghost use Rattle.cv_inline_laws.specs.extents.Extents.{extent};
ghost use Rattle.cv_inline_measure.specs.Counts.{measure_in};
ghost use Rattle.cv_syntax.specs.limits.Limits.{told};
ghost use Rattle.cv_inline_measure.specs.Settings.{AreLiveSites, inlined_calls};

use crate::game::game;
use crate::measuring::Measure;
use crate::setting::Setting;
use cv_inline::terms::{Calling, Drawing};
use cv_syntax::limits::Extent;
use cv_syntax::{NodeId, Pool};
use std::alloc::{AllocError, Global};

/// How large and how deep the next game of a context is, where these are the drawn names, the name of the right key and the
/// sites. Numbers from 2^32 - 1 on are told as 2^32 - 1. It takes no more time for more copies of statements; finds within
/// finds are gone over branch by branch.
pub fn measure(
    alloc: Global,
    pool: &Pool,
    drawn: &Drawing,
    right_key: u32,
    callings: &[Calling],
    context: NodeId,
) -> Result<Extent, AllocError>
    requires live { context.0 < length pool.now.trees }
    requires fits { tree.size (tree_at pool.now.trees (Some context)) < 2 ^ 32 }
    requires sites { AreLiveSites pool.now.trees callings.now }
    ensures nodes { IfOk result (λ e. (x : ℕ) (g : Group) → g.key.0 ≡ right_key →
        e.nodes ≡ told (tree.size (next_in (inlined_calls pool.now.trees drawn.now x g
        callings.now) [] (tree_at pool.now.trees (Some context))))) }
    ensures depth { IfOk result (λ e. (x : ℕ) (g : Group) → g.key.0 ≡ right_key →
        e.depth ≡ told (tree.depth (next_in (inlined_calls pool.now.trees drawn.now x g
        callings.now) [] (tree_at pool.now.trees (Some context))))) }
{
    let nodes = count(
        alloc,
        pool,
        drawn,
        right_key,
        callings,
        context,
        Measure::Nodes,
    )?;
    let depth = count(
        alloc,
        pool,
        drawn,
        right_key,
        callings,
        context,
        Measure::Path,
    )?;
    Ok(Extent { nodes, depth })
}

/// What the next game of a context has by a measure.
fn count(
    alloc: Global,
    pool: &Pool,
    drawn: &Drawing,
    right_key: u32,
    callings: &[Calling],
    context: NodeId,
    measure: Measure,
) -> Result<u32, AllocError>
    requires live { context.0 < length pool.now.trees }
    requires fits { tree.size (tree_at pool.now.trees (Some context)) < 2 ^ 32 }
    requires sites { AreLiveSites pool.now.trees callings.now }
    ensures { IfOk result (λ n. (x : ℕ) (g : Group) → g.key.0 ≡ right_key →
        n ≡ told (extent (measure_in measure) (next_in (inlined_calls pool.now.trees drawn.now x g
        callings.now) [] (tree_at pool.now.trees (Some context))))) }
{
    let setting = Setting {
        pool,
        drawn,
        callings,
        right_key,
        measure,
    };
    game(alloc, &setting, measure.one_copy(), &[], Some(context))
}
