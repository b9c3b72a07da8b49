// The rules that stand in crates of their own.
ghost use Rattle.std.specs.Prelude.{◌≡◌, ◌<◌, ◌≤◌, ℕ, All, List, Some, length};
ghost use Rattle.cv_pool.specs.KindTree.{KindTree};
ghost use Rattle.cv_pool.specs.Nodes.{ChildBelow};
ghost use Rattle.cv_syntax_trees.specs.Tree.{size};
ghost use Rattle.cv_syntax.specs.PoolTrees.{tree_at};
ghost use Rattle.cv_directory.specs.Live.{IsLive};
ghost use Rattle.cv_scene.specs.Scenes.{Scene};
ghost use Rattle.cv_scene_view.specs.Kept.{scene_of};
ghost use Rattle.cv_edit_places.specs.Changes.{need_at};
ghost use Rattle.cv_edit_places.specs.Plans.{IsPlanned, IsPriced};
ghost use Rattle.cv_script.specs.Views as items;
ghost use Rattle.cv_kernel.specs.Answers.{IsEditPlan, IsPlan};
ghost use Rattle.cv_kernel.specs.Rules as rules;
ghost use Rattle.cv_kernel.specs.Rules.{rule_of_items};
ghost use Rattle.cv_kernel.specs.Steps.{IsShort};
ghost use Rattle.cv_rule.specs.Prepared.{IsPrepared};

use crate::error::RuleError;
use crate::places::places_in;
use crate::planning::{StepPlan, place_in, refused};
use cv_edit_places::{Change, Failure, Priced};
use cv_rule::edit::Edit;
use cv_rule_array_names as array_names;
use cv_rule_birthday as comparing;
use cv_rule_birthday::guess as guessing;
use cv_rule_codef as codefining;
use cv_rule_fresh as missing;
use cv_rule_move as moving;
use cv_rule_move::merge as merging;
use cv_rule_pick as picking;
use cv_rule_pick::Derivations;
use cv_syntax::{NodeId, Work};
use cv_typing::Arrays;
use std::alloc::Global;

/// A change at a place as an edit of the game, where it is planned.
fn at(place: u32, planned: Result<Change, Failure>) -> Result<Edit, RuleError>
    ensures { (trees : List KindTree) (s : Scene) (r : rules.Rule) (made : ℕ) →
        IsPlanned trees s r.step place made planned → r.need s.game ≡ need_at place made s.game →
        IsEditPlan trees s (Some r) result }
{
    match planned {
        Ok(change) => Ok(Edit::At { place, change }),
        Err(failure) => Err(RuleError::Refused(failure)),
    }
}

/// How a `move` changes a game.
pub(crate) fn move_edit(
    alloc: Global,
    work: &Work,
    game: NodeId,
    number: u64,
) -> Result<Edit, RuleError>
    requires live { game.0 < length work.now.pool.trees }
    requires small { size (tree_at work.now.pool.trees (Some game)) ≤ 50000 }
    ensures { IsEditPlan work.now.pool.trees (scene_of work.now.pool work.now.decls game)
        (rule_of_items (items.Move number)) result }
{
    let place = place_in(number)?;
    at(place, moving::plan(alloc, work, game, place)?)
}

/// How a `merge` changes a game.
pub(crate) fn merge_edit(
    alloc: Global,
    work: &Work,
    game: NodeId,
    number: u64,
) -> Result<Edit, RuleError>
    requires live { game.0 < length work.now.pool.trees }
    requires small { size (tree_at work.now.pool.trees (Some game)) ≤ 50000 }
    requires declared { All (IsLive (length work.now.pool.trees)) work.now.decls.list }
    ensures { IsEditPlan work.now.pool.trees (scene_of work.now.pool work.now.decls game)
        (rule_of_items (items.Merge number)) result }
{
    let place = place_in(number)?;
    at(place, merging::plan(alloc, work, game, place)?)
}

/// How a `codef` changes a game.
pub(crate) fn codef_edit(
    alloc: Global,
    work: &Work,
    game: NodeId,
    arrays: &Arrays,
    number: u64,
    adds: bool,
    to: NodeId,
    from: NodeId,
    above: bool,
) -> Result<Edit, RuleError>
    requires prepared { IsPrepared work.now.pool.trees work.now.decls game arrays.now }
    requires small { size (tree_at work.now.pool.trees (Some game)) ≤ 50000 }
    requires declared { All (IsLive (length work.now.pool.trees)) work.now.decls.list }
    requires to { to.0 < length work.now.pool.trees }
    requires from { from.0 < length work.now.pool.trees }
    requires short { IsShort (tree_at work.now.pool.trees (Some to)) }
    ensures { IsEditPlan work.now.pool.trees (scene_of work.now.pool work.now.decls game)
        (rule_of_items (items.Codef number adds (tree_at work.now.pool.trees (Some to))
        (tree_at work.now.pool.trees (Some from)) above)) result }
{
    let place = place_in(number)?;
    let planned = codefining::plan(alloc, work, game, arrays, place, adds, above, to, from)?;
    at(place, planned)
}

/// How a `SArename` changes a game.
pub(crate) fn split_definitions(
    alloc: Global,
    work: &Work,
    game: NodeId,
    x: u32,
    to: Option<NodeId>,
) -> Result<Edit, RuleError>
    requires live { game.0 < length work.now.pool.trees }
    requires small { size (tree_at work.now.pool.trees (Some game)) ≤ 50000 }
    requires declared { All (IsLive (length work.now.pool.trees)) work.now.decls.list }
    requires names { ChildBelow (length work.now.pool.trees) to }
    ensures { IsEditPlan work.now.pool.trees (scene_of work.now.pool work.now.decls game)
        (rule_of_items (items.ArrayRename x (tree_at work.now.pool.trees to))) result }
{
    let planned = array_names::plan(alloc, work, game, x, to)?;
    match planned {
        Ok(names) => Ok(Edit::Split { name: x, names }),
        Err(failure) => Err(RuleError::Refused(failure)),
    }
}

/// How a `pick` changes a game.
pub(crate) fn pick_edit(
    alloc: Global,
    work: &Work,
    game: NodeId,
    arrays: &Arrays,
    number: u64,
    terms: Option<NodeId>,
    by: Derivations,
) -> Result<Edit, RuleError>
    requires prepared { IsPrepared work.now.pool.trees work.now.decls game arrays.now }
    requires small { size (tree_at work.now.pool.trees (Some game)) ≤ 50000 }
    requires declared { All (IsLive (length work.now.pool.trees)) work.now.decls.list }
    requires terms { ChildBelow (length work.now.pool.trees) terms }
    requires at_body { ChildBelow (length work.now.pool.trees) by.at_body }
    requires at_find { ChildBelow (length work.now.pool.trees) by.at_find }
    requires short { IsShort (tree_at work.now.pool.trees terms) }
    requires short_body { IsShort (tree_at work.now.pool.trees by.at_body) }
    requires short_find { IsShort (tree_at work.now.pool.trees by.at_find) }
    ensures { IsEditPlan work.now.pool.trees (scene_of work.now.pool work.now.decls game)
        (rule_of_items (items.Pick number (tree_at work.now.pool.trees terms)
        (tree_at work.now.pool.trees by.at_body) (tree_at work.now.pool.trees by.at_find)))
        result }
{
    let place = place_in(number)?;
    let planned = picking::plan(alloc, work, game, arrays, place, terms, by)?;
    at(place, planned)
}

/// A change at a place with its cost as a plan, where it is planned.
fn priced_at(place: u32, planned: Result<Priced, Failure>) -> Result<StepPlan, RuleError>
    ensures { (trees : List KindTree) (s : Scene) (r : rules.Rule) (made : ℕ) →
        IsPriced trees s r.step place made planned → r.need s.game ≡ need_at place made s.game →
        IsPlan trees s (Some r) result }
{
    match planned {
        Ok(Priced { change, cost }) => Ok(StepPlan {
            edit: Edit::At { place, change },
            cost,
        }),
        Err(failure) => Err(RuleError::Refused(failure)),
    }
}

/// How a `fresh` changes a game, and what it costs.
pub(crate) fn fresh_plan(
    alloc: Global,
    work: &Work,
    game: NodeId,
    arrays: &Arrays,
    number: u64,
) -> Result<StepPlan, RuleError>
    requires prepared { IsPrepared work.now.pool.trees work.now.decls game arrays.now }
    requires small { size (tree_at work.now.pool.trees (Some game)) ≤ 50000 }
    requires declared { All (IsLive (length work.now.pool.trees)) work.now.decls.list }
    ensures { IsPlan work.now.pool.trees (scene_of work.now.pool work.now.decls game)
        (rule_of_items (items.Fresh number)) result }
{
    let place = place_in(number)?;
    priced_at(place, missing::plan(alloc, work, game, arrays, place)?)
}

/// How a `birthday` changes a game, and what it costs.
pub(crate) fn birthday_plan(
    alloc: Global,
    work: &Work,
    game: NodeId,
    arrays: &Arrays,
    x: u32,
    list: Option<NodeId>,
) -> Result<StepPlan, RuleError>
    requires prepared { IsPrepared work.now.pool.trees work.now.decls game arrays.now }
    requires small { size (tree_at work.now.pool.trees (Some game)) ≤ 50000 }
    requires declared { All (IsLive (length work.now.pool.trees)) work.now.decls.list }
    requires list { ChildBelow (length work.now.pool.trees) list }
    ensures { IsPlan work.now.pool.trees (scene_of work.now.pool work.now.decls game)
        (rule_of_items (items.Birthday x (tree_at work.now.pool.trees list))) result }
{
    let Some(places) = places_in(alloc, &work.pool, list)? else {
        return Err(refused(0));
    };
    priced_at(0, comparing::plan(alloc, work, game, arrays, x, &places)?)
}

/// How a `guess` changes a game, and what it costs.
pub(crate) fn guess_plan(
    alloc: Global,
    work: &Work,
    game: NodeId,
    arrays: &Arrays,
    x: u32,
    list: Option<NodeId>,
) -> Result<StepPlan, RuleError>
    requires prepared { IsPrepared work.now.pool.trees work.now.decls game arrays.now }
    requires small { size (tree_at work.now.pool.trees (Some game)) ≤ 50000 }
    requires declared { All (IsLive (length work.now.pool.trees)) work.now.decls.list }
    requires list { ChildBelow (length work.now.pool.trees) list }
    ensures { IsPlan work.now.pool.trees (scene_of work.now.pool work.now.decls game)
        (rule_of_items (items.Guess x (tree_at work.now.pool.trees list))) result }
{
    let Some(places) = places_in(alloc, &work.pool, list)? else {
        return Err(refused(0));
    };
    priced_at(0, guessing::plan(alloc, work, game, arrays, x, &places)?)
}
