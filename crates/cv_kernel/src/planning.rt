ghost use Rattle.std.specs.Prelude.{◌≡◌, ◌≤◌, ◌^◌, All, IfErr, IfOk, List, Option, Some, length};
ghost use Rattle.cv_pool.specs.KindTree.{KindTree};
ghost use Rattle.cv_scene.specs.Scenes.{Scene};
ghost use Rattle.cv_syntax_trees.specs.Tree.{size};
ghost use Rattle.cv_syntax.specs.PoolTrees.{tree_at};
ghost use Rattle.cv_directory.specs.Live.{IsLive};
ghost use Rattle.cv_scene_view.specs.Kept.{scene_of};
ghost use Rattle.cv_rule.specs.Prepared.{IsPrepared};
ghost use Rattle.cv_edit_places.specs.Plans.{failed};
ghost use Rattle.cv_script.specs.Views.{AreLive, items_of_view};
ghost use Rattle.cv_kernel.specs.Answers.{IsEditBy, IsEditPlan, IsPlan, IsPricedBy};
ghost use Rattle.cv_kernel.specs.Rules as rules;
ghost use Rattle.cv_kernel.specs.Rules.{IsFree, rule_of_items};
ghost use Rattle.cv_kernel.specs.Steps.{AreShort};

use crate::elementary::{after_let, after_new, pruned, rewritten, split, tested};
use crate::error::RuleError;
use crate::rooms::{
    birthday_plan, codef_edit, fresh_plan, guess_plan, merge_edit, move_edit, pick_edit,
    split_definitions,
};
use cv_bound::Cost;
use cv_edit_places::Failure;
use cv_rule::Rule;
use cv_rule::edit::Edit;
use cv_rule_pick::Derivations;
use cv_script::StepView;
use cv_syntax::{NodeId, Work};
use cv_typing::Arrays;
use std::alloc::Global;

/// How a step changes a game, and what it costs.
#[derive(Drop)]
pub(crate) struct StepPlan {
    pub(crate) edit: Edit,
    pub(crate) cost: Cost,
}

/// A step that fails a condition at no place.
pub(crate) fn refused(condition: u32) -> RuleError
    ensures { result ≡ RuleError.Refused (failed condition 0) }
{
    RuleError::Refused(Failure {
        condition,
        place: 0,
    })
}

/// A place as the rules take it. No game has a place whose number has more than 32 bits.
pub(crate) fn place_in(number: u64) -> Result<u32, RuleError>
    ensures place { IfOk result (λ p. p ≡ number) }
    ensures fault { IfErr result (λ e. e ≡ RuleError.Refused (failed 0 0)) }
    ensures outside { IfErr result (λ e. 2 ^ 32 ≤ number) }
{
    if number > 4_294_967_295 {
        return Err(refused(0));
    }
    Ok(number as u32)
}

/// How a step that costs nothing changes a game, where all its conditions hold there. Each rule has one arm. Steps that cost something,
/// `crypto` and `success` are taken elsewhere, and for a `simplify` other steps stand.
fn free_edit(
    alloc: Global,
    work: &Work,
    game: NodeId,
    arrays: &Arrays,
    view: StepView,
) -> Result<Edit, RuleError>
    requires prepared { IsPrepared work.now.pool.trees work.now.decls game arrays.now }
    requires small { size (tree_at work.now.pool.trees (Some game)) ≤ 50000 }
    requires declared { All (IsLive (length work.now.pool.trees)) work.now.decls.list }
    requires live { AreLive (length work.now.pool.trees) view }
    requires short { AreShort (items_of_view work.now.pool.trees view) }
    requires free { IsFree (items_of_view work.now.pool.trees view) }
    ensures { IsEditPlan work.now.pool.trees (scene_of work.now.pool work.now.decls game)
        (rule_of_items (items_of_view work.now.pool.trees view)) result }
{
    match view {
        StepView::Split { place, cond } => split(alloc, work, game, arrays, place, cond),
        StepView::Let { place, x, ty, term } => {
            after_let(alloc, work, game, arrays, place, x.0, ty.0, term)
        }
        StepView::New { place, x, ty } => after_new(alloc, work, game, arrays, place, x.0, ty.0),
        StepView::Unnew { x } => {
            let rule = Rule::Unnew { name: x.0 };
            tested(alloc, work, game, arrays, rule, Edit::Without { name: x.0 })
        }
        StepView::Rename { x, to } => {
            let rule = Rule::Rename {
                name: x.0,
                to: to.0,
            };
            let edit = Edit::Renamed {
                name: x.0,
                to: to.0,
            };
            tested(alloc, work, game, arrays, rule, edit)
        }
        StepView::Unlet { x } => {
            let rule = Rule::Unlet { name: x.0 };
            tested(alloc, work, game, arrays, rule, Edit::Unlet { name: x.0 })
        }
        StepView::Rewrite { place, term, by } => {
            rewritten(alloc, work, game, arrays, place, term, by)
        }
        StepView::Prune { place, part, by } => pruned(alloc, work, game, arrays, place, part, by),
        StepView::Move { place } => move_edit(alloc, work, game, place),
        StepView::Merge { place } => merge_edit(alloc, work, game, place),
        StepView::Codef {
            place,
            add,
            to,
            from,
            above,
        } => { codef_edit(alloc, work, game, arrays, place, add, to, from, above) }
        StepView::ArrayRename { x, to } => split_definitions(alloc, work, game, x.0, to),
        StepView::Pick {
            place,
            terms,
            at_body,
            at_find,
        } => {
            let by = Derivations { at_body, at_find };
            pick_edit(alloc, work, game, arrays, place, terms, by)
        }
        _ => Err(refused(0)),
    }
}

/// An edit that costs nothing.
fn at_no_cost(edit: Edit) -> StepPlan
    ensures { (trees : List KindTree) (s : Scene) (o : Option rules.Rule) → IsEditBy trees s o edit
        → IsPricedBy trees s o result }
{
    StepPlan {
        edit,
        cost: Cost::Zero,
    }
}

/// How a step changes a game and what it costs, where all its conditions hold there.
pub(crate) fn plan(
    alloc: Global,
    work: &Work,
    game: NodeId,
    arrays: &Arrays,
    view: StepView,
) -> Result<StepPlan, RuleError>
    requires prepared { IsPrepared work.now.pool.trees work.now.decls game arrays.now }
    requires small { size (tree_at work.now.pool.trees (Some game)) ≤ 50000 }
    requires declared { All (IsLive (length work.now.pool.trees)) work.now.decls.list }
    requires live { AreLive (length work.now.pool.trees) view }
    requires short { AreShort (items_of_view work.now.pool.trees view) }
    ensures { IsPlan work.now.pool.trees (scene_of work.now.pool work.now.decls game)
        (rule_of_items (items_of_view work.now.pool.trees view)) result }
{
    match view {
        StepView::Fresh { place } => fresh_plan(alloc, work, game, arrays, place),
        StepView::Birthday { x, at } => birthday_plan(alloc, work, game, arrays, x.0, at),
        StepView::Guess { x, at } => guess_plan(alloc, work, game, arrays, x.0, at),
        _ => {
            let edit = free_edit(alloc, work, game, arrays, view)?;
            Ok(at_no_cost(edit))
        }
    }
}
