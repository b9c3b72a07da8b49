ghost use Rattle.std.specs.Prelude.{◌≡◌, ◌<◌, ◌≤◌, All, IfErr, IfOk, None, OnOk, Some, length};
ghost use Rattle.cv_pool.specs.Nodes.{ChildBelow};
ghost use Rattle.cv_syntax_trees.specs.Tree.{size};
ghost use Rattle.cv_syntax.specs.PoolTrees.{tree_at};
ghost use Rattle.cv_directory.specs.Live.{IsLive};
ghost use Rattle.cv_steps.specs.Judgements.{judgement_of};
ghost use Rattle.cv_scene_view.specs.Kept.{scene_of};
ghost use Rattle.cv_rule.specs.Prepared.{IsPrepared};
ghost use Rattle.cv_rule.specs.Stated.{IsLiveRule, step_of};
ghost use Rattle.cv_edit_places.specs.Plans.{failure_of};
ghost use Rattle.cv_edit_changes.specs.pruning.Bodies.{part_of};
ghost use Rattle.cv_script.specs.Views as items;
ghost use Rattle.cv_kernel.specs.Answers.{IsEditPlan, IsUnplanned};
ghost use Rattle.cv_kernel.specs.Rules.{part_of as part_of_text, rule_of_items};
ghost use Rattle.cv_kernel.specs.Steps.{IsShort};

use crate::error::RuleError;
use crate::planning::place_in;
use cv_edit_changes::pruning::Body;
use cv_edit_places::Change;
use cv_rule::edit::Edit;
use cv_rule::{Rule, conditions};
use cv_script::Part;
use cv_syntax::{NodeId, Work};
use cv_typing::Arrays;
use std::alloc::Global;

/// This edit, where all conditions of a step hold.
pub(crate) fn tested(
    alloc: Global,
    work: &Work,
    game: NodeId,
    arrays: &Arrays,
    rule: Rule,
    edit: Edit,
) -> Result<Edit, RuleError>
    requires prepared { IsPrepared work.now.pool.trees work.now.decls game arrays.now }
    requires declared { All (IsLive (length work.now.pool.trees)) work.now.decls.list }
    requires rule { IsLiveRule work.now.pool.trees rule }
    ensures same { IfOk result (λ e. e ≡ edit) }
    ensures met { OnOk result (failure_of (scene_of work.now.pool work.now.decls game)
        (step_of work.now.pool.trees rule) ≡ None) }
    ensures unmet { IfErr result (IsUnplanned (judgement_of
        (scene_of work.now.pool work.now.decls game) (step_of work.now.pool.trees rule))) }
{
    if let Some(failure) = conditions(alloc, work, game, arrays, rule)? {
        return Err(RuleError::Refused(failure));
    }
    Ok(edit)
}

/// How a `split` changes a game.
pub(crate) fn split(
    alloc: Global,
    work: &Work,
    game: NodeId,
    arrays: &Arrays,
    number: u64,
    condition: NodeId,
) -> Result<Edit, RuleError>
    requires prepared { IsPrepared work.now.pool.trees work.now.decls game arrays.now }
    requires small { size (tree_at work.now.pool.trees (Some game)) ≤ 50000 }
    requires declared { All (IsLive (length work.now.pool.trees)) work.now.decls.list }
    requires live { condition.0 < length work.now.pool.trees }
    requires short { IsShort (tree_at work.now.pool.trees (Some condition)) }
    ensures { IsEditPlan work.now.pool.trees (scene_of work.now.pool work.now.decls game)
        (rule_of_items (items.Split number (tree_at work.now.pool.trees (Some condition)))) result }
{
    let place = place_in(number)?;
    let rule = Rule::Split { place, condition };
    let change = Change::Split { condition };
    tested(alloc, work, game, arrays, rule, Edit::At { place, change })
}

/// How a `let` changes a game.
pub(crate) fn after_let(
    alloc: Global,
    work: &Work,
    game: NodeId,
    arrays: &Arrays,
    number: u64,
    name: u32,
    of_type: u32,
    term: NodeId,
) -> Result<Edit, RuleError>
    requires prepared { IsPrepared work.now.pool.trees work.now.decls game arrays.now }
    requires small { size (tree_at work.now.pool.trees (Some game)) ≤ 50000 }
    requires declared { All (IsLive (length work.now.pool.trees)) work.now.decls.list }
    requires live { term.0 < length work.now.pool.trees }
    requires short { IsShort (tree_at work.now.pool.trees (Some term)) }
    ensures { IsEditPlan work.now.pool.trees (scene_of work.now.pool work.now.decls game)
        (rule_of_items (items.Let number name of_type
        (tree_at work.now.pool.trees (Some term)))) result }
{
    let place = place_in(number)?;
    let rule = Rule::Let {
        place,
        name,
        of_type,
        term,
    };
    let change = Change::AfterLet {
        name,
        of_type,
        term,
    };
    tested(alloc, work, game, arrays, rule, Edit::At { place, change })
}

/// How a `new` changes a game.
pub(crate) fn after_new(
    alloc: Global,
    work: &Work,
    game: NodeId,
    arrays: &Arrays,
    number: u64,
    name: u32,
    of_type: u32,
) -> Result<Edit, RuleError>
    requires prepared { IsPrepared work.now.pool.trees work.now.decls game arrays.now }
    requires small { size (tree_at work.now.pool.trees (Some game)) ≤ 50000 }
    requires declared { All (IsLive (length work.now.pool.trees)) work.now.decls.list }
    ensures { IsEditPlan work.now.pool.trees (scene_of work.now.pool work.now.decls game)
        (rule_of_items (items.New number name of_type)) result }
{
    let place = place_in(number)?;
    let rule = Rule::New {
        place,
        name,
        of_type,
    };
    let change = Change::AfterNew { name, of_type };
    tested(alloc, work, game, arrays, rule, Edit::At { place, change })
}

/// How a `rewrite` changes a game.
pub(crate) fn rewritten(
    alloc: Global,
    work: &Work,
    game: NodeId,
    arrays: &Arrays,
    number: u64,
    term: NodeId,
    by: Option<NodeId>,
) -> Result<Edit, RuleError>
    requires prepared { IsPrepared work.now.pool.trees work.now.decls game arrays.now }
    requires small { size (tree_at work.now.pool.trees (Some game)) ≤ 50000 }
    requires declared { All (IsLive (length work.now.pool.trees)) work.now.decls.list }
    requires live { term.0 < length work.now.pool.trees }
    requires short { IsShort (tree_at work.now.pool.trees (Some term)) }
    requires by { ChildBelow (length work.now.pool.trees) by }
    requires lines { IsShort (tree_at work.now.pool.trees by) }
    ensures { IsEditPlan work.now.pool.trees (scene_of work.now.pool work.now.decls game)
        (rule_of_items (items.Rewrite number (tree_at work.now.pool.trees (Some term))
        (tree_at work.now.pool.trees by))) result }
{
    let place = place_in(number)?;
    let rule = Rule::Rewrite { place, term, by };
    let change = Change::Replace { by: term };
    tested(alloc, work, game, arrays, rule, Edit::At { place, change })
}

/// The body that a text names.
fn body_of(part: Part) -> Body
    ensures { part_of result ≡ part_of_text part }
{
    match part {
        Part::Then => Body::Then,
        Part::Else => Body::Else,
        Part::Branch(number) => Body::Branch(number),
    }
}

/// How a `prune` changes a game.
pub(crate) fn pruned(
    alloc: Global,
    work: &Work,
    game: NodeId,
    arrays: &Arrays,
    number: u64,
    part: Part,
    by: Option<NodeId>,
) -> Result<Edit, RuleError>
    requires prepared { IsPrepared work.now.pool.trees work.now.decls game arrays.now }
    requires small { size (tree_at work.now.pool.trees (Some game)) ≤ 50000 }
    requires declared { All (IsLive (length work.now.pool.trees)) work.now.decls.list }
    requires by { ChildBelow (length work.now.pool.trees) by }
    requires lines { IsShort (tree_at work.now.pool.trees by) }
    ensures { IsEditPlan work.now.pool.trees (scene_of work.now.pool work.now.decls game)
        (rule_of_items (items.Prune number part (tree_at work.now.pool.trees by))) result }
{
    let place = place_in(number)?;
    let body = body_of(part);
    let rule = Rule::Prune { place, body, by };
    tested(
        alloc,
        work,
        game,
        arrays,
        rule,
        Edit::WithoutBody { place, body },
    )
}
