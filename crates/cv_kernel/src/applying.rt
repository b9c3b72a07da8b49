ghost use Rattle.std.specs.Prelude.{◌≡◌, ◌+◌, ◌<◌, ◌≤◌, ◌^◌, false, All, IfErr, IfOk, OnOk, Some, length, true};
ghost use Rattle.cv_pool.specs.PoolView.{Grows};
ghost use Rattle.cv_syntax.specs.Declarations.{declarations};
ghost use Rattle.cv_syntax_trees.specs.Tree as tree;
ghost use Rattle.cv_syntax.specs.PoolTrees.{tree_at};
ghost use Rattle.cv_directory.specs.Live.{IsLive};
ghost use Rattle.cv_steps.specs.Judgements.{judgement_of_row};
ghost use Rattle.cv_steps.specs.Costs.{cost_of};
ghost use Rattle.cv_steps.specs.Steps.{Cost as StepCost, Leads};
ghost use Rattle.cv_scene.specs.Terms as terms;
ghost use Rattle.cv_scene_view.specs.Kept.{scene_of};
ghost use Rattle.cv_rule.specs.Prepared.{IsPrepared};
ghost use Rattle.cv_rule.specs.edit.Edits.{CanBeMade, edited, need_of};
ghost use Rattle.cv_script.specs.Views.{AreLive, items_of_view};
ghost use Rattle.cv_kernel.specs.Answers.{IsAnswer, IsNoGame};
ghost use Rattle.cv_kernel.specs.Rules.{needed_by, rule_of_items};
ghost use Rattle.cv_kernel.specs.Steps.{AreShort, judgement_by};
ghost use Rattle.cv_bound.specs.Sums.{coefficients, terms_of};
ghost use Rattle.cv_edit_places.specs.Plans.{most_coefficients};

use crate::error::RuleError;
use crate::planning::{plan, refused};
use cv_bound::Cost;
use cv_kernel_crypto::games::{Next, next_at};
use cv_rule::edit::{Edit, make_game, measure};
use cv_script::StepView;
use cv_syntax::limits::check_limits;
use cv_syntax::{BuildError, NodeId, Work};
use cv_typing::Arrays;
use std::alloc::Global;

/// The game at a node with what its step costs, where it is one.
fn game_at(alloc: Global, work: &Work, root: NodeId, cost: Cost) -> Result<Next, RuleError>
    requires live { root.0 < length work.now.pool.trees }
    requires declared { All (IsLive (length work.now.pool.trees)) work.now.decls.list }
    requires fits { tree.size (tree_at work.now.pool.trees (Some root)) < 2 ^ 32 }
    ensures root { IfOk result (λ next. next.game.root ≡ root) }
    ensures cost { IfOk result (λ next. next.cost ≡ cost) }
    ensures game { OnOk result (terms.is_game
        (declarations work.now.pool.trees work.now.decls.list)
        (tree_at work.now.pool.trees (Some root)) ≡ true) }
    ensures prepared { IfOk result (λ next. IsPrepared work.now.pool.trees work.now.decls root
        next.arrays) }
    ensures none { IfErr result (IsNoGame (terms.is_game
        (declarations work.now.pool.trees work.now.decls.list)
        (tree_at work.now.pool.trees (Some root)))) }
{
    match next_at(alloc, work, root)? {
        Some(next) => Ok(Next {
            game: next.game,
            arrays: next.arrays,
            cost,
        }),
        None => Err(refused(9)),
    }
}

/// Makes the next game of a step by its edit, at a cost: its limits are tested first, then the pool is asked for room, and last the game is
/// tested.
fn make(
    alloc: Global,
    work: &mut Work,
    game: NodeId,
    arrays: &Arrays,
    edit: &Edit,
    cost: Cost,
) -> Result<Next, RuleError>
    requires prepared { IsPrepared work.old.pool.trees work.old.decls game arrays.now }
    requires small { tree.size (tree_at work.old.pool.trees (Some game)) ≤ 50000 }
    requires declared { All (IsLive (length work.old.pool.trees)) work.old.decls.list }
    requires limit { work.old.pool.limit < 4294967295 }
    requires can { CanBeMade work.old.pool.trees (tree_at work.old.pool.trees (Some game))
        edit.now }
    requires few { coefficients (terms_of cost false) ≤ most_coefficients }
    ensures answer { (c : StepCost) → cost ≡ cost_of c → IsAnswer work.old.pool.limit
        (length work.old.pool.trees)
        (need_of (tree_at work.old.pool.trees (Some game)) edit.now)
        (judgement_of_row (scene_of work.old.pool work.old.decls game) (Leads (edited
        work.old.pool.trees (tree_at work.old.pool.trees (Some game)) edit.now) c))
        work.new.pool.trees result }
    ensures prepared { IfOk result (λ next. IsPrepared work.new.pool.trees work.new.decls
        next.game.root next.arrays) }
    ensures grows { Grows work.old.pool work.new.pool }
    ensures few { OnOk result (length work.new.pool.trees ≤ length work.old.pool.trees
        + need_of (tree_at work.old.pool.trees (Some game)) edit.now) }
    ensures names { work.new.names ≡ work.old.names }
    ensures decls { work.new.decls ≡ work.old.decls }
{
    let Arrays::OfGame(directory) = arrays else {
        return Err(RuleError::Build(BuildError::OutOfMemory));
    };
    let extent = measure(alloc, &work.pool, game, directory, edit)?;
    check_limits(extent)?;
    let Some(root) = make_game(alloc, &mut work.pool, game, directory, edit)? else {
        return Err(refused(9));
    };
    game_at(alloc, work, root, cost)
}

/// Answers a step: its conditions are tested first, and then its next game is made. Where it isn't accepted, nodes may stay behind.
pub(crate) fn attempt(
    alloc: Global,
    work: &mut Work,
    game: NodeId,
    arrays: &Arrays,
    view: StepView,
) -> Result<Next, RuleError>
    requires prepared { IsPrepared work.old.pool.trees work.old.decls game arrays.now }
    requires small { tree.size (tree_at work.old.pool.trees (Some game)) ≤ 50000 }
    requires declared { All (IsLive (length work.old.pool.trees)) work.old.decls.list }
    requires live { AreLive (length work.old.pool.trees) view }
    requires short { AreShort (items_of_view work.old.pool.trees view) }
    requires limit { work.old.pool.limit < 4294967295 }
    ensures answer { IsAnswer work.old.pool.limit (length work.old.pool.trees)
        (needed_by (tree_at work.old.pool.trees (Some game))
        (rule_of_items (items_of_view work.old.pool.trees view)))
        (judgement_by (scene_of work.old.pool work.old.decls game)
        (rule_of_items (items_of_view work.old.pool.trees view))) work.new.pool.trees result }
    ensures prepared { IfOk result (λ next. IsPrepared work.new.pool.trees work.new.decls
        next.game.root next.arrays) }
    ensures grows { Grows work.old.pool work.new.pool }
    ensures few { OnOk result (length work.new.pool.trees ≤ length work.old.pool.trees + needed_by
        (tree_at work.old.pool.trees (Some game))
        (rule_of_items (items_of_view work.old.pool.trees view))) }
    ensures names { work.new.names ≡ work.old.names }
    ensures decls { work.new.decls ≡ work.old.decls }
{
    let planned = plan(alloc, work, game, arrays, view)?;
    let cost = planned.cost;
    make(alloc, work, game, arrays, &planned.edit, cost)
}
