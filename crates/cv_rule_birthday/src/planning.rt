ghost use Rattle.std.specs.Prelude.{◌≡◌, ◌<◌, ◌≤◌, IfOk, Some, length};
ghost use Rattle.cv_syntax_trees.specs.Tree.{size};
ghost use Rattle.cv_syntax.specs.Declarations.{declarations};
ghost use Rattle.cv_syntax.specs.PoolTrees.{tree_at};
ghost use Rattle.cv_syntax_trees.specs.sites.Sites.{sites_of};
ghost use Rattle.cv_typing.specs.Tables.{arrays_of};
ghost use Rattle.cv_scope_rules.specs.typing.Signature.{OfGame};
ghost use Rattle.cv_scope_rules.specs.Phrases.{IsWellFormed};
ghost use Rattle.cv_scene_view.specs.Kept.{scene_of};
ghost use Rattle.cv_edit_places.specs.Plans.{IsPriced};
ghost use Rattle.cv_rule_birthday.specs.Comparing.{is_one_of};
ghost use Rattle.cv_rule_birthday.specs.Needs.{made_of_changed};
ghost use Rattle.cv_rule_birthday.specs.Row.{birthday_step};

use crate::changing::changed_parts;
use crate::choices::chosen_type;
use crate::conditions::{failed, stands};
use cv_costs::{cost_of_pairs, parameters_of};
use cv_edit_places::{Change, Failure, Priced};
use cv_syntax::{NodeId, Work};
use cv_typing::Arrays;
use std::alloc::{AllocError, Global};

/// How a `birthday` changes a game, and what it costs; or the condition that fails.
pub fn plan(
    alloc: Global,
    work: &Work,
    game: NodeId,
    arrays: &Arrays,
    x: u32,
    places: &[u32],
) -> Result<Result<Priced, Failure>, AllocError>
    requires live { game.0 < length work.now.pool.trees }
    requires small { size (tree_at work.now.pool.trees (Some game)) ≤ 50000 }
    requires arrays { arrays_of arrays.now
        ≡ OfGame (sites_of (tree_at work.now.pool.trees (Some game))) }
    requires formed { IsWellFormed (declarations work.now.pool.trees work.now.decls.list)
        (tree_at work.now.pool.trees (Some game)) }
    ensures { IfOk result (IsPriced work.now.pool.trees
        (scene_of work.now.pool work.now.decls game) (birthday_step x places.now) 0
        (made_of_changed (is_one_of places.now) 0
        (tree_at work.now.pool.trees (Some game)))) }
{
    if !stands(work, game, x, places) {
        return Ok(Err(failed(0, 0)));
    }
    let of_type = match chosen_type(work, game, arrays, x, places) {
        Ok(of_type) => of_type,
        Err(failure) => return Ok(Err(failure)),
    };
    let parameters = parameters_of(alloc, arrays, x)?;
    let parts = changed_parts(alloc, &work.pool, game, places)?;
    Ok(Ok(Priced {
        change: Change::Built { parts },
        cost: cost_of_pairs(alloc, &work.decls, parameters.as_slice(), of_type)?,
    }))
}
