ghost use Rattle.std.specs.Prelude.{◌≡◌, ◌<◌, ◌≤◌, ◌^◌, All, IfOk, Some, length};
ghost use Rattle.cv_syntax_trees.specs.Tree as tree;
ghost use Rattle.cv_syntax.specs.Declarations.{declarations};
ghost use Rattle.cv_syntax.specs.PoolTrees.{tree_at};
ghost use Rattle.cv_directory.specs.Live.{IsLive};
ghost use Rattle.cv_syntax_trees.specs.sites.Sites.{sites_of};
ghost use Rattle.cv_typing.specs.Tables.{arrays_of};
ghost use Rattle.cv_scope_rules.specs.typing.Signature.{OfGame};
ghost use Rattle.cv_scope_rules.specs.Phrases.{IsWellFormed};
ghost use Rattle.cv_scene_view.specs.Kept.{scene_of};
ghost use Rattle.cv_edit_places.specs.Plans.{IsPriced};
ghost use Rattle.cv_rule_birthday.specs.guess.Looks.{IsGuessed};
ghost use Rattle.cv_rule_birthday.specs.guess.Needs.{made_without_guesses};
ghost use Rattle.cv_rule_birthday.specs.guess.Row.{guess_step};

use crate::conditions::{failed, stands};
use crate::guess::changing::falsified_parts;
use crate::guess::comparisons::first_outside;
use crate::guess::costs::cost_of_guesses;
use crate::guess::reads::first_other_read;
use cv_costs::{first_other_site, is_large};
use cv_edit_places::{Change, Failure, Priced};
use cv_scene_view::is_queried;
use cv_syntax::{NodeId, Work};
use cv_syntax_trees::sites::Sort;
use cv_typing::Arrays;
use std::alloc::{AllocError, Global};

/// The large type of a variable that is compared at some places and read nowhere else; or the first condition that fails.
fn guessed_type(
    work: &Work,
    game: NodeId,
    arrays: &Arrays,
    x: u32,
    places: &[u32],
) -> Result<u32, Failure>
    requires live { game.0 < length work.now.pool.trees }
    requires fits { tree.size (tree_at work.now.pool.trees (Some game)) < 2 ^ 32 }
    requires declared { All (IsLive (length work.now.pool.trees)) work.now.decls.list }
    requires arrays { arrays_of arrays.now
        ≡ OfGame (sites_of (tree_at work.now.pool.trees (Some game))) }
    ensures { IsGuessed (scene_of work.now.pool work.now.decls game) x places.now result }
{
    if let Some(place) = first_outside(&work.pool, game, x, places) {
        return Err(failed(1, place));
    }
    if let Some(place) = first_other_site(work, game, x) {
        return Err(failed(2, place));
    }
    let Some(Sort::OfType(of_type)) = arrays.variable_sort(x) else {
        return Err(failed(2, 0));
    };
    if !is_large(work, game, of_type) {
        return Err(failed(2, 0));
    }
    if let Some(place) = first_other_read(&work.pool, game, x, places) {
        return Err(failed(3, place));
    }
    if is_queried(work, game, x) {
        return Err(failed(4, 0));
    }
    Ok(of_type)
}

/// How a `guess` changes a game, and what it costs; or the first condition that fails.
pub fn plan(
    alloc: Global,
    work: &Work,
    game: NodeId,
    arrays: &Arrays,
    x: u32,
    places: &[u32],
) -> Result<Result<Priced, Failure>, AllocError>
    requires live { game.0 < length work.now.pool.trees }
    requires small { tree.size (tree_at work.now.pool.trees (Some game)) ≤ 50000 }
    requires declared { All (IsLive (length work.now.pool.trees)) work.now.decls.list }
    requires arrays { arrays_of arrays.now
        ≡ OfGame (sites_of (tree_at work.now.pool.trees (Some game))) }
    requires formed { IsWellFormed (declarations work.now.pool.trees work.now.decls.list)
        (tree_at work.now.pool.trees (Some game)) }
    ensures { IfOk result (IsPriced work.now.pool.trees
        (scene_of work.now.pool work.now.decls game) (guess_step x places.now) 0
        (made_without_guesses x places.now (tree_at work.now.pool.trees (Some game)))) }
{
    if !stands(work, game, x, places) {
        return Ok(Err(failed(0, 0)));
    }
    let of_type = match guessed_type(work, game, arrays, x, places) {
        Ok(of_type) => of_type,
        Err(failure) => return Ok(Err(failure)),
    };
    let parts = falsified_parts(alloc, &work.pool, game, x, places)?;
    Ok(Ok(Priced {
        change: Change::Built { parts },
        cost: cost_of_guesses(alloc, work, game, places, of_type)?,
    }))
}
