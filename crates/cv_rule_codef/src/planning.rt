ghost use Rattle.std.specs.Prelude.{◌≡◌, ◌<◌, ◌≤◌, ◌^◌, All, IfErr, IfOk, Some, length};
ghost use Rattle.cv_syntax_trees.specs.Tree as tree;
ghost use Rattle.cv_syntax.specs.PoolTrees.{tree_at};
ghost use Rattle.cv_directory.specs.Live.{IsLive};
ghost use Rattle.cv_syntax_trees.specs.sites.Sites.{sites_of};
ghost use Rattle.cv_typing.specs.Tables.{arrays_of};
ghost use Rattle.cv_scope_rules.specs.typing.Signature.{OfGame};
ghost use Rattle.cv_scene.specs.Scenes.{part_at};
ghost use Rattle.cv_scene_view.specs.Kept.{scene_of};
ghost use Rattle.cv_edit_places.specs.Plans.{IsPlanned, failed, failing};
ghost use Rattle.cv_rule_codef.specs.Needs.{made_of_codef};
ghost use Rattle.cv_rule_codef.specs.Row as row;
ghost use Rattle.cv_rule_codef.specs.Row.{codef_row, codef_step};
ghost use Rattle.cv_rule_codef.specs.Site.{IsSite};

use crate::adjacent::are_codefined;
use crate::lists::{Site, lists, relisted_parts, site_of};
use cv_derive_lines::Claim;
use cv_derive_lines::terms::is_typed_claim;
use cv_edit_places::{Change, Failure};
use cv_scene_view::{has_place, indices_at, part_at};
use cv_syntax::children::first_of;
use cv_syntax::{NodeId, Work, same};
use cv_typing::Arrays;
use std::alloc::{AllocError, Global};

/// A condition that fails, at no place.
fn refusal(condition: u32) -> Failure
    ensures { result ≡ failed condition 0 }
{
    Failure {
        condition,
        place: 0,
    }
}

/// Whether two cells are typed at a place of a game and have one list of indices.
fn stands(
    alloc: Global,
    work: &Work,
    game: NodeId,
    arrays: &Arrays,
    place: u32,
    to: NodeId,
    from: NodeId,
) -> Result<bool, AllocError>
    requires live { game.0 < length work.now.pool.trees }
    requires fits { tree.size (tree_at work.now.pool.trees (Some game)) < 2 ^ 32 }
    requires declared { All (IsLive (length work.now.pool.trees)) work.now.decls.list }
    requires arrays { arrays_of arrays.now
        ≡ OfGame (sites_of (tree_at work.now.pool.trees (Some game))) }
    requires to { to.0 < length work.now.pool.trees }
    requires from { from.0 < length work.now.pool.trees }
    ensures { IfOk result (λ there. there
        ≡ row.stands_codef (scene_of work.now.pool work.now.decls game) place
        (tree_at work.now.pool.trees (Some to)) (tree_at work.now.pool.trees (Some from))) }
{
    if !has_place(work, game, place) {
        return Ok(false);
    }
    let above = indices_at(alloc, work, game, place)?;
    if !is_typed_claim(work, arrays, &above, Claim::IsDefined(Some(to))) {
        return Ok(false);
    }
    if !is_typed_claim(work, arrays, &above, Claim::IsDefined(Some(from))) {
        return Ok(false);
    }
    let pool = &work.pool;
    Ok(same(pool, first_of(pool, Some(to)), first_of(pool, Some(from))))
}

/// The branch at a place of a game with its list, where the conditions behind the first hold; or the first condition that fails.
fn site_at(
    work: &Work,
    game: NodeId,
    place: u32,
    adds: bool,
    above: bool,
    to: NodeId,
    from: NodeId,
) -> Result<Site, Failure>
    requires live { game.0 < length work.now.pool.trees }
    requires fits { tree.size (tree_at work.now.pool.trees (Some game)) < 2 ^ 32 }
    requires to { to.0 < length work.now.pool.trees }
    requires from { from.0 < length work.now.pool.trees }
    ensures site { IfOk result (IsSite work.now.pool.trees
        (scene_of work.now.pool work.now.decls game) place adds above
        (tree_at work.now.pool.trees (Some to)) (tree_at work.now.pool.trees (Some from))) }
    ensures refused { IfErr result (λ f. failing (codef_row
        (scene_of work.now.pool work.now.decls game) place adds above
        (tree_at work.now.pool.trees (Some to)) (tree_at work.now.pool.trees (Some from)))
        ≡ Some f) }
{
    let pool = &work.pool;
    let branch = part_at(pool, game, place);
    let Some(site) = site_of(pool, from, branch) else {
        return Err(refusal(1));
    };
    if !are_codefined(pool, game, above, from, to) {
        return Err(refusal(2));
    }
    if lists(pool, to, branch) == adds {
        return Err(refusal(3));
    }
    Ok(site)
}

/// How a step that adds a cell to the list of the branch at a place, or drops it there, changes the game; or the first of its
/// conditions that fails.
pub fn plan(
    alloc: Global,
    work: &Work,
    game: NodeId,
    arrays: &Arrays,
    place: u32,
    adds: bool,
    above: bool,
    to: NodeId,
    from: NodeId,
) -> Result<Result<Change, Failure>, AllocError>
    requires live { game.0 < length work.now.pool.trees }
    requires small { tree.size (tree_at work.now.pool.trees (Some game)) ≤ 50000 }
    requires declared { All (IsLive (length work.now.pool.trees)) work.now.decls.list }
    requires arrays { arrays_of arrays.now
        ≡ OfGame (sites_of (tree_at work.now.pool.trees (Some game))) }
    requires to { to.0 < length work.now.pool.trees }
    requires from { from.0 < length work.now.pool.trees }
    requires short { tree.size (tree_at work.now.pool.trees (Some to)) < 2 ^ 31 }
    ensures { IfOk result (IsPlanned work.now.pool.trees
        (scene_of work.now.pool work.now.decls game)
        (codef_step place adds above (tree_at work.now.pool.trees (Some to))
        (tree_at work.now.pool.trees (Some from))) place
        (made_of_codef adds (tree_at work.now.pool.trees (Some to))
        (part_at (tree_at work.now.pool.trees (Some game)) place))) }
{
    if !stands(alloc, work, game, arrays, place, to, from)? {
        return Ok(Err(refusal(0)));
    }
    match site_at(work, game, place, adds, above, to, from) {
        Ok(site) => {
            let pool = &work.pool;
            let parts = relisted_parts(alloc, pool, adds, to, site.branch, site.link)?;
            Ok(Ok(Change::Built { parts }))
        }
        Err(failure) => Ok(Err(failure)),
    }
}
