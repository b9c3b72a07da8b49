ghost use Rattle.std.specs.Prelude.{◌≡◌, ◌<◌, ◌≤◌, ◌^◌, All, IfErr, IfNone, IfOk, IfSome, Some, false, length};
ghost use Rattle.cv_pool.specs.Nodes.{ChildBelow};
ghost use Rattle.cv_syntax_trees.specs.Children.{is_empty};
ghost use Rattle.cv_syntax_trees.specs.Tree.{Empty};
ghost use Rattle.cv_syntax_trees.specs.Tree as tree;
ghost use Rattle.cv_syntax.specs.PoolTrees.{tree_at};
ghost use Rattle.cv_directory.specs.Live.{IsLive};
ghost use Rattle.cv_scene.specs.Scenes.{part_at};
ghost use Rattle.cv_scene_view.specs.Kept.{scene_of};
ghost use Rattle.cv_edit_places.specs.Plans.{IsPlanned, failed, failure_of};
ghost use Rattle.cv_rule_move.specs.merge.Looks as looks;
ghost use Rattle.cv_rule_move.specs.merge.Merging.{is_beside};
ghost use Rattle.cv_rule_move.specs.merge.Row.{merge_step};
ghost use Rattle.cv_rule_move.specs.merge.Site.{IsSite, body_of};

use crate::merge::bodies::{first_body, first_other};
use crate::merge::naming::{Skip, first_besides};
use cv_edit_places::{Change, Failure};
use cv_scene_view::{has_place, part_at};
use cv_syntax::children::is_empty;
use cv_syntax::{NodeId, Opened, Pool, Work, read_node, size};
use std::alloc::{AllocError, Global};

/// A construct, the place behind it, and its first body with its place.
#[derive(Clone, Copy)]
pub(crate) struct Site {
    pub(crate) construct: Opened,
    pub(crate) behind: u32,
    pub(crate) body: u32,
    pub(crate) process: NodeId,
}

/// A condition that fails.
fn failed(condition: u32, place: u32) -> Failure
    ensures { result ≡ failed condition place }
{
    Failure { condition, place }
}

/// The process of a body, if there is one.
fn process_in(pool: &Pool, body: Option<NodeId>) -> Option<NodeId>
    requires { ChildBelow (length pool.now.trees) body }
    ensures process { IfSome result (λ n.
        tree_at pool.now.trees (Some n) ≡ tree_at pool.now.trees body) }
    ensures full { IfSome result (λ n. is_empty (tree_at pool.now.trees (Some n)) ≡ false) }
    ensures live { IfSome result (λ n. n.0 < length pool.now.trees) }
    ensures none { IfNone result (tree_at pool.now.trees body ≡ Empty) }
{
    if is_empty(pool, body) {
        return None;
    }
    body
}

/// The construct at a place, where its bodies are all equal; or the first condition that fails.
fn site_at(work: &Work, game: NodeId, place: u32) -> Result<Site, Failure>
    requires live { game.0 < length work.now.pool.trees }
    requires small { tree.size (tree_at work.now.pool.trees (Some game)) ≤ 50000 }
    ensures site { IfOk result (IsSite work.now.pool.trees
        (scene_of work.now.pool work.now.decls game) place) }
    ensures refused { IfErr result (λ f. failure_of (scene_of work.now.pool work.now.decls game)
        (merge_step place) ≡ Some f) }
{
    if !has_place(work, game, place) {
        return Err(failed(0, 0));
    }
    let Some(node) = part_at(&work.pool, game, place) else {
        return Err(failed(1, 0));
    };
    let construct = read_node(&work.pool, node);
    let Some(body) = first_body(&work.pool, place, construct) else {
        return Err(failed(1, 0));
    };
    let Some(process) = process_in(&work.pool, body.process) else {
        return Err(failed(1, 0));
    };
    match first_other(&work.pool, place, construct, Some(process)) {
        Some(other) => Err(failed(2, other)),
        None => Ok(Site {
            construct,
            behind: place + size(&work.pool, node),
            body: body.place,
            process,
        }),
    }
}

/// The first place of a game where an index variable of a construct is named besides; 0, where a query names one.
fn named_besides(
    alloc: Global,
    work: &Work,
    game: NodeId,
    place: u32,
    site: Site,
) -> Result<Option<u32>, AllocError>
    requires live { game.0 < length work.now.pool.trees }
    requires small { tree.size (tree_at work.now.pool.trees (Some game)) ≤ 50000 }
    requires declared { All (IsLive (length work.now.pool.trees)) work.now.decls.list }
    requires site { IsSite work.now.pool.trees
        (scene_of work.now.pool work.now.decls game) place site }
    ensures { IfOk result (λ found. found ≡ looks.first_besides
        (scene_of work.now.pool work.now.decls game)
        (part_at (tree_at work.now.pool.trees (Some game)) place)
        (is_beside place (part_at (tree_at work.now.pool.trees (Some game)) place)
        (body_of work.now.pool.trees site))) }
{
    let skip = Skip {
        from: place,
        body: site.body,
        behind_body: site.body + size(&work.pool, site.process),
        behind: site.behind,
    };
    first_besides(alloc, work, game, site.construct, skip)
}

/// The body that stands for the construct at a place of a game from then on, or the first condition that fails.
pub fn plan(
    alloc: Global,
    work: &Work,
    game: NodeId,
    place: u32,
) -> Result<Result<Change, Failure>, AllocError>
    requires live { game.0 < length work.now.pool.trees }
    requires small { tree.size (tree_at work.now.pool.trees (Some game)) ≤ 50000 }
    requires declared { All (IsLive (length work.now.pool.trees)) work.now.decls.list }
    ensures { IfOk result (IsPlanned work.now.pool.trees
        (scene_of work.now.pool work.now.decls game) (merge_step place) place 0) }
{
    let site = match site_at(work, game, place) {
        Ok(site) => site,
        Err(failure) => return Ok(Err(failure)),
    };
    match named_besides(alloc, work, game, place, site)? {
        Some(naming) => Ok(Err(failed(3, naming))),
        None => Ok(Ok(Change::Replace { by: site.process })),
    }
}
