ghost use Rattle.std.specs.Prelude.{◌≡◌, ◌<◌, All, length, IfErr, IfOk, OnOk, None, Some};
ghost use Rattle.cv_syntax.specs.Declarations.{declarations};
ghost use Rattle.cv_syntax.specs.PoolTrees.{tree_at};
ghost use Rattle.cv_syntax_trees.specs.sites.Sites.{sites_of};
ghost use Rattle.cv_directory.specs.Tables.{seen};
ghost use Rattle.cv_directory.specs.Live.{IsLive};
ghost use Rattle.cv_meaning.specs.Queries.{queries_in};
ghost use Rattle.cv_query_form.specs.Refusals.{IsFirstRefusal, IsRefusalOf};
ghost use Rattle.cv_query_form.specs.Rules.{AreAsked};
ghost use Rattle.cv_query_form.specs.Tests.{first_refused as first_refused_of};

use crate::fault::QueryFault;
use crate::query::may_be_asked;
use cv_directory::Directory;
use cv_syntax::{Game, Work, query_at};
use std::alloc::{AllocError, Global};

/// Whether each query of a file may be asked of its game, which has this directory; or the first that may not.
pub fn check(
    alloc: Global,
    work: &Work,
    game: Game,
    directory: &Directory,
) -> Result<(), QueryFault>
    requires live { game.root.0 < length work.now.pool.trees }
    requires declared { All (IsLive (length work.now.pool.trees)) work.now.decls.list }
    requires sites { seen directory.now ≡ sites_of (tree_at work.now.pool.trees (Some game.root)) }
    ensures none { OnOk result (first_refused_of (tree_at work.now.pool.trees (Some game.root))
        (queries_in (declarations work.now.pool.trees work.now.decls.list)) ≡ None) }
    ensures asked { OnOk result (AreAsked (tree_at work.now.pool.trees (Some game.root))
        (queries_in (declarations work.now.pool.trees work.now.decls.list))) }
    ensures found { IfErr result (IsRefusalOf
        (first_refused_of (tree_at work.now.pool.trees (Some game.root))
        (queries_in (declarations work.now.pool.trees work.now.decls.list)))) }
    ensures fault { IfErr result (IsFirstRefusal (tree_at work.now.pool.trees (Some game.root))
        (queries_in (declarations work.now.pool.trees work.now.decls.list))) }
{
    match first_refused(alloc, work, game, directory)? {
        Some(number) => Err(QueryFault::Query(number)),
        None => Ok(()),
    }
}

/// The number, from 1, of the first query that may not be asked.
fn first_refused(
    alloc: Global,
    work: &Work,
    game: Game,
    directory: &Directory,
) -> Result<Option<u32>, AllocError>
    requires live { game.root.0 < length work.now.pool.trees }
    requires declared { All (IsLive (length work.now.pool.trees)) work.now.decls.list }
    requires sites { seen directory.now ≡ sites_of (tree_at work.now.pool.trees (Some game.root)) }
    ensures { IfOk result (λ number. number
        ≡ first_refused_of (tree_at work.now.pool.trees (Some game.root))
        (queries_in (declarations work.now.pool.trees work.now.decls.list))) }
{
    let mut number = 0;
    'decls: for k in 0..work.decls.len() {
        let Some(query) = query_at(&work.decls, k) else {
            continue;
        };
        number += 1;
        if !may_be_asked(alloc, &work.pool, directory, query)? {
            return Ok(Some(number));
        }
    }
    Ok(None)
}
