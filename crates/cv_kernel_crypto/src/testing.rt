ghost use Rattle.std.specs.Prelude.{◌≡◌, ◌<◌, ◌^◌, All, IfErr, IfOk, IfSome, OnOk, Some, false, length, true};
ghost use Rattle.cv_syntax.specs.Declarations.{declarations};
ghost use Rattle.cv_syntax_trees.specs.Tree.{size};
ghost use Rattle.cv_syntax.specs.PoolTrees.{tree_at};
ghost use Rattle.cv_directory.specs.Definitions.{entries_of, large_in};
ghost use Rattle.cv_directory.specs.Live.{IsLive};
ghost use Rattle.cv_syntax_trees.specs.sites.Sites.{sites_of};
ghost use Rattle.cv_directory.specs.Tables.{entries_in, seen};
ghost use Rattle.cv_scope_rules.specs.typing.Signature.{OfGame};
ghost use Rattle.cv_typing.specs.Tables.{arrays_of, directory_in};
ghost use Rattle.cv_meaning.specs.Queries.{queries_in};
ghost use Rattle.cv_steps_laws.specs.crypto.Secrets as secrets;
ghost use Rattle.cv_steps_laws.specs.crypto.Steps.{is_next};
ghost use Rattle.cv_kernel_crypto.specs.Faults.{IsNoNext, IsNotKept};

use crate::fault::{CryptoFault, refused};
use crate::games::{Next, next_at};
use crate::sorts::has_declared_sorts;
use cv_bound::Cost;
use cv_directory::Directory;
use cv_query_form::has_values;
use cv_scene_view::names;
use cv_syntax::{BuildError, Head, NodeId, Pool, Work, query_at, read_node};
use cv_typing::Arrays;
use std::alloc::Global;

/// Whether a game has a name, but not as that of a variable with values of a type.
fn is_without_values(pool: &Pool, game: NodeId, sites: &Directory, x: u32) -> bool
    requires live { game.0 < length pool.now.trees }
    requires sites { seen sites.now ≡ sites_of (tree_at pool.now.trees (Some game)) }
    ensures { result ≡ secrets.is_without_values (tree_at pool.now.trees (Some game)) x }
{
    !has_values(sites, x) && names(pool, x, Some(game))
}

/// Whether a query asks for the secrecy of such a name.
fn asks_without_values(pool: &Pool, game: NodeId, sites: &Directory, query: NodeId) -> bool
    requires live { game.0 < length pool.now.trees }
    requires sites { seen sites.now ≡ sites_of (tree_at pool.now.trees (Some game)) }
    requires query { query.0 < length pool.now.trees }
    ensures { result ≡ secrets.asks_without_values (tree_at pool.now.trees (Some game))
        (tree_at pool.now.trees (Some query)) }
{
    match read_node(pool, query).head {
        Head::Secret(x) => is_without_values(pool, game, sites, x),
        Head::SecretOnce(x) => is_without_values(pool, game, sites, x),
        _ => false,
    }
}

/// Whether a query of the file does.
fn some_asks_without_values(work: &Work, game: NodeId, sites: &Directory) -> bool
    requires live { game.0 < length work.now.pool.trees }
    requires declared { All (IsLive (length work.now.pool.trees)) work.now.decls.list }
    requires sites { seen sites.now ≡ sites_of (tree_at work.now.pool.trees (Some game)) }
    ensures { result
        ≡ secrets.some_asks_without_values (tree_at work.now.pool.trees (Some game))
        (queries_in (declarations work.now.pool.trees work.now.decls.list)) }
{
    'decls: for k in 0..work.decls.len() {
        let Some(query) = query_at(&work.decls, k) else {
            continue;
        };
        if asks_without_values(&work.pool, game, sites, query) {
            return true;
        }
    }
    false
}

/// Whether no query of the file asks for the secrecy of a name that the game has without values.
fn check_queries(work: &Work, game: NodeId, arrays: &Arrays) -> Result<(), CryptoFault>
    requires live { game.0 < length work.now.pool.trees }
    requires declared { All (IsLive (length work.now.pool.trees)) work.now.decls.list }
    requires arrays { arrays_of arrays.now
        ≡ OfGame (sites_of (tree_at work.now.pool.trees (Some game))) }
    ensures none { OnOk result (secrets.some_asks_without_values
        (tree_at work.now.pool.trees (Some game))
        (queries_in (declarations work.now.pool.trees work.now.decls.list)) ≡ false) }
    ensures fault { IfErr result (IsNotKept (secrets.some_asks_without_values
        (tree_at work.now.pool.trees (Some game))
        (queries_in (declarations work.now.pool.trees work.now.decls.list)))) }
{
    let Arrays::OfGame(directory) = arrays else {
        return Err(CryptoFault::Build(BuildError::OutOfMemory));
    };
    if some_asks_without_values(work, game, directory) {
        return Err(refused(9, 0));
    }
    Ok(())
}

/// The game at a node, as a step leads to it that has a cost: where it is a game, the types and parameters that it names are
/// declared, and no query of the file asks for the secrecy of a name that it has without values.
pub(crate) fn tested(
    alloc: Global,
    work: &Work,
    root: NodeId,
    cost: Cost,
) -> Result<Next, CryptoFault>
    requires live { root.0 < length work.now.pool.trees }
    requires declared { All (IsLive (length work.now.pool.trees)) work.now.decls.list }
    requires fits { size (tree_at work.now.pool.trees (Some root)) < 2 ^ 32 }
    ensures game { OnOk result (is_next (declarations work.now.pool.trees work.now.decls.list)
        (tree_at work.now.pool.trees (Some root)) ≡ true) }
    ensures fault { IfErr result (IsNoNext
        (is_next (declarations work.now.pool.trees work.now.decls.list)
        (tree_at work.now.pool.trees (Some root)))) }
    ensures root { IfOk result (λ next. next.game.root ≡ root) }
    ensures cost { IfOk result (λ next. next.cost ≡ cost) }
    ensures arrays { IfOk result (λ next.
        arrays_of next.arrays ≡ OfGame (sites_of (tree_at work.now.pool.trees (Some root)))) }
    ensures entries { IfOk result (λ next. IfSome (directory_in next.arrays)
        (λ d. entries_in work.now.pool.trees d ≡ entries_of (large_in work.now.decls.list)
        (tree_at work.now.pool.trees (Some root)))) }
{
    let Some(mut next) = next_at(alloc, work, root)? else {
        return Err(refused(9, 0));
    };
    if !has_declared_sorts(&work.pool, &work.decls, Some(root)) {
        return Err(refused(9, 0));
    }
    match check_queries(work, root, &next.arrays) {
        Ok(()) => {
            next.cost = cost;
            Ok(next)
        }
        Err(fault) => Err(fault),
    }
}
