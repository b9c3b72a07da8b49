ghost use Rattle.std.specs.Prelude.{◌≡◌, ◌<◌, ◌^◌, All, IfErr, IfOk, None, OnOk, Some, length, map};
ghost use Rattle.cv_syntax.specs.Classes.{equiv_in};
ghost use Rattle.cv_syntax_trees.specs.Tree.{size};
ghost use Rattle.cv_syntax.specs.PoolTrees.{tree_at};
ghost use Rattle.cv_directory.specs.Live.{IsLive};
ghost use Rattle.cv_syntax_trees.specs.sites.Sites as directory;
ghost use Rattle.cv_scope_rules.specs.typing.Signature.{OfGame};
ghost use Rattle.cv_typing.specs.Tables.{arrays_of};
ghost use Rattle.cv_scene.specs.Refusals.{first_refusal};
ghost use Rattle.cv_scene.specs.Sites.{sites_of};
ghost use Rattle.cv_match_terms.specs.patterns.Searches.{IsReady};
ghost use Rattle.cv_match_terms.specs.patterns.Sites.{HasInstance, IsLiveSite, site_in};
ghost use Rattle.cv_match.specs.instances.Matchings.{matching_by};
ghost use Rattle.cv_match_terms.specs.uses.Tallies.{IsTableOf};
ghost use Rattle.cv_match.specs.Fitting.{IsSmallSite};
ghost use Rattle.cv_match.specs.Matched.{IsFault, key_refusal, matching_of, site_refusal};

use crate::arguments::argument_use;
use crate::coins::coin_use;
use crate::fault::MatchFault;
use crate::instances::{outside_use, sites};
use crate::key::has_key;
use crate::reads::condition_use;
use cv_match_terms::heads::Heads;
use cv_match_terms::patterns::{Search, Site};
use cv_match_terms::uses::UseTable;
use cv_scope_rules::Position;
use cv_syntax::children::{first_of, second_of};
use cv_syntax::{Game, NameId, Work};
use cv_typing::Arrays;
use std::alloc::{AllocError, Global};
use std::collections::HashMap;

/// The sites of an equivalence in a game where a variable stands for its key: the instances of its left side, in preorder.
#[derive(Drop)]
pub struct Match {
    pub equiv: NameId,
    pub x: NameId,
    pub sites: Vec<Site>,
}

/// What is looked for in a game with these variables, for an equivalence and a key.
fn search_for<'a>(
    alloc: Global,
    work: &Work,
    game: Game,
    arrays: &'a Arrays,
    equiv: NameId,
    x: NameId,
) -> Result<Search<'a>, AllocError>
    requires live { game.root.0 < length work.now.pool.trees }
    requires fits { size (tree_at work.now.pool.trees (Some game.root)) < 2 ^ 32 }
    requires declared { All (IsLive (length work.now.pool.trees)) work.now.decls.list }
    requires arrays { arrays_of arrays.now
        ≡ OfGame (directory.sites_of (tree_at work.now.pool.trees (Some game.root))) }
    ensures ready { IfOk result (IsReady work.now.pool) }
    ensures matching { IfOk result (λ s. matching_by work.now.pool work.now.decls s
        ≡ matching_of work.now.pool work.now.decls game.root equiv.0 x.0) }
{
    let side = first_of(&work.pool, work.decls.equiv(equiv));
    let heads = Heads::of(alloc, &work.pool, second_of(&work.pool, side))?;
    Ok(Search {
        game: game.root,
        side,
        key: x.0,
        arrays,
        heads,
        above: HashMap::new(alloc),
    })
}

/// Whether the key has one definition, a `new` of its type, and is read in instances alone.
fn check_key(work: &Work, search: &Search, table: &UseTable) -> Result<(), MatchFault>
    requires ready { IsReady work.now.pool search.now }
    requires table { IsTableOf (tree_at work.now.pool.trees (Some search.now.game)) table.now }
    requires declared { All (IsLive (length work.now.pool.trees)) work.now.decls.list }
    ensures none { OnOk result
        (key_refusal (matching_by work.now.pool work.now.decls search.now) ≡ None) }
    ensures fault { IfErr result
        (IsFault (key_refusal (matching_by work.now.pool work.now.decls search.now))) }
{
    if !has_key(work, search, table) {
        return Err(MatchFault::NotOneSite);
    }
    let game = Some(search.game);
    if let Err(place) = outside_use(work, search, false, Position::Anywhere, 0, game) {
        return Err(MatchFault::Use(place));
    }
    let x = search.key;
    if let Err(place) = condition_use(&work.pool, x, false, Position::Anywhere, 0, game) {
        return Err(MatchFault::InCondition(place));
    }
    Ok(())
}

/// Whether the coins of sites are their own, and the arguments don't read the key.
fn check_sites(
    work: &Work,
    search: &Search,
    table: &UseTable,
    sites: &[Site],
) -> Result<(), MatchFault>
    requires ready { IsReady work.now.pool search.now }
    requires table { IsTableOf (tree_at work.now.pool.trees (Some search.now.game)) table.now }
    requires declared { All (IsLive (length work.now.pool.trees)) work.now.decls.list }
    requires live { All (IsLiveSite (length work.now.pool.trees)) sites.now }
    requires small { All (IsSmallSite work.now.pool.trees) sites.now }
    ensures none { OnOk result
        (site_refusal (matching_by work.now.pool work.now.decls search.now)
        (map (site_in work.now.pool.trees
        (matching_by work.now.pool work.now.decls search.now)) sites.now) ≡ None) }
    ensures fault { IfErr result
        (IsFault (site_refusal (matching_by work.now.pool work.now.decls search.now)
        (map (site_in work.now.pool.trees
        (matching_by work.now.pool work.now.decls search.now)) sites.now))) }
{
    if let Some(place) = coin_use(work, search, table, sites) {
        return Err(MatchFault::CoinUse(place));
    }
    if let Some(place) = argument_use(work, search, sites) {
        return Err(MatchFault::KeyInArgument(place));
    }
    Ok(())
}

/// The sites of an equivalence's left side in a game with these variables, where one of them stands for the key; or the first
/// reason why it has none that serve.
pub fn matches(
    alloc: Global,
    work: &Work,
    game: Game,
    arrays: &Arrays,
    equiv: NameId,
    x: NameId,
) -> Result<Match, MatchFault>
    requires live { game.root.0 < length work.now.pool.trees }
    requires fits { size (tree_at work.now.pool.trees (Some game.root)) < 2 ^ 32 }
    requires declared { All (IsLive (length work.now.pool.trees)) work.now.decls.list }
    requires short { size (tree_at work.now.pool.trees
        (equiv_in work.now.decls.list equiv.0)) < 2 ^ 32 }
    requires arrays { arrays_of arrays.now
        ≡ OfGame (directory.sites_of (tree_at work.now.pool.trees (Some game.root))) }
    ensures none { OnOk result (first_refusal
        (matching_of work.now.pool work.now.decls game.root equiv.0 x.0) ≡ None) }
    ensures sites { IfOk result (λ found. map (site_in work.now.pool.trees
        (matching_of work.now.pool work.now.decls game.root equiv.0 x.0)) found.sites.items
        ≡ sites_of (matching_of work.now.pool work.now.decls game.root equiv.0 x.0)) }
    ensures live { IfOk result (λ found.
        All (IsLiveSite (length work.now.pool.trees)) found.sites.items) }
    ensures instances { IfOk result (λ found. All (HasInstance work.now.pool.trees
        (matching_of work.now.pool work.now.decls game.root equiv.0 x.0)) found.sites.items) }
    ensures equiv { IfOk result (λ found. found.equiv ≡ equiv) }
    ensures key { IfOk result (λ found. found.x ≡ x) }
    ensures fault { IfErr result (IsFault (first_refusal
        (matching_of work.now.pool work.now.decls game.root equiv.0 x.0))) }
{
    let search = search_for(alloc, work, game, arrays, equiv, x)?;
    let table = UseTable::of(alloc, &work.pool, game.root)?;
    check_key(work, &search, &table)?;
    let sites = sites(alloc, work, &search)?;
    check_sites(work, &search, &table, sites.as_slice())?;
    Ok(Match { equiv, x, sites })
}
