ghost use Rattle.std.specs.Prelude.{◌≡◌, ◌==◌, All, Some, length, map, not};
ghost use Rattle.cv_pool.specs.Nodes.{ChildBelow};
ghost use Rattle.cv_syntax.specs.PoolTrees.{tree_at};
ghost use Rattle.cv_meaning.specs.Correspondences.{typed_names};
ghost use Rattle.cv_meaning.specs.contexts.Groups.{function_of};
ghost use Rattle.cv_scene.specs.Scenes.{is_queried};
ghost use Rattle.cv_scene.specs.Sights as sights;
ghost use Rattle.cv_directory.specs.Live.{IsLive};
ghost use Rattle.cv_scene.specs.Instances.{term_for};
ghost use Rattle.cv_scene.specs.Refusals as refusals;
ghost use Rattle.cv_scene.specs.Refusals.{new_of, stands_under};
ghost use Rattle.cv_match_terms.specs.patterns.Searches.{IsReady};
ghost use Rattle.cv_match_terms.specs.patterns.Sites.{IsLiveSite, site_in};
ghost use Rattle.cv_match.specs.instances.Matchings.{matching_by};
ghost use Rattle.cv_match_terms.specs.uses.Tallies.{IsTableOf};
ghost use Rattle.cv_match.specs.Fitting.{IsSmallSite, has_coins, is_own_use};

use crate::reads::{is_cell, is_used_as_often};
use cv_match_terms::patterns::{Search, Site, body_of, coins_of, term_of, variable_of};
use cv_match_terms::uses::UseTable;
use cv_scene_view::is_queried;
use cv_syntax::{Head, NodeId, Work, read_node};

/// Whether a variable has one definition in the game, a `new` below these replications.
fn is_drawn_below(
    work: &Work,
    search: &Search,
    table: &UseTable,
    x: u32,
    replications: &[(u32, u32)],
) -> bool
    requires { IsTableOf (tree_at work.now.pool.trees (Some search.now.game)) table.now }
    ensures { result ≡ stands_under replications.now (new_of
        (matching_by work.now.pool work.now.decls search.now).scene.game x) }
{
    table.is_drawn_below(x, replications)
}

/// Whether the game uses a variable as often as the function of a site uses a coin.
fn is_used_alike(
    work: &Work,
    search: &Search,
    table: &UseTable,
    site: &Site,
    coin: u32,
    x: u32,
) -> bool
    requires table { IsTableOf (tree_at work.now.pool.trees (Some search.now.game)) table.now }
    requires live { IsLiveSite (length work.now.pool.trees) site.now }
    requires small { IsSmallSite work.now.pool.trees site.now }
    ensures { result ≡ (refusals.uses x (tree_at work.now.pool.trees (Some search.now.game))
        == refusals.uses coin (function_of (tree_at work.now.pool.trees site.now.pattern)).body) }
{
    let body = body_of(&work.pool, site.pattern);
    is_used_as_often(&work.pool, table, x, coin, body)
}

/// Whether no query asks for a variable.
fn is_unasked(work: &Work, search: &Search, x: u32) -> bool
    requires { All (IsLive (length work.now.pool.trees)) work.now.decls.list }
    ensures { result ≡ not (is_queried
        (matching_by work.now.pool work.now.decls search.now).scene x) }
{
    !is_queried(work, search.game, x)
}

/// Whether a term reads a variable at the current indices of a site, and it is used for a coin alone.
fn is_own_use(
    work: &Work,
    search: &Search,
    table: &UseTable,
    site: &Site,
    coin: u32,
    x: u32,
    term: Option<NodeId>,
) -> bool
    requires ready { IsReady work.now.pool search.now }
    requires table { IsTableOf (tree_at work.now.pool.trees (Some search.now.game)) table.now }
    requires declared { All (IsLive (length work.now.pool.trees)) work.now.decls.list }
    requires live { IsLiveSite (length work.now.pool.trees) site.now }
    requires small { IsSmallSite work.now.pool.trees site.now }
    requires term { ChildBelow (length work.now.pool.trees) term }
    ensures { result ≡ is_own_use (matching_by work.now.pool work.now.decls search.now)
        (site_in work.now.pool.trees (matching_by work.now.pool work.now.decls search.now)
        site.now) coin (tree_at work.now.pool.trees term) x }
{
    is_cell(&work.pool, site.replications.as_slice(), x, term)
        && (is_unasked(work, search, x) && is_used_alike(work, search, table, site, coin, x))
}

/// Whether a term is a coin of a site: a read, at the current indices, of a variable that is drawn for this coin alone.
fn is_coin(
    work: &Work,
    search: &Search,
    table: &UseTable,
    site: &Site,
    coin: u32,
    term: Option<NodeId>,
) -> bool
    requires ready { IsReady work.now.pool search.now }
    requires table { IsTableOf (tree_at work.now.pool.trees (Some search.now.game)) table.now }
    requires declared { All (IsLive (length work.now.pool.trees)) work.now.decls.list }
    requires live { IsLiveSite (length work.now.pool.trees) site.now }
    requires small { IsSmallSite work.now.pool.trees site.now }
    requires term { ChildBelow (length work.now.pool.trees) term }
    ensures { result ≡ refusals.is_coin (matching_by work.now.pool work.now.decls search.now)
        (site_in work.now.pool.trees (matching_by work.now.pool work.now.decls search.now)
        site.now) coin (tree_at work.now.pool.trees term)
        (sights.variable_of (tree_at work.now.pool.trees term)) }
{
    let Some(x) = variable_of(&work.pool, term) else {
        return false;
    };
    if !is_drawn_below(work, search, table, x, site.replications.as_slice()) {
        return false;
    }
    is_own_use(work, search, table, site, coin, x, term)
}

/// Whether each coin of a list has its own term at a site.
fn are_coins(
    work: &Work,
    search: &Search,
    table: &UseTable,
    site: &Site,
    list: Option<NodeId>,
) -> bool
    requires ready { IsReady work.now.pool search.now }
    requires table { IsTableOf (tree_at work.now.pool.trees (Some search.now.game)) table.now }
    requires declared { All (IsLive (length work.now.pool.trees)) work.now.decls.list }
    requires live { IsLiveSite (length work.now.pool.trees) site.now }
    requires small { IsSmallSite work.now.pool.trees site.now }
    requires list { ChildBelow (length work.now.pool.trees) list }
    ensures { result ≡ refusals.are_coins (matching_by work.now.pool work.now.decls search.now)
        (site_in work.now.pool.trees (matching_by work.now.pool work.now.decls search.now)
        site.now) (typed_names (tree_at work.now.pool.trees list)) (map
        (term_for (function_of (tree_at work.now.pool.trees site.now.pattern)).body
        (tree_at work.now.pool.trees (Some site.now.term)))
        (typed_names (tree_at work.now.pool.trees list))) }
{
    let mut at = list;
    'list: while let Some(n) = at {
        let node = read_node(&work.pool, n);
        let Head::Binder(coin, _) = node.head else {
            return true;
        };
        let term = term_of(&work.pool, site.pattern, Some(site.term), coin);
        if !is_coin(work, search, table, site, coin, term) {
            return false;
        }
        at = node.second;
    }
    true
}

/// Whether each coin of a site has its own term there.
fn has_coins(work: &Work, search: &Search, table: &UseTable, site: &Site) -> bool
    requires ready { IsReady work.now.pool search.now }
    requires table { IsTableOf (tree_at work.now.pool.trees (Some search.now.game)) table.now }
    requires declared { All (IsLive (length work.now.pool.trees)) work.now.decls.list }
    requires live { IsLiveSite (length work.now.pool.trees) site.now }
    requires small { IsSmallSite work.now.pool.trees site.now }
    ensures { result ≡ has_coins
        (matching_by work.now.pool work.now.decls search.now) (site_in work.now.pool.trees
        (matching_by work.now.pool work.now.decls search.now) site.now) }
{
    are_coins(
        work,
        search,
        table,
        site,
        coins_of(&work.pool, site.pattern),
    )
}

/// The place of the first of the sites with a coin that isn't its own.
#[tactic(auto, using(crate::proofs::Serving::first))]
pub fn coin_use(work: &Work, search: &Search, table: &UseTable, sites: &[Site]) -> Option<u32>
    requires ready { IsReady work.now.pool search.now }
    requires table { IsTableOf (tree_at work.now.pool.trees (Some search.now.game)) table.now }
    requires declared { All (IsLive (length work.now.pool.trees)) work.now.decls.list }
    requires live { All (IsLiveSite (length work.now.pool.trees)) sites.now }
    requires small { All (IsSmallSite work.now.pool.trees) sites.now }
    ensures { result ≡ refusals.first_coin_use
        (matching_by work.now.pool work.now.decls search.now)
        (map (site_in work.now.pool.trees
        (matching_by work.now.pool work.now.decls search.now)) sites.now) }
{
    for site in sites {
        if !has_coins(work, search, table, site) {
            return Some(site.place);
        }
    }
    None
}
