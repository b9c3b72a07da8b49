ghost use Rattle.std.specs.Prelude.{◌≡◌, ◌+◌, ◌<◌, ◌^◌, ◌++◌, All, IfOk, OnOk, Some, length, map};
ghost use Rattle.cv_pool.specs.Nodes.{ChildBelow};
ghost use Rattle.cv_syntax_trees.specs.Tree.{size};
ghost use Rattle.cv_syntax.specs.PoolTrees.{tree_at};
ghost use Rattle.cv_scene.specs.Sites.{sites_of};
ghost use Rattle.cv_match_terms.specs.patterns.Searches.{IsReady};
ghost use Rattle.cv_match_terms.specs.patterns.Sites.{HasInstance, IsLiveSite, site_in};
ghost use Rattle.cv_match.specs.instances.Matchings.{matching_by};
ghost use Rattle.cv_match.specs.instances.Walks.{sites_unless};

use crate::instances::calls::call_at;
use crate::instances::outside::is_guard;
use cv_match_terms::patterns::{Search, Site, note_site, terms_of};
use cv_match_terms::uses::pass_replication;
use cv_path::size_below;
use cv_scope_rules::Position;
use cv_syntax::{NodeId, Work, read_node};
use std::alloc::{AllocError, Global};

/// Notes the sites of a part of a game below replications, and gives the place behind the part.
fn gather(
    alloc: Global,
    work: &Work,
    search: &Search,
    sites: &mut Vec<Site>,
    passed: &mut Vec<(u32, u32)>,
    skip: bool,
    position: Position,
    from: u32,
    tree: Option<NodeId>,
) -> Result<u32, AllocError>
    requires ready { IsReady work.now.pool search.now }
    requires live { ChildBelow (length work.now.pool.trees) tree }
    requires fits { from + size (tree_at work.now.pool.trees tree) < 2 ^ 32 }
    requires sites { All (IsLiveSite (length work.now.pool.trees)) sites.old.items }
    requires instances { All (HasInstance work.now.pool.trees
        (matching_by work.now.pool work.now.decls search.now)) sites.old.items }
    ensures sites { OnOk result (map (site_in work.now.pool.trees
        (matching_by work.now.pool work.now.decls search.now)) sites.new.items
        ≡ map (site_in work.now.pool.trees
        (matching_by work.now.pool work.now.decls search.now)) sites.old.items
        ++ sites_unless skip (matching_by work.now.pool work.now.decls search.now) position
        passed.old.items from (tree_at work.now.pool.trees tree)) }
    ensures live { OnOk result (All (IsLiveSite (length work.now.pool.trees)) sites.new.items) }
    ensures instances { OnOk result (All (HasInstance work.now.pool.trees
        (matching_by work.now.pool work.now.decls search.now)) sites.new.items) }
    ensures passed { OnOk result (passed.new.items ≡ passed.old.items) }
    ensures next { IfOk result (λ next. next ≡ from + size (tree_at work.now.pool.trees tree)) }
{
    if skip {
        return Ok(from + size_below(&work.pool, tree));
    }
    let outside = passed.len();
    let mut place = from;
    let mut here = position;
    let mut at = tree;
    'tree: while let Some(k) = at {
        let node = read_node(&work.pool, k);
        if let Some(found) = call_at(work, search, k) {
            let instance = terms_of(alloc, &work.pool, search.side, found.function, Some(k))?;
            note_site(alloc, sites, passed.as_slice(), place, k, found, instance)?;
            passed.truncate(outside);
            return Ok(place + size_below(&work.pool, at));
        }
        let first = place + node.head.weight();
        place = gather(
            alloc,
            work,
            search,
            sites,
            passed,
            is_guard(here),
            here.first(node.head),
            first,
            node.first,
        )?;
        pass_replication(passed, node.head)?;
        here = here.second(node.head);
        at = node.second;
    }
    passed.truncate(outside);
    Ok(place)
}

/// The sites of the left side in the game, in preorder.
pub fn sites(alloc: Global, work: &Work, search: &Search) -> Result<Vec<Site>, AllocError>
    requires ready { IsReady work.now.pool search.now }
    ensures sites { IfOk result (λ ss. map (site_in work.now.pool.trees
        (matching_by work.now.pool work.now.decls search.now)) ss.items
        ≡ sites_of (matching_by work.now.pool work.now.decls search.now)) }
    ensures live { IfOk result (λ ss.
        All (IsLiveSite (length work.now.pool.trees)) ss.items) }
    ensures instances { IfOk result (λ ss. All (HasInstance work.now.pool.trees
        (matching_by work.now.pool work.now.decls search.now)) ss.items) }
{
    let mut sites = Vec::new(alloc);
    let mut passed = Vec::new(alloc);
    gather(
        alloc,
        work,
        search,
        &mut sites,
        &mut passed,
        false,
        Position::Anywhere,
        0,
        Some(search.game),
    )?;
    Ok(sites)
}
