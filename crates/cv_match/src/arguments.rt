ghost use Rattle.std.specs.Prelude.{◌≡◌, All, length, map};
ghost use Rattle.cv_scene.specs.Refusals as refusals;
ghost use Rattle.cv_match_terms.specs.patterns.Sites.{IsLiveSite, site_in};
ghost use Rattle.cv_match.specs.instances.Matchings.{matching_by};
ghost use Rattle.cv_match.specs.Fitting.{IsSmallSite, use_at};

use crate::reads::argument_use as use_in_argument;
use cv_match_terms::patterns::{Search, Site, body_of};
use cv_syntax::{Pool, Work};

/// The first place of a site where what stands for an argument reads a variable.
fn use_at(pool: &Pool, x: u32, site: &Site) -> Option<u32>
    requires live { IsLiveSite (length pool.now.trees) site.now }
    requires small { IsSmallSite pool.now.trees site.now }
    ensures { result ≡ use_at pool.now.trees x site.now }
{
    let body = body_of(pool, site.pattern);
    use_in_argument(pool, x, site.pattern, body, site.place, Some(site.term))
}

/// The first place where what stands for an argument of one of the sites reads the key.
#[tactic(auto, using(crate::proofs::Serving::first))]
pub fn argument_use(work: &Work, search: &Search, sites: &[Site]) -> Option<u32>
    requires live { All (IsLiveSite (length work.now.pool.trees)) sites.now }
    requires small { All (IsSmallSite work.now.pool.trees) sites.now }
    ensures { result ≡ refusals.first_argument_use
        (matching_by work.now.pool work.now.decls search.now)
        (map (site_in work.now.pool.trees
        (matching_by work.now.pool work.now.decls search.now)) sites.now) }
{
    for site in sites {
        if let Some(place) = use_at(&work.pool, search.key, site) {
            return Some(place);
        }
    }
    None
}
