ghost use Rattle.std.specs.Prelude.{◌≡◌, ◌<◌, ◌==◌, ◌^◌, [], Some, length, reverse};
ghost use Rattle.std.specs.List.{list_any};
ghost use Rattle.cv_syntax_trees.specs.Tree.{size};
ghost use Rattle.cv_syntax.specs.PoolTrees.{tree_at};
ghost use Rattle.cv_scene_view.specs.Kept.{scene_of};
ghost use Rattle.cv_query_certificates.specs.PairParts as parts;
ghost use Rattle.cv_query_certificates.specs.Secrets as secrets;

use cv_costs::first_other_site;
use cv_query_offences::first_definition;
use cv_syntax::{NodeId, Work};

/// Whether a variable is one of these.
fn is_named(names: &[u32], x: u32) -> bool
    ensures { result ≡ list_any (λ y. y == x) names.now }
{
    names.iter().any(|y| *y == x)
}

/// Where the values of a variable can't be taken to differ: where it is defined otherwise than by a `new` of a large type, or at its first
/// definition, where it is named before, or 0, where it has none.
fn distinct_fault(work: &Work, game: NodeId, before: &[u32], x: u32) -> Option<u32>
    requires live { game.0 < length work.now.pool.trees }
    requires fits { size (tree_at work.now.pool.trees (Some game)) < 2 ^ 32 }
    ensures { result ≡ parts.distinct_fault (scene_of work.now.pool work.now.decls game)
        (reverse before.now) x
        (secrets.first_definition (tree_at work.now.pool.trees (Some game)) x) }
{
    let Some(site) = first_definition(&work.pool, game, x) else {
        return Some(0);
    };
    if let Some(other) = first_other_site(work, game, x) {
        return Some(other);
    }
    if is_named(before, x) {
        Some(site)
    } else {
        None
    }
}

/// Where the values of the first of the variables that can't be taken to differ can't.
pub(crate) fn first_unfit_name(work: &Work, game: NodeId, names: &[u32]) -> Option<u32>
    requires live { game.0 < length work.now.pool.trees }
    requires fits { size (tree_at work.now.pool.trees (Some game)) < 2 ^ 32 }
    ensures { result ≡ parts.first_unfit_name (scene_of work.now.pool work.now.decls game) []
        names.now }
{
    'names: for k in 0..names.len() {
        let fault = distinct_fault(work, game, &names[..k], names[k]);
        if fault.is_some() {
            return fault;
        }
    }
    None
}
