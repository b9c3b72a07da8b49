ghost use Rattle.std.specs.Prelude.{◌≡◌, length};
ghost use Rattle.cv_pool.specs.Nodes.{ChildBelow};
ghost use Rattle.cv_syntax.specs.PoolTrees.{tree_at};
ghost use Rattle.cv_meaning.specs.contexts.Groups.{function_of, group_of};
ghost use Rattle.cv_scene.specs.Sights as sights;
ghost use Rattle.cv_scene.specs.Instances as instances;
ghost use Rattle.cv_scene.specs.Instances.{guess, is_read_of};
ghost use Rattle.cv_match_terms.specs.patterns.Searches.{IsReady};
ghost use Rattle.cv_match.specs.instances.Matchings.{is_typed, matching_by};

use cv_match_terms::patterns::{
    Search, are_arguments, are_coins, arguments_of, coins_of, is_whole, key_of, term_of,
    variable_of,
};
use cv_syntax::{NodeId, Pool, Work};

/// Whether a term may stand for the key.
fn is_read(pool: &Pool, x: u32, term: Option<NodeId>) -> bool
    requires { ChildBelow (length pool.now.trees) term }
    ensures { result ≡ is_read_of x (sights.variable_of (tree_at pool.now.trees term)) }
{
    match variable_of(pool, term) {
        Some(y) => y == x,
        None => false,
    }
}

/// Whether each name of a function has a term that may stand for it.
#[tactic(auto, using(crate::proofs::instances::Testing::whole))]
fn is_typed(work: &Work, search: &Search, f: Option<NodeId>, term: Option<NodeId>) -> bool
    requires ready { IsReady work.now.pool search.now }
    requires function { ChildBelow (length work.now.pool.trees) f }
    requires term { ChildBelow (length work.now.pool.trees) term }
    ensures { result ≡ is_typed (matching_by work.now.pool work.now.decls search.now)
        (function_of (tree_at work.now.pool.trees f)) (tree_at work.now.pool.trees term) }
{
    let pool = &work.pool;
    let key = key_of(pool, search.side);
    is_read(pool, search.key, term_of(pool, f, term, key.0))
        && (are_coins(work, search, f, term, coins_of(pool, f))
            && are_arguments(work, search, f, term, arguments_of(pool, f)))
}

/// Whether a term is an instance of a function, with the terms that stand where its body first has its names.
#[tactic(auto, using(crate::proofs::instances::Testing::whole))]
pub fn is_instance(work: &Work, search: &Search, f: Option<NodeId>, term: Option<NodeId>) -> bool
    requires ready { IsReady work.now.pool search.now }
    requires function { ChildBelow (length work.now.pool.trees) f }
    requires term { ChildBelow (length work.now.pool.trees) term }
    ensures { result
        ≡ instances.is_instance (matching_by work.now.pool work.now.decls search.now)
        (function_of (tree_at work.now.pool.trees f))
        (guess (group_of (tree_at work.now.pool.trees search.now.side))
        (function_of (tree_at work.now.pool.trees f)) (tree_at work.now.pool.trees term))
        (tree_at work.now.pool.trees term) }
{
    is_whole(&work.pool, search.side, f, term) && is_typed(work, search, f, term)
}
