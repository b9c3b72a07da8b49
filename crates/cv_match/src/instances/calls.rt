ghost use Rattle.std.specs.Prelude.{◌≡◌, ◌<◌, ◌≤◌, IfSome, Some, is_some, length, option_map};
ghost use Rattle.cv_pool.specs.Nodes.{ChildBelow};
ghost use Rattle.cv_syntax.specs.PoolTrees.{tree_at};
ghost use Rattle.cv_syntax.specs.Walks.{above};
ghost use Rattle.cv_meaning.specs.contexts.Groups.{functions_of};
ghost use Rattle.cv_scene.specs.Instances.{call_at as call_of, first_call};
ghost use Rattle.cv_match_terms.specs.patterns.Searches.{IsReady};
ghost use Rattle.cv_match_terms.specs.patterns.Sites.{found_call};
ghost use Rattle.cv_match.specs.instances.Matchings.{matching_by};

use crate::instances::instances::is_instance;
use cv_match_terms::patterns::{Found, Search};
use cv_syntax::{NodeId, Work, read_node};

/// The first of the functions of a list of which a term is an instance. Their nodes are numbered below a bound.
fn first_call(
    work: &Work,
    search: &Search,
    functions: Option<NodeId>,
    bound: u32,
    term: NodeId,
) -> Option<Found>
    requires ready { IsReady work.now.pool search.now }
    requires functions { ChildBelow (length work.now.pool.trees) functions }
    requires few { above functions ≤ bound }
    requires term { term.0 < length work.now.pool.trees }
    ensures call { option_map (found_call work.now.pool.trees
        (matching_by work.now.pool work.now.decls search.now) term) result
        ≡ first_call (matching_by work.now.pool work.now.decls search.now) 0
        (functions_of (tree_at work.now.pool.trees functions))
        (tree_at work.now.pool.trees (Some term)) }
    ensures live { IfSome result (λ o. ChildBelow (length work.now.pool.trees) o.function) }
{
    let mut position = 0;
    let mut at = functions;
    'functions: while let Some(n) = at {
        let node = read_node(&work.pool, n);
        if is_instance(work, search, node.first, Some(term)) {
            return Some(Found {
                position,
                function: node.first,
            });
        }
        position += 1;
        at = node.second;
    }
    None
}

/// The first function of the left side of which a term is an instance.
pub fn call_at(work: &Work, search: &Search, term: NodeId) -> Option<Found>
    requires ready { IsReady work.now.pool search.now }
    requires term { term.0 < length work.now.pool.trees }
    ensures call { option_map (found_call work.now.pool.trees
        (matching_by work.now.pool work.now.decls search.now) term) result
        ≡ call_of (matching_by work.now.pool work.now.decls search.now)
        (tree_at work.now.pool.trees (Some term)) }
    ensures live { IfSome result (λ o. ChildBelow (length work.now.pool.trees) o.function) }
{
    let Some(side) = search.side else {
        return None;
    };
    if !search.heads.may_begin(read_node(&work.pool, term).head) {
        return None;
    }
    let node = read_node(&work.pool, side);
    first_call(work, search, node.second, side.0, term)
}

/// Whether a term is an instance of a function of the left side.
pub fn is_call(work: &Work, search: &Search, term: NodeId) -> bool
    requires ready { IsReady work.now.pool search.now }
    requires term { term.0 < length work.now.pool.trees }
    ensures { result ≡ is_some (call_of (matching_by work.now.pool work.now.decls search.now)
        (tree_at work.now.pool.trees (Some term))) }
{
    match call_at(work, search, term) {
        Some(_) => true,
        None => false,
    }
}
