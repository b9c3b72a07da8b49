ghost use Rattle.std.specs.Prelude.{◌≡◌, All, IfOk, length, map};
ghost use Rattle.cv_pool.specs.Nodes.{ChildBelow};
ghost use Rattle.cv_syntax.specs.PoolTrees.{tree_at};
ghost use Rattle.cv_meaning.specs.Correspondences.{typed_names};
ghost use Rattle.cv_meaning.specs.contexts.Groups.{function_of, group_of};
ghost use Rattle.cv_scene.specs.Instances.{guess, term_for};
ghost use Rattle.cv_match_terms.specs.patterns.Sites.{IsInstanceIn};

use crate::patterns::filling::term_of;
use crate::patterns::names::{arguments_of, coins_of, key_of};
use crate::patterns::site::Instance;
use cv_syntax::{Head, NodeId, Pool, read_node};
use std::alloc::{AllocError, Global};

/// The terms that stand for the names of a list of binders.
fn listed_terms(
    alloc: Global,
    pool: &Pool,
    f: Option<NodeId>,
    term: Option<NodeId>,
    list: Option<NodeId>,
) -> Result<Vec<Option<NodeId>>, AllocError>
    requires function { ChildBelow (length pool.now.trees) f }
    requires term { ChildBelow (length pool.now.trees) term }
    requires list { ChildBelow (length pool.now.trees) list }
    ensures terms { IfOk result (λ ns. map (tree_at pool.now.trees) ns.items
        ≡ map (term_for (function_of (tree_at pool.now.trees f)).body
        (tree_at pool.now.trees term)) (typed_names (tree_at pool.now.trees list))) }
    ensures live { IfOk result (λ ns. All (ChildBelow (length pool.now.trees)) ns.items) }
{
    let mut terms = Vec::new(alloc);
    let mut at = list;
    'list: while let Some(n) = at {
        let node = read_node(pool, n);
        let Head::Binder(x, _) = node.head else {
            return Ok(terms);
        };
        terms.push(term_of(pool, f, term, x))?;
        at = node.second;
    }
    Ok(terms)
}

/// The terms that stand for the names of a function, where a term is to be its instance.
pub fn terms_of(
    alloc: Global,
    pool: &Pool,
    side: Option<NodeId>,
    f: Option<NodeId>,
    term: Option<NodeId>,
) -> Result<Instance, AllocError>
    requires side { ChildBelow (length pool.now.trees) side }
    requires function { ChildBelow (length pool.now.trees) f }
    requires term { ChildBelow (length pool.now.trees) term }
    ensures { IfOk result (IsInstanceIn pool.now.trees
        (guess (group_of (tree_at pool.now.trees side)) (function_of (tree_at pool.now.trees f))
        (tree_at pool.now.trees term))) }
{
    let key = term_of(pool, f, term, key_of(pool, side).0);
    let coins = listed_terms(alloc, pool, f, term, coins_of(pool, f))?;
    let arguments = listed_terms(alloc, pool, f, term, arguments_of(pool, f))?;
    Ok(Instance {
        key,
        coins,
        arguments,
    })
}
