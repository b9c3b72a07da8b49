ghost use Rattle.std.specs.Prelude.{◌≡◌, ◌<◌, ◌≤◌, ◌+◌, IfSome, length, option_map};
ghost use Rattle.cv_pool.specs.Nodes.{ChildBelow};
ghost use Rattle.cv_syntax_trees.specs.Tree.{size};
ghost use Rattle.cv_syntax.specs.PoolTrees.{tree_at};
ghost use Rattle.cv_syntax.specs.Walks.{above};
ghost use Rattle.cv_inline_sites.specs.Calls.{argument_in, first_argument};

use cv_syntax::{Head, NodeId, Pool, read_node};

/// The first argument of a call, with its name and its type, and what stands behind.
#[derive(Clone, Copy)]
pub struct Argument {
    pub name: u32,
    pub of: u32,
    pub term: Option<NodeId>,
    pub binders: Option<NodeId>,
    pub terms: Option<NodeId>,
}

/// The first argument of a call, where these are the arguments of the function and the terms that stand for them.
pub fn first_argument(
    pool: &Pool,
    binders: Option<NodeId>,
    terms: Option<NodeId>,
) -> Option<Argument>
    requires binders { ChildBelow (length pool.now.trees) binders }
    requires terms { ChildBelow (length pool.now.trees) terms }
    ensures argument { option_map (argument_in pool.now.trees) result
        ≡ first_argument (tree_at pool.now.trees binders) (tree_at pool.now.trees terms) }
    ensures term { IfSome result (λ a. ChildBelow (length pool.now.trees) a.term) }
    ensures binders { IfSome result (λ a. ChildBelow (length pool.now.trees) a.binders) }
    ensures terms { IfSome result (λ a. ChildBelow (length pool.now.trees) a.terms) }
    ensures below { IfSome result (λ a. above a.binders < above binders) }
    ensures small { IfSome result (λ a. size (tree_at pool.now.trees a.term)
        + size (tree_at pool.now.trees a.terms) ≤ size (tree_at pool.now.trees terms)) }
{
    let binder = read_node(pool, binders?);
    let Head::Binder(name, of) = binder.head else {
        return None;
    };
    let item = read_node(pool, terms?);
    Some(Argument {
        name,
        of,
        term: item.first,
        binders: binder.second,
        terms: item.second,
    })
}
