ghost use Rattle.std.specs.Prelude.{◌≡◌, ◌<◌, ◌^◌, All, IfOk, length, map};
ghost use Rattle.cv_pool.specs.Nodes.{ChildBelow};
ghost use Rattle.cv_syntax_trees.specs.Tree.{size};
ghost use Rattle.cv_syntax.specs.PoolTrees.{tree_at};
ghost use Rattle.cv_meaning.specs.contexts.Groups.{bound_of, functions_of};
ghost use Rattle.cv_inline_draws.specs.callings.RightFunctions.{AreNodes, IsLiveFunction, function_in};

use cv_syntax::children::read_child;
use cv_syntax::{Head, NodeId, Pool, read_node};
use std::alloc::{AllocError, Global};

/// The nodes of a list of functions.
pub(crate) fn functions_in(
    alloc: Global,
    pool: &Pool,
    list: Option<NodeId>,
) -> Result<Vec<NodeId>, AllocError>
    requires live { ChildBelow (length pool.now.trees) list }
    requires fits { size (tree_at pool.now.trees list) < 2 ^ 32 }
    requires nodes { AreNodes (tree_at pool.now.trees list) }
    ensures functions { IfOk result (λ fs. map (function_in pool.now.trees) fs.items
        ≡ functions_of (tree_at pool.now.trees list)) }
    ensures live { IfOk result (λ fs. All (IsLiveFunction pool.now.trees) fs.items) }
{
    let mut functions = Vec::new(alloc);
    let mut at = list;
    'list: while let Some(n) = at {
        let node = read_node(pool, n);
        let Some(function) = node.first else {
            return Ok(functions);
        };
        functions.push(function)?;
        at = node.second;
    }
    Ok(functions)
}

/// The bound of a function, by the node over what it takes.
pub(crate) fn bound_at(pool: &Pool, taken: Option<NodeId>) -> u32
    requires { ChildBelow (length pool.now.trees) taken }
    ensures { result ≡ bound_of (tree_at pool.now.trees taken) }
{
    let Some(node) = read_child(pool, taken) else {
        return 0;
    };
    match node.head {
        Head::Bound(_, n) => n,
        Head::Single(f) => f,
        _ => 0,
    }
}
