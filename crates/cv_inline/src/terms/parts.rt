ghost use Rattle.std.specs.Prelude.{◌≡◌, ◌∷◌, IfOk, length};
ghost use Rattle.cv_pool.specs.Nodes.{ChildBelow};
ghost use Rattle.cv_syntax.specs.Postorder.{joined};
ghost use Rattle.cv_syntax_trees.specs.Tree as tree;
ghost use Rattle.cv_syntax_trees.specs.Tree.{Empty};
ghost use Rattle.cv_syntax.specs.PoolTrees.{tree_at};
ghost use Rattle.cv_inline.specs.terms.Stacks.{stack};

use cv_syntax::{Head, Make, NodeId, Pool, read_node};
use std::alloc::AllocError;

/// Puts a node over the two trees before it.
#[tactic(auto, using(crate::proofs::terms::Pushes::made_push))]
pub fn put(parts: &mut Vec<Make>, head: Head) -> Result<(), AllocError>
    ensures { IfOk result (λ _. stack parts.new.items ≡ joined head (stack parts.old.items)) }
{
    parts.push(Make::Over(head))?;
    Ok(())
}

/// Adds the tree without nodes.
#[tactic(auto, using(crate::proofs::terms::Pushes::made_push))]
pub fn nothing(parts: &mut Vec<Make>) -> Result<(), AllocError>
    ensures { IfOk result (λ _. stack parts.new.items ≡ Empty ∷ stack parts.old.items) }
{
    parts.push(Make::Nothing)?;
    Ok(())
}

/// Adds a node without children.
pub fn lone(parts: &mut Vec<Make>, head: Head) -> Result<(), AllocError>
    ensures { IfOk result (λ _. stack parts.new.items ≡ tree.lone head ∷ stack parts.old.items) }
{
    nothing(parts)?;
    nothing(parts)?;
    put(parts, head)
}

/// Adds a tree of the pool.
pub fn copy(pool: &Pool, parts: &mut Vec<Make>, part: Option<NodeId>) -> Result<(), AllocError>
    requires { ChildBelow (length pool.now.trees) part }
    ensures { IfOk result (λ _.
        stack parts.new.items ≡ tree_at pool.now.trees part ∷ stack parts.old.items) }
{
    let Some(n) = part else {
        return nothing(parts);
    };
    let node = read_node(pool, n);
    copy(pool, parts, node.first)?;
    copy(pool, parts, node.second)?;
    put(parts, node.head)
}
