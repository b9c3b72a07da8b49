ghost use Rattle.std.specs.Prelude.{◌≡◌, ◌++◌, ◌∷◌, All, OnOk, length, map, replicate};
ghost use Rattle.cv_pool.specs.Nodes.{ChildBelow};
ghost use Rattle.cv_syntax_trees.specs.declared.head.Head.TheVariants.{Cons};
ghost use Rattle.cv_syntax.specs.declared.make.Make.TheVariants.{Nothing, Over};
ghost use Rattle.cv_syntax.specs.Postorder.{postorder};
ghost use Rattle.cv_syntax_trees.specs.Tree.{chain, lone};
ghost use Rattle.cv_syntax.specs.PoolTrees.{tree_at};

use crate::parts::trees::push_tree;
use crate::{Head, Make, NodeId, Pool};
use std::alloc::AllocError;

/// Makes a tree without children.
#[tactic(auto, unfolding(crate::specs::Postorder::postorder), using(crate::proofs::parts::Making::making))]
pub fn push_leaf(makes: &mut Vec<Make>, head: Head) -> Result<(), AllocError>
    ensures { OnOk result (makes.new.items ≡ makes.old.items ++ postorder (lone head)) }
{
    makes.push(Make::Nothing)?;
    makes.push(Make::Nothing)?;
    makes.push(Make::Over(head))?;
    Ok(())
}

/// Makes a list of so many trees, which were made before.
#[tactic(auto, using(crate::proofs::parts::Making::making))]
pub fn close_list(makes: &mut Vec<Make>, count: usize) -> Result<(), AllocError>
    ensures { OnOk result (makes.new.items
        ≡ makes.old.items ++ Nothing ∷ replicate count (Over Cons)) }
{
    makes.push(Make::Nothing)?;
    'cells: for _ in 0..count {
        makes.push(Make::Over(Head::Cons))?;
    }
    Ok(())
}

/// Makes a list of copies of trees.
#[tactic(auto, using(crate::proofs::parts::Making::making))]
pub fn push_chain(
    makes: &mut Vec<Make>,
    pool: &Pool,
    terms: &[Option<NodeId>],
) -> Result<(), AllocError>
    requires { All (ChildBelow (length pool.now.trees)) terms.now }
    ensures { OnOk result (makes.new.items
        ≡ makes.old.items ++ postorder (chain (map (tree_at pool.now.trees) terms.now))) }
{
    'terms: for k in 0..terms.len() {
        push_tree(makes, pool, terms[k])?;
    }
    close_list(makes, terms.len())
}
