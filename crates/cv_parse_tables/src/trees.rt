ghost use Rattle.std.specs.Prelude.{◌≡◌, ◌++◌, OnOk};
ghost use Rattle.cv_syntax_trees.specs.Tree.{lone};
ghost use Rattle.cv_syntax.specs.Postorder.{postorder};
ghost use Rattle.cv_parse_tables.specs.Trees.{single_parts, over_parts};

use cv_syntax::{Head, Make};
use std::alloc::AllocError;

/// Makes a tree without children.
#[tactic(auto, unfolding(cv_syntax::specs::Postorder::postorder), using(cv_parse_terms::proofs::Made::makes))]
pub fn leaf(makes: &mut Vec<Make>, head: Head) -> Result<(), AllocError>
    ensures { OnOk result (makes.new.items ≡ makes.old.items ++ postorder (lone head)) }
{
    makes.push(Make::Nothing)?;
    makes.push(Make::Nothing)?;
    makes.push(Make::Over(head))?;
    Ok(())
}

/// Makes one tree of so many, which were made before.
#[tactic(auto, using(crate::proofs::Parts::parts))]
pub fn close_all(makes: &mut Vec<Make>, count: usize) -> Result<(), AllocError>
    ensures { OnOk result (makes.new.items ≡ makes.old.items ++ single_parts count) }
{
    if count == 0 {
        makes.push(Make::Nothing)?;
        return Ok(());
    }
    'cells: for _ in 0..count - 1 {
        makes.push(Make::Over(Head::Cons))?;
    }
    Ok(())
}

/// Makes a node over so many trees, which were made before.
#[tactic(auto, using(crate::proofs::Parts::parts))]
pub fn close_over(makes: &mut Vec<Make>, head: Head, count: usize) -> Result<(), AllocError>
    ensures { OnOk result (makes.new.items ≡ makes.old.items ++ over_parts head count) }
{
    if count == 0 {
        makes.push(Make::Nothing)?;
        makes.push(Make::Nothing)?;
    } else {
        close_all(makes, count - 1)?;
    }
    makes.push(Make::Over(head))?;
    Ok(())
}
