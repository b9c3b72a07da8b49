ghost use Rattle.std.specs.Prelude.{◌≡◌, ◌++◌, OnOk};
ghost use Rattle.cv_syntax.specs.Postorder.{postorder};
ghost use Rattle.cv_scope_rules.specs.Context.{cell_of, index_terms};

use cv_syntax::parts::{close_list, push_leaf};
use cv_syntax::{Head, Make};
use std::alloc::AllocError;

/// Makes the indices of replications.
#[tactic(auto, using(crate::proofs::nodes::Making::making))]
fn push_indices(makes: &mut Vec<Make>, replications: &[(u32, u32)]) -> Result<(), AllocError>
    ensures { OnOk result (makes.new.items
        ≡ makes.old.items ++ postorder (index_terms replications.now)) }
{
    'indices: for k in 0..replications.len() {
        push_leaf(makes, Head::Leaf(replications[k].0))?;
    }
    close_list(makes, replications.len())
}

/// Makes the cell of a variable below replications.
#[tactic(auto, unfolding(cv_syntax::specs::Postorder::postorder), using(crate::proofs::nodes::Making::making, crate::proofs::nodes::Making::cells))]
pub fn push_cell(
    makes: &mut Vec<Make>,
    replications: &[(u32, u32)],
    x: u32,
) -> Result<(), AllocError>
    ensures { OnOk result (makes.new.items
        ≡ makes.old.items ++ postorder (cell_of replications.now x)) }
{
    if replications.is_empty() {
        return push_leaf(makes, Head::Leaf(x));
    }
    push_indices(makes, replications)?;
    makes.push(Make::Nothing)?;
    makes.push(Make::Over(Head::Read(x)))?;
    Ok(())
}
