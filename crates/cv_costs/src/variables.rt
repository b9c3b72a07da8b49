ghost use Rattle.std.specs.Prelude.{◌≡◌, IfOk};
ghost use Rattle.cv_typing.specs.Tables.{arrays_of};
ghost use Rattle.cv_scope_rules.specs.typing.Signature.{variable_in};
ghost use Rattle.cv_costs.specs.Collisions as collisions;
ghost use Rattle.cv_costs.specs.Copies.{parameters_by};

use cv_syntax_trees::sites::Sort;
use cv_typing::Arrays;
use std::alloc::{AllocError, Global};

/// The type of a variable's values, or the parameter where they are indices.
pub fn type_of(sort: Sort) -> u32
    ensures { result ≡ collisions.type_of sort }
{
    match sort {
        Sort::OfType(t) => t,
        Sort::BelowParameter(n) => n,
    }
}

/// The parameters of a variable's copies.
pub fn parameters_of(alloc: Global, arrays: &Arrays, x: u32) -> Result<Vec<u32>, AllocError>
    ensures { IfOk result (λ made. made.items
        ≡ parameters_by (variable_in (arrays_of arrays.now) x)) }
{
    let mut made = Vec::new(alloc);
    let mut k = 0;
    'parameters: while let Some(n) = arrays.parameter(x, k) {
        made.push(n)?;
        k += 1;
    }
    Ok(made)
}
