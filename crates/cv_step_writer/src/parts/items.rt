ghost use Rattle.std.specs.Prelude.{◌≡◌, ◌++◌, ◌<◌, OnOk, All, length};
ghost use Rattle.cv_syntax.specs.Postorder.{postorder};
ghost use Rattle.cv_step_writer.specs.Derivations.{IsBelow};
ghost use Rattle.cv_step_writer.specs.Items as items;

use cv_syntax::parts::{close_list, push_leaf, push_tree};
use cv_syntax::{Head, Make, NameId, NodeId, Pool};
use std::alloc::AllocError;

/// Makes a number.
#[tactic(auto, using(crate::proofs::Making::making))]
pub(crate) fn push_number(makes: &mut Vec<Make>, value: u64) -> Result<(), AllocError>
    ensures { OnOk result (makes.new.items
        ≡ makes.old.items ++ postorder (items.number value)) }
{
    push_leaf(makes, Head::Number(value))
}

/// Makes a name.
#[tactic(auto, using(crate::proofs::Making::making))]
pub(crate) fn push_name(makes: &mut Vec<Make>, x: NameId) -> Result<(), AllocError>
    ensures { OnOk result (makes.new.items ≡ makes.old.items ++ postorder (items.name x)) }
{
    push_leaf(makes, Head::Name(x.0))
}

/// Makes a copy of a term.
#[tactic(auto, using(crate::proofs::Making::making))]
pub(crate) fn push_term(makes: &mut Vec<Make>, pool: &Pool, term: NodeId) -> Result<(), AllocError>
    requires { term.0 < length pool.now.trees }
    ensures { OnOk result (makes.new.items
        ≡ makes.old.items ++ postorder (items.term pool.now.trees term)) }
{
    push_tree(makes, pool, Some(term))
}

/// Makes a list of numbers.
#[tactic(auto, using(crate::proofs::Making::making))]
pub(crate) fn push_numbers(makes: &mut Vec<Make>, values: &[u64]) -> Result<(), AllocError>
    ensures { OnOk result (makes.new.items
        ≡ makes.old.items ++ postorder (items.numbers values.now)) }
{
    'items: for k in 0..values.len() {
        push_number(makes, values[k])?;
    }
    close_list(makes, values.len())
}

/// Makes a list of names.
#[tactic(auto, using(crate::proofs::Making::making))]
pub(crate) fn push_names(makes: &mut Vec<Make>, xs: &[NameId]) -> Result<(), AllocError>
    ensures { OnOk result (makes.new.items
        ≡ makes.old.items ++ postorder (items.names xs.now)) }
{
    'items: for k in 0..xs.len() {
        push_name(makes, xs[k])?;
    }
    close_list(makes, xs.len())
}

/// Makes a list of copies of terms.
#[tactic(auto, using(crate::proofs::Making::making))]
pub(crate) fn push_terms(
    makes: &mut Vec<Make>,
    pool: &Pool,
    terms: &[NodeId],
) -> Result<(), AllocError>
    requires { All (IsBelow (length pool.now.trees)) terms.now }
    ensures { OnOk result (makes.new.items
        ≡ makes.old.items ++ postorder (items.terms pool.now.trees terms.now)) }
{
    'items: for k in 0..terms.len() {
        push_term(makes, pool, terms[k])?;
    }
    close_list(makes, terms.len())
}
