ghost use Rattle.std.specs.Prelude.{◌≡◌, ◌++◌, [], false, IfOk, OnOk, flat_map, codes};
ghost use Rattle.cv_print.specs.Terms.{name_text};
ghost use Rattle.cv_bound.specs.Sums.{AllFit, added};
ghost use Rattle.cv_bound.specs.Texts as texts;
ghost use Rattle.cv_bound.specs.Texts.{
  collision_text,
  experiment_text,
  over_text,
  power_text,
  product_text,
  sum_text,
  term_text,
  times_text,
};

use crate::cost::{Collision, Cost};
use crate::sum::Sum;
use crate::terms::{Experiment, Term, terms_of};
use cv_print::push_decimal;
use cv_syntax::{NameId, Names};
use std::alloc::{AllocError, Global};

/// Appends a name.
fn push_name(out: &mut Vec<u8>, names: &Names, x: NameId) -> Result<(), AllocError>
    ensures { OnOk result (out.new.items ≡ out.old.items ++ name_text names.now x.0) }
{
    match names.get(x) {
        Some(text) => out.extend_from_slice(text.as_bytes()),
        None => Ok(()),
    }
}

/// Appends a parameter with its exponent.
fn push_power(out: &mut Vec<u8>, names: &Names, factor: (NameId, u8)) -> Result<(), AllocError>
    ensures { OnOk result (out.new.items ≡ out.old.items ++ power_text names.now factor) }
{
    push_name(out, names, factor.0)?;
    if factor.1 == 1 {
        return Ok(());
    }
    out.extend_from_slice(b"^")?;
    push_decimal(out, u64::from(factor.1))
}

/// Appends factors with a mark before each.
fn push_powers(out: &mut Vec<u8>, names: &Names, factors: &[(NameId, u8)]) -> Result<(), AllocError>
    ensures { OnOk result (out.new.items
        ≡ out.old.items ++ flat_map (λ f. codes "*" ++ power_text names.now f) factors.now) }
{
    'factors: for k in 0..factors.len() {
        out.extend_from_slice(b"*")?;
        push_power(out, names, factors[k])?;
    }
    Ok(())
}

/// Appends a product.
fn push_product(
    out: &mut Vec<u8>,
    names: &Names,
    factors: &[(NameId, u8)],
) -> Result<(), AllocError>
    ensures { OnOk result (out.new.items ≡ out.old.items ++ product_text names.now factors.now) }
{
    match factors {
        [] => out.extend_from_slice(b"1"),
        [first, more @ ..] => {
            push_power(out, names, *first)?;
            push_powers(out, names, more)
        }
    }
}

/// Appends a coefficient.
fn push_times(out: &mut Vec<u8>, times: u64) -> Result<(), AllocError>
    ensures { OnOk result (out.new.items ≡ out.old.items ++ times_text times) }
{
    if times == 1 {
        return Ok(());
    }
    push_decimal(out, times)?;
    out.extend_from_slice(b"*")
}

/// Appends the size of a type, or twice that size, that something is divided by.
fn push_over(out: &mut Vec<u8>, names: &Names, half: bool, over: NameId) -> Result<(), AllocError>
    ensures { OnOk result (out.new.items ≡ out.old.items ++ over_text names.now half over) }
{
    if half {
        out.extend_from_slice(b"/(2|")?;
        push_name(out, names, over)?;
        return out.extend_from_slice(b"|)");
    }
    out.extend_from_slice(b"/|")?;
    push_name(out, names, over)?;
    out.extend_from_slice(b"|")
}

/// Appends a term of a collision.
fn push_collision(out: &mut Vec<u8>, names: &Names, c: &Collision) -> Result<(), AllocError>
    ensures { OnOk result (out.new.items ≡ out.old.items ++ collision_text names.now c.now) }
{
    push_times(out, c.times)?;
    push_product(out, names, c.factors.as_slice())?;
    push_over(out, names, c.half, c.over)
}

/// Appends what stands for an experiment.
fn push_experiment(out: &mut Vec<u8>, experiment: Experiment) -> Result<(), AllocError>
    ensures { OnOk result (out.new.items ≡ out.old.items ++ experiment_text experiment) }
{
    match experiment {
        Experiment::Events => Ok(()),
        Experiment::Real => out.extend_from_slice(b", real"),
        Experiment::Random => out.extend_from_slice(b", random"),
    }
}

/// Appends a term of an advantage.
fn push_advantage(
    out: &mut Vec<u8>,
    names: &Names,
    step: u32,
    equiv: NameId,
    experiment: Experiment,
) -> Result<(), AllocError>
    ensures { OnOk result (out.new.items
        ≡ out.old.items ++ texts.advantage_text names.now step equiv experiment) }
{
    out.extend_from_slice(b"Adv(")?;
    push_name(out, names, equiv)?;
    out.extend_from_slice(b", C")?;
    push_decimal(out, u64::from(step))?;
    push_experiment(out, experiment)?;
    out.extend_from_slice(b")")
}

/// Appends a term.
fn push_term(out: &mut Vec<u8>, names: &Names, term: &Term) -> Result<(), AllocError>
    ensures { OnOk result (out.new.items ≡ out.old.items ++ term_text names.now term.now) }
{
    match term {
        Term::Collision(c) => push_collision(out, names, c),
        Term::Advantage {
            step,
            equiv,
            experiment,
        } => push_advantage(out, names, *step, *equiv, *experiment),
    }
}

/// Appends terms with a mark before each.
fn push_terms(out: &mut Vec<u8>, names: &Names, terms: &[Term]) -> Result<(), AllocError>
    ensures { OnOk result (out.new.items
        ≡ out.old.items ++ flat_map (λ t. codes " + " ++ term_text names.now t) terms.now) }
{
    'terms: for k in 0..terms.len() {
        out.extend_from_slice(b" + ")?;
        push_term(out, names, &terms[k])?;
    }
    Ok(())
}

/// Appends the sum of terms.
pub(crate) fn push_sum(out: &mut Vec<u8>, names: &Names, terms: &[Term]) -> Result<(), AllocError>
    ensures { OnOk result (out.new.items ≡ out.old.items ++ sum_text names.now terms.now) }
{
    match terms {
        [] => out.extend_from_slice(b"0"),
        [first, more @ ..] => {
            push_term(out, names, first)?;
            push_terms(out, names, more)
        }
    }
}

/// The text of the sum of a cost alone.
pub fn cost_text(alloc: Global, names: &Names, cost: &Cost) -> Result<Vec<u8>, AllocError>
    requires { AllFit (added [] cost.now false) }
    ensures { IfOk result (λ text. text.items ≡ texts.cost_text names.now cost.now) }
{
    let mut sum = Sum::new(alloc);
    sum.add(cost, false)?;
    sum.text(names)
}

/// The text of a cost whose terms stand as they are, equal ones too.
pub fn listed_text(alloc: Global, names: &Names, cost: &Cost) -> Result<Vec<u8>, AllocError>
    ensures { IfOk result (λ text. text.items ≡ texts.listed_text names.now cost.now) }
{
    let terms = terms_of(alloc, cost, false)?;
    let mut text = Vec::new(alloc);
    push_sum(&mut text, names, &terms)?;
    Ok(text)
}
