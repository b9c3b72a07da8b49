// The text of the contexts of steps.
ghost use Rattle.std.specs.Prelude.{◌≡◌, ◌++◌, codes, flat_map, map, option_map, OnOk};
ghost use Rattle.cv_context.specs.products.Products.{products};
ghost use Rattle.cv_context.specs.products.ShapesInCode.{calls_in, shape_in};
ghost use Rattle.cv_bound.specs.Texts.{joined_by, power_text, product_text};
ghost use Rattle.cv_report.specs.contexts.Contexts.{calls_text, context_text, parameters_text, sites_text};

use cv_context::products::{Calls, Shape};
use cv_costs::factors_of;
use cv_print::{push_decimal, push_name};
use cv_syntax::{NameId, Names};
use std::alloc::AllocError;

/// Appends a parameter with its exponent.
fn push_power(out: &mut Vec<u8>, names: &Names, factor: (NameId, u64)) -> Result<(), AllocError>
    ensures { OnOk result (out.new.items ≡ out.old.items ++ power_text names.now factor) }
{
    push_name(out, names, factor.0.0)?;
    if factor.1 == 1 {
        return Ok(());
    }
    out.extend_from_slice(b"^")?;
    push_decimal(out, factor.1)
}

/// Appends factors with a mark before each.
fn push_powers(
    out: &mut Vec<u8>,
    names: &Names,
    factors: &[(NameId, u64)],
) -> Result<(), AllocError>
    ensures { OnOk result (out.new.items
        ≡ out.old.items ++ flat_map (λ f. codes "*" ++ power_text names.now f) factors.now) }
{
    'factors: for k in 0..factors.len() {
        out.extend_from_slice(b"*")?;
        push_power(out, names, factors[k])?;
    }
    Ok(())
}

/// Appends a product.
fn push_product(
    out: &mut Vec<u8>,
    names: &Names,
    factors: &[(NameId, u64)],
) -> Result<(), AllocError>
    ensures { OnOk result (out.new.items ≡ out.old.items ++ product_text names.now factors.now) }
{
    match factors {
        [] => out.extend_from_slice(b"1"),
        [first, more @ ..] => {
            push_power(out, names, *first)?;
            push_powers(out, names, more)
        }
    }
}

/// Appends a product of parameters.
fn push_parameters(
    out: &mut Vec<u8>,
    names: &Names,
    order: &[u32],
    parameters: &[u32],
) -> Result<(), AllocError>
    ensures { OnOk result (out.new.items
        ≡ out.old.items ++ parameters_text names.now order.now parameters.now) }
{
    let alloc = *out.allocator();
    let factors = factors_of(alloc, order, parameters)?;
    push_product(out, names, &factors)
}

/// Appends products with a mark before each.
fn push_more_sites(
    out: &mut Vec<u8>,
    names: &Names,
    order: &[u32],
    sites: &[Vec<u32>],
) -> Result<(), AllocError>
    ensures { OnOk result (out.new.items ≡ out.old.items
        ++ flat_map (λ ns. codes " + " ++ parameters_text names.now order.now ns)
        (products sites.now)) }
{
    'sites: for k in 0..sites.len() {
        out.extend_from_slice(b" + ")?;
        push_parameters(out, names, order, sites[k].as_slice())?;
    }
    Ok(())
}

/// Appends the sum of a product for each site.
fn push_sites(
    out: &mut Vec<u8>,
    names: &Names,
    order: &[u32],
    sites: &[Vec<u32>],
) -> Result<(), AllocError>
    ensures { OnOk result (out.new.items
        ≡ out.old.items ++ sites_text names.now order.now (products sites.now)) }
{
    match sites {
        [] => out.extend_from_slice(b"0"),
        [first, more @ ..] => {
            push_parameters(out, names, order, first.as_slice())?;
            push_more_sites(out, names, order, more)
        }
    }
}

/// Appends a function with its calls.
fn push_calls(
    out: &mut Vec<u8>,
    names: &Names,
    order: &[u32],
    calls: &Calls,
) -> Result<(), AllocError>
    ensures { OnOk result (out.new.items
        ≡ out.old.items ++ calls_text names.now order.now (calls_in calls.now)) }
{
    push_name(out, names, calls.function)?;
    out.extend_from_slice(b" ")?;
    push_sites(out, names, order, calls.sites.as_slice())
}

/// Appends functions with a mark before each.
fn push_more_functions(
    out: &mut Vec<u8>,
    names: &Names,
    order: &[u32],
    calls: &[Calls],
) -> Result<(), AllocError>
    ensures { OnOk result (out.new.items ≡ out.old.items
        ++ flat_map (λ c. codes ", " ++ calls_text names.now order.now c)
        (map calls_in calls.now)) }
{
    'calls: for k in 0..calls.len() {
        out.extend_from_slice(b", ")?;
        push_calls(out, names, order, &calls[k])?;
    }
    Ok(())
}

/// Appends functions with their calls.
fn push_functions(
    out: &mut Vec<u8>,
    names: &Names,
    order: &[u32],
    calls: &[Calls],
) -> Result<(), AllocError>
    ensures { OnOk result (out.new.items ≡ out.old.items
        ++ joined_by (codes ", ") (calls_text names.now order.now) (map calls_in calls.now)) }
{
    match calls {
        [] => Ok(()),
        [first, more @ ..] => {
            push_calls(out, names, order, first)?;
            push_more_functions(out, names, order, more)
        }
    }
}

/// Appends the line of a step's context, where it has one.
pub fn push_context(
    out: &mut Vec<u8>,
    names: &Names,
    order: &[u32],
    number: u64,
    context: &Option<Shape>,
) -> Result<(), AllocError>
    ensures { OnOk result (out.new.items ≡ out.old.items
        ++ context_text names.now order.now number (option_map shape_in context.now)) }
{
    let Some(shape) = context else {
        return Ok(());
    };
    out.extend_from_slice(b"context C")?;
    push_decimal(out, number)?;
    out.extend_from_slice(b": key ")?;
    push_name(out, names, shape.key)?;
    out.extend_from_slice(b", keys ")?;
    push_parameters(out, names, order, shape.keys.as_slice())?;
    out.extend_from_slice(b", calls ")?;
    push_functions(out, names, order, shape.calls.as_slice())?;
    out.extend_from_slice(b"\n")
}
