// The factors of products of parameters, in the order in which the parameters are declared, and costs of such products.
ghost use Rattle.std.specs.Prelude.{◌≡◌, ◌+◌, ◌<◌, ◌^◌, [], ◌∷◌, ◌++◌, All, IfOk, List, OnOk, length, true};
ghost use Rattle.cv_pool.specs.KindTree.{KindTree};
ghost use Rattle.cv_syntax.specs.Declarations.{declarations};
ghost use Rattle.cv_steps.specs.Costs.{cost_of};
ghost use Rattle.cv_steps.specs.Steps as steps;
ghost use Rattle.cv_costs.specs.Collisions as specs;
ghost use Rattle.cv_costs.specs.Collisions.{one_for_each, one_for_pairs};
ghost use Rattle.cv_costs.specs.Factors as factors;
ghost use Rattle.cv_costs.specs.Factors.{is_before, parameter_in, parameters_in, with_parameter};

use cv_bound::{Collision, Collisions, Cost, Factors};
use cv_syntax::{Class, Decl, Decls, NameId};
use std::alloc::{AllocError, Global};

/// Adds the parameter that a declaration declares.
fn add_declared(order: &mut Vec<u32>, decl: &Decl) -> Result<(), AllocError>
    ensures { OnOk result (order.new.items ≡ order.old.items ++ parameter_in decl.now) }
{
    match decl {
        Decl::Name {
            id,
            class: Class::Param,
            ..
        } => order.push(id.0)?,
        _ => {}
    }
    Ok(())
}

/// The parameters that are declared, in order.
pub fn order_of(alloc: Global, decls: &Decls) -> Result<Vec<u32>, AllocError>
    ensures { IfOk result (λ order. order.items ≡ parameters_in decls.now.list) }
{
    let mut order = Vec::new(alloc);
    'decls: for k in 0..decls.len() {
        if let Some(decl) = decls.get(k) {
            add_declared(&mut order, decl)?;
        }
    }
    Ok(order)
}

/// Whether a parameter stands before another one in the order.
fn is_before(order: &[u32], n: u32, m: u32) -> bool
    ensures { result ≡ is_before order.now n m }
{
    'order: for k in 0..order.len() {
        if order[k] == n {
            return true;
        }
        if order[k] == m {
            return false;
        }
    }
    false
}

/// Adds a parameter to the factors of a product.
fn add_parameter(factors: &mut Vec<(NameId, u64)>, order: &[u32], n: u32) -> Result<(), AllocError>
    requires { All (λ f. f.1 + 1 < 2 ^ 64) factors.old.items }
    ensures { OnOk result (factors.new.items ≡ with_parameter order.now n factors.old.items) }
{
    'factors: for k in 0..factors.len() {
        let x = factors[k].0.0;
        if n == x {
            factors[k].1 += 1;
            return Ok(());
        }
        if is_before(order, n, x) {
            factors.insert(k, (NameId(n), 1))?;
            return Ok(());
        }
    }
    factors.push((NameId(n), 1))?;
    Ok(())
}

/// The factors of a product of parameters.
pub fn factors_of(
    alloc: Global,
    order: &[u32],
    parameters: &[u32],
) -> Result<Vec<(NameId, u64)>, AllocError>
    ensures { IfOk result (λ made.
        made.items ≡ factors.factors_of order.now parameters.now) }
{
    let mut factors = Vec::new(alloc);
    let mut left = parameters.len();
    'parameters: while left > 0 {
        left -= 1;
        add_parameter(&mut factors, order, parameters[left])?;
    }
    Ok(factors)
}

/// The same factors with exponents of a byte.
fn shortened(alloc: Global, factors: &[(NameId, u64)]) -> Result<Vec<(NameId, u8)>, AllocError>
    requires { All (λ f. f.1 < 256) factors.now }
    ensures { IfOk result (λ made. made.items ≡ factors.now) }
{
    let mut made = Vec::new(alloc);
    'factors: for k in 0..factors.len() {
        let (x, power) = factors[k];
        made.push((x, power as u8))?;
    }
    Ok(made)
}

/// The chance of one value of a type, or of half of one, for each copy below replications with these parameters.
pub fn collision_of(
    alloc: Global,
    decls: &Decls,
    parameters: &[u32],
    half: bool,
    over: u32,
) -> Result<Collision, AllocError>
    requires { length parameters.now < 256 }
    ensures { (trees : List KindTree) → IfOk result (λ made. made ≡ specs.collision_of
        (declarations trees decls.now.list) parameters.now half over) }
{
    let order = order_of(alloc, decls)?;
    let factors = factors_of(alloc, &order, parameters)?;
    Ok(Collision {
        times: 1,
        factors: Factors::of(shortened(alloc, &factors)?),
        half,
        over: NameId(over),
    })
}

/// One collision as a cost.
fn cost_of_one(alloc: Global, collision: Collision) -> Result<Cost, AllocError>
    ensures { IfOk result (λ made. made ≡ cost_of (steps.Collisions (collision ∷ []))) }
{
    let mut list = Vec::new(alloc);
    list.push(collision)?;
    Ok(Cost::Collisions(Collisions::of(list)))
}

/// The cost of one value of a type, for each copy below replications with these parameters.
pub fn cost_of_copies(
    alloc: Global,
    decls: &Decls,
    parameters: &[u32],
    over: u32,
) -> Result<Cost, AllocError>
    requires { length parameters.now < 256 }
    ensures { (trees : List KindTree) → IfOk result (λ made. made ≡ cost_of (one_for_each
        (declarations trees decls.now.list) parameters.now over)) }
{
    let collision = collision_of(alloc, decls, parameters, false, over)?;
    cost_of_one(alloc, collision)
}

/// The same parameters twice.
fn twice(alloc: Global, parameters: &[u32]) -> Result<Vec<u32>, AllocError>
    ensures { IfOk result (λ made. made.items ≡ parameters.now ++ parameters.now) }
{
    let mut made = Vec::new(alloc);
    made.extend_from_slice(parameters)?;
    made.extend_from_slice(parameters)?;
    Ok(made)
}

/// The chance that two values of a type are equal, for each pair of copies below replications with these parameters.
pub(crate) fn collision_of_pairs(
    alloc: Global,
    decls: &Decls,
    parameters: &[u32],
    over: u32,
) -> Result<Collision, AllocError>
    requires { length parameters.now < 128 }
    ensures { (trees : List KindTree) → IfOk result (λ made. made ≡ specs.collision_of
        (declarations trees decls.now.list) (parameters.now ++ parameters.now) true over) }
{
    let both = twice(alloc, parameters)?;
    collision_of(alloc, decls, both.as_slice(), true, over)
}

/// The cost of two equal values of a type, for each pair of copies below replications with these parameters.
pub fn cost_of_pairs(
    alloc: Global,
    decls: &Decls,
    parameters: &[u32],
    over: u32,
) -> Result<Cost, AllocError>
    requires { length parameters.now < 128 }
    ensures { (trees : List KindTree) → IfOk result (λ made. made ≡ cost_of (one_for_pairs
        (declarations trees decls.now.list) parameters.now over)) }
{
    let collision = collision_of_pairs(alloc, decls, parameters, over)?;
    cost_of_one(alloc, collision)
}
