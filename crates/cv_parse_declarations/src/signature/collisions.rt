ghost use Rattle.std.specs.Prelude.{◌≡◌, ◌<◌, ◌≤◌, ◌^◌, ◌++◌, length, drop, OnOk};
ghost use Rattle.cv_syntax.specs.Postorder.{postorder};
ghost use Rattle.cv_parse_notation.specs.Form.{◌&◌, ◌◂◌};
ghost use Rattle.cv_parse_notation.specs.declared.sign.Mark.TheVariants.{Dot};
ghost use Rattle.cv_parse_grammar.specs.declared.role.Role.TheVariants.{BindsLocal};
ghost use Rattle.cv_parse_grammar.specs.Phrases.{typed as typed_form};
ghost use Rattle.cv_parse_grammar.specs.Terms.{term as term_form};
ghost use Rattle.cv_parse_grammar.specs.Declarations.{collision_decl as collision_form, collision_name as collision_name_form, forall_vars as forall_form, probability as probability_form};
ghost use Rattle.cv_parse_terms.specs.Gives.{Gives, Makes, read_in};
ghost use Rattle.cv_parse_declarations.specs.signature.Declares.{Declares};
ghost use Rattle.cv_parse_declarations.specs.signature.Sides.{MakesTerms, key_parts, parts_around, parts_before, parts_behind};

use crate::signature::heard::Heard;
use cv_parse_grammar::{Asked, Region, Role};
use cv_parse_notation::{Mark, Sign};
use cv_parse_terms::{
    NameUse, ReadError, Trail, enter, enter_with_names, expect, is_at, note, short, taken, term,
    unnamed, word,
};
use cv_syntax::{Head, Make};
use std::alloc::AllocError;

/// The name of a collision. Without one it has a name of its own, which stands in the token.
#[tactic(auto, using(cv_parse_terms::proofs::Places::places, cv_parse_terms::proofs::Levels::levels))]
fn collision_name(
    signs: &[Sign],
    at: usize,
    uses: &mut Vec<NameUse>,
    depth: u32,
) -> Result<(u32, usize), ReadError>
    requires at { at ≤ length signs.now }
    requires few { length signs.now < 2 ^ 32 }
    ensures gives { Gives signs.now uses.old.items uses.new.items result
        (read_in depth collision_name_form (drop at signs.now)) }
{
    let role = Role::Declares(Asked::AnEquivalence);
    if is_at(signs, at, Mark::Collision) {
        let place = expect(signs, at, Mark::Collision)?;
        return word(signs, place, uses, role);
    }
    unnamed(signs, at, uses, role)
}

/// The key of a collision, as a list of one variable.
fn key(signs: &[Sign], at: usize, trail: &mut Trail, depth: u32) -> Result<usize, ReadError>
    requires at { at ≤ length signs.now }
    requires few { length signs.now < 2 ^ 32 }
    ensures makes { Makes key_parts signs.now trail.old trail.new result
        (read_in depth (typed_form BindsLocal) (drop at signs.now)) }
{
    enter(207, signs, at, trail, depth)
}

/// The variables of a collision, where there are some.
fn variables(signs: &[Sign], at: usize, trail: &mut Trail, depth: u32) -> Result<usize, ReadError>
    requires at { at ≤ length signs.now }
    requires few { length signs.now < 2 ^ 32 }
    ensures makes { Makes postorder signs.now trail.old trail.new result
        (read_in depth forall_form (drop at signs.now)) }
{
    if is_at(signs, at, Mark::Forall) {
        return enter(151, signs, at, trail, depth);
    }
    trail.makes.push(Make::Nothing)?;
    Ok(at)
}

/// The probability that the two terms are told apart.
fn probability(
    signs: &[Sign],
    at: usize,
    trail: &mut Trail,
    depth: u32,
) -> Result<(u32, usize), ReadError>
    requires at { at ≤ length signs.now }
    requires few { length signs.now < 2 ^ 32 }
    ensures gives { Gives signs.now trail.old.uses.items trail.new.uses.items result
        (read_in depth probability_form (drop at signs.now)) }
    ensures makes { OnOk result (trail.new.makes.items ≡ trail.old.makes.items) }
{
    let mut names = Vec::new(*trail.makes.allocator());
    let place = enter_with_names(191, signs, at, trail, &mut names, depth)?;
    let name = short(taken(&mut names))?;
    Ok((name, place))
}

/// Makes what stands before the term of a collision's group, from the parts of its key and its variables.
fn make_before(
    makes: &mut Vec<Make>,
    name: u32,
    key: &[Make],
    args: &[Make],
) -> Result<(), AllocError>
    ensures { OnOk result (makes.new.items
        ≡ makes.old.items ++ parts_before name key.now args.now) }
{
    makes.extend_from_slice(key)?;
    makes.push(Make::Nothing)?;
    makes.extend_from_slice(args)?;
    makes.push(Make::Over(Head::Single(name)))?;
    Ok(())
}

/// Makes what stands behind the term of a collision's group.
fn make_behind(makes: &mut Vec<Make>, name: u32) -> Result<(), AllocError>
    ensures { OnOk result (makes.new.items ≡ makes.old.items ++ parts_behind name) }
{
    makes.push(Make::Over(Head::Oracle(name)))?;
    makes.push(Make::Nothing)?;
    makes.push(Make::Over(Head::Cons))?;
    makes.push(Make::Over(Head::Single(name)))?;
    Ok(())
}

/// The term of a side of a collision, as a group of one function with its name.
#[tactic(auto, using(cv_parse_terms::proofs::Places::places))]
fn side(
    signs: &[Sign],
    at: usize,
    trail: &mut Trail,
    name: u32,
    key: &[Make],
    args: &[Make],
    depth: u32,
) -> Result<usize, ReadError>
    requires at { at ≤ length signs.now }
    requires few { length signs.now < 2 ^ 32 }
    ensures makes { Makes (parts_around name key.now args.now) signs.now trail.old trail.new
        result (read_in depth term_form (drop at signs.now)) }
{
    make_before(&mut trail.makes, name, key, args)?;
    let place = term(signs, at, trail, depth)?;
    make_behind(&mut trail.makes, name)?;
    Ok(place)
}

/// The variables of a collision and its two terms, with the probability between these.
#[tactic(auto, using(cv_parse_terms::proofs::Places::places))]
fn terms(
    signs: &[Sign],
    at: usize,
    trail: &mut Trail,
    name: u32,
    key: &[Make],
    depth: u32,
) -> Result<(u32, usize), ReadError>
    requires at { at ≤ length signs.now }
    requires few { length signs.now < 2 ^ 32 }
    ensures makes { MakesTerms name key.now signs.now trail.old trail.new result
        (read_in depth (forall_form & (term_form & (probability_form & (term_form ◂ Dot))))
        (drop at signs.now)) }
{
    let start = trail.makes.len();
    let place = variables(signs, at, trail, depth)?;
    let args = trail.makes.split_off(start)?;
    let place = side(signs, place, trail, name, key, &args, depth)?;
    let (bound, place) = probability(signs, place, trail, depth)?;
    let place = side(signs, place, trail, name, key, &args, depth)?;
    let place = expect(signs, place, Mark::Dot)?;
    Ok((bound, place))
}

/// A declaration of a collision.
#[tactic(auto, using(cv_parse_terms::proofs::Places::places))]
pub fn collision_decl(
    signs: &[Sign],
    at: usize,
    trail: &mut Trail,
    heard: &mut Vec<Heard>,
    depth: u32,
) -> Result<usize, ReadError>
    requires at { at ≤ length signs.now }
    requires few { length signs.now < 2 ^ 32 }
    ensures declares { Declares signs.now trail.old trail.new heard.old.items heard.new.items
        result (read_in depth collision_form (drop at signs.now)) }
{
    let (name, place) = collision_name(signs, at, &mut trail.uses, depth)?;
    note(
        signs,
        place,
        &mut trail.uses,
        Role::Enters(Region::InEquivalence),
    )?;
    let place = expect(signs, place, Mark::New)?;
    let start = trail.makes.len();
    let place = key(signs, place, trail, depth)?;
    let key = trail.makes.split_off(start)?;
    let place = expect(signs, place, Mark::Semicolon)?;
    let (bound, place) = terms(signs, place, trail, name, &key, depth)?;
    note(signs, place, &mut trail.uses, Role::Leaves)?;
    trail.makes.push(Make::Over(Head::Equivalence(bound)))?;
    heard.push(Heard::Equiv(name))?;
    Ok(place)
}
