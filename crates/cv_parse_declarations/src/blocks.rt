ghost use Rattle.std.specs.Prelude.{◌≡◌, false, ◌<◌, ◌≤◌, ◌^◌, length, drop};
ghost use Rattle.cv_parse_notation.specs.Form.{many, may, ◌▸◌};
ghost use Rattle.cv_parse_notation.specs.Spells.{next_is, starts};
ghost use Rattle.cv_parse_notation.specs.Reads.{read_other};
ghost use Rattle.cv_parse_notation.specs.declared.sign.Mark.TheVariants.{Proof};
ghost use Rattle.cv_parse_grammar.specs.Phrases.{Braces};
ghost use Rattle.cv_parse_grammar.specs.Rules.{braces as braces_form, heads, matched as matched_form, proof_block as block_form};
ghost use Rattle.cv_parse_terms.specs.Gives.{Gives, Passes, below, read_in};
ghost use Rattle.cv_parse_declarations.specs.Blocks.{PassesSome, PassesTree, piece as piece_form};

use cv_parse_grammar::Role;
use cv_parse_notation::{Mark, Sign};
use cv_parse_terms::{NameUse, ReadError, expect, is_at, note, open, shallow};

/// Whether a piece of a proof block begins at a place: any token but a closing brace.
#[tactic(auto, using(crate::proofs::Pieces::pieces))]
fn begins_piece(signs: &[Sign], at: usize) -> bool
    ensures { result ≡ next_is (starts heads piece_form) (drop at signs.now) }
{
    at < signs.len() && !is_at(signs, at, Mark::CloseBrace)
}

/// The place behind a token that is no brace.
#[tactic(auto, using(crate::proofs::Others::others))]
fn other(signs: &[Sign], at: usize) -> Result<usize, ReadError>
    requires at { at ≤ length signs.now }
    requires few { length signs.now < 2 ^ 32 }
    ensures passes { Passes signs.now result (read_other (drop at signs.now)) }
{
    if at >= signs.len() {
        return Err(ReadError::Syntax(at as u32));
    }
    if is_at(signs, at, Mark::OpenBrace) || is_at(signs, at, Mark::CloseBrace) {
        return Err(ReadError::Syntax(at as u32));
    }
    Ok(at + 1)
}

/// A piece of a proof block: braces with what stands in them, or one token.
#[cycle(braces)]
#[tactic(auto, using(cv_parse_terms::proofs::Places::places, crate::proofs::Pieces::choices))]
fn piece(signs: &[Sign], at: usize, depth: u32) -> Result<usize, ReadError>
    requires at { at ≤ length signs.now }
    requires few { length signs.now < 2 ^ 32 }
    ensures passes { PassesSome signs.now result (read_in depth piece_form (drop at signs.now)) }
{
    if is_at(signs, at, Mark::OpenBrace) {
        let end = inner_braces(signs, at, depth)?;
        return Ok(end);
    }
    let end = other(signs, at)?;
    Ok(end)
}

/// Tokens with matched braces, up to a closing brace.
#[cycle(braces)]
#[tactic(auto, using(cv_parse_terms::proofs::Places::places, cv_parse_terms::proofs::Rows::rows))]
fn matched(signs: &[Sign], at: usize, depth: u32) -> Result<usize, ReadError>
    requires at { at ≤ length signs.now }
    requires few { length signs.now < 2 ^ 32 }
    ensures passes { PassesSome signs.now result (read_in depth matched_form (drop at signs.now)) }
{
    let mut place = at;
    'pieces: while begins_piece(signs, place) {
        place = piece(signs, place, depth)?;
    }
    Ok(place)
}

/// Braces with what stands in them.
#[cycle(braces)]
#[tactic(auto, using(cv_parse_terms::proofs::Places::places, cv_parse_terms::proofs::Levels::levels))]
fn braces(signs: &[Sign], at: usize, depth: u32) -> Result<usize, ReadError>
    requires at { at ≤ length signs.now }
    requires few { length signs.now < 2 ^ 32 }
    ensures passes { PassesTree signs.now result (read_in depth braces_form (drop at signs.now)) }
{
    let place = open(signs, at, depth, Mark::OpenBrace)?;
    let place = matched(signs, place, depth)?;
    let end = expect(signs, place, Mark::CloseBrace)?;
    Ok(end)
}

/// Braces one level down.
#[cycle(braces)]
#[tactic(auto, using(cv_parse_terms::proofs::Places::places, cv_parse_terms::proofs::Levels::levels, crate::proofs::Pieces::choices))]
fn inner_braces(signs: &[Sign], at: usize, depth: u32) -> Result<usize, ReadError>
    requires at { at ≤ length signs.now }
    requires few { length signs.now < 2 ^ 32 }
    ensures passes { PassesTree signs.now result (below depth Braces (drop at signs.now)) }
{
    if depth > 0 {
        return braces(signs, at, depth - 1);
    }
    Err(shallow(signs, at, is_at(signs, at, Mark::OpenBrace)))
}

/// A proof block: how many tokens are left where its first token stands, and where its last brace stands.
#[tactic(auto, using(cv_parse_terms::proofs::Places::places, cv_parse_terms::proofs::Levels::levels))]
fn proof_block(
    signs: &[Sign],
    at: usize,
    uses: &mut Vec<NameUse>,
    depth: u32,
) -> Result<((usize, usize), usize), ReadError>
    requires at { at ≤ length signs.now }
    requires few { length signs.now < 2 ^ 32 }
    ensures gives { Gives signs.now uses.old.items uses.new.items result
        (read_in depth block_form (drop at signs.now)) }
{
    let place = open(signs, at, depth, Mark::OpenBrace)?;
    let first = note(signs, place, uses, Role::Nothing)?;
    let place = matched(signs, place, depth)?;
    let last = note(signs, place, uses, Role::Nothing)?;
    let place = expect(signs, place, Mark::CloseBrace)?;
    Ok(((first, last), place))
}

/// The word `proof` and a proof block.
#[tactic(auto, using(cv_parse_terms::proofs::Places::places))]
fn proof(
    signs: &[Sign],
    at: usize,
    uses: &mut Vec<NameUse>,
    depth: u32,
) -> Result<((usize, usize), usize), ReadError>
    requires at { at ≤ length signs.now }
    requires few { length signs.now < 2 ^ 32 }
    ensures gives { Gives signs.now uses.old.items uses.new.items result
        (read_in depth (Proof ▸ block_form) (drop at signs.now)) }
{
    let place = expect(signs, at, Mark::Proof)?;
    proof_block(signs, place, uses, depth)
}

/// A proof block, where there is one.
#[tactic(auto, using(cv_parse_terms::proofs::Places::places, cv_parse_terms::proofs::Levels::levels))]
pub fn maybe_proof(
    signs: &[Sign],
    at: usize,
    uses: &mut Vec<NameUse>,
    depth: u32,
) -> Result<(Option<(usize, usize)>, usize), ReadError>
    requires at { at ≤ length signs.now }
    requires few { length signs.now < 2 ^ 32 }
    ensures gives { Gives signs.now uses.old.items uses.new.items result
        (read_in depth (may false (Proof ▸ block_form)) (drop at signs.now)) }
{
    if is_at(signs, at, Mark::Proof) {
        let (block, place) = proof(signs, at, uses, depth)?;
        return Ok((Some(block), place));
    }
    Ok((None, at))
}
