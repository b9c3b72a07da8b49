ghost use Rattle.std.specs.Prelude.{◌≡◌, ◌+◌, ◌<◌, ◌≤◌, ◌^◌, length, take, drop, Some, IfOk, OnErr, OnOk};
ghost use Rattle.cv_pool.specs.PoolView.{Grows};
ghost use Rattle.cv_parse.specs.Parsed.{of_fault};
ghost use Rattle.cv_parse_terms.specs.Gives.{Fails};
ghost use Rattle.cv_parse.specs.Terms.{ReadsTerm, names_behind, names_by as names_of, names_within as names_in, term_of, term_read};
ghost use Rattle.cv_parse.specs.Stages.{shifted as shifted_by};

use crate::ParseError;
use crate::planting::plant_one;
use crate::reading::read_term;
use cv_lex::Tokens;
use cv_parse_notation::Sign;
use cv_parse_tables::terminals::more_signs;
use cv_parse_terms::{ReadError, Trail};
use cv_syntax::{BuildError, Names, NodeId, Pool, Work};
use std::alloc::Global;

/// A fault of signs that begin at a token.
fn shifted(fault: ReadError, from: u32) -> ParseError
    ensures { result ≡ shifted_by from fault }
{
    match fault {
        ReadError::Syntax(at) => ParseError::Syntax(from.saturating_add(at)),
        ReadError::Nesting(at) => ParseError::Nesting(from.saturating_add(at)),
        ReadError::OutOfMemory => ParseError::Build(BuildError::OutOfMemory),
    }
}

/// Reads a term from signs that begin at a token, and answers the token behind it.
fn term_in(
    alloc: Global,
    pool: &mut Pool,
    signs: &[Sign],
    from: u32,
) -> Result<(NodeId, u32), ParseError>
    requires few { from + length signs.now < 2 ^ 32 }
    ensures reads { ReadsTerm (term_of pool.old.limit (length pool.old.trees) from signs.now)
        pool.new.trees result }
    ensures live { IfOk result (λ x. x.0.0 < length pool.new.trees) }
    ensures behind { IfOk result (λ x. from ≤ x.1) }
    ensures within { IfOk result (λ x. x.1 ≤ from + length signs.now) }
    ensures grows { Grows pool.old pool.new }
    ensures kept { OnErr result (pool.new.trees ≡ pool.old.trees) }
{
    let mut trail = Trail::new(alloc);
    match read_term(signs, &mut trail) {
        Ok(place) => {
            let root = plant_one(alloc, pool, &trail.makes)?;
            Ok((root, from + place as u32))
        }
        Err(fault) => Err(shifted(fault, from)),
    }
}

/// How many names there are at least, by the number in a sign.
fn names_by(sign: Sign) -> u64
    ensures { result ≡ names_of sign }
{
    match sign {
        Sign::Word(number, _) | Sign::Unnamed(number) => number as u64 + 1,
        Sign::Number(_) | Sign::Find(_) | Sign::Mark(_) => 0,
    }
}

/// The same by the numbers in the first signs, where so many are there before.
fn names_within(known: u32, signs: &[Sign], count: usize) -> u64
    requires { count ≤ length signs.now }
    ensures { result ≡ names_in known (take count signs.now) }
{
    let mut names = known as u64;
    'signs: for k in 0..count {
        names = names.max(names_by(signs[k]));
    }
    names
}

/// Keeps the first names, or all where there are no more.
fn keep_names(names: &mut Names, count: u64)
    ensures { names.new ≡ take count names.old }
{
    if count < names.len() as u64 {
        names.keep(count as u32);
    }
}

/// Reads a term that stands at a token, as terms are written in a step, and answers the token behind it. Its
/// new names are put behind the others, without a class; where no term is read they are taken back. Marked
/// indices of a second copy aren't read.
pub fn term(
    alloc: Global,
    work: &mut Work,
    tokens: &Tokens,
    from: u32,
) -> Result<(NodeId, u32), ParseError>
    requires from { from < length tokens.now }
    requires few { length work.old.names + length tokens.now < 2 ^ 32 }
    ensures reads { ReadsTerm (term_read work.old.pool.limit (length work.old.pool.trees)
        work.old.names tokens.now from) work.new.pool.trees result }
    ensures live { IfOk result (λ x. x.0.0 < length work.new.pool.trees) }
    ensures behind { IfOk result (λ x. from ≤ x.1) }
    ensures within { IfOk result (λ x. x.1 < length tokens.now) }
    ensures names { IfOk result (λ x. work.new.names
        ≡ names_behind work.old.names tokens.now from x.1) }
    ensures decls { work.new.decls ≡ work.old.decls }
    ensures grows { Grows work.old.pool work.new.pool }
    ensures same_names { OnErr result (work.new.names ≡ work.old.names) }
    ensures same_trees { OnErr result (work.new.pool.trees ≡ work.old.pool.trees) }
{
    let before = work.names.len();
    let signs = more_signs(alloc, &mut work.names, tokens, from)?;
    match term_in(alloc, &mut work.pool, &signs, from) {
        Ok((root, next)) => {
            let count = names_within(before, &signs, (next - from) as usize);
            keep_names(&mut work.names, count);
            Ok((root, next))
        }
        Err(fault) => {
            work.names.keep(before);
            Err(fault)
        }
    }
}
