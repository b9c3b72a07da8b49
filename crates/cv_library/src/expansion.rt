// The expansion of a file by a library.

ghost use Rattle.std.specs.Prelude.{◌≡◌, ◌+◌, ◌-◌, ◌<◌, ◌++◌, ℕ, Ok, length, slice_range, IfErr, IfOk, OnOk};
ghost use Rattle.cv_library.specs.Expansions.{IsNotExpanded, expanded, fault_of as fault_of_use, first_fault as first_fault_of, stands_for, written};
ghost use Rattle.cv_library.specs.Places.{AreInOrder, IsUseInside};
ghost use Rattle.cv_library.specs.Written.{Adds};
ghost use Rattle.cv_library.specs.Views.{definitions};

use crate::error::ExpandError;
use crate::library::Library;
use crate::put::{put_body, put_range};
use crate::read::text_at;
use crate::uses::{Use, uses};
use cv_lex::Tokens;
use std::alloc::{AllocError, Global};

// The most tokens of an expanded file, the end token left out.
const MOST_TOKENS: u64 = 1_048_576;

// Why a use can't be expanded.
fn fault_of(library: &Library, tokens: &Tokens, it: Use) -> Option<ExpandError>
    requires { IsUseInside tokens.now 0 it }
    ensures { result ≡ fault_of_use (definitions library.now) tokens.now it }
{
    let name = it.word + 1;
    let Some(place) = library.place_of(text_at(tokens, name)) else {
        return Some(ExpandError::Unknown(name));
    };
    let arguments = (it.dot - (it.word + 3)) / 2;
    let parameters = (place.brace - (place.word + 3)) / 2;
    if arguments == parameters {
        None
    } else {
        Some(ExpandError::Count(name))
    }
}

// Why the first use can't be expanded that can't.
fn first_fault(library: &Library, tokens: &Tokens, uses: &[Use]) -> Option<ExpandError>
    requires { AreInOrder tokens.now 0 uses.now }
    ensures { result ≡ first_fault_of (definitions library.now) tokens.now uses.now }
{
    'uses: for it in uses {
        if let Some(fault) = fault_of(library, tokens, *it) {
            return Some(fault);
        }
    }
    None
}

// How many tokens stand for a use.
fn body_len(library: &Library, tokens: &Tokens, it: Use) -> u32
    requires { IsUseInside tokens.now 0 it }
    ensures { (number : ℕ) → result
        ≡ length (stands_for (definitions library.now) tokens.now number it) }
{
    match library.place_of(text_at(tokens, it.word + 1)) {
        Some(place) => place.end - (place.brace + 1),
        None => 0,
    }
}

// How many tokens the expanded file has before the end token.
fn count(library: &Library, tokens: &Tokens, uses: &[Use]) -> u64
    requires { AreInOrder tokens.now 0 uses.now }
    ensures { result + 1
        ≡ length (written (definitions library.now) tokens.now 0 1 uses.now) }
{
    let all = tokens.len();
    let mut count = 0;
    let mut from = 0;
    'uses: for it in uses {
        count += u64::from(it.word - from) + u64::from(body_len(library, tokens, *it));
        from = it.dot + 1;
    }
    count + u64::from(all - 1 - from)
}

// Writes the text from a token on up to a use, and the body for the use.
fn put_use(
    alloc: Global,
    out: &mut Tokens,
    library: &Library,
    tokens: &Tokens,
    from: u32,
    site: (Use, u32),
) -> Result<(), AllocError>
    requires inside { IsUseInside tokens.now from site.0 }
    requires room { length out.old + (site.0.word - from)
        + length (stands_for (definitions library.now) tokens.now site.1 site.0) < 4294967295 }
    ensures adds { OnOk result (Adds out.old (slice_range tokens.now from site.0.word
        ++ stands_for (definitions library.now) tokens.now site.1 site.0) out.new) }
    ensures len { OnOk result (length out.new ≡ length out.old + (site.0.word - from)
        + length (stands_for (definitions library.now) tokens.now site.1 site.0)) }
{
    let (it, _) = site;
    put_range(out, tokens, from, it.word)?;
    match library.place_of(text_at(tokens, it.word + 1)) {
        Some(place) => put_body(alloc, out, &library.tokens, place, tokens, site),
        None => Ok(()),
    }
}

// The expanded file.
fn write(
    alloc: Global,
    library: &Library,
    tokens: &Tokens,
    uses: &[Use],
) -> Result<Tokens, AllocError>
    requires order { AreInOrder tokens.now 0 uses.now }
    requires room { length (written (definitions library.now) tokens.now 0 1 uses.now)
        + 1 < 4294967295 }
    ensures { IfOk result (λ ts. written (definitions library.now) tokens.now 0 1 uses.now ≡ ts) }
{
    let all = tokens.len();
    let last = all - 1;
    let mut out = Tokens::new(alloc, tokens.offset(last));
    let mut from = 0;
    let mut number = 1;
    'uses: for it in uses {
        put_use(alloc, &mut out, library, tokens, from, (*it, number))?;
        from = it.dot + 1;
        number += 1;
    }
    put_range(&mut out, tokens, from, last)?;
    Ok(out)
}

/// The tokens of a file with bodies for its uses, and the end token of the file behind them. Takes time linear in
/// both files and the result, and counts the result before anything of it is written.
pub fn expand(alloc: Global, library: &Library, tokens: &Tokens) -> Result<Tokens, ExpandError>
    ensures ok { IfOk result (λ ts. expanded (definitions library.now) tokens.now ≡ Ok ts) }
    ensures err { IfErr result (λ e. IsNotExpanded e (definitions library.now) tokens.now) }
{
    let found = uses(alloc, tokens)?;
    let uses = found.as_slice();
    if let Some(fault) = first_fault(library, tokens, uses) {
        return Err(fault);
    }
    let count = count(library, tokens, uses);
    if count > MOST_TOKENS {
        return Err(ExpandError::Tokens { count });
    }
    Ok(write(alloc, library, tokens, uses)?)
}
