// Names that stand twice, and uses in bodies.

ghost use Rattle.std.specs.Prelude.{◌≡◌, ◌+◌, ◌<◌, ◌≤◌, ◌^◌, ◌∷◌, ◌++◌, [], All, None, Some, length, map, not, IfOk, OnOk, if◌then◌else◌};
ghost use Rattle.cv_library.specs.Libraries.{first_inner as first_inner_of, inner_from, is_among, name_at, parameters_at, repeat_at, tokens_at, twice_from};
ghost use Rattle.cv_library.specs.Places.{IsInside};
ghost use Rattle.cv_library.specs.Tables.{IsTable};

use crate::error::LibraryError;
use crate::forms::Place;
use crate::read::text_at;
use cv_lex::Tokens;
use cv_syntax::{NameError, Names};
use std::alloc::{AllocError, Global};

// Adds a name that isn't there, and says whether it wasn't.
fn declared(names: &mut Names, text: &str) -> Result<bool, AllocError>
    requires { length names.old + 1 < 2 ^ 32 }
    ensures new { IfOk result (λ new. new ≡ not (is_among names.old text.now)) }
    ensures names { OnOk result (names.new ≡ (if is_among names.old text.now
        then names.old else names.old ++ text.now ∷ [])) }
{
    match names.declare(text) {
        Ok(_) => Ok(true),
        Err(NameError::Twice(_)) => Ok(false),
        Err(NameError::OutOfMemory) => Err(AllocError),
    }
}

// The parameters of a definition, or the first that repeats.
pub fn parameters(alloc: Global, tokens: &Tokens, place: Place) -> Result<Names, LibraryError>
    requires { IsInside tokens.now place }
    ensures { IsTable (repeat_at tokens.now place) (parameters_at tokens.now place) result }
{
    let mut names = Names::new(alloc);
    let count = (place.brace - (place.word + 3)) / 2;
    'list: for i in 0..count {
        let k = place.word + 3 + 2 * i;
        if !declared(&mut names, text_at(tokens, k))? {
            return Err(LibraryError::Twice(k));
        }
    }
    Ok(names)
}

// The names of the definitions at these places, or the first name that was defined before, or parameter that
// repeats.
pub fn names(alloc: Global, tokens: &Tokens, places: &[Place]) -> Result<Names, LibraryError>
    requires inside { All (IsInside tokens.now) places.now }
    requires few { length places.now ≤ length tokens.now }
    ensures names { IsTable (twice_from tokens.now [] places.now)
        (map (name_at tokens.now) places.now) result }
    ensures apart { OnOk result (All (λ p. repeat_at tokens.now p ≡ None) places.now) }
{
    let _tokens = tokens.len();
    let mut names = Names::new(alloc);
    'places: for place in places {
        if !declared(&mut names, text_at(tokens, place.word + 1))? {
            return Err(LibraryError::Twice(place.word + 1));
        }
        parameters(alloc, tokens, *place)?;
    }
    Ok(names)
}

// The first word `expand` in the body at this place.
fn inner(tokens: &Tokens, place: Place) -> Option<u32>
    requires { IsInside tokens.now place }
    ensures { result ≡ inner_from (place.brace + 1) (tokens_at tokens.now place) }
{
    let _tokens = tokens.len();
    'body: for k in place.brace + 1..place.end {
        if tokens.text(k) == "expand" {
            return Some(k);
        }
    }
    None
}

// The first word `expand` in a body.
pub fn first_inner(tokens: &Tokens, places: &[Place]) -> Option<u32>
    requires { All (IsInside tokens.now) places.now }
    ensures { result ≡ first_inner_of tokens.now places.now }
{
    'places: for place in places {
        if let Some(k) = inner(tokens, *place) {
            return Some(k);
        }
    }
    None
}
