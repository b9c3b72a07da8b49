// The tokens of what the program is given.

ghost use Rattle.std.specs.Prelude.{◌≡◌, ◌<◌, Ok, length, option_map, IfErr, IfOk, IfSome};
ghost use Rattle.cv_library.specs.Givens.{AreNotGiven, given_by, tokens_given as tokens_of_given};

use crate::error::GivenError;
use crate::expansion::expand;
use crate::library::Library;
use cv_lex::{LexError, Tokens, tokens};
use std::alloc::Global;

/// The tokens of a file, expanded by a library where one is given.
pub fn tokens_given(
    alloc: Global,
    bytes: &[u8],
    library: Option<&[u8]>,
) -> Result<Tokens, GivenError>
    requires few { length bytes.now < 4294967295 }
    requires few_more { IfSome library (λ more. length more.now < 4294967295) }
    ensures ok { IfOk result (λ ts. tokens_of_given
        (given_by bytes.now (option_map (λ more. more.now) library.entry)) ≡ Ok ts) }
    ensures err { IfErr result (λ e. AreNotGiven e
        (given_by bytes.now (option_map (λ more. more.now) library.entry))) }
{
    let found = tokens(alloc, bytes)?;
    let Some(more) = library else {
        return Ok(found);
    };
    let of_library = match tokens(alloc, more) {
        Ok(tokens) => tokens,
        Err(LexError::OutOfMemory) => return Err(GivenError::OutOfMemory),
        Err(fault) => return Err(GivenError::LibraryLex(fault)),
    };
    let library = Library::read(alloc, of_library)?;
    Ok(expand(alloc, &library, &found)?)
}
