// The reading of libraries, and the places of their definitions.

ghost use Rattle.std.specs.Prelude.{◌≡◌, Ok, None, option_map, IfErr, IfOk, IfSome};
ghost use Rattle.cv_library.specs.Expansions.{defined};
ghost use Rattle.cv_library.specs.Libraries.{IsNoLibrary, definition_at, library_of, repeat_at};
ghost use Rattle.cv_library.specs.Places.{IsInside};
ghost use Rattle.cv_library.specs.Views.{definitions};

use crate::error::LibraryError;
use crate::forms::{Place, places};
use crate::library::Library;
use crate::names::{first_inner, names};
use cv_lex::Tokens;
use std::alloc::Global;

impl Library {
    /// The library that tokens are, or why they are none.
    pub fn read(alloc: Global, tokens: Tokens) -> Result<Library, LibraryError>
        ensures ok { IfOk result (λ library. library_of tokens ≡ Ok (definitions library)) }
        ensures err { IfErr result (λ e. IsNoLibrary e tokens) }
    {
        let places = places(alloc, &tokens)?;
        let names = names(alloc, &tokens, places.as_slice())?;
        if let Some(k) = first_inner(&tokens, places.as_slice()) {
            return Err(LibraryError::Inner(k));
        }
        Ok(Library {
            tokens,
            places,
            names,
        })
    }

    // Where the definition of a name stands.
    pub fn place_of(&self, name: &str) -> Option<Place>
        ensures definition { option_map (definition_at self.now.tokens) result
            ≡ defined (definitions self.now) name.now }
        ensures inside { IfSome result (IsInside self.now.tokens) }
        ensures apart { IfSome result (λ p. repeat_at self.now.tokens p ≡ None) }
    {
        match self.names.find(name) {
            None => None,
            Some(id) => Some(self.places[id.0 as usize]),
        }
    }
}
