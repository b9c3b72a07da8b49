// Libraries that were read.

ghost use Rattle.cv_library.specs.Places.{IsKept};

use crate::forms::Place;
use cv_lex::Tokens;
use cv_syntax::Names;

/// Definitions, which a file may use.
#[derive(Drop)]
pub struct Library {
    pub(crate) tokens: Tokens,
    pub(crate) places: Vec<Place>,
    pub(crate) names: Names,
    ghost kept: { IsKept tokens places.items names },
}
