// Terms of derivations at a place of a game: their types, and the reasons that ask what a name there is.

mod arguments;
mod congruence;
mod instances;
mod typing;

pub use arguments::{are_equal_by, is_equal_by, is_only_equal_by};
pub use congruence::is_congruent;
pub use instances::is_instance;
pub use typing::{is_condition, is_term, is_term_of, is_typed_claim};
