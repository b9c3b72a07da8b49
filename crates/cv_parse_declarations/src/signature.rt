// Reading of a file's signature by the rows of the table: types, parameters, channels, constants, functions, events and
// probabilities, and of its equations, its collisions and its queries. No row has a whole collision, since both its
// groups have its key and its variables.
mod collisions;
mod declarations;
mod heard;

pub use collisions::collision_decl;
pub use declarations::{DeclarationKind, declare};
pub use heard::Heard;
