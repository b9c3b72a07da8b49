// The functions of an equivalence's left side: their names, what stands for these in a term of a game, and whether the term is a
// function's body with that, and whether that is of the right types.

mod filling;
mod names;
mod search;
mod site;
mod sorts;
mod terms;
mod whole;

pub use filling::term_of;
pub use names::{arguments_of, body_of, coins_of, is_argument_name, key_of, variable_of};
pub use search::Search;
pub use site::{Found, Instance, Site, note_site};
pub use sorts::{are_arguments, are_coins};
pub use terms::terms_of;
pub use whole::is_whole;
