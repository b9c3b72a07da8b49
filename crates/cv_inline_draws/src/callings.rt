// The sites of a context: each with its first call, and with the right function that is called there.

mod callings;
mod calls;
mod functions;
mod laws;
mod names;

pub use callings::callings_of;
pub use laws::{equivalences_have_right_functions, index_terms_of_keys_are_lists};
