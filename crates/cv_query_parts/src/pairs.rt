// The pairs of a certificate: the parts behind its entries, which of them are the pairs that are needed, and what is made to test them.

mod lists;
mod marked;
mod marks;
mod rest;
mod routes;
mod secrets;
mod walk;

pub use lists::{Names, lists_for};
pub use marks::{raise_of, raised_rows};
pub use rest::{Rest, behind_entries, names_in, rest_of};
pub use routes::rows_at;
pub use secrets::{SecretPart, secret_lists, secret_of};
pub use walk::{Pairing, Walked, walk_pairs};
