// The parts of a certificate of a correspondence as the program reads them: entries with their routes, and the pairs that they need.
#![tactic(auto)]

mod alternatives;
pub mod pairs;
mod parts;
mod places;
mod views;

pub use alternatives::{Choice, NumberedAtom, alternatives_of, choice_of, chosen, chosen_atoms};
pub use parts::{first_surplus, is_number, place_in, surplus_entry};
pub use places::{add_indices, indices_at, node_at, replications_at};
pub use views::{
    Asked, Atom, Entry, LeftEvent, Route, View, atom_of, entry_of, left_event, route_of,
};
