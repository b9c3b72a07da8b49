// The entries of a certificate of a correspondence: what they say, and whether they have the form that query and game ask.
#![tactic(auto)]

mod cells;
pub mod ends;
mod forms;
mod nodes;
pub mod terms;

pub use cells::{rows_above, site_place};
pub use forms::first_unformed;
pub use nodes::{event_places, is_event_above};
