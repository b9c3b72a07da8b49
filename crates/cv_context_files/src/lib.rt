// What a file's grammar and types give its equivalences, and so their contexts: forms, names, tapes, and worked games.
#![tactic(auto)]

pub mod counts;
pub mod forms;
pub mod left_side;
pub mod right_forms;
pub mod right_names;
pub mod tapes;
pub mod types;
pub mod worked;
