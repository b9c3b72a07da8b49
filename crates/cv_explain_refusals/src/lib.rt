// Sentences on files that are refused: the rule, the names that are meant, and the line with a mark below the place.
#![tactic(auto)]

mod declared;
mod faults;
mod oracle;
mod reading;

pub use declared::{say_group, say_query};
pub use faults::{Known, say_scope, say_types};
pub use oracle::file_of;
pub use reading::{say_grammar, say_lexis, say_script};
