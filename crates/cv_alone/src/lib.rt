// Files with one of their queries alone: what is left out becomes spaces.
#![tactic(auto)]

mod laws;
mod leave;
mod parts;
mod spaces;

pub use laws::{alone_keeps_places, alone_keeps_the_other_tokens, worked_files};
pub use leave::leave_alone;
