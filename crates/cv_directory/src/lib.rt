// What the definitions of a game say of its names.
#![tactic(auto)]

mod directory;
mod laws;
mod nodes;
mod site;
mod tables;

pub use directory::Directory;
pub use laws::{definitions_are_sites, worked_directories};
pub use nodes::sort_of_binder;
pub use site::Site;
