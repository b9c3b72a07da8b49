// Trees as lists of their nodes behind their children, as they are listed and made.

mod listing;
mod planting;

pub use listing::{close, copy};
pub use planting::plant_listed;
