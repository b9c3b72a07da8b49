// How often a context chooses keys and calls functions: the parameters of the replications above the key's definition, and above
// the sites.

mod calls;
mod keys;
mod shape;

pub use calls::{calls_of, parameters_of};
pub use keys::keys_of;
pub use shape::{Calls, Shape, shape_of};
