// Which queries of a file may be asked.
#![tactic(auto)]

mod alternatives;
mod arguments;
mod checking;
mod fault;
mod laws;
mod marks;
mod query;
mod secrets;
mod worked;

pub use checking::check;
pub use fault::QueryFault;
pub use laws::{alternatives_are_counted, queries_are_decided};
pub use secrets::has_values;
pub use worked::{worked_alternatives, worked_correspondences, worked_secrets};
