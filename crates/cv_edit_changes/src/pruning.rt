// Constructs without one of their bodies: where it stands, how large the game is without it, and its nodes.

mod body;
mod cut;
mod left;
mod making;
mod measuring;

pub use body::{Body, body_to_prune};
pub use making::make_without_body;
pub use measuring::measure_without_body;
