// The context of a game for an equivalence and a key, made in the pool.
#![tactic(auto)]

mod building;
mod calls;
mod coins;
pub mod indices;
pub mod nodes;
pub mod products;
mod roles;
mod walk;

pub use building::context;
