// The moves of a settled game: cryptographic steps, and steps that make one possible.
mod binders;
mod instances;
mod moves;
mod reads;
mod sides;
mod variables;

pub use moves::suggest;
