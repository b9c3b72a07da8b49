// The names and the labels that are drawn for the next game of a cryptographic step.

mod ends;
mod labels;
mod names;

pub use labels::{draw_labels, labels_in};
pub use names::draw_names;
