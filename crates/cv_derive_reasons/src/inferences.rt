// What follows from lines of derivations by their terms alone.

mod inferences;
mod opening;

pub use inferences::{
    is_both, is_left, is_reflexive, is_refuted, is_replaced_by, is_right_side, is_symmetric,
    is_transitive,
};
pub use opening::{is_alone, is_over, sides};
