// Equations of truth values that always hold.

mod truths;

pub use truths::is_truth;
