// What a derivation ends with, where the terms that it is to end with have terms for names that aren't put.

mod ends;
mod last;

pub use ends::{ends_with_cell, ends_with_equations, ends_with_falsity, ends_with_term};
