// The closure of what is known at a place under equality: classes of terms with a proof forest.
#![tactic(auto)]

mod agenda;
mod classes;
mod closure;
mod rounds;
mod terms;
mod theory;
mod truths;
mod uses;

pub use classes::{Arguments, Classes, Join, Step, Why};
pub use closure::{Cell, Closure, MOST_TERMS, Source, Standing};
pub use terms::{TermId, Terms};
pub use theory::{Equation, Theory};
