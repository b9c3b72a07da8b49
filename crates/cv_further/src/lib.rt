// The further moves of a game in which no other step is found, as proposals that the kernel may refuse: values of `let`s in the place of
// reads behind `defined` lists, and definitions of a variable that get names of their own.
#![tactic(auto)]

mod carrying;
mod chart;
mod renaming;
mod values;

pub use carrying::suggest as suggest_carrying;
pub use renaming::suggest as suggest_renaming;
