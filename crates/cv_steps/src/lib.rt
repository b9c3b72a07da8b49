// Steps of proofs: their rows, what is said of a step in a game, what it is to keep chances, and the values of sums, as definitions in
// `specs/`, with what follows for several laws in `proofs/`. The laws stand in the crates above.
#![tactic(auto)]

pub mod values;
