// A game with the names of its file: what is there at a place, what may be cited there, derivations, and when one is right; and
// its reductions to an equivalence: instances of the left side, why a game has none that serve, and the context for an
// equivalence and a key. Definitions alone, in `specs/`.
#![tactic(auto)]

pub mod lines;
