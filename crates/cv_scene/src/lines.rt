// Derivations: their lines, what follows from lines that are cited by terms alone, and what a derivation ends with.
// Definitions alone, in `specs/`.
#![tactic(auto)]
