// The meaning of the calculus: interpretations, tapes, runs, contexts, experiments and advantages. Definitions
// alone, in `specs/`; their laws stand in the crates `cv_meaning_*`.
#![tactic(auto)]

pub mod contexts;
