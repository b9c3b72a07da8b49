// What games and left sides are made of, as instances are looked for: uses of variables, beginnings and patterns of functions.
#![tactic(auto)]

pub mod heads;
pub mod patterns;
pub mod uses;
