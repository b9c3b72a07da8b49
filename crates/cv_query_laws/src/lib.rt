// Laws of certificates: accepted correspondences are never broken, and accepted secrets can't be told from a fresh choice.
#![tactic(auto)]

pub mod correspondences;
pub mod routes;
pub mod visits;
