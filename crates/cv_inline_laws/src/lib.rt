// Laws of next games: how large they are, whatever the drawn names, and how they run beside their contexts.
#![tactic(auto)]

pub mod draws;
pub mod extents;
pub mod runs;
pub mod sizes;
pub mod worked;
