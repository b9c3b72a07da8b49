// Laws of drawn names: they are new, accepted right bodies have all that they ask for, and contexts have the chances of next games.
#![tactic(auto)]

pub mod accepted;
pub mod cells;
pub mod covered;
pub mod drawn;
