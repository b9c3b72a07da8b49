// Laws of scripts: what is read by the table is what its forms spell, and the text of a step is read as the step.
#![tactic(auto)]

pub mod forms;
pub mod printing;
