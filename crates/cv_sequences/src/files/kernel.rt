// Laws of the kernel: steps with a rule are sound, and from one table of names and one list of steps comes one sequence of games.
pub mod rules;
pub mod sequences;
