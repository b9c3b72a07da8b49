// Laws of lists, options and truth values, which several crates cite.
#![tactic(auto)]
