// What a rehearsal of a search stands on, and what it leaves as it was.
#![tactic(auto)]
