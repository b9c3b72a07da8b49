ghost use Rattle.std.specs.Prelude.{◌≡◌, ◌≤◌, length, take};
ghost use Rattle.cv_parse_grammar.specs.Filled.{bare, read_at};
ghost use Rattle.cv_parse_names.specs.indices.Current.{numbers_of};

use crate::indices::current::Current;
use std::collections::HashMap;

/// How many of the first so many indices a bare name gets.
pub fn index_count(sites: &HashMap<u32, usize>, current: &Current, level: usize, name: u32) -> usize
    requires { level ≤ length current.now }
    ensures within { result ≤ level }
    ensures read { bare (numbers_of sites.now) (take level current.now) name
        ≡ read_at name (take result current.now) }
{
    if current.holds(level, name) {
        return 0;
    }
    match sites.get(&name) {
        Some(site) => level.min(*site),
        None => 0,
    }
}
