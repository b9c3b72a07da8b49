use std::collections::HashSet;

/// What names of a game and of its context are there for: the key, the coins of sites, and the answer of each site.
#[derive(Drop)]
pub struct Roles {
    pub key: u32,
    pub coins: HashSet<u32>,
    pub answers: Vec<u32>,
}
