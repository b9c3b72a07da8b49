ghost use Rattle.std.specs.Prelude.{◌≡◌};
ghost use Rattle.cv_inline.specs.terms.Drawings.{drawn_in};

use std::collections::HashMap;

/// An index of a find: by the site and the place of the find, the other site, the branch and the replication.
#[derive(Clone, Copy, Debug, PartialEq, Eq, Hash)]
pub struct Index {
    pub site: u32,
    pub place: u32,
    pub other: u32,
    pub branch: u32,
    pub replication: u32,
}

/// The names that are drawn: for the key, for a name of a site, and for a find at a place of a site's body.
#[derive(Drop)]
pub struct Drawing {
    pub key: u32,
    pub variables: HashMap<(u32, u32), u32>,
    pub labels: HashMap<(u32, u32), u64>,
    pub indices: HashMap<Index, u32>,
}

impl Drawing {
    /// The variable that is drawn for a name at a site.
    pub fn variable(&self, site: u32, name: u32) -> u32
        ensures { result ≡ (drawn_in self.now).variable site name }
    {
        match self.variables.get(&(site, name)) {
            Some(x) => *x,
            None => 0,
        }
    }

    /// The label that is drawn for a find at a site.
    pub fn label(&self, site: u32, place: u32) -> u64
        ensures { result ≡ (drawn_in self.now).label site place }
    {
        match self.labels.get(&(site, place)) {
            Some(l) => *l,
            None => 0,
        }
    }

    /// The name that is drawn for an index.
    pub fn index(&self, index: Index) -> u32
        ensures { result ≡ (drawn_in self.now).index index.site index.place index.other index.branch
            index.replication }
    {
        match self.indices.get(&index) {
            Some(u) => *u,
            None => 0,
        }
    }
}
