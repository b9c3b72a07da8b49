// The variables of a game: their sites, and where they are read.
use cv_syntax::NodeId;
use std::alloc::{AllocError, Global};
use std::collections::HashMap;

/// A variable: its type, which an index has not; how many sites it has, and whether each is a `new` of that type; whether a
/// condition of a `find` reads it; and the first and the last of its other reads, counted from 1, or 0.
#[derive(Clone, Copy)]
pub(crate) struct Variable {
    pub(crate) name: u32,
    pub(crate) sort: Option<u32>,
    pub(crate) sites: u32,
    pub(crate) is_drawn: bool,
    pub(crate) is_tested: bool,
    pub(crate) first: u32,
    last: u32,
}

/// A term outside conditions and `defined` lists: its node, the term around it and the next read of the same variable, both
/// counted from 1, or 0, and the variable to which a `let` gives the whole term.
#[derive(Clone, Copy)]
pub(crate) struct Spot {
    pub(crate) node: NodeId,
    pub(crate) around: u32,
    pub(crate) next: u32,
    pub(crate) of_let: Option<u32>,
}

/// How a variable is defined at a site.
#[derive(Clone, Copy)]
pub(crate) enum Site {
    /// By a `new` of a type.
    Drawn(u32),
    /// By a `let` or an input, with a type.
    Typed(u32),
    /// As an index of a branch.
    Index,
}

/// Variables, those with sites in the order of the first ones, and the terms that may read them.
#[derive(Drop)]
pub(crate) struct Variables {
    list: Vec<Variable>,
    places: HashMap<u32, usize>,
    order: Vec<usize>,
    spots: Vec<Spot>,
}

/// The type of a variable at a site.
fn sort_of(site: Site) -> Option<u32> {
    match site {
        Site::Drawn(t) | Site::Typed(t) => Some(t),
        Site::Index => None,
    }
}

/// Whether a site is a `new` of the variable's type.
fn is_new_of(sort: Option<u32>, site: Site) -> bool {
    match (sort, site) {
        (Some(t), Site::Drawn(u)) => t == u,
        _ => false,
    }
}

impl Variables {
    /// No variables.
    pub(crate) fn new(alloc: Global) -> Variables {
        Variables {
            list: Vec::new(alloc),
            places: HashMap::new(alloc),
            order: Vec::new(alloc),
            spots: Vec::new(alloc),
        }
    }

    /// How many variables have sites.
    pub(crate) fn len(&self) -> usize {
        self.order.len()
    }

    /// The variable at a place in the order of first sites.
    pub(crate) fn at(&self, place: usize) -> Option<Variable> {
        let k = self.order.get(place)?;
        self.list.get(*k).copied()
    }

    /// The variable of a name.
    pub(crate) fn get(&self, name: u32) -> Option<Variable> {
        let k = self.places.get(&name)?;
        self.list.get(*k).copied()
    }

    /// How many terms there are.
    pub(crate) fn spots(&self) -> usize {
        self.spots.len()
    }

    /// The term of this number, counted from 1.
    pub(crate) fn spot(&self, number: u32) -> Option<Spot> {
        if number == 0 {
            return None;
        }
        self.spots.get(number as usize - 1).copied()
    }

    /// Where a variable stands in the list; a new one stands at the end.
    fn slot(&mut self, name: u32) -> Result<usize, AllocError> {
        if let Some(k) = self.places.get(&name) {
            return Ok(*k);
        }
        let k = self.list.len();
        self.list.push(Variable {
            name,
            sort: None,
            sites: 0,
            is_drawn: false,
            is_tested: false,
            first: 0,
            last: 0,
        })?;
        self.places.insert(name, k)?;
        Ok(k)
    }

    /// Puts a variable in its place.
    fn put(&mut self, k: usize, variable: Variable) {
        if let Some(there) = self.list.get_mut(k) {
            *there = variable;
        }
    }

    /// Notes a site of a variable.
    pub(crate) fn note_site(&mut self, name: u32, site: Site) -> Result<(), AllocError> {
        let k = self.slot(name)?;
        let Some(variable) = self.list.get(k).copied() else {
            return Ok(());
        };
        let is_first = variable.sites == 0;
        let sort = if is_first {
            sort_of(site)
        } else {
            variable.sort
        };
        if is_first {
            self.order.push(k)?;
        }
        self.put(
            k,
            Variable {
                sort,
                sites: variable.sites.saturating_add(1),
                is_drawn: (is_first || variable.is_drawn) && is_new_of(sort, site),
                ..variable
            },
        );
        Ok(())
    }

    /// Notes that a condition of a `find` reads a variable.
    pub(crate) fn note_test(&mut self, name: u32) -> Result<(), AllocError> {
        let k = self.slot(name)?;
        if let Some(variable) = self.list.get(k).copied() {
            self.put(
                k,
                Variable {
                    is_tested: true,
                    ..variable
                },
            );
        }
        Ok(())
    }

    /// Notes a term, and gives its number.
    pub(crate) fn note_term(&mut self, spot: Spot) -> Result<u32, AllocError> {
        self.spots.push(spot)?;
        Ok(u32::try_from(self.spots.len()).unwrap_or(0))
    }

    /// Notes that the term of this number reads a variable.
    pub(crate) fn note_read(&mut self, name: u32, number: u32) -> Result<(), AllocError> {
        let k = self.slot(name)?;
        let Some(variable) = self.list.get(k).copied() else {
            return Ok(());
        };
        self.link(variable.last, number);
        let first = if variable.first == 0 {
            number
        } else {
            variable.first
        };
        self.put(
            k,
            Variable {
                first,
                last: number,
                ..variable
            },
        );
        Ok(())
    }

    /// Puts a read behind another one of the same variable, where there is one.
    fn link(&mut self, last: u32, number: u32) {
        if last == 0 {
            return;
        }
        if let Some(spot) = self.spots.get_mut(last as usize - 1) {
            spot.next = number;
        }
    }
}
