// What a walk over a game sees of its variables.
ghost use Rattle.std.specs.Prelude.{◌≡◌, [], ℕ, OnOk};
ghost use Rattle.cv_settling_overview.specs.Variables.{nothing, order_with, seen_of, with_cell, with_change, with_read, with_site};

use cv_syntax::NodeId;
use std::alloc::{AllocError, Global};
use std::collections::HashMap;

/// What a definition is.
#[derive(Clone, Copy)]
pub enum Site {
    /// A `new` of a type.
    Restriction(u32),
    /// A `let` of a type, with its term.
    Assignment(u32, Option<NodeId>),
    /// A variable of an input, of a type.
    Received(u32),
    /// An index of a branch.
    Index,
}

/// What is seen of a name: how many definitions it has, how many of them are `new`, the term of the last one where it is a `let`,
/// the type of its values, and how many indices are current at the last one; how often it is read and how often it is a cell of a
/// `defined` list; and whether a condition of a `find` reads it.
#[derive(Clone, Copy)]
pub struct Variable {
    pub sites: u32,
    pub restrictions: u32,
    pub term: Option<NodeId>,
    pub of_type: Option<u32>,
    pub indices: u32,
    pub reads: u32,
    pub cells: u32,
    pub in_condition: bool,
}

/// Nothing is seen of a name.
fn nothing() -> Variable
    ensures { result ≡ nothing }
{
    Variable {
        sites: 0,
        restrictions: 0,
        term: None,
        of_type: None,
        indices: 0,
        reads: 0,
        cells: 0,
        in_condition: false,
    }
}

impl Variable {
    /// With one more definition.
    fn with_site(self, site: Site, indices: u32) -> Variable
        ensures { result ≡ with_site site indices self }
    {
        let (of_type, term) = match site {
            Site::Restriction(t) | Site::Received(t) => (Some(t), None),
            Site::Assignment(t, term) => (Some(t), term),
            Site::Index => (None, None),
        };
        let more = match site {
            Site::Restriction(_) => 1,
            _ => 0,
        };
        Variable {
            sites: self.sites.saturating_add(1),
            restrictions: self.restrictions.saturating_add(more),
            term,
            of_type,
            indices,
            ..self
        }
    }
}

/// The names of a game, and its variables in the order of their first definitions.
#[derive(Drop)]
pub struct Variables {
    order: Vec<u32>,
    table: HashMap<u32, Variable>,
}

impl Variables {
    /// No name is seen.
    pub fn new(alloc: Global) -> Variables
        ensures seen { (x : ℕ) → seen_of result x ≡ nothing }
        ensures order { result.order.items ≡ [] }
    {
        Variables {
            order: Vec::new(alloc),
            table: HashMap::new(alloc),
        }
    }

    /// The variables, in the order of their first definitions.
    pub fn order(&self) -> &[u32]
        ensures { result.now ≡ self.now.order.items }
    {
        &self.order
    }

    /// What is seen of a name.
    pub fn get(&self, x: u32) -> Variable
        ensures { result ≡ seen_of self.now x }
    {
        match self.table.get(&x) {
            Some(variable) => *variable,
            None => nothing(),
        }
    }

    /// Notes a definition, below so many indices.
    pub fn note_site(&mut self, x: u32, site: Site, indices: u32) -> Result<(), AllocError>
        ensures seen { OnOk result ((y : ℕ) → seen_of self.new y
            ≡ with_change x (with_site site indices) (seen_of self.old) y) }
        ensures order { OnOk result (self.new.order.items
            ≡ order_with x (seen_of self.old x) self.old.order.items) }
    {
        let there = self.get(x);
        if there.sites == 0 {
            self.order.push(x)?;
        }
        self.table.insert(x, there.with_site(site, indices))?;
        Ok(())
    }

    /// Notes that a name is read.
    pub fn note_read(&mut self, x: u32, in_condition: bool) -> Result<(), AllocError>
        ensures seen { OnOk result ((y : ℕ) → seen_of self.new y
            ≡ with_change x (with_read in_condition) (seen_of self.old) y) }
        ensures order { OnOk result (self.new.order ≡ self.old.order) }
    {
        let there = self.get(x);
        let variable = Variable {
            reads: there.reads.saturating_add(1),
            in_condition: there.in_condition || in_condition,
            ..there
        };
        self.table.insert(x, variable)?;
        Ok(())
    }

    /// Notes a cell of a `defined` list.
    pub fn note_cell(&mut self, x: u32) -> Result<(), AllocError>
        ensures seen { OnOk result ((y : ℕ) → seen_of self.new y
            ≡ with_change x with_cell (seen_of self.old) y) }
        ensures order { OnOk result (self.new.order ≡ self.old.order) }
    {
        let there = self.get(x);
        let variable = Variable {
            cells: there.cells.saturating_add(1),
            ..there
        };
        self.table.insert(x, variable)?;
        Ok(())
    }
}
