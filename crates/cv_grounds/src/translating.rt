// Terms of the pool as terms of a table or of a closure.
use crate::nodes::{arguments, open};
use cv_closure::{Closure, TermId, Terms};
use cv_syntax::{Head, NodeId, Pool};
use std::alloc::{AllocError, Global};
use std::collections::HashMap;

/// Names with the terms that stand for them, in order. Of two equal names the last counts.
#[derive(Drop)]
pub struct Given {
    names: Vec<u32>,
    terms: Vec<TermId>,
    by_name: HashMap<u32, TermId>,
}

impl Given {
    /// No names.
    pub fn new(alloc: Global) -> Given {
        Given {
            names: Vec::new(alloc),
            terms: Vec::new(alloc),
            by_name: HashMap::new(alloc),
        }
    }

    /// How many names there are.
    pub fn len(&self) -> usize {
        self.terms.len()
    }

    /// Adds a name with its term behind the others.
    pub fn add(&mut self, name: u32, term: TermId) -> Result<(), AllocError> {
        self.by_name.insert(name, term)?;
        self.names.push(name)?;
        self.terms.push(term)?;
        Ok(())
    }

    /// Adds all of another list behind the others.
    pub fn add_all(&mut self, more: &Given) -> Result<(), AllocError> {
        for (name, term) in more.names.iter().zip(&more.terms) {
            self.add(*name, *term)?;
        }
        Ok(())
    }

    /// The terms, in the order of the names.
    pub fn terms(&self) -> &[TermId] {
        &self.terms
    }

    /// The term that stands for a name.
    pub fn get(&self, name: u32) -> Option<TermId> {
        match self.by_name.get(&name) {
            Some(term) => Some(*term),
            None => None,
        }
    }
}

/// A term of the pool as one of a closure, with terms for names. There is none where the tree is no term, or where the closure
/// is full.
pub fn translate(
    alloc: Global,
    closure: &mut Closure,
    pool: &Pool,
    given: &Given,
    n: NodeId,
) -> Result<Option<TermId>, AllocError> {
    let Some(node) = open(pool, n) else {
        return Ok(None);
    };
    if let Head::Leaf(x) = node.head {
        if let Some(term) = given.get(x) {
            return Ok(Some(term));
        }
    }
    let Some(children) = arguments(alloc, pool, node)? else {
        return Ok(None);
    };
    let mut terms = Vec::new(alloc);
    for child in &children {
        if child.0 >= n.0 {
            return Ok(None);
        }
        let Some(term) = translate(alloc, closure, pool, given, *child)? else {
            return Ok(None);
        };
        terms.push(term)?;
    }
    closure.term(node.head, &terms)
}

/// A term of the pool as one of a table. There is none where the tree is no term, or where the table is full.
pub fn translate_pattern(
    alloc: Global,
    patterns: &mut Terms,
    pool: &Pool,
    n: NodeId,
) -> Result<Option<TermId>, AllocError> {
    let Some(node) = open(pool, n) else {
        return Ok(None);
    };
    let Some(children) = arguments(alloc, pool, node)? else {
        return Ok(None);
    };
    let mut terms = Vec::new(alloc);
    for child in &children {
        if child.0 >= n.0 {
            return Ok(None);
        }
        let Some(term) = translate_pattern(alloc, patterns, pool, *child)? else {
            return Ok(None);
        };
        terms.push(term)?;
    }
    patterns.add(node.head, &terms)
}

/// The term of this number of a table as one of a closure, with terms for names, by those of the terms before it.
fn transfer_term(
    alloc: Global,
    closure: &mut Closure,
    given: &Given,
    table: &Terms,
    t: TermId,
    before: &[TermId],
) -> Result<Option<TermId>, AllocError> {
    let Some(head) = table.head(t) else {
        return Ok(None);
    };
    if let Head::Leaf(x) = head {
        if let Some(term) = given.get(x) {
            return Ok(Some(term));
        }
    }
    let mut arguments = Vec::new(alloc);
    for argument in table.arguments(t) {
        let Some(there) = before.get(argument.0 as usize) else {
            return Ok(None);
        };
        arguments.push(*there)?;
    }
    closure.term(head, &arguments)
}

/// The terms of a table as those of a closure, with terms for names; fewer where the closure is full.
fn transfer_all(
    alloc: Global,
    closure: &mut Closure,
    given: &Given,
    table: &Terms,
) -> Result<Vec<TermId>, AllocError> {
    let mut terms = Vec::new(alloc);
    for number in 0..table.len() {
        let there = transfer_term(alloc, closure, given, table, TermId(number), &terms)?;
        let Some(term) = there else {
            return Ok(terms);
        };
        terms.push(term)?;
    }
    Ok(terms)
}

/// Terms of a table as those of a closure, with terms for names; fewer, the first ones, where the closure is full.
pub(crate) fn transfer(
    alloc: Global,
    closure: &mut Closure,
    given: &Given,
    table: &Terms,
    wanted: &[TermId],
) -> Result<Vec<TermId>, AllocError> {
    let all = transfer_all(alloc, closure, given, table)?;
    let mut terms = Vec::new(alloc);
    for t in wanted {
        let Some(term) = all.get(t.0 as usize) else {
            return Ok(terms);
        };
        terms.push(*term)?;
    }
    Ok(terms)
}
