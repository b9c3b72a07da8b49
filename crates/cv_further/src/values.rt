// The terms of `let`s that may stand for their variables.
use crate::chart::{Chart, Variable};
use cv_grounds::{items, nodes_up_to, open};
use cv_syntax::{Decl, Decls, Head, NodeId, Pool, query_at};
use std::alloc::{AllocError, Global};
use std::collections::HashSet;

/// How many nodes a term has at most that may stand for its variable.
const MOST_NODES: u32 = 9;

/// What a term reads: whether it has a function for which a cryptographic step looks, whether each variable is read at the indices
/// that are current where the term is given, or at the outermost of them, and the variables that are read at all of these.
#[derive(Drop)]
pub(crate) struct Value {
    pub(crate) is_sought: bool,
    pub(crate) is_current: bool,
    pub(crate) reads: Vec<u32>,
}

/// Adds the functions of a tree.
fn add_functions(
    pool: &Pool,
    start: NodeId,
    functions: &mut HashSet<u32>,
) -> Result<(), AllocError> {
    let mut at = Some(start);
    for _ in 0..pool.live() {
        let Some(node) = at.and_then(|n| open(pool, n)) else {
            return Ok(());
        };
        if let Head::Apply(f) = node.head {
            functions.insert(f)?;
        }
        if let Some(child) = node.first {
            if child.0 < start.0 {
                add_functions(pool, child, functions)?;
            }
        }
        at = node.second;
    }
    Ok(())
}

/// The functions for which cryptographic steps look: those of the left sides of equivalences.
pub(crate) fn sought_functions(
    alloc: Global,
    pool: &Pool,
    decls: &Decls,
) -> Result<HashSet<u32>, AllocError> {
    let mut functions = HashSet::new(alloc);
    for k in 0..decls.len() {
        let Some(Decl::Equiv { tree, .. }) = decls.get(k) else {
            continue;
        };
        if let Some(left) = open(pool, *tree).and_then(|n| n.first) {
            add_functions(pool, left, &mut functions)?;
        }
    }
    Ok(functions)
}

/// The variables of which a query asks.
pub(crate) fn secrets_of(
    alloc: Global,
    pool: &Pool,
    decls: &Decls,
) -> Result<HashSet<u32>, AllocError> {
    let mut secrets = HashSet::new(alloc);
    for k in 0..decls.len() {
        let Some(node) = query_at(decls, k).and_then(|n| open(pool, n)) else {
            continue;
        };
        match node.head {
            Head::Secret(x) | Head::SecretOnce(x) => {
                secrets.insert(x)?;
            }
            _ => {}
        }
    }
    Ok(secrets)
}

/// Whether index terms are the outermost of the current indices, of which the innermost stands first.
fn are_outermost(pool: &Pool, terms: &[NodeId], current: &[u32]) -> bool {
    if terms.len() > current.len() {
        return false;
    }
    for (term, index) in terms.iter().zip(current.iter().rev()) {
        match open(pool, *term) {
            Some(node) => match node.head {
                Head::Leaf(x) if x == *index => {}
                _ => return false,
            },
            None => return false,
        }
    }
    true
}

impl Value {
    /// Notes a read of a variable at index terms.
    fn note_read(
        &mut self,
        pool: &Pool,
        x: u32,
        terms: &[NodeId],
        current: &[u32],
    ) -> Result<(), AllocError> {
        if !are_outermost(pool, terms, current) {
            self.is_current = false;
        }
        if terms.len() == current.len() && !self.reads.contains(&x) {
            self.reads.push(x)?;
        }
        Ok(())
    }

    /// Notes what a node of the term is.
    fn note(
        &mut self,
        alloc: Global,
        pool: &Pool,
        chart: &Chart,
        n: NodeId,
        current: &[u32],
        functions: &HashSet<u32>,
    ) -> Result<(), AllocError> {
        let Some(node) = open(pool, n) else {
            return Ok(());
        };
        match node.head {
            Head::Apply(f) if functions.contains(&f) => self.is_sought = true,
            Head::Leaf(x) if chart.is_variable(x) => self.note_read(pool, x, &[], current)?,
            Head::Read(x) => {
                let terms = items(alloc, pool, node.first)?;
                self.note_read(pool, x, &terms, current)?;
            }
            _ => {}
        }
        Ok(())
    }
}

/// The nodes of a term that stand in no index, the term itself first.
fn add_nodes(pool: &Pool, start: NodeId, nodes: &mut Vec<NodeId>) -> Result<(), AllocError> {
    let mut at = Some(start);
    for _ in 0..pool.live() {
        let Some(n) = at else {
            return Ok(());
        };
        let Some(node) = open(pool, n) else {
            return Ok(());
        };
        nodes.push(n)?;
        if let Head::Read(_) = node.head {
            return Ok(());
        }
        if let Some(child) = node.first {
            if child.0 >= start.0 {
                return Ok(());
            }
            add_nodes(pool, child, nodes)?;
        }
        at = node.second;
    }
    Ok(())
}

/// What a `let` of a variable with one definition gives, where the term is small.
pub(crate) fn value_of(
    alloc: Global,
    pool: &Pool,
    chart: &Chart,
    x: Variable,
    functions: &HashSet<u32>,
) -> Result<Option<Value>, AllocError> {
    let Some(term) = x.term else {
        return Ok(None);
    };
    if x.sites != 1 || nodes_up_to(pool, term, MOST_NODES) > MOST_NODES {
        return Ok(None);
    }
    let current = chart.indices(x)?;
    let mut nodes = Vec::new(alloc);
    add_nodes(pool, term, &mut nodes)?;
    let mut value = Value {
        is_sought: false,
        is_current: true,
        reads: Vec::new(alloc),
    };
    for n in &nodes {
        value.note(alloc, pool, chart, *n, &current, functions)?;
    }
    Ok(Some(value))
}
