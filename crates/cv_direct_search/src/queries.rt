// The parts of a correspondence.
use crate::alternatives::{Alternatives, alternatives_from};
use cv_closure::TermId;
use cv_grounds::{Given, items, open};
use cv_syntax::{Head, NodeId, Opened, Pool};
use std::alloc::{AllocError, Global};
use std::collections::HashSet;

/// A right event: its number among all that stands on the right, from 1, whether it is marked `inj`, its name and its arguments.
#[derive(Clone, Copy)]
pub(crate) struct RightEvent {
    pub(crate) number: u64,
    pub(crate) is_once: bool,
    pub(crate) event: u32,
    pub(crate) arguments: Option<NodeId>,
}

/// What stands on the right: an event, or a term.
#[derive(Clone, Copy)]
pub(crate) enum Atom {
    Event(RightEvent),
    Term(NodeId),
}

/// A variable that a query declares, with its type.
#[derive(Clone, Copy)]
struct Declared {
    name: u32,
    ty: u32,
}

/// A correspondence: whether its left event is marked `inj`, that event with the variables there, the variables that it declares, those
/// that stand on the right alone, in the order of their declaration and as a set, and what stands on the right in each alternative.
#[derive(Drop)]
pub(crate) struct Correspondence {
    pub(crate) is_once: bool,
    pub(crate) event: u32,
    pub(crate) variables: Vec<u32>,
    declared: Vec<Declared>,
    pub(crate) others: Vec<u32>,
    pub(crate) alone: HashSet<u32>,
    pub(crate) alternatives: Alternatives,
}

impl Correspondence {
    /// The type of a variable.
    fn type_of(&self, name: u32) -> Option<u32> {
        for there in &self.declared {
            if there.name == name {
                return Some(there.ty);
            }
        }
        None
    }

    /// What stands for a variable of the type of another one, of those for which something stands.
    pub(crate) fn term_like(&self, given: &Given, name: u32) -> Option<TermId> {
        let ty = self.type_of(name)?;
        for there in &self.declared {
            if there.ty == ty {
                if let Some(term) = given.get(there.name) {
                    return Some(term);
                }
            }
        }
        None
    }
}

/// Reads a node that is there.
fn open_part(pool: &Pool, part: Option<NodeId>) -> Option<Opened> {
    open(pool, part?)
}

/// The name of a variable.
fn leaf(pool: &Pool, n: NodeId) -> Option<u32> {
    match open(pool, n)?.head {
        Head::Leaf(x) => Some(x),
        _ => None,
    }
}

/// The names of variables.
fn leaves(alloc: Global, pool: &Pool, list: Option<NodeId>) -> Result<Vec<u32>, AllocError> {
    let mut names = Vec::new(alloc);
    for n in &items(alloc, pool, list)? {
        if let Some(x) = leaf(pool, *n) {
            names.push(x)?;
        }
    }
    Ok(names)
}

/// Adds the name that a node reads.
fn add_name(names: &mut HashSet<u32>, head: Head) -> Result<(), AllocError> {
    if let Head::Leaf(x) = head {
        names.insert(x)?;
    }
    Ok(())
}

/// Adds the names that a tree reads.
fn add_reads(pool: &Pool, start: NodeId, names: &mut HashSet<u32>) -> Result<(), AllocError> {
    let mut at = Some(start);
    for _ in 0..pool.live() {
        let Some(node) = open_part(pool, at) else {
            return Ok(());
        };
        add_name(names, node.head)?;
        if let Some(child) = node.first {
            if child.0 < start.0 {
                add_reads(pool, child, names)?;
            }
        }
        at = node.second;
    }
    Ok(())
}

/// The names of a list as a set.
fn set_of(alloc: Global, names: &[u32]) -> Result<HashSet<u32>, AllocError> {
    let mut set = HashSet::new(alloc);
    for name in names {
        set.insert(*name)?;
    }
    Ok(set)
}

/// The names that are read on the right.
fn right_reads(
    alloc: Global,
    pool: &Pool,
    rights: Option<NodeId>,
) -> Result<HashSet<u32>, AllocError> {
    let mut read = HashSet::new(alloc);
    if let Some(list) = rights {
        add_reads(pool, list, &mut read)?;
    }
    Ok(read)
}

/// The variables of a query that are read on the right and are no argument of the left event.
fn right_alone(
    alloc: Global,
    declared: &[Declared],
    left: &HashSet<u32>,
    read: &HashSet<u32>,
) -> Result<Vec<u32>, AllocError> {
    let mut others = Vec::new(alloc);
    for there in declared {
        if read.contains(&there.name) && !left.contains(&there.name) {
            others.push(there.name)?;
        }
    }
    Ok(others)
}

/// The variables of a list of binders, with their types.
fn declarations(
    alloc: Global,
    pool: &Pool,
    list: Option<NodeId>,
) -> Result<Vec<Declared>, AllocError> {
    let mut declared = Vec::new(alloc);
    let mut at = list;
    for _ in 0..pool.live() {
        let Some(node) = open_part(pool, at) else {
            return Ok(declared);
        };
        if let Head::Binder(name, ty) = node.head {
            declared.push(Declared { name, ty })?;
        }
        at = node.second;
    }
    Ok(declared)
}

/// The alternatives of a right side, where there are no more than may be.
fn alternatives_of(
    alloc: Global,
    pool: &Pool,
    rights: Option<NodeId>,
) -> Result<Option<Alternatives>, AllocError> {
    let mut number = 1;
    match rights {
        Some(n) => alternatives_from(alloc, pool, n, &mut number),
        None => Ok(None),
    }
}

/// The parts of a query's tree: the variables that it declares, its left event with the arguments, and what stands on the right.
#[derive(Clone, Copy)]
struct Parts {
    declared: Option<NodeId>,
    is_once: bool,
    event: u32,
    arguments: Option<NodeId>,
    rights: Option<NodeId>,
}

/// The parts of a query's tree, where it is a correspondence.
fn parts_of(pool: &Pool, query: NodeId) -> Option<Parts> {
    let node = open(pool, query)?;
    let Head::Query = node.head else {
        return None;
    };
    let sides = open(pool, node.second?)?;
    let left = open(pool, sides.first?)?;
    let (is_once, event) = match left.head {
        Head::Occurs(event) => (false, event),
        Head::OccursOnce(event) => (true, event),
        _ => return None,
    };
    Some(Parts {
        declared: node.first,
        is_once,
        event,
        arguments: left.first,
        rights: sides.second,
    })
}

/// The parts of a query, where it is a correspondence.
pub(crate) fn correspondence_of(
    alloc: Global,
    pool: &Pool,
    query: NodeId,
) -> Result<Option<Correspondence>, AllocError> {
    let Some(parts) = parts_of(pool, query) else {
        return Ok(None);
    };
    let Some(alternatives) = alternatives_of(alloc, pool, parts.rights)? else {
        return Ok(None);
    };
    let variables = leaves(alloc, pool, parts.arguments)?;
    let declared = declarations(alloc, pool, parts.declared)?;
    let left = set_of(alloc, &variables)?;
    let read = right_reads(alloc, pool, parts.rights)?;
    let others = right_alone(alloc, &declared, &left, &read)?;
    let alone = set_of(alloc, &others)?;
    Ok(Some(Correspondence {
        is_once: parts.is_once,
        event: parts.event,
        variables,
        declared,
        others,
        alone,
        alternatives,
    }))
}
