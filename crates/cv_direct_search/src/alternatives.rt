// The alternatives of a right side.
ghost use Rattle.std.specs.Prelude.{◌<◌, IfSome};

use crate::queries::{Atom, RightEvent};
use cv_grounds::open;
use cv_syntax::{Head, NodeId, Opened, Pool};
use std::alloc::{AllocError, Global};

/// How many alternatives a right side has, at most.
const MOST_ALTERNATIVES: usize = 64;

/// Lists of atoms, one for each alternative.
pub(crate) type Alternatives = Vec<Vec<Atom>>;

/// The atom that a tree is.
fn atom_of(n: NodeId, node: Opened, number: u64) -> Atom {
    let (is_once, event) = match node.head {
        Head::Occurs(event) => (false, event),
        Head::OccursOnce(event) => (true, event),
        _ => return Atom::Term(n),
    };
    Atom::Event(RightEvent {
        number,
        is_once,
        event,
        arguments: node.first,
    })
}

/// An alternative without atoms, alone.
fn nothing(alloc: Global) -> Result<Alternatives, AllocError> {
    let mut all = Vec::new(alloc);
    all.push(Vec::new(alloc))?;
    Ok(all)
}

/// The alternative that is one atom of a number, alone; the number becomes the next one.
fn alone(
    alloc: Global,
    n: NodeId,
    node: Opened,
    number: &mut u64,
) -> Result<Option<Alternatives>, AllocError> {
    let mut atoms = Vec::new(alloc);
    atoms.push(atom_of(n, node, *number))?;
    *number = number.saturating_add(1);
    let mut all = Vec::new(alloc);
    all.push(atoms)?;
    Ok(Some(all))
}

/// Adds atoms behind others.
fn add_atoms(atoms: &mut Vec<Atom>, more: &[Atom]) -> Result<(), AllocError> {
    for atom in more {
        atoms.push(*atom)?;
    }
    Ok(())
}

/// Adds atoms behind those of each alternative.
fn add_to_each(all: &mut Alternatives, more: &[Atom]) -> Result<(), AllocError> {
    for k in 0..all.len() {
        if let Some(atoms) = all.get_mut(k) {
            add_atoms(atoms, more)?;
        }
    }
    Ok(())
}

/// Adds one alternative with each of others behind it.
fn add_each(
    alloc: Global,
    first: &[Atom],
    others: &Alternatives,
    all: &mut Alternatives,
) -> Result<(), AllocError> {
    for second in others {
        let mut atoms = Vec::from_slice(alloc, first)?;
        add_atoms(&mut atoms, second)?;
        all.push(atoms)?;
    }
    Ok(())
}

/// Each alternative of one part with each of another part behind it, where both parts are to be met. There are none where they are too
/// many.
fn each_with(
    alloc: Global,
    mut firsts: Alternatives,
    part: Option<Alternatives>,
) -> Result<Option<Alternatives>, AllocError> {
    let Some(seconds) = part else {
        return Ok(None);
    };
    if firsts.len().saturating_mul(seconds.len()) > MOST_ALTERNATIVES {
        return Ok(None);
    }
    if seconds.len() == 1 {
        if let Some(only) = seconds.first() {
            add_to_each(&mut firsts, only)?;
        }
        return Ok(Some(firsts));
    }
    let mut all = Vec::new(alloc);
    for first in &firsts {
        add_each(alloc, first, &seconds, &mut all)?;
    }
    Ok(Some(all))
}

/// The alternatives of one part and then those of another one, where one of both is to be met. There are none where they are too many.
fn one_or_other(
    part: Option<Alternatives>,
    other: Option<Alternatives>,
) -> Result<Option<Alternatives>, AllocError> {
    let (Some(mut firsts), Some(seconds)) = (part, other) else {
        return Ok(None);
    };
    if firsts.len().saturating_add(seconds.len()) > MOST_ALTERNATIVES {
        return Ok(None);
    }
    for atoms in seconds {
        firsts.push(atoms)?;
    }
    Ok(Some(firsts))
}

/// A child that has a smaller number than a node.
fn below(start: NodeId, child: Option<NodeId>) -> Option<NodeId>
    ensures { IfSome result (λ n. n.0 < start.0) }
{
    match child {
        Some(n) if n.0 < start.0 => Some(n),
        _ => None,
    }
}

/// The parts of which a node below another one consists: the first item of a list, or two parts one of which must be met.
fn parts(start: NodeId, node: Opened) -> (Option<NodeId>, Option<NodeId>)
    ensures first { IfSome result.0 (λ n. n.0 < start.0) }
    ensures second { IfSome result.1 (λ n. n.0 < start.0) }
{
    match node.head {
        Head::Cons => (below(start, node.first), None),
        Head::SomeOf => (below(start, node.first), below(start, node.second)),
        _ => (None, None),
    }
}

/// The alternatives of a right side whose first atom has a number, which becomes that of the first atom behind it. There are none where
/// they are too many. In the tree of a right side a list joins what must all be met, and `SomeOf` two parts one of which must be.
pub(crate) fn alternatives_from(
    alloc: Global,
    pool: &Pool,
    start: NodeId,
    number: &mut u64,
) -> Result<Option<Alternatives>, AllocError> {
    let mut all = nothing(alloc)?;
    let mut at = Some(start);
    for _ in 0..pool.live() {
        let Some(n) = at else {
            return Ok(Some(all));
        };
        let Some(node) = open(pool, n) else {
            return Ok(None);
        };
        let (first, second) = parts(start, node);
        let mut part = match first {
            Some(child) => alternatives_from(alloc, pool, child, number)?,
            None => alone(alloc, n, node, number)?,
        };
        if let Some(child) = second {
            let other = alternatives_from(alloc, pool, child, number)?;
            part = one_or_other(part, other)?;
        }
        let Some(more) = each_with(alloc, all, part)? else {
            return Ok(None);
        };
        all = more;
        at = match node.head {
            Head::Cons => node.second,
            _ => None,
        };
    }
    Ok(None)
}
