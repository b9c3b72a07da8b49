// Which reads of a variable stand in instances of a left side.
use crate::moves::sides::{Function, Hole, Part, Side};
use crate::moves::variables::{Spot, Variable, Variables};
use cv_grounds::open;
use cv_syntax::{Decls, Head, NameId, NodeId, Pool};
use std::alloc::{AllocError, Global};

/// What a search reads: the pool, the declarations, and the variables of the game.
#[derive(Clone, Copy)]
pub(crate) struct Scene<'a> {
    pub(crate) alloc: Global,
    pub(crate) pool: &'a Pool,
    pub(crate) decls: &'a Decls,
    pub(crate) variables: &'a Variables,
}

/// How many comparisons a search may still make.
#[derive(Drop)]
pub(crate) struct Budget {
    pub(crate) left: u32,
}

impl Budget {
    /// Counts a comparison, and tells whether it may be made.
    pub(crate) fn spend(&mut self) -> bool {
        if self.left == 0 {
            return false;
        }
        self.left -= 1;
        true
    }
}

/// The place of a name among those of a function, where a node of its body is one.
fn hole_of(holes: &[Hole], head: Head) -> Option<usize> {
    let Head::Leaf(x) = head else {
        return None;
    };
    for (k, hole) in holes.iter().enumerate() {
        if hole.name == x {
            return Some(k);
        }
    }
    None
}

/// Puts a term for a name, and tells whether it is the one that stands for it already, if one does.
fn fill(holes: &mut Vec<Hole>, k: usize, term: NodeId) -> bool {
    match holes.get_mut(k) {
        Some(hole) => match hole.term {
            Some(there) => there == term,
            None => {
                hole.term = Some(term);
                true
            }
        },
        None => false,
    }
}

/// Whether a term is a body, with terms for its names.
fn is_filled(
    pool: &Pool,
    holes: &mut Vec<Hole>,
    start: NodeId,
    term: Option<NodeId>,
    budget: &mut Budget,
) -> bool {
    let mut at = Some(start);
    let mut there = term;
    for _ in 0..pool.live() {
        let (Some(n), Some(m)) = (at, there) else {
            return at.is_none() && there.is_none();
        };
        let (Some(node), Some(other)) = (open(pool, n), open(pool, m)) else {
            return false;
        };
        if let Some(k) = hole_of(holes.as_slice(), node.head) {
            return fill(holes, k, m);
        }
        if node.head.code() != other.head.code() || !budget.spend() {
            return false;
        }
        match node.first {
            Some(child) => {
                if child.0 >= start.0 || !is_filled(pool, holes, child, other.first, budget) {
                    return false;
                }
            }
            None => {
                if other.first.is_some() {
                    return false;
                }
            }
        }
        at = node.second;
        there = other.second;
    }
    false
}

/// The variable that a term reads, if it is such a read.
fn variable_of(pool: &Pool, term: NodeId) -> Option<u32> {
    match open(pool, term)?.head {
        Head::Leaf(x) | Head::Read(x) => Some(x),
        _ => None,
    }
}

/// The type of a function's values.
fn result_of(decls: &Decls, f: u32) -> Option<u32> {
    match decls.result(NameId(f)) {
        Some(t) => Some(t.0),
        None => None,
    }
}

/// The type of a term, that of truth values being the name 0.
fn sort_of(scene: Scene, term: NodeId) -> Option<u32> {
    match open(scene.pool, term)?.head {
        Head::Leaf(x) | Head::Read(x) => match scene.variables.get(x) {
            Some(variable) if variable.sites > 0 => variable.sort,
            _ => result_of(scene.decls, x),
        },
        Head::Apply(f) => result_of(scene.decls, f),
        Head::Eq | Head::And | Head::Or | Head::Not | Head::Yes | Head::No => Some(0),
        _ => None,
    }
}

/// Whether a term is of a type.
fn is_of(sort: Option<u32>, wanted: u32) -> bool {
    match sort {
        Some(t) => t == wanted,
        None => false,
    }
}

/// Whether the term of a name may stand for it, the key being this variable.
fn is_fitting(scene: Scene, key: u32, hole: Hole) -> bool {
    let Some(term) = hole.term else {
        return false;
    };
    match hole.part {
        Part::Argument => is_of(sort_of(scene, term), hole.sort),
        Part::Coin => variable_of(scene.pool, term).is_some()
            && is_of(sort_of(scene, term), hole.sort),
        Part::Key => match variable_of(scene.pool, term) {
            Some(x) => x == key,
            None => false,
        },
    }
}

/// Whether each name has a term that may stand for it.
fn are_fitting(scene: Scene, key: u32, holes: &[Hole]) -> bool {
    for hole in holes {
        if !is_fitting(scene, key, *hole) {
            return false;
        }
    }
    true
}

/// Whether a body may be a term, by their heads.
fn may_be(pool: &Pool, holes: &[Hole], body: NodeId, term: NodeId) -> bool {
    match (open(pool, body), open(pool, term)) {
        (Some(node), Some(other)) => {
            hole_of(holes, node.head).is_some() || node.head.code() == other.head.code()
        }
        _ => false,
    }
}

/// Whether a term is an instance of a function, the key being this variable.
fn is_instance(
    scene: Scene,
    function: &Function,
    key: u32,
    term: NodeId,
    budget: &mut Budget,
) -> Result<bool, AllocError> {
    let Function { body, holes } = function;
    if !budget.spend() || !may_be(scene.pool, holes.as_slice(), *body, term) {
        return Ok(false);
    }
    let mut filled = Vec::from_slice(scene.alloc, holes.as_slice())?;
    if !is_filled(scene.pool, &mut filled, *body, Some(term), budget) {
        return Ok(false);
    }
    Ok(are_fitting(scene, key, filled.as_slice()))
}

/// Whether a term is an instance of some function.
fn is_call(
    scene: Scene,
    side: &Side,
    key: u32,
    term: NodeId,
    budget: &mut Budget,
) -> Result<bool, AllocError> {
    for function in &side.functions {
        if is_instance(scene, function, key, term, budget)? {
            return Ok(true);
        }
    }
    Ok(false)
}

/// Whether a read, by its number, stands in an instance.
fn is_inside(
    scene: Scene,
    side: &Side,
    key: u32,
    read: u32,
    budget: &mut Budget,
) -> Result<bool, AllocError> {
    let mut number = read;
    for _ in 0..scene.variables.spots() {
        let Some(spot) = scene.variables.spot(number) else {
            return Ok(false);
        };
        if is_call(scene, side, key, spot.node, budget)? {
            return Ok(true);
        }
        number = spot.around;
    }
    Ok(false)
}

/// The first read of a variable outside all instances, the key being this variable. Reads in conditions don't count.
pub(crate) fn outside_read(
    scene: Scene,
    side: &Side,
    key: Variable,
    budget: &mut Budget,
) -> Result<Option<Spot>, AllocError> {
    let mut number = key.first;
    for _ in 0..scene.variables.spots() {
        let Some(spot) = scene.variables.spot(number) else {
            return Ok(None);
        };
        if !is_inside(scene, side, key.name, number, budget)? {
            return Ok(Some(spot));
        }
        number = spot.next;
    }
    Ok(None)
}
