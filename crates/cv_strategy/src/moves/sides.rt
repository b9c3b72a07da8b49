// The left sides of the equivalences that a file declares.
use crate::moves::binders::{Binder, typed_binders};
use cv_grounds::{items, open};
use cv_syntax::{Class, Decl, Decls, NameId, NodeId, Pool};
use std::alloc::{AllocError, Global};

/// What a name of a function may stand for.
#[derive(Clone, Copy)]
pub(crate) enum Part {
    /// The key.
    Key,
    /// A variable of a type.
    Coin,
    /// A term of a type.
    Argument,
}

/// A name of a function with its type, and the term that stands for it.
#[derive(Clone, Copy)]
pub(crate) struct Hole {
    pub(crate) name: u32,
    pub(crate) sort: u32,
    pub(crate) part: Part,
    pub(crate) term: Option<NodeId>,
}

/// A function of a left side: its body, with the names in it that stand for terms.
#[derive(Drop)]
pub(crate) struct Function {
    pub(crate) body: NodeId,
    pub(crate) holes: Vec<Hole>,
}

/// The left side of an equivalence: the equivalence's name, the type of the key, whether `new` may choose the key of the right side, and
/// the functions.
#[derive(Drop)]
pub(crate) struct Side {
    pub(crate) equivalence: u32,
    pub(crate) sort: u32,
    pub(crate) is_drawable: bool,
    pub(crate) functions: Vec<Function>,
}

/// Adds names.
fn add_holes(holes: &mut Vec<Hole>, names: &[Binder], part: Part) -> Result<(), AllocError> {
    for binder in names {
        holes.push(Hole {
            name: binder.name,
            sort: binder.sort,
            part,
            term: None,
        })?;
    }
    Ok(())
}

/// A function of a side with this key, by its node.
fn function_of(
    alloc: Global,
    pool: &Pool,
    key: Binder,
    n: NodeId,
) -> Result<Option<Function>, AllocError> {
    let Some(node) = open(pool, n) else {
        return Ok(None);
    };
    let (Some(body), Some(copied)) = (node.second, node.first.and_then(|m| open(pool, m))) else {
        return Ok(None);
    };
    let mut holes = Vec::new(alloc);
    add_holes(&mut holes, &[key], Part::Key)?;
    let coins = typed_binders(alloc, pool, copied.first)?;
    add_holes(&mut holes, coins.as_slice(), Part::Coin)?;
    let arguments = typed_binders(alloc, pool, copied.second)?;
    add_holes(&mut holes, arguments.as_slice(), Part::Argument)?;
    Ok(Some(Function { body, holes }))
}

/// The functions of a list.
fn functions_of(
    alloc: Global,
    pool: &Pool,
    key: Binder,
    list: Option<NodeId>,
) -> Result<Vec<Function>, AllocError> {
    let mut functions = Vec::new(alloc);
    for n in &items(alloc, pool, list)? {
        if let Some(function) = function_of(alloc, pool, key, *n)? {
            functions.push(function)?;
        }
    }
    Ok(functions)
}

/// The key of a side.
fn key_of(alloc: Global, pool: &Pool, side: NodeId) -> Result<Option<Binder>, AllocError> {
    let Some(node) = open(pool, side) else {
        return Ok(None);
    };
    let keys = typed_binders(alloc, pool, node.first)?;
    Ok(keys.as_slice().first().copied())
}

/// Whether `new` may choose of a type.
fn is_fixed(decls: &Decls, sort: u32) -> bool {
    match decls.class(NameId(sort)) {
        Class::TypeName { fixed, .. } => fixed,
        _ => false,
    }
}

/// The left side of an equivalence.
fn side_of(
    alloc: Global,
    pool: &Pool,
    decls: &Decls,
    equivalence: u32,
    tree: NodeId,
) -> Result<Option<Side>, AllocError> {
    let Some(node) = open(pool, tree) else {
        return Ok(None);
    };
    let (Some(left), Some(right)) = (node.first, node.second) else {
        return Ok(None);
    };
    let (Some(key), Some(other)) = (key_of(alloc, pool, left)?, key_of(alloc, pool, right)?) else {
        return Ok(None);
    };
    let list = open(pool, left).and_then(|n| n.second);
    Ok(Some(Side {
        equivalence,
        sort: key.sort,
        is_drawable: is_fixed(decls, other.sort),
        functions: functions_of(alloc, pool, key, list)?,
    }))
}

/// The left sides of the equivalences, in the order of the file.
pub(crate) fn sides_of(alloc: Global, pool: &Pool, decls: &Decls) -> Result<Vec<Side>, AllocError> {
    let mut sides = Vec::new(alloc);
    for k in 0..decls.len() {
        let Some(Decl::Equiv { id, tree }) = decls.get(k) else {
            continue;
        };
        if let Some(side) = side_of(alloc, pool, decls, id.0, *tree)? {
            sides.push(side)?;
        }
    }
    Ok(sides)
}
