ghost use Rattle.std.specs.Prelude.{◌≡◌, ◌+◌, ◌++◌, ◌∷◌, [], ℕ, IfOk, IfSome, List, OnOk, length, map, option_map};
ghost use Rattle.cv_pool.specs.KindTree.{KindTree};
ghost use Rattle.cv_pool.specs.Nodes.{ChildBelow};
ghost use Rattle.cv_syntax.specs.PoolTrees.{tree_at};
ghost use Rattle.cv_meaning.specs.Correspondences as query;
ghost use Rattle.cv_meaning.specs.Correspondences.{atom_count};
ghost use Rattle.cv_scene.specs.Sights.{from_one};
ghost use Rattle.cv_query_certificates.specs.Alternatives as certificates;
ghost use Rattle.cv_query_certificates.specs.Alternatives.{chosen_by, number_in};
ghost use Rattle.cv_query_parts.specs.Alternatives.{AreAlternativesBelow, AreAtomsBelow, alternatives_seen, atoms_seen, each_with as each_of, lists};

use crate::parts::place_in;
use cv_syntax::{Head, NodeId, Pool, read_node};
use std::alloc::{AllocError, Global};

/// An atom of a correspondence, with its number among all of the right side.
#[derive(Clone, Copy)]
pub struct NumberedAtom {
    pub number: u32,
    pub atom: Option<NodeId>,
}

/// The alternatives of a part of a right side, and the number of the first atom behind it.
#[derive(Drop)]
struct Numbered {
    found: Vec<Vec<NumberedAtom>>,
    next: u32,
}

/// The atoms of an alternative, and behind them those of another one.
fn joined(
    alloc: Global,
    first: &[NumberedAtom],
    second: &[NumberedAtom],
) -> Result<Vec<NumberedAtom>, AllocError>
    ensures { IfOk result (λ atoms. atoms.items ≡ first.now ++ second.now) }
{
    let mut atoms = Vec::from_slice(alloc, first)?;
    atoms.extend_from_slice(second)?;
    Ok(atoms)
}

/// Adds an alternative with each of the others behind it.
fn add_each(
    alloc: Global,
    found: &mut Vec<Vec<NumberedAtom>>,
    first: &[NumberedAtom],
    others: &[Vec<NumberedAtom>],
) -> Result<(), AllocError>
    ensures { IfOk result (λ u. lists found.new.items
        ≡ lists found.old.items ++ map (λ y. first.now ++ y) (lists others.now)) }
{
    'others: for k in 0..others.len() {
        found.push(joined(alloc, first, others[k].as_slice())?)?;
    }
    Ok(())
}

/// For each alternative, it with each of the others behind it.
fn each_with(
    alloc: Global,
    firsts: &[Vec<NumberedAtom>],
    others: &[Vec<NumberedAtom>],
) -> Result<Vec<Vec<NumberedAtom>>, AllocError>
    ensures { IfOk result (λ found. lists found.items
        ≡ each_of (lists firsts.now) (lists others.now)) }
{
    let mut found = Vec::new(alloc);
    'firsts: for k in 0..firsts.len() {
        add_each(alloc, &mut found, firsts[k].as_slice(), others)?;
    }
    Ok(found)
}

/// Adds alternatives behind others.
fn add_all(
    alloc: Global,
    found: &mut Vec<Vec<NumberedAtom>>,
    more: &[Vec<NumberedAtom>],
) -> Result<(), AllocError>
    ensures { IfOk result (λ u. lists found.new.items
        ≡ lists found.old.items ++ lists more.now) }
{
    'more: for k in 0..more.len() {
        found.push(Vec::from_slice(alloc, more[k].as_slice())?)?;
    }
    Ok(())
}

/// One alternative with these atoms.
fn only(alloc: Global, atoms: &[NumberedAtom]) -> Result<Vec<Vec<NumberedAtom>>, AllocError>
    ensures { IfOk result (λ found. lists found.items ≡ atoms.now ∷ []) }
{
    let mut found = Vec::new(alloc);
    found.push(Vec::from_slice(alloc, atoms)?)?;
    Ok(found)
}

/// The number behind a number. Without one memory runs out before.
fn behind(number: u32) -> Result<u32, AllocError>
    ensures { IfOk result (λ n. n ≡ number + 1) }
{
    if number == u32::MAX {
        return Err(AllocError);
    }
    Ok(number + 1)
}

/// Each of the alternatives with an atom behind it.
fn with_atom(
    alloc: Global,
    found: &[Vec<NumberedAtom>],
    number: u32,
    atom: Option<NodeId>,
) -> Result<Numbered, AllocError>
    ensures found { IfOk result (λ r. lists r.found.items
        ≡ each_of (lists found.now) ((record { number = number; atom = atom } ∷ []) ∷ [])) }
    ensures next { IfOk result (λ r. r.next ≡ number + 1) }
{
    let last = only(alloc, &[NumberedAtom { number, atom }])?;
    Ok(Numbered {
        found: each_with(alloc, found, last.as_slice())?,
        next: behind(number)?,
    })
}

/// Each of the alternatives with each of two parts' behind it.
fn with_either(
    alloc: Global,
    found: &[Vec<NumberedAtom>],
    one: Numbered,
    other: Numbered,
) -> Result<Numbered, AllocError>
    ensures found { IfOk result (λ r. lists r.found.items
        ≡ each_of (lists found.now) (lists one.found.items ++ lists other.found.items)) }
    ensures next { IfOk result (λ r. r.next ≡ other.next) }
{
    let mut both = one.found;
    add_all(alloc, &mut both, other.found.as_slice())?;
    Ok(Numbered {
        found: each_with(alloc, found, both.as_slice())?,
        next: other.next,
    })
}

/// The alternatives of a part of a right side, where the first atom has this number.
#[tactic(auto, using(cv_syntax::proofs::Trees::opened))]
fn alternatives_from(
    alloc: Global,
    pool: &Pool,
    number: u32,
    right: Option<NodeId>,
) -> Result<Numbered, AllocError>
    requires { ChildBelow (length pool.now.trees) right }
    ensures alternatives { IfOk result (λ r. alternatives_seen pool.now.trees r.found.items
        ≡ query.alternatives_from number (tree_at pool.now.trees right)) }
    ensures next { IfOk result (λ r. r.next
        ≡ number + atom_count (tree_at pool.now.trees right)) }
    ensures live { IfOk result (λ r.
        AreAlternativesBelow (length pool.now.trees) r.found.items) }
{
    let mut found = only(alloc, &[])?;
    let mut next = number;
    let mut at = right;
    'parts: while let Some(n) = at {
        let node = read_node(pool, n);
        match node.head {
            Head::Cons => {
                let item = alternatives_from(alloc, pool, next, node.first)?;
                found = each_with(alloc, found.as_slice(), item.found.as_slice())?;
                next = item.next;
                at = node.second;
            }
            Head::SomeOf => {
                let one = alternatives_from(alloc, pool, next, node.first)?;
                let other = alternatives_from(alloc, pool, one.next, node.second)?;
                let all = with_either(alloc, found.as_slice(), one, other)?;
                return Ok(all);
            }
            _ => {
                let all = with_atom(alloc, found.as_slice(), next, at)?;
                return Ok(all);
            }
        }
    }
    Ok(Numbered { found, next })
}

/// The alternatives of a right side. It takes memory for each of them: a query has at most 64.
pub fn alternatives_of(
    alloc: Global,
    pool: &Pool,
    right: Option<NodeId>,
) -> Result<Vec<Vec<NumberedAtom>>, AllocError>
    requires { ChildBelow (length pool.now.trees) right }
    ensures alternatives { IfOk result (λ found. alternatives_seen pool.now.trees found.items
        ≡ query.alternatives_of (tree_at pool.now.trees right)) }
    ensures live { IfOk result (λ found.
        AreAlternativesBelow (length pool.now.trees) found.items) }
{
    Ok(alternatives_from(alloc, pool, 1, right)?.found)
}

/// What stands behind the witnesses of an entry: perhaps the number of an alternative, and the list of routes.
#[derive(Clone, Copy)]
pub struct Choice {
    pub number: Option<u64>,
    pub routes: Option<NodeId>,
}

/// The number that an item of a list names, where it is the part `alt`.
#[tactic(auto, using(crate::proofs::Said::sayings))]
fn alternative_named(pool: &Pool, item: Option<NodeId>) -> Option<u64>
    requires { ChildBelow (length pool.now.trees) item }
    ensures { result ≡ certificates.number_of (tree_at pool.now.trees item) }
{
    let Some(n) = item else {
        return None;
    };
    let node = read_node(pool, n);
    match node.head {
        Head::AlternativePart => Some(place_in(pool, node.first)),
        _ => None,
    }
}

/// The choice that a tree is.
#[tactic(auto, using(crate::proofs::Said::sayings))]
pub fn choice_of(pool: &Pool, tree: Option<NodeId>) -> Choice
    requires { ChildBelow (length pool.now.trees) tree }
    ensures number { result.number ≡ number_in (tree_at pool.now.trees tree) }
    ensures routes { tree_at pool.now.trees result.routes
        ≡ certificates.routes_of (tree_at pool.now.trees tree) }
    ensures live { ChildBelow (length pool.now.trees) result.routes }
{
    let Some(n) = tree else {
        return Choice {
            number: None,
            routes: tree,
        };
    };
    let node = read_node(pool, n);
    match alternative_named(pool, node.first) {
        Some(number) => Choice {
            number: Some(number),
            routes: node.second,
        },
        None => Choice {
            number: None,
            routes: tree,
        },
    }
}

/// The alternative of a number, from 1.
fn alternative_at(alternatives: &[Vec<NumberedAtom>], number: u64) -> Option<&[NumberedAtom]>
    ensures { option_map (λ atoms. atoms.now) result
        ≡ from_one (lists alternatives.now) number }
{
    if number == 0 {
        return None;
    }
    let k = (number - 1) as usize;
    if k < alternatives.len() {
        return Some(alternatives[k].as_slice());
    }
    None
}

/// The alternative that is chosen, if one is.
pub fn chosen(alternatives: &[Vec<NumberedAtom>], number: Option<u64>) -> Option<&[NumberedAtom]>
    ensures atoms { (trees : List KindTree)
        → option_map (λ atoms. atoms_seen trees atoms.now) result
        ≡ chosen_by (alternatives_seen trees alternatives.now) number }
    ensures live { (n : ℕ) → AreAlternativesBelow n alternatives.now
        → IfSome result (λ atoms. AreAtomsBelow n atoms.now) }
{
    let only = alternatives.len() == 1;
    match number {
        Some(n) => {
            if only {
                return None;
            }
            alternative_at(alternatives, n)
        }
        None => {
            if only {
                return alternative_at(alternatives, 1);
            }
            None
        }
    }
}

/// The atoms of the alternative that is chosen, if one is.
pub fn chosen_atoms(alternatives: &[Vec<NumberedAtom>], number: Option<u64>) -> &[NumberedAtom]
    ensures atoms { (trees : List KindTree) → atoms_seen trees result.now
        ≡ certificates.atoms_of_chosen
        (chosen_by (alternatives_seen trees alternatives.now) number) }
    ensures live { (n : ℕ) → AreAlternativesBelow n alternatives.now
        → AreAtomsBelow n result.now }
{
    match chosen(alternatives, number) {
        Some(atoms) => atoms,
        None => &[],
    }
}
