// Secrecy of many sessions: the pairs of definitions that copy values of one variable.
use crate::certificates::{Certificate, SecretPair};
use crate::searching::Effort;
use cv_closure::Theory;
use cv_closure_lines::{Derivation, Target, derive};
use cv_grounds::{Copies, Survey, open};
use cv_syntax::{Head, NodeId, Pool};
use std::alloc::{AllocError, Global};

/// What a search for pairs reads: the pool, the survey of the game, and what the file declares.
#[derive(Clone, Copy)]
pub(crate) struct Game<'a> {
    pub(crate) alloc: Global,
    pub(crate) pool: &'a Pool,
    pub(crate) survey: &'a Survey,
    pub(crate) theory: &'a Theory,
}

/// A definition by a value of another variable: its place, what is known there, that variable, and the index terms of the value.
#[derive(Clone, Copy)]
struct Copied {
    place: u32,
    last: u32,
    source: u32,
    indices: Option<NodeId>,
}

/// The variable whose value a term is, with the index terms.
fn value_of(pool: &Pool, term: Option<NodeId>) -> Option<(u32, Option<NodeId>)> {
    let node = open(pool, term?)?;
    match node.head {
        Head::Leaf(source) => Some((source, None)),
        Head::Read(source) => Some((source, node.first)),
        _ => None,
    }
}

/// The definitions of a variable by terms, in the order of their places. There are none where one of them isn't by a value that is chosen
/// at random.
fn copies_of(game: Game, variable: u32) -> Result<Option<Vec<Copied>>, AllocError> {
    let mut copies = Vec::new(game.alloc);
    for there in game.survey.definitions() {
        if there.variable != variable {
            continue;
        }
        let Some((source, indices)) = value_of(game.pool, there.term) else {
            return Ok(None);
        };
        if !game.survey.is_random(source) {
            return Ok(None);
        }
        copies.push(Copied {
            place: there.place,
            last: there.last,
            source,
            indices,
        })?;
    }
    Ok(Some(copies))
}

/// What the derivation of a pair is to end with: there are no such copies, where what is known at both contradicts itself, or else their
/// indices are equal.
fn targets(game: Game, copies: &Copies) -> Result<Vec<Target>, AllocError> {
    let mut targets = Vec::new(game.alloc);
    if copies.closure().is_contradictory() {
        targets.push(Target::Never)?;
        return Ok(targets);
    }
    for (m, n) in &copies.indices(game.alloc, usize::MAX)? {
        targets.push(Target::Equal(*m, *n))?;
    }
    Ok(targets)
}

/// The derivation of the pair of two copies of one variable, where it is found with the effort that is left.
fn derive_pair(
    game: Game,
    one: Copied,
    other: Copied,
    effort: &mut Effort,
) -> Result<Option<Derivation>, AllocError> {
    effort.begin();
    let places = (one.last, other.last);
    let mut copies = Copies::at(game.alloc, game.pool, game.survey, places, &[], effort.left)?;
    copies.give_terms(
        game.alloc,
        game.pool,
        game.theory,
        one.indices,
        other.indices,
    )?;
    effort.left = copies.closure().effort();
    if effort.left == 0 {
        return Ok(None);
    }
    let targets = targets(game, &copies)?;
    let derivation = derive(game.alloc, copies.closure(), &targets)?;
    if let Some(by) = &derivation {
        effort.spend(by.lines.len());
    }
    Ok(derivation)
}

/// Adds the pairs of a copy with those from it on that are of one variable with it, and tells whether all are found.
fn add_pairs(
    game: Game,
    one: Copied,
    from: &[Copied],
    pairs: &mut Vec<SecretPair>,
    effort: &mut Effort,
) -> Result<bool, AllocError> {
    for other in from {
        if other.source != one.source {
            continue;
        }
        let Some(by) = derive_pair(game, one, *other, effort)? else {
            return Ok(false);
        };
        pairs.push(SecretPair {
            first: one.place,
            second: other.place,
            by,
        })?;
    }
    Ok(true)
}

/// What closes a query of secrecy of many sessions: a pair for each two copies of one variable, by the place of the first, where all are
/// found with the effort that is left. There are no pairs where no definition is by a term.
pub(crate) fn secret(
    game: Game,
    variable: u32,
    effort: &mut Effort,
) -> Result<Option<Certificate>, AllocError> {
    let Some(copies) = copies_of(game, variable)? else {
        return Ok(None);
    };
    let mut pairs = Vec::new(game.alloc);
    for (k, one) in copies.iter().enumerate() {
        if !add_pairs(game, *one, &copies[k..], &mut pairs, effort)? {
            return Ok(None);
        }
    }
    Ok(Some(Certificate::Secret { pairs }))
}
