// The moves of a game, in order.
ghost use Rattle.std.specs.Prelude.{ℕ, IfOk, IfSome, length};
ghost use Rattle.cv_pool.specs.PoolView.{Grows};
ghost use Rattle.cv_step_writer.specs.Proposals.{IsProposalBelow};

use crate::moves::instances::{Budget, Scene, outside_read};
use crate::moves::reads::variables_of;
use crate::moves::sides::{Side, sides_of};
use crate::moves::variables::Variable;
use crate::sparing::Spared;
use cv_grounds::open;
use cv_step_writer::Proposal;
use cv_syntax::{Decls, Head, NameId, NodeId, Pool, PoolError, query_at};
use std::alloc::{AllocError, Global};
use std::collections::HashSet;

/// How many comparisons are made at most.
const MOST_COMPARISONS: u32 = 20_000_000;

/// Moves of one kind. All of the first kind stand before all of the second.
#[derive(Clone, Copy)]
enum Kind {
    /// Cryptographic steps.
    Crypto,
    /// Steps that are advised: what they change keeps a cryptographic step from being one.
    Advised,
}

/// A move, by the names of its step.
#[derive(Clone, Copy)]
enum Move {
    /// The step by an equivalence, with the variable that stands for its key.
    Crypto { equivalence: u32, x: u32 },
    /// The step `unlet`.
    Unlet { x: u32 },
    /// The step `SArename`, with a name for each of so many sites.
    ArrayRename { x: u32, sites: u32 },
}

/// A name, so many times.
fn repeated(alloc: Global, x: u32, count: u32) -> Result<Vec<NameId>, AllocError> {
    let mut names = Vec::new(alloc);
    for _ in 0..count {
        names.push(NameId(x))?;
    }
    Ok(names)
}

/// The step of a move. The new names of `SArename` are still to be drawn: each place has the name from which that is done.
fn proposal_of(alloc: Global, step: Move) -> Result<Proposal, AllocError>
    ensures { (n : ℕ) → IfOk result (IsProposalBelow n) }
{
    match step {
        Move::Crypto { equivalence, x } => Ok(Proposal::Crypto {
            equivalence: NameId(equivalence),
            x: NameId(x),
        }),
        Move::Unlet { x } => Ok(Proposal::Unlet { x: NameId(x) }),
        Move::ArrayRename { x, sites } => Ok(Proposal::ArrayRename {
            x: NameId(x),
            to: repeated(alloc, x, sites)?,
        }),
    }
}

/// The variables of which a query asks.
fn secrets_of(alloc: Global, pool: &Pool, decls: &Decls) -> Result<HashSet<u32>, AllocError> {
    let mut secrets = HashSet::new(alloc);
    for k in 0..decls.len() {
        let Some(node) = query_at(decls, k).and_then(|n| open(pool, n)) else {
            continue;
        };
        match node.head {
            Head::Secret(x) | Head::SecretOnce(x) => {
                secrets.insert(x)?;
            }
            _ => {}
        }
    }
    Ok(secrets)
}

/// A search for moves: what it reads, the variables of which a query asks, the steps that are spared, the moves that are still to be
/// passed over, and what it may still compare.
#[derive(Drop)]
struct Search<'a> {
    scene: Scene<'a>,
    secrets: HashSet<u32>,
    spared: &'a Spared,
    number: u32,
    budget: Budget,
}

/// Whether a variable is drawn as a key of this type, at each of its sites.
fn is_drawn_as_key(side: &Side, x: Variable) -> bool {
    match x.sort {
        Some(t) => x.is_drawn && t == side.sort,
        None => false,
    }
}

/// Whether something reads a variable.
fn is_read(x: Variable) -> bool {
    x.is_tested || x.first != 0
}

impl<'a> Search<'a> {
    /// Whether a variable may be a key but for the count of its sites: it is drawn as one, and no query asks for it.
    fn is_key(&self, side: &Side, x: Variable) -> bool {
        is_drawn_as_key(side, x) && !self.secrets.contains(&x.name)
    }

    /// The cryptographic step for a variable, where it is read in instances alone and the step isn't spared. It leads to no game where
    /// `new` may not choose the key of the right side.
    fn crypto(&mut self, side: &Side, x: Variable) -> Result<Option<Move>, AllocError> {
        if !side.is_drawable || !self.is_key(side, x) {
            return Ok(None);
        }
        if x.sites != 1 || x.first == 0 || x.is_tested {
            return Ok(None);
        }
        if self.spared.has_crypto(side.equivalence, x.name) {
            return Ok(None);
        }
        match outside_read(self.scene, side, x, &mut self.budget)? {
            Some(_) => Ok(None),
            None => Ok(Some(Move::Crypto {
                equivalence: side.equivalence,
                x: x.name,
            })),
        }
    }

    /// The step `unlet` for a `let`, where that is the only definition of its variable.
    fn unlet(&self, x: u32) -> Option<Move> {
        match self.scene.variables.get(x) {
            Some(variable) if variable.sites == 1 => Some(Move::Unlet { x }),
            _ => None,
        }
    }

    /// The step `SArename` for a variable with several sites, where it is read.
    fn array_rename(&self, x: Variable) -> Option<Move> {
        if !is_read(x) {
            return None;
        }
        Some(Move::ArrayRename {
            x: x.name,
            sites: x.sites,
        })
    }

    /// The step that is advised for a variable: one with several sites gets a name for each. Else, where the first read outside all
    /// instances is all that a `let` gives, the `let` goes.
    fn advised(&mut self, side: &Side, x: Variable) -> Result<Option<Move>, AllocError> {
        if !self.is_key(side, x) {
            return Ok(None);
        }
        if x.sites > 1 {
            return Ok(self.array_rename(x));
        }
        let Some(spot) = outside_read(self.scene, side, x, &mut self.budget)? else {
            return Ok(None);
        };
        match spot.of_let {
            Some(y) => Ok(self.unlet(y)),
            None => Ok(None),
        }
    }

    /// The move of a kind for a variable, where there is one.
    fn move_of(
        &mut self,
        kind: Kind,
        side: &Side,
        x: Variable,
    ) -> Result<Option<Move>, AllocError> {
        match kind {
            Kind::Crypto => self.crypto(side, x),
            Kind::Advised => self.advised(side, x),
        }
    }

    /// Passes over a move, or gives it where it is the one that is asked for.
    fn pass(&mut self, step: Move) -> Option<Move> {
        if self.number == 0 {
            return Some(step);
        }
        self.number -= 1;
        None
    }

    /// The move of an equivalence that is asked for, variables in the order of their first sites.
    fn of_side(&mut self, kind: Kind, side: &Side) -> Result<Option<Move>, AllocError> {
        for place in 0..self.scene.variables.len() {
            let Some(x) = self.scene.variables.at(place) else {
                return Ok(None);
            };
            if !self.budget.spend() {
                return Ok(None);
            }
            if let Some(step) = self.move_of(kind, side, x)? {
                if let Some(there) = self.pass(step) {
                    return Ok(Some(there));
                }
            }
        }
        Ok(None)
    }

    /// The move of a kind that is asked for, equivalences in the order of the file.
    fn of_kind(&mut self, kind: Kind, sides: &[Side]) -> Result<Option<Move>, AllocError> {
        for side in sides {
            if let Some(there) = self.of_side(kind, side)? {
                return Ok(Some(there));
            }
        }
        Ok(None)
    }
}

/// The move of this number, from 0.
fn find<'a>(
    alloc: Global,
    pool: &'a Pool,
    decls: &'a Decls,
    game: NodeId,
    spared: &'a Spared,
    number: u32,
) -> Result<Option<Move>, AllocError> {
    let variables = variables_of(alloc, pool, game)?;
    let sides = sides_of(alloc, pool, decls)?;
    let mut search = Search {
        scene: Scene {
            alloc,
            pool,
            decls,
            variables: &variables,
        },
        secrets: secrets_of(alloc, pool, decls)?,
        spared,
        number,
        budget: Budget {
            left: MOST_COMPARISONS,
        },
    };
    match search.of_kind(Kind::Crypto, sides.as_slice())? {
        Some(step) => Ok(Some(step)),
        None => search.of_kind(Kind::Advised, sides.as_slice()),
    }
}

/// The move of this number, from 0, that a settled game suggests: first the cryptographic steps that aren't spared, then those that
/// are advised; each by equivalences in the order of the file, and then by variables in the order of their first sites. There is none
/// where fewer are suggested. Whether a step may be taken is tested by the kernel. In place of its new names `SArename` has the name from
/// which these are to be drawn.
#[tactic(auto, using(cv_pool::proofs::Growth::Grows_refl))]
pub fn suggest(
    alloc: Global,
    pool: &mut Pool,
    decls: &Decls,
    game: NodeId,
    spared: &Spared,
    number: u32,
) -> Result<Option<Proposal>, PoolError>
    ensures below { IfOk result (λ o. IfSome o (IsProposalBelow (length pool.new.trees))) }
    ensures grows { Grows pool.old pool.new }
{
    let Ok(found) = find(alloc, pool, decls, game, spared, number) else {
        return Err(PoolError::OutOfMemory);
    };
    let Some(step) = found else {
        return Ok(None);
    };
    match proposal_of(alloc, step) {
        Ok(proposal) => Ok(Some(proposal)),
        Err(AllocError) => Err(PoolError::OutOfMemory),
    }
}
