// The steps that put the value of a `let` in the place of its variable where `defined` lists have cells of it: what the value reads is
// added to these lists, the reads become the value, the cells are dropped, and the `let` goes.
ghost use Rattle.std.specs.Prelude.{IfOk, IfSome, length};
ghost use Rattle.cv_pool.specs.PoolView.{Grows};
ghost use Rattle.cv_step_writer.specs.Proposals.{IsProposalBelow};

use crate::chart::{Cell, Chart, Listing, Read, Variable};
use crate::values::{Value, secrets_of, sought_functions, value_of};
use cv_grounds::{items, open};
use cv_settling::{Given, Stop, is_proposal_below, made, put};
use cv_step_writer::{Line, Proposal, Reason};
use cv_syntax::{Decls, Head, NameId, NodeId, Pool, PoolError};
use std::alloc::{AllocError, Global};
use std::collections::HashSet;

/// The next step for a variable: those of its list come in this order, and the last one first for each game.
#[derive(Clone, Copy)]
enum Next {
    /// To add the cell of another variable, at the same indices, to the list that has this cell.
    Add {
        place: u32,
        cell: NodeId,
        other: u32,
        above: bool,
    },
    /// To put the value in the place of a read.
    Replace {
        x: Variable,
        read: Read,
    },
    /// To drop the cell, by the cell of another variable in the list.
    Drop {
        place: u32,
        cell: NodeId,
        other: u32,
        above: bool,
    },
    /// To leave out the `let`.
    Unlet {
        x: u32,
    },
}

/// How late a step comes among those of its variable, to be taken the sooner.
fn rank(next: Next) -> u32 {
    match next {
        Next::Unlet { .. } => 0,
        Next::Drop { .. } => 1,
        Next::Replace { .. } => 2,
        Next::Add { .. } => 3,
    }
}

/// What a search for the next steps reads.
#[derive(Drop)]
struct Search<'a> {
    alloc: Global,
    pool: &'a Pool,
    chart: Chart,
    functions: HashSet<u32>,
    secrets: HashSet<u32>,
}

/// Whether two variables are defined directly one behind the other, or by one construct.
fn are_adjacent(chart: &Chart, x: Variable, y: Variable) -> bool {
    is_behind(chart, x, y) || is_behind(chart, y, x)
}

/// Whether a variable is defined directly behind another one.
fn is_behind(chart: &Chart, x: Variable, y: Variable) -> bool {
    match chart.numbered(x.before) {
        Some(there) => there.name == y.name && y.sites == 1,
        None => false,
    }
}

/// Whether a cell is one of a variable with the same indices as another cell.
fn is_cell_of(pool: &Pool, cell: NodeId, x: u32, other: NodeId) -> bool {
    let (Some(node), Some(there)) = (open(pool, cell), open(pool, other)) else {
        return false;
    };
    match node.head {
        Head::Leaf(y) | Head::Read(y) => y == x && node.first == there.first,
        _ => false,
    }
}

/// Whether a list has a cell of a variable with the same indices as another cell.
fn has_cell(
    alloc: Global,
    pool: &Pool,
    listing: Listing,
    x: u32,
    other: NodeId,
) -> Result<bool, AllocError> {
    for cell in &items(alloc, pool, listing.cells)? {
        if is_cell_of(pool, *cell, x, other) {
            return Ok(true);
        }
    }
    Ok(false)
}

impl<'a> Search<'a> {
    /// The variable of a cell, where it has one definition.
    fn variable(&self, cell: NodeId) -> Option<Variable> {
        let x = match open(self.pool, cell)?.head {
            Head::Leaf(x) | Head::Read(x) => x,
            _ => return None,
        };
        match self.chart.get(x) {
            Some(there) if there.sites == 1 => Some(there),
            _ => None,
        }
    }

    /// By which variable a cell may be dropped from its list, if by one of the list: one that is adjacent, or is defined below, which
    /// is told too.
    fn dropper(
        &self,
        x: Variable,
        cell: NodeId,
        listing: Listing,
    ) -> Result<Option<(u32, bool)>, AllocError> {
        for other in &items(self.alloc, self.pool, listing.cells)? {
            let Some(y) = self.variable(*other) else {
                continue;
            };
            if y.name != x.name && is_cell_of(self.pool, *other, y.name, cell) {
                if are_adjacent(&self.chart, x, y) {
                    return Ok(Some((y.name, false)));
                }
                if self.chart.is_above(x, y) {
                    return Ok(Some((y.name, true)));
                }
            }
        }
        Ok(None)
    }

    /// The variable whose cell may be added, so that a cell may be dropped: the one that is defined directly before, or else behind if
    /// it has no term.
    fn neighbour(&self, x: Variable) -> Option<Variable> {
        if let Some(y) = self.chart.numbered(x.before) {
            if y.sites == 1 {
                return Some(y);
            }
        }
        match self.chart.numbered(x.behind) {
            Some(y) if y.sites == 1 && y.term.is_none() && is_behind(&self.chart, y, x) => Some(y),
            _ => None,
        }
    }

    /// The variable that a value reads and of which the list of a cell lacks the cell, the first one.
    fn lacking(
        &self,
        value: &Value,
        cell: NodeId,
        listing: Listing,
    ) -> Result<Option<Variable>, AllocError> {
        for name in &value.reads {
            let Some(y) = self.chart.get(*name) else {
                continue;
            };
            if !has_cell(self.alloc, self.pool, listing, y.name, cell)? {
                return Ok(Some(y));
            }
        }
        Ok(None)
    }

    /// The cell that is to be added for a cell of a variable, if one is.
    fn add(
        &self,
        x: Variable,
        value: &Value,
        cell: Cell,
        listing: Listing,
    ) -> Result<Option<Next>, AllocError> {
        let place = listing.place;
        if let Some(y) = self.lacking(value, cell.node, listing)? {
            return Ok(Some(Next::Add {
                place,
                cell: cell.node,
                other: y.name,
                above: !are_adjacent(&self.chart, x, y),
            }));
        }
        if self.dropper(x, cell.node, listing)?.is_some() {
            return Ok(None);
        }
        match self.neighbour(x) {
            Some(y) => Ok(Some(Next::Add {
                place,
                cell: cell.node,
                other: y.name,
                above: false,
            })),
            None => Ok(None),
        }
    }

    /// Whether the cells of a variable may be dropped, or become so by others that are added.
    fn may_drop(&self, x: Variable, cells: &[Cell]) -> Result<bool, AllocError> {
        if self.neighbour(x).is_some() {
            return Ok(true);
        }
        for cell in cells {
            let Some(listing) = self.chart.listing(cell.listing) else {
                return Ok(false);
            };
            if self.dropper(x, cell.node, listing)?.is_none() {
                return Ok(false);
            }
        }
        Ok(true)
    }

    /// The next cell that is to be added for a variable, if one is.
    fn next_add(
        &self,
        x: Variable,
        value: &Value,
        cells: &[Cell],
    ) -> Result<Option<Next>, AllocError> {
        for cell in cells {
            let Some(listing) = self.chart.listing(cell.listing) else {
                return Ok(None);
            };
            if let Some(next) = self.add(x, value, *cell, listing)? {
                return Ok(Some(next));
            }
        }
        Ok(None)
    }

    /// Whether a read is one of a cell's, in the reach of its list.
    fn is_reached(&self, read: Read, cells: &[Cell]) -> bool {
        for cell in cells {
            if let Some(listing) = self.chart.listing(cell.listing) {
                let is_inside = listing.place < read.place && read.place < listing.end;
                if is_inside && cell.node == read.node {
                    return true;
                }
            }
        }
        false
    }

    /// The next read that the value is to replace, if one is.
    fn next_replace(&self, x: Variable, cells: &[Cell]) -> Result<Option<Next>, AllocError> {
        for read in &self.chart.reads(x)? {
            if self.is_reached(*read, cells) {
                return Ok(Some(Next::Replace { x, read: *read }));
            }
        }
        Ok(None)
    }

    /// The next cell that is to be dropped, if one is.
    fn next_drop(&self, x: Variable, cells: &[Cell]) -> Result<Option<Next>, AllocError> {
        for cell in cells {
            let Some(listing) = self.chart.listing(cell.listing) else {
                return Ok(None);
            };
            if let Some((other, above)) = self.dropper(x, cell.node, listing)? {
                return Ok(Some(Next::Drop {
                    place: listing.place,
                    cell: cell.node,
                    other,
                    above,
                }));
            }
        }
        Ok(None)
    }

    /// The next step for a variable whose cells stand in lists.
    fn next_listed(
        &self,
        x: Variable,
        value: &Value,
        cells: &[Cell],
    ) -> Result<Option<Next>, AllocError> {
        if !value.is_current || !self.may_drop(x, cells)? {
            return Ok(None);
        }
        if let Some(next) = self.next_add(x, value, cells)? {
            return Ok(Some(next));
        }
        if let Some(next) = self.next_replace(x, cells)? {
            return Ok(Some(next));
        }
        self.next_drop(x, cells)
    }

    /// The next step for a variable.
    fn next(&self, x: Variable) -> Result<Option<Next>, AllocError> {
        if self.secrets.contains(&x.name) {
            return Ok(None);
        }
        let value = value_of(self.alloc, self.pool, &self.chart, x, &self.functions)?;
        let Some(value) = value else {
            return Ok(None);
        };
        if value.is_sought {
            return Ok(None);
        }
        let cells = self.chart.cells(x)?;
        if cells.is_empty() {
            return Ok(Some(Next::Unlet { x: x.name }));
        }
        self.next_listed(x, &value, &cells)
    }

    /// The next steps for all variables, in the order in which these are first seen.
    fn steps(&self) -> Result<Vec<Next>, AllocError> {
        let mut steps = Vec::new(self.alloc);
        for x in self.chart.names() {
            if let Some(next) = self.next(*x)? {
                steps.push(next)?;
            }
        }
        Ok(steps)
    }
}

/// Adds the steps of a rank.
fn add_rank(wanted: u32, all: &[Next], found: &mut Vec<Next>) -> Result<(), AllocError> {
    for next in all {
        if rank(*next) == wanted {
            found.push(*next)?;
        }
    }
    Ok(())
}

/// The step of a number, from 0: those that end the work on a variable stand before those that go on with it, and these before those
/// that begin it.
fn numbered(search: &Search, number: u32) -> Result<Option<Next>, AllocError> {
    let all = search.steps()?;
    let mut found = Vec::new(search.alloc);
    for wanted in 0..4 {
        add_rank(wanted, &all, &mut found)?;
    }
    Ok(found.get(number as usize).copied())
}

/// What stands for the indices where a variable is defined, by the index terms of a read.
fn given_of(search: &Search, x: Variable, read: NodeId) -> Result<Vec<Given>, AllocError> {
    let mut given = Vec::new(search.alloc);
    let Some(node) = open(search.pool, read) else {
        return Ok(given);
    };
    let terms = items(search.alloc, search.pool, node.first)?;
    let names = search.chart.indices(x)?;
    for (name, term) in names.iter().rev().zip(&terms) {
        given.push(Given {
            name: *name,
            term: *term,
        })?;
    }
    Ok(given)
}

/// A step, with what stands for indices in its value.
#[derive(Drop)]
struct Found {
    next: Next,
    given: Vec<Given>,
}

/// The step of a number, from 0.
fn find(
    alloc: Global,
    pool: &Pool,
    decls: &Decls,
    game: NodeId,
    number: u32,
) -> Result<Option<Found>, AllocError> {
    let search = Search {
        alloc,
        pool,
        chart: Chart::of(alloc, pool, game)?,
        functions: sought_functions(alloc, pool, decls)?,
        secrets: secrets_of(alloc, pool, decls)?,
    };
    let Some(next) = numbered(&search, number)? else {
        return Ok(None);
    };
    let given = match next {
        Next::Replace { x, read } => given_of(&search, x, read.node)?,
        _ => Vec::new(alloc),
    };
    Ok(Some(Found { next, given }))
}

/// Makes the cell of a variable at the indices of another cell.
#[tactic(auto, using(crate::proofs::Growing::growing))]
fn cell_at(alloc: Global, pool: &mut Pool, cell: NodeId, other: u32) -> Result<NodeId, Stop>
    ensures { Grows pool.old pool.new }
{
    let Some(node) = open(pool, cell) else {
        return Err(Stop(PoolError::OutOfMemory));
    };
    let terms = items(alloc, pool, node.first)?;
    let head = if terms.is_empty() {
        Head::Leaf(other)
    } else {
        Head::Read(other)
    };
    made(pool, head, &terms)
}

/// The step that puts the value of a variable in the place of a read.
#[tactic(auto, using(crate::proofs::Growing::growing))]
fn replacing(
    alloc: Global,
    pool: &mut Pool,
    x: Variable,
    read: Read,
    given: &[Given],
) -> Result<Option<Proposal>, Stop>
    ensures { Grows pool.old pool.new }
{
    let Some(value) = x.term else {
        return Ok(None);
    };
    let term = put(alloc, pool, given, value)?;
    let mut by = Vec::new(alloc);
    by.push(Line::Defined {
        cell: read.node,
        by: Reason::Here,
    })?;
    by.push(Line::Equal {
        left: read.node,
        right: term,
        by: Reason::Site(1, u64::from(x.fact)),
    })?;
    Ok(Some(Proposal::Rewrite {
        place: u64::from(read.place),
        term,
        by,
    }))
}

/// The step that was found, with its terms in the pool.
#[tactic(auto, using(crate::proofs::Growing::growing))]
fn proposal_of(alloc: Global, pool: &mut Pool, found: &Found) -> Result<Option<Proposal>, Stop>
    ensures { Grows pool.old pool.new }
{
    match found.next {
        Next::Add {
            place,
            cell,
            other,
            above,
        } => Ok(Some(Proposal::Codef {
            place: u64::from(place),
            add: true,
            to: cell_at(alloc, pool, cell, other)?,
            from: cell,
            above,
        })),
        Next::Replace { x, read } => replacing(alloc, pool, x, read, &found.given),
        Next::Drop {
            place,
            cell,
            other,
            above,
        } => Ok(Some(Proposal::Codef {
            place: u64::from(place),
            add: false,
            to: cell,
            from: cell_at(alloc, pool, cell, other)?,
            above,
        })),
        Next::Unlet { x } => Ok(Some(Proposal::Unlet { x: NameId(x) })),
    }
}

/// The step of a number, with its terms in the pool.
#[tactic(auto, using(crate::proofs::Growing::growing))]
fn step(
    alloc: Global,
    pool: &mut Pool,
    decls: &Decls,
    game: NodeId,
    number: u32,
) -> Result<Option<Proposal>, Stop>
    ensures { Grows pool.old pool.new }
{
    let Some(found) = find(alloc, pool, decls, game, number)? else {
        return Ok(None);
    };
    proposal_of(alloc, pool, &found)
}

/// The step of this number, from 0, that puts the value of a `let` in the place of its variable: for each variable the next one. A
/// variable has one definition, no query asks for it, and its value is small and has no function for which a cryptographic step looks.
#[tactic(auto, using(crate::proofs::Growing::growing))]
pub fn suggest(
    alloc: Global,
    pool: &mut Pool,
    decls: &Decls,
    game: NodeId,
    number: u32,
) -> Result<Option<Proposal>, PoolError>
    ensures below { IfOk result (λ o. IfSome o (IsProposalBelow (length pool.new.trees))) }
    ensures grows { Grows pool.old pool.new }
{
    match step(alloc, pool, decls, game, number) {
        Ok(Some(proposal)) => {
            if is_proposal_below(pool.live(), &proposal) {
                Ok(Some(proposal))
            } else {
                Ok(None)
            }
        }
        Ok(None) => Ok(None),
        Err(Stop(fault)) => Err(fault),
    }
}
