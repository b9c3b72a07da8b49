// One walk over a game, for values that `defined` lists carry: definitions, lists with their cells, and reads.
use cv_grounds::{binders, open};
use cv_scope_rules::Position;
use cv_syntax::{Head, NodeId, Opened, Pool};
use std::alloc::{AllocError, Global};
use std::collections::HashMap;

/// A name of a game, with its last definition: how many it has, and how many of them are `new`; of a `let` the term, and the number of the fact that it gives; the
/// innermost index there, and how many indices there are; the variable that is defined above, and those that are defined directly
/// before and behind. Then the last cell of it in a `defined` list, and the last read of it. What is named by a number counts from
/// 1, or is 0 where there is none.
#[derive(Clone, Copy)]
pub(crate) struct Variable {
    pub(crate) name: u32,
    pub(crate) sites: u32,
    pub(crate) chosen: u32,
    pub(crate) term: Option<NodeId>,
    pub(crate) fact: u32,
    pub(crate) index: usize,
    pub(crate) depth: u32,
    pub(crate) above: usize,
    pub(crate) before: usize,
    pub(crate) behind: usize,
    pub(crate) cell: usize,
    pub(crate) read: usize,
}

/// A `defined` list: the place of its branch, its cells, and the place where the branch ends.
#[derive(Clone, Copy)]
pub(crate) struct Listing {
    pub(crate) place: u32,
    pub(crate) cells: Option<NodeId>,
    pub(crate) end: u32,
}

/// A cell of a list, by the list's number, with the cell of the same variable that was seen before.
#[derive(Clone, Copy)]
pub(crate) struct Cell {
    pub(crate) node: NodeId,
    pub(crate) listing: usize,
    pub(crate) next: usize,
}

/// A read that may be replaced, at its place, with the read of the same variable that was seen before.
#[derive(Clone, Copy)]
pub(crate) struct Read {
    pub(crate) node: NodeId,
    pub(crate) place: u32,
    pub(crate) next: usize,
}

/// An index of a replication, with that of the replication above.
#[derive(Clone, Copy)]
struct Index {
    name: u32,
    above: usize,
    depth: u32,
}

/// A node on the way: what the tree is for the node above, the indices of the branch around and its list, whether reads there may be
/// replaced, how many facts there are, the innermost index, and the newest definitions: of all, and directly before.
#[derive(Clone, Copy)]
struct Walk {
    position: Position,
    own: Option<NodeId>,
    listing: usize,
    is_open: bool,
    facts: u32,
    index: usize,
    above: usize,
    before: usize,
}

/// What a walk sees of a game.
#[derive(Drop)]
pub(crate) struct Chart {
    alloc: Global,
    list: Vec<Variable>,
    slots: HashMap<u32, usize>,
    indices: Vec<Index>,
    listings: Vec<Listing>,
    cells: Vec<Cell>,
    reads: Vec<Read>,
    place: u32,
}

/// What has a number in a list, which counts from 1.
fn numbered<T: Copy + Drop>(list: &[T], number: usize) -> Option<T> {
    if number == 0 {
        return None;
    }
    list.get(number - 1).copied()
}

impl Chart {
    /// Of a game.
    pub(crate) fn of(alloc: Global, pool: &Pool, game: NodeId) -> Result<Chart, AllocError> {
        let mut chart = Chart {
            alloc,
            list: Vec::new(alloc),
            slots: HashMap::new(alloc),
            indices: Vec::new(alloc),
            listings: Vec::new(alloc),
            cells: Vec::new(alloc),
            reads: Vec::new(alloc),
            place: 0,
        };
        let walk = Walk {
            position: Position::Anywhere,
            own: None,
            listing: 0,
            is_open: true,
            facts: 0,
            index: 0,
            above: 0,
            before: 0,
        };
        chart.walk(pool, game, walk)?;
        Ok(chart)
    }

    /// The names, in the order in which they are first seen.
    pub(crate) fn names(&self) -> &[Variable] {
        &self.list
    }

    /// The name of a number.
    pub(crate) fn numbered(&self, number: usize) -> Option<Variable> {
        numbered(&self.list, number)
    }

    /// A name, by itself.
    pub(crate) fn get(&self, name: u32) -> Option<Variable> {
        let k = self.slots.get(&name)?;
        self.list.get(*k).copied()
    }

    /// Whether a name is one of a variable.
    pub(crate) fn is_variable(&self, name: u32) -> bool {
        match self.get(name) {
            Some(there) => there.sites > 0,
            None => false,
        }
    }

    /// The list of a number.
    pub(crate) fn listing(&self, number: usize) -> Option<Listing> {
        numbered(&self.listings, number)
    }

    /// The cells of a variable in `defined` lists, the last one first.
    pub(crate) fn cells(&self, x: Variable) -> Result<Vec<Cell>, AllocError> {
        let mut found = Vec::new(self.alloc);
        let mut number = x.cell;
        for _ in 0..self.cells.len() {
            let Some(cell) = numbered(&self.cells, number) else {
                return Ok(found);
            };
            found.push(cell)?;
            number = cell.next;
        }
        Ok(found)
    }

    /// The reads of a variable that may be replaced, the last one first.
    pub(crate) fn reads(&self, x: Variable) -> Result<Vec<Read>, AllocError> {
        let mut found = Vec::new(self.alloc);
        let mut number = x.read;
        for _ in 0..self.reads.len() {
            let Some(read) = numbered(&self.reads, number) else {
                return Ok(found);
            };
            found.push(read)?;
            number = read.next;
        }
        Ok(found)
    }

    /// The indices that are current where a variable is defined, the innermost first.
    pub(crate) fn indices(&self, x: Variable) -> Result<Vec<u32>, AllocError> {
        let mut found = Vec::new(self.alloc);
        let mut number = x.index;
        for _ in 0..self.indices.len() {
            let Some(index) = numbered(&self.indices, number) else {
                return Ok(found);
            };
            found.push(index.name)?;
            number = index.above;
        }
        Ok(found)
    }

    /// Whether a variable is defined above another one, under the same replications.
    pub(crate) fn is_above(&self, x: Variable, y: Variable) -> bool {
        let mut number = y.above;
        for _ in 0..self.list.len() {
            let Some(there) = self.numbered(number) else {
                return false;
            };
            if there.name == x.name {
                return there.index == y.index;
            }
            number = there.above;
        }
        false
    }

    /// The number of a name, which is added where it isn't there.
    fn slot(&mut self, name: u32) -> Result<usize, AllocError> {
        if let Some(k) = self.slots.get(&name) {
            return Ok(*k);
        }
        let k = self.list.len();
        self.list.push(Variable {
            name,
            sites: 0,
            chosen: 0,
            term: None,
            fact: 0,
            index: 0,
            depth: 0,
            above: 0,
            before: 0,
            behind: 0,
            cell: 0,
            read: 0,
        })?;
        self.slots.insert(name, k)?;
        Ok(k)
    }

    /// How many indices there are with one of this number.
    fn depth(&self, index: usize) -> u32 {
        match numbered(&self.indices, index) {
            Some(there) => there.depth,
            None => 0,
        }
    }

    /// Notes a definition, of a `let` with its term, and gives the number of the variable.
    fn define(&mut self, walk: Walk, name: u32, term: Option<NodeId>) -> Result<usize, AllocError> {
        let k = self.slot(name)?;
        let depth = self.depth(walk.index);
        let number = k.saturating_add(1);
        if let Some(there) = self.list.get_mut(k) {
            *there = Variable {
                sites: there.sites.saturating_add(1),
                term,
                fact: walk.facts.saturating_add(1),
                index: walk.index,
                depth,
                above: walk.above,
                before: walk.before,
                ..*there
            };
        }
        if walk.before > 0 {
            if let Some(first) = self.list.get_mut(walk.before - 1) {
                first.behind = number;
            }
        }
        Ok(number)
    }

    /// Notes that a definition is a `new`.
    fn note_choice(&mut self, name: u32) {
        if let Some(k) = self.slots.get(&name) {
            if let Some(there) = self.list.get_mut(*k) {
                there.chosen = there.chosen.saturating_add(1);
            }
        }
    }

    /// Notes the definitions of a list of binders, and gives the number of the last variable.
    fn define_all(
        &mut self,
        pool: &Pool,
        walk: Walk,
        list: Option<NodeId>,
    ) -> Result<Walk, AllocError> {
        let mut behind = walk;
        behind.before = 0;
        for name in &binders(self.alloc, pool, list)? {
            let number = self.define(behind, *name, None)?;
            behind.above = number;
            behind.before = number;
        }
        Ok(behind)
    }

    /// Notes a name at a node.
    fn note_name(&mut self, walk: Walk, n: NodeId, name: u32) -> Result<(), AllocError> {
        let is_cell = match walk.position {
            Position::OneCell => true,
            _ => false,
        };
        if !is_cell && !walk.is_open {
            return Ok(());
        }
        let k = self.slot(name)?;
        let Some(there) = self.list.get_mut(k) else {
            return Ok(());
        };
        if is_cell {
            self.cells.push(Cell {
                node: n,
                listing: walk.listing,
                next: there.cell,
            })?;
            there.cell = self.cells.len();
        } else {
            self.reads.push(Read {
                node: n,
                place: self.place,
                next: there.read,
            })?;
            there.read = self.reads.len();
        }
        Ok(())
    }

    /// Notes what is at a node.
    fn visit(&mut self, walk: Walk, n: NodeId, node: Opened) -> Result<(), AllocError> {
        match node.head {
            Head::Leaf(x) | Head::Read(x) => self.note_name(walk, n, x),
            Head::Branch => {
                self.listings.push(Listing {
                    place: self.place,
                    cells: None,
                    end: 0,
                })?;
                Ok(())
            }
            _ => Ok(()),
        }
    }

    /// How the walk goes on at a node's first child.
    fn first(&mut self, walk: Walk, node: Opened) -> Walk {
        let mut inside = Walk {
            position: walk.position.first(node.head),
            before: 0,
            ..walk
        };
        match (node.head, walk.position) {
            (Head::Read(_), _) => inside.is_open = false,
            (Head::Cons, Position::Bodies | Position::ElseBody) => {
                inside.facts = walk.facts.saturating_add(1);
            }
            (Head::Cons, Position::Guards) => {
                inside.is_open = false;
                if let Some(there) = self.listings.last_mut() {
                    there.cells = node.first;
                }
            }
            _ => {}
        }
        inside
    }

    /// How the walk goes on at a node's second child.
    fn second(&mut self, pool: &Pool, walk: Walk, node: Opened) -> Result<Walk, AllocError> {
        let mut next = Walk {
            position: walk.position.second(node.head),
            before: 0,
            ..walk
        };
        match (node.head, walk.position) {
            (Head::Repl(name, _), _) => {
                let above = walk.index;
                let depth = self.depth(above).saturating_add(1);
                self.indices.push(Index { name, above, depth })?;
                next.index = self.indices.len();
            }
            (Head::New(x, _), _) => {
                next.before = self.define(walk, x, None)?;
                self.note_choice(x);
                next.above = next.before;
            }
            (Head::Let(x, _), _) => {
                next.before = self.define(walk, x, node.first)?;
                next.above = next.before;
                next.facts = walk.facts.saturating_add(1);
            }
            (Head::In(_), _) => {
                let list = node.first.and_then(|n| open(pool, n));
                return self.define_all(pool, next, list.and_then(|n| n.second));
            }
            (Head::Branch, _) => {
                next.own = node.first;
                next.listing = self.listings.len();
            }
            (Head::Cons, Position::Guarded) => {
                next.facts = walk.facts.saturating_add(1);
                return self.define_all(pool, next, walk.own);
            }
            _ => {}
        }
        Ok(next)
    }

    /// Notes where the branch of a list ends.
    fn end(&mut self, walk: Walk, k: usize) {
        if let Position::Branches = walk.position {
            if let Some(there) = self.listings.get_mut(k) {
                there.end = self.place;
            }
        }
    }

    /// Walks over a tree.
    fn walk(&mut self, pool: &Pool, start: NodeId, from: Walk) -> Result<(), AllocError> {
        let mut at = Some(start);
        let mut walk = from;
        for _ in 0..pool.live() {
            let Some(n) = at else {
                return Ok(());
            };
            let Some(node) = open(pool, n) else {
                return Ok(());
            };
            self.visit(walk, n, node)?;
            self.place = self.place.saturating_add(node.head.weight());
            if let Some(child) = node.first {
                if child.0 >= start.0 {
                    return Ok(());
                }
                let inside = self.first(walk, node);
                let before = self.listings.len();
                self.walk(pool, child, inside)?;
                self.end(walk, before);
            }
            walk = self.second(pool, walk, node)?;
            at = node.second;
        }
        Ok(())
    }
}
