// The definitions of a game's variables, by variable and place.
ghost use Rattle.std.specs.Prelude.{◌≡◌, ◌∷◌, ◌++◌, ◌&&◌, ◌==◌, [], length, map, nat_lt, OnOk};
ghost use Rattle.std.specs.List.Sorted.{IsPermutation, IsSorted};
ghost use Rattle.cv_pool.specs.Nodes.{ChildBelow};
ghost use Rattle.cv_syntax.specs.PoolTrees.{tree_at};
ghost use Rattle.cv_syntax_trees.specs.Tree.{bound_names};
ghost use Rattle.cv_settling_lateness.specs.Defining.{by_name_and_place, defined_at, definition, has_within};

use cv_grounds::open;
use cv_syntax::children::second_of;
use cv_syntax::{Head, NodeId, Opened, Pool};
use std::alloc::{AllocError, Global};

/// A definition of a variable: the variable, and the place of the node that defines it.
#[derive(Clone, Copy, PartialEq, Eq, PartialOrd, Ord)]
pub(crate) struct Definition {
    pub(crate) name: u32,
    pub(crate) place: u32,
}

impl Definition {
    /// Whether it is one of a variable at a place before another one.
    fn is_before(self, x: u32, high: u32) -> bool
        ensures { result ≡ ((self.name == x) && nat_lt self.place high) }
    {
        self.name == x && self.place < high
    }
}

/// Whether sorted definitions have one of a variable at a place from the first of two up to the second.
fn is_among(list: &[Definition], x: u32, low: u32, high: u32) -> bool
    ensures { IsSorted by_name_and_place list.now → result ≡ has_within x low high list.now }
{
    let least = Definition {
        name: x,
        place: low,
    };
    match list.binary_search(&least) {
        Ok(_) => low < high,
        Err(k) => match list.get(k) {
            Some(next) => next.is_before(x, high),
            None => false,
        },
    }
}

/// Definitions, in the order in which they were noted, or sorted.
#[derive(Drop)]
pub(crate) struct Definitions {
    list: Vec<Definition>,
}

impl Definitions {
    /// None is noted.
    pub(crate) fn new(alloc: Global) -> Definitions
        ensures { result.list.items ≡ [] }
    {
        Definitions {
            list: Vec::new(alloc),
        }
    }

    /// Notes a definition of each variable of a list of binders, up to what is no binder.
    fn note_all(&mut self, pool: &Pool, list: Option<NodeId>, place: u32) -> Result<(), AllocError>
        ensures { OnOk result (self.new.list.items ≡ self.old.list.items
            ++ map (definition place) (bound_names (tree_at pool.now.trees list))) }
    {
        let mut at = list;
        'cells: while let Some(n) = at {
            let Some(cell) = open(pool, n) else {
                return Ok(());
            };
            let Head::Binder(name, _) = cell.head else {
                return Ok(());
            };
            self.list.push(Definition { name, place })?;
            at = cell.second;
        }
        Ok(())
    }

    /// Notes what a node defines that stands at a place.
    pub(crate) fn note_node(
        &mut self,
        pool: &Pool,
        node: Opened,
        place: u32,
    ) -> Result<(), AllocError>
        requires { ChildBelow (length pool.now.trees) node.first }
        ensures { OnOk result (self.new.list.items ≡ self.old.list.items
            ++ defined_at place node.head (tree_at pool.now.trees node.first)) }
    {
        match node.head {
            Head::New(name, _) | Head::Let(name, _) | Head::Key(name) | Head::Call(name, _) => self
                .list
                .push(Definition { name, place })?,
            Head::In(_) => self.note_all(pool, second_of(pool, node.first), place)?,
            Head::Branch => self.note_all(pool, node.first, place)?,
            _ => {}
        }
        Ok(())
    }

    /// Sorts them.
    pub(crate) fn sort(&mut self)
        ensures permutation { IsPermutation self.old.list.items self.new.list.items }
        ensures sorted { IsSorted by_name_and_place self.new.list.items }
    {
        self.list.sort_unstable();
    }

    /// Whether a variable is defined at a place from the first of two up to the second, where they are sorted.
    pub(crate) fn has_within(&self, x: u32, low: u32, high: u32) -> bool
        ensures { IsSorted by_name_and_place self.now.list.items
            → result ≡ has_within x low high self.now.list.items }
    {
        is_among(&self.list, x, low, high)
    }
}
