// Variables that come later than a place: each of their definitions stands at the place or below it, or in another body of an `if` or a
// `find` above it.
ghost use Rattle.std.specs.Prelude.{◌≡◌, ◌++◌, ◌+◌, ◌-◌, ◌<◌, ◌≤◌, ◌^◌, ◌&&◌, ℕ, IfOk, OnOk, Some, length, not};
ghost use Rattle.std.specs.List.Sorted.{IsSorted};
ghost use Rattle.cv_pool.specs.Nodes.{ChildBelow};
ghost use Rattle.cv_pool.specs.declared.node.NodeId.{NodeId};
ghost use Rattle.cv_scene.specs.Late as late;
ghost use Rattle.cv_syntax.specs.PoolTrees.{tree_at};
ghost use Rattle.cv_syntax_trees.specs.Tree.{Node, Tree, size};
ghost use Rattle.cv_settling_lateness.specs.Defining as defining;
ghost use Rattle.cv_settling_lateness.specs.Standing.{AreSizes, IsCountable, IsLateness, IsWayBelow, Leads, Stands, is_behind_guards, way_if};

use crate::definitions::Definitions;
use crate::sizes::{Children, MOST, Sizes, Stretch, children_of};
use cv_grounds::{nodes_up_to, open};
use cv_path::is_definition;
use cv_syntax::{Head, NodeId, Opened, Pool};
use std::alloc::{AllocError, Global};

/// How the walk to a place goes on: it has ended, or goes into a child.
#[derive(Clone, Copy)]
enum Way {
    Ends(bool),
    Goes(Stretch),
}

/// The definitions of a game's variables, and the sizes of its trees.
#[derive(Drop)]
pub struct Lateness {
    game: NodeId,
    total: u32,
    definitions: Definitions,
    sizes: Sizes,
}

/// Notes the definitions of a tree that stands at a place, and the sizes of first children in it, and gives its own.
fn note(
    pool: &Pool,
    start: NodeId,
    place: u32,
    definitions: &mut Definitions,
    sizes: &mut Sizes,
) -> Result<u32, AllocError>
    requires fits { place + size (tree_at pool.now.trees (Some start)) < 2 ^ 32 }
    requires sizes { AreSizes pool.now.trees sizes.old }
    ensures size { IfOk result (λ n. n ≡ size (tree_at pool.now.trees (Some start))) }
    ensures definitions { OnOk result (definitions.new.list.items ≡ definitions.old.list.items
        ++ defining.definitions place (tree_at pool.now.trees (Some start))) }
    ensures sizes { OnOk result (AreSizes pool.now.trees sizes.new) }
{
    let mut here = place;
    let mut at = Some(start);
    'chain: while let Some(n) = at {
        let Some(node) = open(pool, n) else {
            return Ok(here - place);
        };
        definitions.note_node(pool, node, here)?;
        here += node.head.weight();
        if let Some(first) = node.first {
            let size = note(pool, first, here, definitions, sizes)?;
            sizes.put(first, size)?;
            here += size;
        }
        at = node.second;
    }
    Ok(here - place)
}

impl Lateness {
    /// Of a game. It says nothing of one that has more nodes than 32 bits count.
    pub fn of(alloc: Global, pool: &Pool, game: NodeId) -> Result<Lateness, AllocError>
        ensures { IfOk result (λ l. IsCountable (tree_at pool.now.trees (Some game))
            → IsLateness pool.now.trees game l) }
    {
        let total = nodes_up_to(pool, game, MOST);
        let mut definitions = Definitions::new(alloc);
        let mut sizes = Sizes::new(alloc);
        if total > MOST {
            return Ok(Lateness {
                game,
                total,
                definitions,
                sizes,
            });
        }
        note(pool, game, 0, &mut definitions, &mut sizes)?;
        definitions.sort();
        Ok(Lateness {
            game,
            total,
            definitions,
            sizes,
        })
    }

    /// The game, with its places.
    pub(crate) fn whole(&self) -> Stretch
        ensures { result ≡ record { at = Some self.now.game; from = 0; to = self.now.total } }
    {
        Stretch {
            at: Some(self.game),
            from: 0,
            to: self.total,
        }
    }

    /// The sizes of its trees.
    pub(crate) fn sizes(&self) -> &Sizes
        ensures { result.now ≡ self.now.sizes }
    {
        &self.sizes
    }

    /// Whether the other side of a parallel composition has no definition of a variable. Of other nodes that isn't asked.
    fn is_free_beside(&self, x: u32, head: Head, side: Stretch) -> bool
        ensures { (t : Tree) → IsSorted defining.by_name_and_place self.now.definitions.list.items
            → defining.has_within x side.from side.to self.now.definitions.list.items
            ≡ late.is_defined_in x t
            → result ≡ late.is_free_beside x head t }
    {
        match head {
            Head::Par => !self.definitions.has_within(x, side.from, side.to),
            _ => true,
        }
    }

    /// Whether a place of the second child of a branch is one of its body. Of other nodes that isn't asked.
    fn is_behind_guards(&self, pool: &Pool, node: Opened, place: u32) -> bool
        requires { ChildBelow (length pool.now.trees) node.second }
        ensures { AreSizes pool.now.trees self.now.sizes
            → IsCountable (tree_at pool.now.trees node.second)
            → result ≡ is_behind_guards node.head (tree_at pool.now.trees node.second) place }
    {
        match node.head {
            Head::Branch => !(place < self.sizes.guards(pool, node.second)),
            _ => true,
        }
    }

    /// Whether a node defines a variable above a place of its second child.
    fn is_defined_above(&self, pool: &Pool, x: u32, node: Opened, place: u32) -> bool
        requires first { ChildBelow (length pool.now.trees) node.first }
        requires second { ChildBelow (length pool.now.trees) node.second }
        ensures { AreSizes pool.now.trees self.now.sizes
            → IsCountable (tree_at pool.now.trees node.second)
            → result ≡ late.is_defined_above x node.head (tree_at pool.now.trees node.first)
            (tree_at pool.now.trees node.second) place }
    {
        if !is_definition(pool, node, x) {
            return false;
        }
        self.is_behind_guards(pool, node, place)
    }

    /// The way to a place of the second child of a node.
    fn way_behind(&self, pool: &Pool, x: u32, node: Opened, children: Children, place: u32) -> Way
        requires first { ChildBelow (length pool.now.trees) node.first }
        requires second { ChildBelow (length pool.now.trees) node.second }
        requires place { children.second.from ≤ place }
        ensures way { AreSizes pool.now.trees self.now.sizes
            → IsSorted defining.by_name_and_place self.now.definitions.list.items
            → IsCountable (tree_at pool.now.trees node.second)
            → defining.has_within x children.first.from children.first.to
            self.now.definitions.list.items
            ≡ late.is_defined_in x (tree_at pool.now.trees node.first)
            → result ≡ way_if (not (late.is_defined_above x node.head
            (tree_at pool.now.trees node.first) (tree_at pool.now.trees node.second)
            (place - children.second.from))
            && late.is_free_beside x node.head (tree_at pool.now.trees node.first))
            children.second }
        ensures below { (n : ℕ) → ChildBelow n children.second.at → IsWayBelow n result }
    {
        let second = children.second;
        if self.is_defined_above(pool, x, node, place - second.from) {
            return Way::Ends(false);
        }
        if self.is_free_beside(x, node.head, children.first) {
            return Way::Goes(second);
        }
        Way::Ends(false)
    }

    /// One step down to a place, from a node that takes these places.
    fn step(&self, pool: &Pool, x: u32, node: Opened, here: Stretch, place: u32) -> Way
        requires first { ChildBelow (length pool.now.trees) node.first }
        requires second { ChildBelow (length pool.now.trees) node.second }
        requires tree { tree_at pool.now.trees here.at ≡ Node node.head
            (tree_at pool.now.trees node.first) (tree_at pool.now.trees node.second) }
        ensures leads { (game : NodeId) → IsLateness pool.now.trees game self.now
            → Stands pool.now.trees self.now.definitions.list.items place here
            → Leads pool.now.trees self.now.definitions.list.items x place here result }
        ensures below { (n : ℕ) → ChildBelow n node.first → ChildBelow n node.second
            → IsWayBelow n result }
    {
        let children = children_of(pool, &self.sizes, node, here);
        if place < children.first.from {
            return Way::Ends(true);
        }
        if place >= children.second.from {
            return self.way_behind(pool, x, node, children, place);
        }
        if self.is_free_beside(x, node.head, children.second) {
            return Way::Goes(children.first);
        }
        Way::Ends(false)
    }

    /// Whether each definition of a variable comes later than a place of the game. It takes a walk down to the place, and a search
    /// among the definitions at each parallel composition on the way.
    pub fn is_late(&self, pool: &Pool, x: u32, place: u32) -> bool
        ensures { (game : NodeId) → IsLateness pool.now.trees game self.now
            → result ≡ late.is_late x (tree_at pool.now.trees (Some game)) place }
    {
        let mut here = self.whole();
        'down: while let Some(n) = here.at {
            let Some(node) = open(pool, n) else {
                return false;
            };
            match self.step(pool, x, node, here, place) {
                Way::Ends(found) => return found,
                Way::Goes(next) => here = next,
            }
        }
        false
    }
}
