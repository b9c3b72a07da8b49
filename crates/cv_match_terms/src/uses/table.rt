ghost use Rattle.std.specs.Prelude.{◌≡◌, ◌+◌, ◌<◌, ◌^◌, ℕ, IfOk, OnOk, Some, length};
ghost use Rattle.cv_pool.specs.Nodes.{ChildBelow};
ghost use Rattle.cv_syntax_trees.specs.Tree.{size};
ghost use Rattle.cv_syntax.specs.PoolTrees.{tree_at};
ghost use Rattle.cv_scene.specs.Refusals.{is_of_type, stands_under};
ghost use Rattle.cv_match_terms.specs.uses.Tallies.{IsTableOf, One, Other, Zero, bound_here, defined_here, drawn, entry_at, only, plus, tally, tally_at, tally_here, tally_of, used_here};

use crate::uses::entry::{Entry, add_new, add_other, add_use, nothing};
use crate::uses::heads::pass_replication;
use cv_syntax::children::second_of;
use cv_syntax::{Head, NodeId, Opened, Pool, read_node};
use std::alloc::{AllocError, Global};

/// How often a game uses each variable, and how it defines it. Names are numbered in the order of their appearance, so one row
/// of entries has them all.
#[derive(Drop)]
pub struct UseTable {
    entries: Vec<Entry>,
}

/// Makes the table reach a name.
fn reach(entries: &mut Vec<Entry>, x: u32) -> Result<(), AllocError>
    ensures reached { OnOk result (x < length entries.new.items) }
    ensures same { OnOk result ((y : ℕ)
        → entry_at entries.new.items y ≡ entry_at entries.old.items y) }
{
    'names: while entries.len() <= x as usize {
        entries.push(nothing())?;
    }
    Ok(())
}

/// Counts a use of a variable.
fn note_use(entries: &mut Vec<Entry>, x: u32) -> Result<(), AllocError>
    requires { (tally_at entries.old.items x).uses + 1 < 2 ^ 32 }
    ensures { OnOk result ((y : ℕ) → tally_at entries.new.items y
        ≡ plus (tally_at entries.old.items y) (only x (tally 1 Zero) y)) }
{
    reach(entries, x)?;
    add_use(&mut entries[x as usize]);
    Ok(())
}

/// Notes a `new` of a variable.
fn note_new(
    alloc: Global,
    entries: &mut Vec<Entry>,
    passed: &[(u32, u32)],
    x: u32,
    t: u32,
) -> Result<(), AllocError>
    ensures { OnOk result ((y : ℕ) → tally_at entries.new.items y
        ≡ plus (tally_at entries.old.items y) (only x (tally 0 (One t passed.now)) y)) }
{
    reach(entries, x)?;
    add_new(alloc, &mut entries[x as usize], t, passed)?;
    Ok(())
}

/// Notes another definition of a variable.
fn note_other(entries: &mut Vec<Entry>, x: u32) -> Result<(), AllocError>
    ensures { OnOk result ((y : ℕ) → tally_at entries.new.items y
        ≡ plus (tally_at entries.old.items y) (only x (tally 0 Other) y)) }
{
    reach(entries, x)?;
    add_other(&mut entries[x as usize]);
    Ok(())
}

/// Notes the variables of a list of binders.
fn note_binders(
    entries: &mut Vec<Entry>,
    pool: &Pool,
    list: Option<NodeId>,
) -> Result<(), AllocError>
    requires { ChildBelow (length pool.now.trees) list }
    ensures { OnOk result ((y : ℕ) → tally_at entries.new.items y
        ≡ plus (tally_at entries.old.items y) (bound_here y (tree_at pool.now.trees list))) }
{
    let mut at = list;
    'list: while let Some(k) = at {
        let node = read_node(pool, k);
        let Head::Binder(x, _) = node.head else {
            return Ok(());
        };
        note_other(entries, x)?;
        at = node.second;
    }
    Ok(())
}

/// Counts the use that a node itself is.
fn note_reading(entries: &mut Vec<Entry>, head: Head) -> Result<(), AllocError>
    requires { (y : ℕ) → (plus (tally_at entries.old.items y) (used_here y head)).uses < 2 ^ 32 }
    ensures { OnOk result ((y : ℕ) → tally_at entries.new.items y
        ≡ plus (tally_at entries.old.items y) (used_here y head)) }
{
    match head {
        Head::Leaf(x) => note_use(entries, x),
        Head::Read(x) => note_use(entries, x),
        _ => Ok(()),
    }
}

/// Notes the definitions that a node itself is.
fn note_definitions(
    alloc: Global,
    entries: &mut Vec<Entry>,
    pool: &Pool,
    passed: &[(u32, u32)],
    node: Opened,
) -> Result<(), AllocError>
    requires { ChildBelow (length pool.now.trees) node.first }
    ensures { OnOk result ((y : ℕ) → tally_at entries.new.items y
        ≡ plus (tally_at entries.old.items y)
        (defined_here passed.now y node.head (tree_at pool.now.trees node.first))) }
{
    match node.head {
        Head::New(x, t) => note_new(alloc, entries, passed, x, t),
        Head::Let(x, _) => note_other(entries, x),
        Head::Key(x) => note_other(entries, x),
        Head::Call(x, _) => note_other(entries, x),
        Head::In(_) => note_binders(entries, pool, second_of(pool, node.first)),
        Head::Branch => note_binders(entries, pool, node.first),
        _ => Ok(()),
    }
}

/// Notes what a node itself does with variables.
fn note_node(
    alloc: Global,
    entries: &mut Vec<Entry>,
    pool: &Pool,
    passed: &[(u32, u32)],
    node: Opened,
) -> Result<(), AllocError>
    requires live { ChildBelow (length pool.now.trees) node.first }
    requires room { (y : ℕ)
        → (plus (tally_at entries.old.items y) (used_here y node.head)).uses < 2 ^ 32 }
    ensures { OnOk result ((y : ℕ) → tally_at entries.new.items y
        ≡ plus (tally_at entries.old.items y)
        (tally_here passed.now y node.head (tree_at pool.now.trees node.first))) }
{
    note_reading(entries, node.head)?;
    note_definitions(alloc, entries, pool, passed, node)
}

/// Notes what a part of a game below replications does with variables.
fn gather(
    alloc: Global,
    entries: &mut Vec<Entry>,
    pool: &Pool,
    passed: &mut Vec<(u32, u32)>,
    tree: Option<NodeId>,
) -> Result<(), AllocError>
    requires live { ChildBelow (length pool.now.trees) tree }
    requires room { (y : ℕ) → (plus (tally_at entries.old.items y)
        (tally_of passed.old.items y (tree_at pool.now.trees tree))).uses < 2 ^ 32 }
    ensures tallies { OnOk result ((y : ℕ) → tally_at entries.new.items y
        ≡ plus (tally_at entries.old.items y)
        (tally_of passed.old.items y (tree_at pool.now.trees tree))) }
    ensures passed { OnOk result (passed.new.items ≡ passed.old.items) }
{
    let outside = passed.len();
    let mut at = tree;
    'tree: while let Some(k) = at {
        let node = read_node(pool, k);
        note_node(alloc, entries, pool, passed.as_slice(), node)?;
        gather(alloc, entries, pool, passed, node.first)?;
        pass_replication(passed, node.head)?;
        at = node.second;
    }
    passed.truncate(outside);
    Ok(())
}

impl UseTable {
    /// The table of a game, in one walk.
    pub fn of(alloc: Global, pool: &Pool, root: NodeId) -> Result<UseTable, AllocError>
        requires live { root.0 < length pool.now.trees }
        requires fits { size (tree_at pool.now.trees (Some root)) < 2 ^ 32 }
        ensures { IfOk result (IsTableOf (tree_at pool.now.trees (Some root))) }
    {
        let mut entries = Vec::new(alloc);
        let mut passed = Vec::new(alloc);
        gather(alloc, &mut entries, pool, &mut passed, Some(root))?;
        Ok(UseTable { entries })
    }

    /// How many nodes read a variable or name it in a `defined` list.
    pub fn uses_of(&self, x: u32) -> u32
        ensures { result ≡ (tally_at self.now.entries.items x).uses }
    {
        match self.entries.get(x as usize) {
            Some(entry) => entry.uses,
            None => 0,
        }
    }

    /// Whether a variable has one definition, a `new` of a type.
    pub fn is_drawn_of(&self, x: u32, t: u32) -> bool
        ensures { result ≡ is_of_type t (drawn (tally_at self.now.entries.items x).draw) }
    {
        match self.entries.get(x as usize) {
            Some(entry) => entry.definition.is_of_type(t),
            None => false,
        }
    }

    /// Whether a variable has one definition, a `new` below these replications.
    pub fn is_drawn_below(&self, x: u32, replications: &[(u32, u32)]) -> bool
        ensures { result ≡ stands_under replications.now
            (drawn (tally_at self.now.entries.items x).draw) }
    {
        match self.entries.get(x as usize) {
            Some(entry) => entry.definition.is_below(replications),
            None => false,
        }
    }
}
