ghost use Rattle.std.specs.Prelude.{◌≡◌, ◌<◌, ◌≤◌, ◌∷◌, ◌++◌, [], length, map, take, OnOk};
ghost use Rattle.cv_pool.specs.Nodes.{ChildBelow};
ghost use Rattle.cv_syntax_trees.specs.declared.head.Head.TheVariants as Head;
ghost use Rattle.cv_syntax.specs.PoolTrees.{tree_at};
ghost use Rattle.cv_meaning.specs.Binders.{bound_names};
ghost use Rattle.cv_scope_rules.specs.Context.{items};
ghost use Rattle.cv_scope.specs.Held.{AreListed, DefinesOnly, IsEntered, IsTaken, ListsOnly, state_held};
ghost use Rattle.cv_scope_rules.specs.Ranges.{EndBy};
ghost use Rattle.cv_scope.specs.Seen.{with_definitions};
ghost use Rattle.cv_scope.specs.tables.Definitions.{with_definition};

use crate::binders::first_binder;
use crate::heads::variable_of;
use crate::state::State;
use cv_scope_rules::Position;
use cv_syntax::children::second_of;
use cv_syntax::{Head, NodeId, Pool, read_node};
use std::alloc::AllocError;

/// How much was known at a node.
#[derive(Clone, Copy, Debug)]
pub struct Marks {
    pub replications: usize,
    pub defined: usize,
    pub listed: usize,
    pub passed: usize,
}

impl State {
    /// How much is known.
    pub fn marks(&self) -> Marks
        ensures replications { result.replications ≡ length self.now.replications.items }
        ensures defined { result.defined ≡ length self.now.defined }
        ensures listed { result.listed ≡ length self.now.listed }
        ensures passed { result.passed ≡ length self.now.passed }
    {
        Marks {
            replications: self.replications.len(),
            defined: self.defined.len(),
            listed: self.listed.len(),
            passed: self.passed.len(),
        }
    }

    /// Forgets what was learned since. The sites stay known.
    pub fn release(&mut self, marks: Marks)
        ensures { IsTaken marks self.old self.new }
    {
        self.replications.truncate(marks.replications);
        self.defined.keep(marks.defined);
        self.listed.keep(marks.listed);
        self.passed.keep(marks.passed);
    }

    /// Defines a variable under the current replications.
    fn define(&mut self, x: u32) -> Result<(), AllocError>
        ensures { OnOk result (DefinesOnly self.old self.new
            (with_definition self.old.defined (x, length self.old.replications.items))) }
    {
        self.defined.add(x, self.replications.len())
    }

    /// Defines the variables of a list of binders.
    fn define_all(&mut self, pool: &Pool, list: Option<NodeId>) -> Result<(), AllocError>
        requires { ChildBelow (length pool.now.trees) list }
        ensures { OnOk result (DefinesOnly self.old self.new
            (with_definitions self.old.defined (length self.old.replications.items)
            (bound_names (tree_at pool.now.trees list)))) }
    {
        let mut at = list;
        'binders: while let Some(binder) = first_binder(pool, at) {
            self.define(binder.name)?;
            at = binder.rest;
        }
        Ok(())
    }

    /// Lists a cell.
    fn list_one(&mut self, pool: &Pool, cell: Option<NodeId>) -> Result<(), AllocError>
        requires cell { ChildBelow (length pool.now.trees) cell }
        requires listed { AreListed pool.now.trees self.old.listed }
        ensures { OnOk result (ListsOnly pool.now.trees self.old self.new
            (tree_at pool.now.trees cell ∷ [])) }
    {
        self.listed.add(cell)
    }

    /// Lists the cells of a list.
    fn list_all(&mut self, pool: &Pool, list: Option<NodeId>) -> Result<(), AllocError>
        requires list { ChildBelow (length pool.now.trees) list }
        requires listed { AreListed pool.now.trees self.old.listed }
        ensures { OnOk result (ListsOnly pool.now.trees self.old self.new
            (items (tree_at pool.now.trees list))) }
    {
        let mut at = list;
        'cells: while let Some(k) = at {
            let cell = read_node(pool, k);
            self.list_one(pool, cell.first)?;
            at = cell.second;
        }
        Ok(())
    }

    /// Learns what the rest of a list knows, whose item lies from one place up to another.
    fn enter_rest(
        &mut self,
        pool: &Pool,
        position: Position,
        item: Option<NodeId>,
        from: u32,
        to: u32,
    ) -> Result<(), AllocError>
        requires item { ChildBelow (length pool.now.trees) item }
        requires listed { AreListed pool.now.trees self.old.listed }
        requires passed { EndBy from self.old.passed }
        requires range { from ≤ to }
        ensures { OnOk result (IsEntered pool.now.trees self.old self.new position Head.Cons
            (tree_at pool.now.trees item) from to) }
    {
        match position {
            Position::Bodies => self.passed.add(from, to),
            Position::Branches => self.passed.add(from, to),
            Position::Guards => self.list_all(pool, item),
            Position::Cells => self.list_one(pool, item),
            _ => Ok(()),
        }
    }

    /// Learns what the second child of a node knows, the first of which lies from one place up to another.
    pub fn enter(
        &mut self,
        pool: &Pool,
        position: Position,
        head: Head,
        first: Option<NodeId>,
        from: u32,
        to: u32,
    ) -> Result<(), AllocError>
        requires first { ChildBelow (length pool.now.trees) first }
        requires listed { AreListed pool.now.trees self.old.listed }
        requires passed { EndBy from self.old.passed }
        requires range { from ≤ to }
        ensures { OnOk result (IsEntered pool.now.trees self.old self.new position head
            (tree_at pool.now.trees first) from to) }
    {
        if let Some(x) = variable_of(head) {
            return self.define(x);
        }
        match head {
            Head::Cons => self.enter_rest(pool, position, first, from, to),
            Head::Find(_) => self.passed.add(from, to),
            Head::Repl(i, n) => self.replicate(i, n),
            Head::In(_) => self.define_all(pool, second_of(pool, first)),
            Head::Branch => self.define_all(pool, first),
            _ => Ok(()),
        }
    }

    /// Goes below a replication.
    fn replicate(&mut self, i: u32, n: u32) -> Result<(), AllocError>
        ensures same { OnOk result (self.new
            ≡ record self.old { replications = self.new.replications }) }
        ensures replications { OnOk result
            (self.new.replications.items ≡ self.old.replications.items ++ (i, n) ∷ []) }
    {
        self.replications.push((i, n))?;
        Ok(())
    }
}
