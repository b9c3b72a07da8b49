ghost use Rattle.std.specs.Prelude.{◌≡◌, ◌<◌, ◌+◌, ◌^◌, ◌||◌, ◌==◌, ℕ, Bool, true, List, Some, length, slice_get, option_map, option_and_then, IfOk, OnOk, OnSome};
ghost use Rattle.std.specs.Option.{option_copied};
ghost use Rattle.cv_pool.specs.KindTree.{KindTree};
ghost use Rattle.cv_pool.specs.Nodes.{ChildBelow};
ghost use Rattle.cv_syntax_trees.specs.Tree.{Node, size};
ghost use Rattle.cv_syntax.specs.PoolTrees.{tree_at};
ghost use Rattle.cv_directory.specs.Definitions.{Definition, bound_definitions, definitions_at, definitions_from, entries_of, is_other, large_in};
ghost use Rattle.cv_syntax_trees.specs.sites.Sites.{Variable, binder_sort, index_here, first_index, is_untyped_here, is_untyped_in, sites_of};
ghost use Rattle.cv_directory.specs.Tables.{definition_in, entries_in, entry_at, no_index, noted, only, seen, untyped_of, with_entries};

use crate::nodes::{is_other_node, sort_of_binder};
use crate::site::{Entry, Site};
use crate::tables::{note_definition, note_parameter, reach};
use cv_syntax::children::second_of;
use cv_syntax::{Decls, Head, NodeId, Opened, Pool, read_node};
use cv_syntax_trees::sites::Sort;
use std::alloc::{AllocError, Global};
use std::collections::HashMap;

/// What the definitions of a game say of its names: of a variable its first definition, the number of its definitions and
/// the first that is no `new` of a large type; of an index its parameter; and which are variables with no type. Names are
/// numbered in the order of their appearance, so one row of entries has them all.
#[derive(Drop)]
pub struct Directory {
    entries: Vec<Entry>,
    untyped: HashMap<u32, bool>,
}

impl Directory {
    /// The directory of a game, in one pass.
    pub fn of(
        alloc: Global,
        pool: &Pool,
        decls: &Decls,
        root: NodeId,
    ) -> Result<Directory, AllocError>
        requires live { root.0 < length pool.now.trees }
        requires fits { size (tree_at pool.now.trees (Some root)) < 2 ^ 32 }
        ensures entries { IfOk result (λ d. entries_in pool.now.trees d
            ≡ entries_of (large_in decls.now.list) (tree_at pool.now.trees (Some root))) }
        ensures sites { IfOk result (λ d. seen d ≡ sites_of (tree_at pool.now.trees (Some root))) }
    {
        let mut directory = Directory {
            entries: Vec::new(alloc),
            untyped: HashMap::new(alloc),
        };
        let mut path = Vec::new(alloc);
        directory.gather(alloc, pool, decls, &mut path, 0, Some(root))?;
        Ok(directory)
    }

    /// The first definition of a variable.
    fn site(&self, x: u32) -> Option<&Site>
        ensures { option_copied result ≡ (entry_at self.now.entries.items x).site }
    {
        match self.entries.get(x as usize) {
            Some(entry) => entry.site.as_ref(),
            None => None,
        }
    }

    /// The sort of a variable.
    pub fn sort(&self, x: u32) -> Option<Sort>
        ensures { result ≡ option_map (λ (v : Variable). v.sort) ((seen self.now).variable x) }
    {
        let site = self.site(x)?;
        Some(site.sort)
    }

    /// How many indices a variable has.
    pub fn arity(&self, x: u32) -> Option<usize>
        ensures { result ≡ option_map (λ (v : Variable). length v.parameters)
            ((seen self.now).variable x) }
    {
        let site = self.site(x)?;
        Some(site.replications.len())
    }

    /// The parameter of an index of a variable, counted from 0.
    pub fn parameter(&self, x: u32, k: usize) -> Option<u32>
        ensures parameter { result ≡ option_and_then
            (λ (v : Variable). slice_get v.parameters k) ((seen self.now).variable x) }
        ensures bound { OnSome result (k + 1 < 2 ^ 64) }
    {
        let site = self.site(x)?;
        match site.replications.get(k) {
            Some(replication) => Some(replication.1),
            None => None,
        }
    }

    /// The index and the parameter of a replication above the first definition of a variable, counted from 0.
    pub fn replication(&self, x: u32, k: usize) -> Option<(u32, u32)>
        ensures { (trees : List KindTree)
            → result ≡ option_and_then (λ (d : Definition). slice_get d.replications k)
            ((entries_in trees self.now).first x) }
    {
        let site = self.site(x)?;
        site.replications.get(k).copied()
    }

    /// The place of the first definition of a variable.
    pub fn place(&self, x: u32) -> Option<u32>
        ensures { (trees : List KindTree)
            → result ≡ option_map (λ (d : Definition). d.place)
            ((entries_in trees self.now).first x) }
    {
        let site = self.site(x)?;
        Some(site.place)
    }

    /// The node of the first definition of a variable.
    pub fn node(&self, x: u32) -> Option<NodeId>
        ensures { (trees : List KindTree)
            → option_map (λ k. tree_at trees (Some k)) result ≡ option_map
            (λ (d : Definition). d.tree) ((entries_in trees self.now).first x) }
    {
        let site = self.site(x)?;
        Some(site.node)
    }

    /// How many definitions a variable has, up to the greatest number of 32 bits.
    pub fn count(&self, x: u32) -> u32
        ensures { (trees : List KindTree) → result ≡ (entries_in trees self.now).count x }
    {
        match self.entries.get(x as usize) {
            Some(entry) => entry.count,
            None => 0,
        }
    }

    /// The place of the first definition of a variable that is no `new` of a large type.
    pub fn other(&self, x: u32) -> Option<u32>
        ensures { (trees : List KindTree) → result ≡ (entries_in trees self.now).other x }
    {
        match self.entries.get(x as usize) {
            Some(entry) => entry.other,
            None => None,
        }
    }

    /// The parameter of a replication's index.
    pub fn index(&self, i: u32) -> Option<u32>
        ensures { result ≡ (seen self.now).index i }
    {
        match self.entries.get(i as usize) {
            Some(entry) => entry.index,
            None => None,
        }
    }

    /// Whether a name is a variable with no type.
    pub fn is_untyped(&self, x: u32) -> bool
        ensures { result ≡ (seen self.now).untyped x }
    {
        self.untyped.contains_key(&x)
    }

    /// Notes a variable with no type.
    fn note_untyped_name(&mut self, x: u32) -> Result<(), AllocError>
        ensures untyped { OnOk result ((y : ℕ)
            → untyped_of self.new.untyped y ≡ (untyped_of self.old.untyped y || (x == y))) }
        ensures entries { OnOk result (self.new.entries ≡ self.old.entries) }
    {
        self.untyped.insert(x, true)?;
        Ok(())
    }

    /// Notes the variable that a node defines with no type, if there is one.
    fn note_untyped(&mut self, head: Head) -> Result<(), AllocError>
        ensures untyped { OnOk result ((x : ℕ) → untyped_of self.new.untyped x
            ≡ (untyped_of self.old.untyped x || is_untyped_here x head)) }
        ensures entries { OnOk result (self.new.entries ≡ self.old.entries) }
    {
        match head {
            Head::Key(x) => self.note_untyped_name(x),
            Head::Call(x, _) => self.note_untyped_name(x),
            _ => Ok(()),
        }
    }

    /// Notes an index.
    fn note_index(&mut self, i: u32, n: u32) -> Result<(), AllocError>
        ensures entries { (trees : List KindTree) → OnOk result (entries_in trees self.new
            ≡ record (entries_in trees self.old)
            { index = noted (entries_in trees self.old).index i n }) }
        ensures untyped { OnOk result (self.new.untyped ≡ self.old.untyped) }
    {
        reach(&mut self.entries, i)?;
        note_parameter(&mut self.entries[i as usize], n);
        Ok(())
    }

    /// Notes a definition.
    fn note(
        &mut self,
        alloc: Global,
        path: &[(u32, u32)],
        place: u32,
        node: NodeId,
        is_other_here: bool,
        x: u32,
        sort: Sort,
    ) -> Result<(), AllocError>
        ensures entries { (trees : List KindTree) (large : ℕ → Bool) → is_other_here ≡ is_other large (tree_at trees (Some node)) →
            OnOk result (entries_in trees self.new ≡ with_entries large (entries_in trees self.old) (only x (definition_in trees path.now place node sort)) no_index) }
        ensures untyped { OnOk result (self.new.untyped ≡ self.old.untyped) }
    {
        reach(&mut self.entries, x)?;
        note_definition(
            &mut self.entries[x as usize],
            alloc,
            path,
            place,
            node,
            is_other_here,
            sort,
        )?;
        Ok(())
    }

    /// Notes the variables of a list of binders.
    fn note_binders(
        &mut self,
        alloc: Global,
        pool: &Pool,
        path: &[(u32, u32)],
        place: u32,
        node: NodeId,
        are_indices: bool,
        list: Option<NodeId>,
    ) -> Result<(), AllocError>
        requires { ChildBelow (length pool.now.trees) list }
        ensures entries { (large : ℕ → Bool) → true ≡ is_other large (tree_at pool.now.trees (Some node)) →
            OnOk result (entries_in pool.now.trees self.new ≡ with_entries large (entries_in pool.now.trees self.old)
            (λ y. bound_definitions path.now place (tree_at pool.now.trees (Some node)) (binder_sort are_indices) y (tree_at pool.now.trees list)) no_index) }
        ensures untyped { OnOk result (self.new.untyped ≡ self.old.untyped) }
    {
        let mut at = list;
        'list: while let Some(k) = at {
            let binder = read_node(pool, k);
            if let Head::Binder(x, t) = binder.head {
                let sort = sort_of_binder(are_indices, t);
                self.note(alloc, path, place, node, true, x, sort)?;
            }
            at = binder.second;
        }
        Ok(())
    }

    /// Notes what a node itself defines.
    fn note_node(
        &mut self,
        alloc: Global,
        pool: &Pool,
        decls: &Decls,
        path: &[(u32, u32)],
        place: u32,
        node: NodeId,
        opened: Opened,
    ) -> Result<(), AllocError>
        requires first { ChildBelow (length pool.now.trees) opened.first }
        requires tree { tree_at pool.now.trees (Some node)
            ≡ Node opened.head (tree_at pool.now.trees opened.first)
            (tree_at pool.now.trees opened.second) }
        ensures entries { OnOk result (entries_in pool.now.trees self.new ≡ with_entries (large_in decls.now.list) (entries_in pool.now.trees self.old)
            (λ y. definitions_at path.now place (tree_at pool.now.trees (Some node)) y opened.head (tree_at pool.now.trees opened.first)) (λ i. index_here i opened.head)) }
        ensures untyped { OnOk result (self.new.untyped ≡ self.old.untyped) }
    {
        let is_other_here = is_other_node(decls, opened.head);
        match opened.head {
            Head::Repl(i, n) => self.note_index(i, n),
            Head::New(x, t) => self.note(
                alloc,
                path,
                place,
                node,
                is_other_here,
                x,
                Sort::OfType(t),
            ),
            Head::Let(x, t) => self.note(
                alloc,
                path,
                place,
                node,
                is_other_here,
                x,
                Sort::OfType(t),
            ),
            Head::In(_) => {
                self.note_binders(
                    alloc,
                    pool,
                    path,
                    place,
                    node,
                    false,
                    second_of(pool, opened.first),
                )
            }
            Head::Branch => self.note_binders(alloc, pool, path, place, node, true, opened.first),
            _ => Ok(()),
        }
    }

    /// Notes all that a tree defines that stands at a place, below the replications of a path.
    fn gather(
        &mut self,
        alloc: Global,
        pool: &Pool,
        decls: &Decls,
        path: &mut Vec<(u32, u32)>,
        from: u32,
        tree: Option<NodeId>,
    ) -> Result<u32, AllocError>
        requires live { ChildBelow (length pool.now.trees) tree }
        requires fits { from + size (tree_at pool.now.trees tree) < 2 ^ 32 }
        ensures entries { OnOk result (entries_in pool.now.trees self.new ≡ with_entries (large_in decls.now.list) (entries_in pool.now.trees self.old)
            (λ x. definitions_from path.old.items from x (tree_at pool.now.trees tree)) (λ i. first_index i (tree_at pool.now.trees tree))) }
        ensures untyped { OnOk result ((x : ℕ) → untyped_of self.new.untyped x
            ≡ (untyped_of self.old.untyped x || is_untyped_in x (tree_at pool.now.trees tree))) }
        ensures path { OnOk result (path.new.items ≡ path.old.items) }
        ensures next { IfOk result (λ next. next ≡ from + size (tree_at pool.now.trees tree)) }
    {
        let above = path.len();
        let mut place = from;
        let mut at = tree;
        'tree: while let Some(k) = at {
            let node = read_node(pool, k);
            self.note_untyped(node.head)?;
            self.note_node(alloc, pool, decls, path.as_slice(), place, k, node)?;
            place += node.head.weight();
            place = self.gather(alloc, pool, decls, path, place, node.first)?;
            if let Head::Repl(i, n) = node.head {
                path.push((i, n))?;
            }
            at = node.second;
        }
        path.truncate(above);
        Ok(place)
    }
}
