ghost use Rattle.std.specs.Prelude.{◌≡◌, ◌<◌, ◌≤◌, ℕ, List, [], ◌∷◌, true, length, Option, None, Some, IfOk, OnOk};
ghost use Rattle.cv_pool.specs.KindTree.{KindTree};
ghost use Rattle.cv_pool.specs.Nodes.{ChildBelow};
ghost use Rattle.cv_syntax.specs.PoolTrees.{tree_at};
ghost use Rattle.cv_scope.specs.Held.{HasLiveBinders, IsSiteOf, OnlySites, state_held};
ghost use Rattle.cv_scope.specs.Seen.{may_stand_last, nothing_seen, with_sites};
ghost use Rattle.cv_scope_rules.specs.Sites.{Variable, Label, channel_here, named_here, site_of, variable_sites};

use crate::binders::first_binder;
use crate::heads::variable_of;
use crate::lasts::{LastSite, Lasts};
use crate::passed::Passed;
use crate::tables::{Defined, Listed};
use cv_syntax::children::second_of;
use cv_syntax::{Head, NodeId, Pool};
use std::alloc::{AllocError, Global};

/// What is known at a node of a game.
#[derive(Drop)]
pub struct State {
    pub replications: Vec<(u32, u32)>,
    pub defined: Defined,
    pub listed: Listed,
    pub passed: Passed,
    pub last: Lasts,
}

impl State {
    /// What is known at the root.
    pub fn new(alloc: Global) -> State
        ensures held { (trees : List KindTree) → state_held trees result ≡ nothing_seen }
        ensures listed { result.listed ≡ [] }
        ensures live { (n : ℕ) → HasLiveBinders n result.last }
    {
        State {
            replications: Vec::new(alloc),
            defined: Defined::new(alloc),
            listed: Listed::new(alloc),
            passed: Passed::new(alloc),
            last: Lasts::new(alloc),
        }
    }

    /// A site at a place.
    fn site(
        &self,
        alloc: Global,
        place: u32,
        binders: Option<NodeId>,
    ) -> Result<LastSite, AllocError>
        ensures { IfOk result (IsSiteOf self.now.replications.items place binders) }
    {
        Ok(LastSite {
            place,
            replications: Vec::from_slice(alloc, self.replications.as_slice())?,
            binders,
        })
    }

    /// Notes a site of a variable, and says whether it may stand.
    fn note_variable(
        &mut self,
        alloc: Global,
        pool: &Pool,
        place: u32,
        x: u32,
    ) -> Result<bool, AllocError>
        requires live { HasLiveBinders (length pool.now.trees) self.old.last }
        ensures may { IfOk result (λ yes. yes
            ≡ may_stand_last self.old.passed (state_held pool.now.trees self.old).last
            (site_of self.old.replications.items place (Variable x) ∷ [])) }
        ensures noted { OnOk result (OnlySites pool.now.trees self.old self.new
            (site_of self.old.replications.items place (Variable x) ∷ [])) }
    {
        let site = self.site(alloc, place, None)?;
        self.last.note_variable(pool, &self.passed, x, site)
    }

    /// Notes a `find` with a label, and says whether it may stand.
    fn note_label(
        &mut self,
        alloc: Global,
        pool: &Pool,
        place: u32,
        l: u64,
    ) -> Result<bool, AllocError>
        requires live { HasLiveBinders (length pool.now.trees) self.old.last }
        ensures may { IfOk result (λ yes. yes
            ≡ may_stand_last self.old.passed (state_held pool.now.trees self.old).last
            (site_of self.old.replications.items place (Label l) ∷ [])) }
        ensures noted { OnOk result (OnlySites pool.now.trees self.old self.new
            (site_of self.old.replications.items place (Label l) ∷ [])) }
    {
        let site = self.site(alloc, place, None)?;
        self.last.note_label(pool, &self.passed, l, site)
    }

    /// Notes the variables of a list of binders, and says whether each may stand.
    fn note_binders(
        &mut self,
        alloc: Global,
        pool: &Pool,
        place: u32,
        list: Option<NodeId>,
    ) -> Result<bool, AllocError>
        requires list { ChildBelow (length pool.now.trees) list }
        requires live { HasLiveBinders (length pool.now.trees) self.old.last }
        ensures may { IfOk result (λ yes. yes
            ≡ may_stand_last self.old.passed (state_held pool.now.trees self.old).last
            (variable_sites self.old.replications.items place (tree_at pool.now.trees list))) }
        ensures noted { IfOk result (λ yes. yes ≡ true
            → OnlySites pool.now.trees self.old self.new
            (variable_sites self.old.replications.items place (tree_at pool.now.trees list))) }
    {
        let mut at = list;
        'binders: while let Some(binder) = first_binder(pool, at) {
            if !self.note_variable(alloc, pool, place, binder.name)? {
                return Ok(false);
            }
            at = binder.rest;
        }
        Ok(true)
    }

    /// Notes the variables and the label of a node, and says whether each may stand.
    pub fn note_named(
        &mut self,
        alloc: Global,
        pool: &Pool,
        place: u32,
        head: Head,
        first: Option<NodeId>,
    ) -> Result<bool, AllocError>
        requires first { ChildBelow (length pool.now.trees) first }
        requires live { HasLiveBinders (length pool.now.trees) self.old.last }
        ensures may { IfOk result (λ yes. yes
            ≡ may_stand_last self.old.passed (state_held pool.now.trees self.old).last
            (named_here self.old.replications.items place head (tree_at pool.now.trees first))) }
        ensures noted { IfOk result (λ yes. yes ≡ true
            → OnlySites pool.now.trees self.old self.new
            (named_here self.old.replications.items place head (tree_at pool.now.trees first))) }
    {
        if let Some(x) = variable_of(head) {
            return self.note_variable(alloc, pool, place, x);
        }
        match head {
            Head::In(_) => self.note_binders(alloc, pool, place, second_of(pool, first)),
            Head::Branch => self.note_binders(alloc, pool, place, first),
            Head::Find(l) => self.note_label(alloc, pool, place, l),
            _ => Ok(true),
        }
    }

    /// Notes an input on a channel, and says whether it may stand.
    pub fn note_channel(
        &mut self,
        alloc: Global,
        pool: &Pool,
        place: u32,
        head: Head,
        first: Option<NodeId>,
    ) -> Result<bool, AllocError>
        requires first { ChildBelow (length pool.now.trees) first }
        requires live { HasLiveBinders (length pool.now.trees) self.old.last }
        ensures may { IfOk result (λ yes. yes
            ≡ may_stand_last self.old.passed (state_held pool.now.trees self.old).last
            (channel_here self.old.replications.items place head (tree_at pool.now.trees first))) }
        ensures noted { OnOk result (OnlySites pool.now.trees self.old self.new
            (channel_here self.old.replications.items place head (tree_at pool.now.trees first))) }
    {
        let Head::In(c) = head else {
            return Ok(true);
        };
        let site = self.site(alloc, place, second_of(pool, first))?;
        self.last.note_channel(pool, &self.passed, c, site)
    }
}
