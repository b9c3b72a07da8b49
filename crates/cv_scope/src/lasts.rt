ghost use Rattle.std.specs.Prelude.{◌≡◌, ◌<◌, ◌==◌, if◌then◌else◌, ℕ, List, Some, length, IfOk, OnOk, option_map};
ghost use Rattle.std.specs.Option.{option_copied};
ghost use Rattle.cv_pool.specs.KindTree.{KindTree};
ghost use Rattle.cv_pool.specs.Nodes.{ChildBelow};
ghost use Rattle.cv_syntax.specs.PoolTrees.{tree_at};
ghost use Rattle.cv_scope.specs.Held.{HasLiveBinders, IsLiveSite, last_at, last_held, site_held};
ghost use Rattle.cv_scope.specs.Seen.{may_follow_last, no_site, with_site};
ghost use Rattle.cv_scope_rules.specs.Sites.{SiteName, Variable, Channel, Label, bound_types, site_of};

use crate::binders::{are_same, have_same_types};
use crate::passed::Passed;
use cv_syntax::{NodeId, Pool};
use std::alloc::{AllocError, Global};
use std::collections::HashMap;

/// A site: its place, the replications above it, and the binders of an input.
#[derive(Drop)]
pub struct LastSite {
    pub place: u32,
    pub replications: Vec<(u32, u32)>,
    pub binders: Option<NodeId>,
}

/// The last site of each name. Variables and channels are numbered in the order of their appearance.
#[derive(Drop)]
pub struct Lasts {
    variables: Vec<Option<LastSite>>,
    channels: Vec<Option<LastSite>>,
    labels: HashMap<u64, LastSite>,
}

/// Whether a site may stand behind the last one of its name.
fn may_follow(pool: &Pool, passed: &Passed, site: &LastSite, last: Option<&LastSite>) -> bool
    requires site { ChildBelow (length pool.now.trees) site.now.binders }
    requires last { IsLiveSite (length pool.now.trees) (option_copied last) }
    ensures { (name : SiteName) → result
        ≡ may_follow_last passed.now (site_held pool.now.trees name site.now)
        (option_map (site_held pool.now.trees name) (option_copied last.entry)) }
{
    match last {
        Some(last) => {
            passed.has(last.place)
                && are_same(last.replications.as_slice(), site.replications.as_slice())
                && have_same_types(pool, last.binders, site.binders)
        }
        None => true,
    }
}

/// The last site of a name.
fn last_of(sites: &[Option<LastSite>], x: u32) -> Option<&LastSite>
    ensures { option_copied result ≡ last_at sites.now x }
{
    match sites.get(x as usize) {
        Some(site) => site.as_ref(),
        None => None,
    }
}

/// Makes a table reach a name.
fn reach(sites: &mut Vec<Option<LastSite>>, x: u32) -> Result<(), AllocError>
    ensures reached { OnOk result (x < length sites.new.items) }
    ensures same { OnOk result ((y : ℕ) → last_at sites.new.items y ≡ last_at sites.old.items y) }
{
    'names: while sites.len() <= x as usize {
        sites.push(None)?;
    }
    Ok(())
}

/// Puts down a site as the last of its name.
fn put(sites: &mut Vec<Option<LastSite>>, x: u32, site: LastSite) -> Result<(), AllocError>
    ensures { OnOk result ((y : ℕ) → last_at sites.new.items y
        ≡ if x == y then Some site else last_at sites.old.items y) }
{
    reach(sites, x)?;
    sites[x as usize] = Some(site);
    Ok(())
}

impl Lasts {
    /// No site.
    pub fn new(alloc: Global) -> Lasts
        ensures held { (trees : List KindTree) → last_held trees result ≡ no_site }
        ensures live { (n : ℕ) → HasLiveBinders n result }
    {
        Lasts {
            variables: Vec::new(alloc),
            channels: Vec::new(alloc),
            labels: HashMap::new(alloc),
        }
    }

    /// Notes a site of a variable, and says whether it may stand behind the last one.
    pub fn note_variable(
        &mut self,
        pool: &Pool,
        passed: &Passed,
        x: u32,
        site: LastSite,
    ) -> Result<bool, AllocError>
        requires site { ChildBelow (length pool.now.trees) site.binders }
        requires live { HasLiveBinders (length pool.now.trees) self.old }
        ensures may { IfOk result (λ yes. yes
            ≡ may_follow_last passed.now (site_held pool.now.trees (Variable x) site)
            (last_held pool.now.trees self.old (Variable x))) }
        ensures noted { OnOk result (last_held pool.now.trees self.new
            ≡ with_site (last_held pool.now.trees self.old)
            (site_held pool.now.trees (Variable x) site)) }
        ensures live { OnOk result (HasLiveBinders (length pool.now.trees) self.new) }
    {
        let may = may_follow(pool, passed, &site, last_of(self.variables.as_slice(), x));
        put(&mut self.variables, x, site)?;
        Ok(may)
    }

    /// Notes an input on a channel, and says whether it may stand behind the last one.
    pub fn note_channel(
        &mut self,
        pool: &Pool,
        passed: &Passed,
        c: u32,
        site: LastSite,
    ) -> Result<bool, AllocError>
        requires site { ChildBelow (length pool.now.trees) site.binders }
        requires live { HasLiveBinders (length pool.now.trees) self.old }
        ensures may { IfOk result (λ yes. yes
            ≡ may_follow_last passed.now (site_held pool.now.trees (Channel c) site)
            (last_held pool.now.trees self.old (Channel c))) }
        ensures noted { OnOk result (last_held pool.now.trees self.new
            ≡ with_site (last_held pool.now.trees self.old)
            (site_held pool.now.trees (Channel c) site)) }
        ensures live { OnOk result (HasLiveBinders (length pool.now.trees) self.new) }
    {
        let may = may_follow(pool, passed, &site, last_of(self.channels.as_slice(), c));
        put(&mut self.channels, c, site)?;
        Ok(may)
    }

    /// Notes a `find` with a label, and says whether it may stand behind the last one.
    pub fn note_label(
        &mut self,
        pool: &Pool,
        passed: &Passed,
        l: u64,
        site: LastSite,
    ) -> Result<bool, AllocError>
        requires site { ChildBelow (length pool.now.trees) site.binders }
        requires live { HasLiveBinders (length pool.now.trees) self.old }
        ensures may { IfOk result (λ yes. yes
            ≡ may_follow_last passed.now (site_held pool.now.trees (Label l) site)
            (last_held pool.now.trees self.old (Label l))) }
        ensures noted { OnOk result (last_held pool.now.trees self.new
            ≡ with_site (last_held pool.now.trees self.old)
            (site_held pool.now.trees (Label l) site)) }
        ensures live { OnOk result (HasLiveBinders (length pool.now.trees) self.new) }
    {
        let may = may_follow(pool, passed, &site, self.labels.get(&l));
        self.labels.insert(l, site)?;
        Ok(may)
    }
}
