ghost use Rattle.std.specs.Prelude.{◌≡◌, ◌≢◌, ◌+◌, ◌-◌, ◌<◌, ◌≤◌, ◌↔◌, ◌⊎◌, ◌++◌, ◌∷◌, [], ℕ, length, take, IsTrue, OnOk, OnErr, IsErrOf, IfSome, IsNone, slice_index_or};
ghost use Rattle.cv_pool.specs.KindTree.{KindTree, NoTree, Fork, kind_of, side};
ghost use Rattle.cv_pool.specs.Nodes.{AreDistinct, at, child, tree_of, ChildBelow, EntryBelow};
ghost use Rattle.cv_pool.specs.PoolView.{PoolView, Adds, Grows};

use crate::chains::Chains;
use crate::node::{Entry, Kind, Mark, NodeId};
use std::alloc::{AllocError, Global};
use std::marker::Model;

#[derive(Clone, Copy, Debug, PartialEq, Eq)]
pub enum PoolError {
    Full { need: u32 },
    OutOfMemory,
}

/// Nodes, each with at most two children of smaller numbers. No two have the same kind and the same children.
#[derive(Drop)]
pub struct Pool {
    nodes: Vec<Entry>,
    chains: Chains,
    limit: u32,
    spare: u32,
}

impl Model for Pool {
    ghost use Rattle.std.specs.Prelude.{[], ◌≡◌, length, ◌+◌, ◌≤◌, vec_len, vec_capacity};
    ghost use Rattle.cv_pool.specs.Chain.{IsChained, buckets, chained};
    ghost use Rattle.cv_pool.specs.KindTree.{KindTree};
    ghost use Rattle.cv_pool.specs.Nodes.{built, AreDistinct, IsClosed};
    ghost use Rattle.cv_pool.specs.PoolView.{PoolView, coded_view};

    ghost Value = { PoolView };

    ghost coded = { coded_view };

    ghost use Rattle.cv_pool.specs.Inside.{IsInterned};

    ghost view = { λ p. record { trees = built [] p.nodes.items; limit = p.limit; spare = p.spare } };

    ghost invariant = { IsInterned };
}

impl Pool {
    pub fn new(alloc: Global, limit: u32) -> Pool
        ensures { result ≡ record { trees = []; limit = limit; spare = 0 } }
    {
        Pool {
            nodes: Vec::new(alloc),
            chains: Chains::new(alloc),
            limit,
            spare: 0,
        }
    }

    pub fn spare(&self) -> u32
        ensures { result ≡ self.now.spare }
    {
        self.spare
    }

    #[tactic(auto, using(crate::proofs::Built::built_laws))]
    pub fn live(&self) -> u32
        ensures { result ≡ length self.now.trees }
    {
        let _limit = self.limit;
        self.nodes.len() as u32
    }

    /// Makes room for so many nodes to come.
    #[tactic(auto, using(crate::proofs::Built::built_laws))]
    pub fn reserve(&mut self, need: u32) -> Result<(), PoolError>
        ensures ok { OnOk result (need ≤ self.new.spare) }
        ensures kept { self.new.trees ≡ self.old.trees }
        ensures limit { self.new.limit ≡ self.old.limit }
        ensures spare { self.old.spare ≤ self.new.spare }
        ensures full { IsErrOf result (PoolError.Full need)
            ↔ (self.old.limit < length self.old.trees + need) }
        ensures other { (n : ℕ) → IsErrOf result (PoolError.Full n) → n ≡ need }
        ensures err { OnErr result (self.new ≡ self.old) }
    {
        if need > self.limit - self.nodes.len() as u32 {
            return Err(PoolError::Full { need });
        }
        if need <= self.spare {
            return Ok(());
        }
        match self.grow(need) {
            Ok(()) => Ok(()),
            Err(AllocError) => Err(PoolError::OutOfMemory),
        }
    }

    /// Makes room for more nodes than there was room for, in the vector and in the chains.
    #[tactic(auto, using(crate::proofs::Built::built_laws))]
    fn grow(&mut self, need: u32) -> Result<(), AllocError>
        requires more { self.old.spare < need }
        requires fits { length self.old.trees + need ≤ self.old.limit }
        ensures ok { OnOk result (self.new ≡ record self.old { spare = need }) }
        ensures err { OnErr result (self.new ≡ self.old) }
    {
        self.nodes.reserve(need as usize)?;
        self.chains.reserve(self.nodes.as_slice(), need as usize)?;
        self.spare = need;
        Ok(())
    }

    /// The node with this kind and these children: the one that is there, or a new one.
    #[tactic(auto, using(crate::proofs::Distinct::node_laws))]
    pub fn node(&mut self, kind: Kind, first: Option<NodeId>, second: Option<NodeId>) -> NodeId
        requires spare { 0 < self.old.spare }
        requires first { ChildBelow (length self.old.trees) first }
        requires second { ChildBelow (length self.old.trees) second }
        ensures live { result.0 < length self.new.trees }
        ensures tree { at self.new.trees result.0
            ≡ Fork kind (child self.old.trees first) (child self.old.trees second) }
        ensures grows { Grows self.old self.new }
        ensures spare { self.old.spare ≤ self.new.spare + 1 }
        ensures few { length self.new.trees ≤ length self.old.trees + 1 }

        // No second node comes for a tree that has one.
        ensures added { (self.new ≡ self.old)
            ⊎ Adds self.old self.new (Fork kind (child self.old.trees first)
            (child self.old.trees second)) }
        ensures distinct { AreDistinct self.new.trees }
    {
        let entry = Entry {
            kind,
            first,
            second,
        };
        match self.chains.find(self.nodes.as_slice(), entry) {
            Some(there) => there,
            None => self.add(entry),
        }
    }

    /// Adds a node that is not there.
    #[tactic(auto, using(crate::proofs::Distinct::node_laws))]
    fn add(&mut self, entry: Entry) -> NodeId
        requires spare { 0 < self.old.spare }
        requires below { EntryBelow (length self.old.trees) entry }
        requires new { (n : ℕ) → n < length self.old.trees
            → at self.old.trees n ≢ tree_of self.old.trees entry }
        ensures number { result.0 ≡ length self.old.trees }
        ensures adds { Adds self.old self.new (tree_of self.old.trees entry) }
    {
        let number = NodeId(self.nodes.len() as u32);
        self.nodes.push(entry).unwrap();
        self.chains.add(self.nodes.as_slice());
        self.spare -= 1;
        number
    }

    /// What a node is.
    #[tactic(auto, using(crate::proofs::Built::reads))]
    pub fn kind(&self, n: NodeId) -> Kind
        requires { n.0 < length self.now.trees }
        ensures kind { result ≡ kind_of (at self.now.trees n.0) }
        ensures some { at self.now.trees n.0 ≢ NoTree }
        ensures distinct { AreDistinct self.now.trees }
    {
        self.nodes[n.0 as usize].kind
    }

    /// A child of a node.
    #[tactic(auto, using(crate::proofs::Built::reads))]
    pub fn kid(&self, n: NodeId, second: bool) -> Option<NodeId>
        requires { n.0 < length self.now.trees }
        ensures tree { child self.now.trees result ≡ side second (at self.now.trees n.0) }
        ensures below { ChildBelow n.0 result }
        ensures none { IsNone result ↔ (side second (at self.now.trees n.0) ≡ NoTree) }
        ensures some { at self.now.trees n.0 ≢ NoTree }
    {
        let cell = self.nodes[n.0 as usize];
        if second { cell.second } else { cell.first }
    }

    /// Whether two nodes stand for one tree.
    #[tactic(auto, using(crate::proofs::Distinct::same_laws))]
    pub fn same(&self, a: NodeId, b: NodeId) -> bool
        requires a { a.0 < length self.now.trees }
        requires b { b.0 < length self.now.trees }
        ensures { IsTrue result ↔ (at self.now.trees a.0 ≡ at self.now.trees b.0) }
    {
        let _limit = self.limit;
        a == b
    }

    /// The present state.
    #[tactic(auto, using(crate::proofs::Built::built_laws))]
    pub fn mark(&self) -> Mark
        ensures { result.0 ≡ length self.now.trees }
    {
        let _limit = self.limit;
        Mark(self.nodes.len() as u32)
    }

    /// Goes back to an earlier state.
    #[tactic(auto, using(crate::proofs::Built::built_laws))]
    pub fn release(&mut self, m: Mark)
        requires { m.0 ≤ length self.old.trees }
        ensures trees { self.new.trees ≡ take m.0 self.old.trees }
        ensures limit { self.new.limit ≡ self.old.limit }
        ensures spare { self.old.spare ≤ self.new.spare }
    {
        'newest: while self.nodes.len() > m.0 as usize {
            self.pop();
        }
    }

    /// Takes the newest node off.
    #[tactic(auto, using(crate::proofs::Distinct::node_laws))]
    fn pop(&mut self)
        requires { 0 < length self.old.trees }
        ensures trees { self.new.trees ≡ take (length self.old.trees - 1) self.old.trees }
        ensures limit { self.new.limit ≡ self.old.limit }
        ensures spare { self.new.spare ≡ self.old.spare + 1 }
    {
        let last = self.nodes.len() - 1;
        self.chains.pop(self.nodes.as_slice());
        self.nodes.truncate(last);
        self.spare += 1;
    }
}
