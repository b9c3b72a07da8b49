ghost use Rattle.std.specs.Prelude.{◌≡◌, ◌≢◌, ◌+◌, ◌<◌, ◌≤◌, ◌^◌, [], ℕ, length, IfSome, IfNone, OnOk, Some, slice_get, vec_len, vec_capacity};
ghost use Rattle.cv_pool.specs.Chain.{IsChained, buckets, chained};

use crate::bucket::bucket_of;
use crate::node::{Entry, NodeId};
use std::alloc::{AllocError, Global};

/// The nodes of each bucket in a chain, the newest first. A place in a chain is a number of nodes:
/// all up to that node, that node with them, or 0 at the end.
#[derive(Drop)]
pub struct Chains {
    pub heads: Vec<u32>,
    pub nexts: Vec<u32>,
}

impl Chains {
    /// No bucket and no node.
    pub fn new(alloc: Global) -> Chains
        ensures heads { result.heads.items ≡ [] }
        ensures nexts { result.nexts.items ≡ [] }
    {
        Chains {
            heads: Vec::new(alloc),
            nexts: Vec::new(alloc),
        }
    }

    /// The number of a node, if it is there.
    pub fn find(&self, nodes: &[Entry], entry: Entry) -> Option<NodeId>
        requires some { 0 < buckets self.now }
        requires all { chained self.now ≡ length nodes.now }
        requires linked { IsChained nodes.now self.now }
        ensures some { IfSome result (λ n. slice_get nodes.now n.0 ≡ Some entry) }
        ensures none { IfNone result ((k : ℕ) → slice_get nodes.now k ≢ Some entry) }
    {
        let mut here = self.heads[bucket_of(entry, self.heads.len())];
        'chain: while here > 0 {
            let n = here - 1;
            if nodes[n as usize] == entry {
                return Some(NodeId(n));
            }
            here = self.nexts[n as usize];
        }
        None
    }

    /// Puts the next node at the head of its chain.
    pub fn add(&mut self, nodes: &[Entry])
        requires some { 0 < buckets self.old }
        requires next { chained self.old < length nodes.now }
        requires room { chained self.old < vec_capacity self.old.nexts }
        requires fits { chained self.old + 1 < 2 ^ 32 }
        requires linked { IsChained nodes.now self.old }
        ensures linked { IsChained nodes.now self.new }
        ensures count { chained self.new ≡ chained self.old + 1 }
        ensures buckets { buckets self.new ≡ buckets self.old }
        ensures room { vec_capacity self.old.nexts ≤ vec_capacity self.new.nexts }
    {
        let next = self.nexts.len();
        let bucket = bucket_of(nodes[next], self.heads.len());
        self.nexts.push(self.heads[bucket]).unwrap();
        self.heads[bucket] = next as u32 + 1;
    }

    /// Takes the newest node off the head of its chain.
    pub fn pop(&mut self, nodes: &[Entry])
        requires some { 0 < buckets self.old }
        requires newest { 0 < chained self.old }
        requires few { chained self.old ≤ length nodes.now }
        requires linked { IsChained nodes.now self.old }
        ensures linked { IsChained nodes.now self.new }
        ensures count { chained self.new + 1 ≡ chained self.old }
        ensures buckets { buckets self.new ≡ buckets self.old }
        ensures room { vec_capacity self.old.nexts ≤ vec_capacity self.new.nexts }
    {
        let last = self.nexts.len() - 1;
        let bucket = bucket_of(nodes[last], self.heads.len());
        self.heads[bucket] = self.nexts[last];
        self.nexts.truncate(last);
    }

    /// Makes so many buckets, and puts all nodes in their chains, where room was made before.
    fn spread(&mut self, nodes: &[Entry], size: usize)
        requires some { 0 < size }
        requires heads { size ≤ vec_capacity self.old.heads }
        requires nexts { length nodes.now ≤ vec_capacity self.old.nexts }
        requires fits { length nodes.now < 2 ^ 32 }
        ensures linked { IsChained nodes.now self.new }
        ensures count { chained self.new ≡ length nodes.now }
        ensures buckets { buckets self.new ≡ size }
        ensures room { vec_capacity self.old.nexts ≤ vec_capacity self.new.nexts }
    {
        self.nexts.clear();
        self.heads.clear();
        self.heads.resize(size, 0).unwrap();
        'nodes: for _ in 0..nodes.len() {
            self.add(nodes);
        }
    }

    /// Makes room for more nodes, with a bucket for each node.
    pub fn reserve(&mut self, nodes: &[Entry], need: usize) -> Result<(), AllocError>
        requires need { 0 < need }
        requires fits { length nodes.now + need < 2 ^ 32 }
        requires all { chained self.old ≡ length nodes.now }
        requires linked { IsChained nodes.now self.old }
        ensures linked { IsChained nodes.now self.new }
        ensures count { chained self.new ≡ length nodes.now }
        ensures buckets { buckets self.old ≤ buckets self.new }
        ensures room { vec_capacity self.old.nexts ≤ vec_capacity self.new.nexts }
        ensures more { OnOk result (length nodes.now + need ≤ vec_capacity self.new.nexts) }
        ensures enough { OnOk result (length nodes.now + need ≤ buckets self.new) }
    {
        self.nexts.reserve(need)?;
        let size = (nodes.len() + need).max(2 * nodes.len());
        if nodes.len() + need > self.heads.len() {
            self.heads.reserve(size)?;
            self.spread(nodes, size);
        }
        Ok(())
    }
}
