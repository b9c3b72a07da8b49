use crate::terms::TermId;
use std::alloc::{AllocError, Global};

/// A term of a chain, and the link behind it, counted from 1, or 0.
#[derive(Clone, Copy)]
pub struct Link {
    pub item: TermId,
    next: u32,
}

/// Chains of terms, each at its number, the newest term first.
#[derive(Drop)]
pub struct Links {
    heads: Vec<u32>,
    links: Vec<Link>,
}

impl Links {
    /// So many chains without a term.
    pub fn new(alloc: Global, count: usize) -> Result<Links, AllocError> {
        let mut heads = Vec::new(alloc);
        heads.resize(count, 0)?;
        Ok(Links {
            heads,
            links: Vec::new(alloc),
        })
    }

    /// How many terms all chains have.
    pub fn len(&self) -> usize {
        self.links.len()
    }

    /// The link of this number, counted from 1.
    fn link(&self, number: u32) -> Option<Link> {
        if number == 0 {
            return None;
        }
        self.links.get(number as usize - 1).copied()
    }

    /// The first link of a chain.
    pub fn first(&self, chain: usize) -> Option<Link> {
        self.link(self.heads.get(chain).copied().unwrap_or(0))
    }

    /// The link behind another one.
    pub fn next(&self, link: Link) -> Option<Link> {
        self.link(link.next)
    }

    /// Puts a term at the head of a chain. A chain that isn't there stays so.
    pub fn add(&mut self, chain: usize, item: TermId) -> Result<(), AllocError> {
        let Some(next) = self.heads.get(chain).copied() else {
            return Ok(());
        };
        self.links.push(Link { item, next })?;
        let number = u32::try_from(self.links.len()).unwrap_or(0);
        if let Some(head) = self.heads.get_mut(chain) {
            *head = number;
        }
        Ok(())
    }

    /// Puts a term at the head of a chain, unless it stands there.
    pub fn add_once(&mut self, chain: usize, item: TermId) -> Result<(), AllocError> {
        match self.first(chain) {
            Some(link) if link.item == item => Ok(()),
            _ => self.add(chain, item),
        }
    }

    /// Adds the terms of a chain to a list.
    pub fn collect(&self, chain: usize, list: &mut Vec<TermId>) -> Result<(), AllocError> {
        let mut here = self.first(chain);
        for _ in 0..self.links.len() {
            let Some(link) = here else {
                return Ok(());
            };
            list.push(link.item)?;
            here = self.next(link);
        }
        Ok(())
    }
}
