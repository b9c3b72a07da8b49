ghost use Rattle.std.specs.Prelude.{◌≡◌, ◌+◌, ◌∷◌, [], ℕ, List, OnOk, length};
ghost use Rattle.cv_pool.specs.KindTree.{KindTree};
ghost use Rattle.cv_pool.specs.Nodes.{ChildBelow};
ghost use Rattle.cv_syntax.specs.PoolTrees.{tree_at};
ghost use Rattle.cv_syntax.specs.Postorder.{joined};
ghost use Rattle.cv_syntax.specs.listing.Needs.{most_asked};
ghost use Rattle.cv_edit_places.specs.Parts.{AreLive, closed, made_by, overs, stack_of};

use cv_syntax::{Head, NodeId};
use std::alloc::{AllocError, Global};

/// A part of a tree that is built.
#[derive(Clone, Copy)]
pub enum Part {
    /// A tree that is there, or the empty one.
    There(Option<NodeId>),
    /// A node over the two trees before it.
    Over(Head),
}

/// A tree that is to be built, as a list of its parts, each behind its children.
#[derive(Drop)]
pub struct Parts {
    pub(crate) items: Vec<Part>,
}

impl Parts {
    /// No parts.
    pub fn new(alloc: Global) -> Parts
        ensures stack { (trees : List KindTree) → stack_of trees result ≡ [] }
        ensures made { made_by result ≡ 0 }
        ensures live { (n : ℕ) → AreLive n result }
    {
        Parts {
            items: Vec::new(alloc),
        }
    }

    /// Adds a tree that is there, or the empty one.
    #[tactic(auto, using(crate::proofs::Stacks::parts))]
    pub fn there(&mut self, node: Option<NodeId>) -> Result<(), AllocError>
        ensures stack { OnOk result ((trees : List KindTree) → stack_of trees self.new
            ≡ tree_at trees node ∷ stack_of trees self.old) }
        ensures made { OnOk result (made_by self.new ≡ made_by self.old) }
        ensures live { OnOk result ((n : ℕ) → AreLive n self.old → ChildBelow n node
            → AreLive n self.new) }
    {
        self.items.push(Part::There(node))?;
        Ok(())
    }

    /// Puts a node over the two newest trees.
    #[tactic(auto, using(crate::proofs::Stacks::parts))]
    pub fn over(&mut self, head: Head) -> Result<(), AllocError>
        ensures stack { OnOk result ((trees : List KindTree) → stack_of trees self.new
            ≡ joined head (stack_of trees self.old)) }
        ensures made { OnOk result (made_by self.new ≡ made_by self.old + 1) }
        ensures live { OnOk result ((n : ℕ) → AreLive n self.old → AreLive n self.new) }
    {
        self.items.push(Part::Over(head))?;
        Ok(())
    }

    /// Puts nodes over the newest trees, the newest head first.
    pub fn close(&mut self, heads: Vec<Head>) -> Result<(), AllocError>
        ensures stack { OnOk result ((trees : List KindTree) → stack_of trees self.new
            ≡ closed heads.items (stack_of trees self.old)) }
        ensures made { OnOk result (made_by self.new
            ≡ made_by self.old + length heads.items) }
        ensures live { OnOk result ((n : ℕ) → AreLive n self.old → AreLive n self.new) }
    {
        let mut left = heads;
        'up: while let Some(head) = left.pop() {
            self.over(head)?;
        }
        Ok(())
    }

    /// How many nodes the parts make; more than a pool can have are counted as the most that can be counted.
    pub(crate) fn made(&self) -> u32
        ensures { result ≡ most_asked (made_by self.now) }
    {
        let mut count: u32 = 0;
        for part in self.items.as_slice() {
            if let Part::Over(_) = part {
                count = count.saturating_add(1);
            }
        }
        count
    }
}
