ghost use Rattle.std.specs.Prelude.{◌≡◌, ◌<◌, ℕ, List, Option, length, take};
ghost use Rattle.cv_pool.specs.KindTree.{KindTree};
ghost use Rattle.cv_pool.specs.Nodes.{at, child, ChildBelow};
ghost use Rattle.cv_pool.specs.PoolView.{PoolView, Grows};
ghost use Rattle.cv_pool.specs.declared.node.NodeId.{NodeId};

/// A number stands for one tree until a mark that is older than its node is released: nodes that are added leave it,
/// and so does a release to a later mark; and a release to where the pool stood before it grew gives back what was there.
pub fn numbers_are_stable()
    ensures grown { (old new : PoolView) (n : ℕ) → Grows old new → n < length old.trees
        → at new.trees n ≡ at old.trees n }
    ensures children { (old new : PoolView) (n : Option NodeId) → Grows old new
        → ChildBelow (length old.trees) n → child new.trees n ≡ child old.trees n }
    ensures released { (trees : List KindTree) (m n : ℕ) → n < m
        → at (take m trees) n ≡ at trees n }
    ensures back { (old new : PoolView) → Grows old new
        → take (length old.trees) new.trees ≡ old.trees }
    ensures again { (s t u : PoolView) → Grows s t → Grows t u → Grows s u }
{}
