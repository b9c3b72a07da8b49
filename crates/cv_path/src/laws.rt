ghost use Rattle.std.specs.Prelude.{◌≡◌, ◌≤◌, ◌↔◌, ◌∷◌, [], ℕ, None, Some};
ghost use Rattle.cv_syntax_trees.specs.Tree.{Tree, size, subtree};
ghost use Rattle.cv_path.specs.Copies.{copies_at};
ghost use Rattle.cv_path.specs.Worked.{searching};

/// A tree has the places below its size, and no others.
#[tactic(auto, using(crate::proofs::Bounds::bounds))]
pub fn places_are_below_the_size()
    ensures subtree { (t : Tree) (p : ℕ) → (subtree t p ≡ None) ↔ (size t ≤ p) }
    ensures copies { (t : Tree) (p : ℕ) → (copies_at t p ≡ None) ↔ (size t ≤ p) }
{}

/// Copies of a replicated `find`: its condition has one for each value of both indices, its body one for each value of the
/// replication's.
pub fn worked_copies()
    ensures find { copies_at searching 1 ≡ Some (11 ∷ []) }
    ensures condition { copies_at searching 3 ≡ Some (11 ∷ 12 ∷ []) }
    ensures body { copies_at searching 4 ≡ Some (11 ∷ []) }
    ensures behind { copies_at searching 6 ≡ None }
{}
