ghost use Rattle.std.specs.Prelude.{◌≡◌, ◌↔◌, ℕ, List, None, Some};
ghost use Rattle.cv_syntax_trees.specs.declared.head.Head.{Head};
ghost use Rattle.cv_syntax_trees.specs.Declarations.{Declaration};
ghost use Rattle.cv_syntax_trees.specs.Tree.{Tree};
ghost use Rattle.cv_scope_rules.specs.declared.fault.Fault.{Fault};
ghost use Rattle.cv_scope_rules.specs.Branches.{AreSitesAlike, IsApartByBranches};
ghost use Rattle.cv_scope_rules.specs.Standing.{Standing};
ghost use Rattle.cv_scope_rules.specs.Rules.{Names, Obeys, Breaks};
ghost use Rattle.cv_scope_rules.specs.Tests.{fault_of};
ghost use Rattle.cv_scope_rules.specs.Scope.{IsScopedAt, IsFirst, IsScoped, IsFirstFault, first_fault, first_scope_fault};

/// The tests of a node find no fault exactly where it obeys each rule, and else a kind of rules that it breaks.
pub fn nodes_are_decided()
    ensures obeys { (names : Names) (s : Standing) (h : Head) (a b : Tree) →
        (fault_of names s h a b ≡ None) ↔ ((f : Fault) → Obeys names s h a b f) }
    ensures breaks { (names : Names) (s : Standing) (h : Head) (a b : Tree) (f : Fault) →
        fault_of names s h a b ≡ Some f → Breaks names s h a b f }
{}

/// A tree has no first fault exactly where it is scoped, and what is computed is the first fault in preorder.
pub fn tree_faults_are_first()
    ensures scoped { (names : Names) (s : Standing) (t : Tree)
        → (first_fault names s t ≡ None) ↔ IsScopedAt names s t }
    ensures first { (names : Names) (s : Standing) (t : Tree) (q : ℕ) (f : Fault) →
        first_fault names s t ≡ Some (q, f) → IsFirst names s t q f }
{}

/// The same for a game.
pub fn game_faults_are_first()
    ensures scoped { (ds : List Declaration) (game : Tree)
        → (first_scope_fault ds game ≡ None) ↔ IsScoped ds game }
    ensures first { (ds : List Declaration) (game : Tree) (q : ℕ) (f : Fault) →
        first_scope_fault ds game ≡ Some (q, f) → IsFirstFault ds game q f }
{}

/// In a scoped game the sites of one name are alike, and stand in different branches of one `if` or `find`.
pub fn scoped_sites_are_apart()
    ensures alike { (ds : List Declaration) (game : Tree) → IsScoped ds game → AreSitesAlike game }
    ensures branches { (ds : List Declaration) (game : Tree) → IsScoped ds game
        → IsApartByBranches game }
{}
