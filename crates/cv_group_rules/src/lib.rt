// Which equivalences are accepted.
#![tactic(auto)]

ghost use Rattle.std.specs.Prelude.{◌≡◌, ◌↔◌, ℕ, true, false, [], ◌∷◌, List, None, Some};
ghost use Rattle.cv_syntax_trees.specs.declared.head.Head.TheVariants.{Bound, Let, New, No, Single, Yes};
ghost use Rattle.cv_syntax_trees.specs.Tree.{Empty, Node, Tree, lone};
ghost use Rattle.cv_syntax_trees.specs.Builders.{branch, find, leaf, read};
ghost use Rattle.cv_meaning.specs.contexts.Groups.{Which};
ghost use Rattle.cv_meaning.specs.contexts.Worked.{any_put, apply, argument_at, authentication_equivalence, bound_or_not, encryption_equivalence, equal, equivalence, group, guess_equivalence, oracle, test, two_alike};
ghost use Rattle.cv_group_rules.specs.Faults.{AreAccepted, BoundNames, GroupRule, IsAccepted, IsFirstBroken, IsFirstGroupFault, LeftIsTerm, OneIndex, ReadNames, SameShape, first_group_fault, group_fault};
ghost use Rattle.cv_group_rules.specs.Rules.{bodies_call, functions_in};
ghost use Rattle.cv_group_rules.specs.Symbols.{Symbols};
ghost use Rattle.cv_group_rules.specs.Worked.{alone, defining, file_symbols, getting, putting, replaced, sealed, search, undeclared};

/// What is computed is the first rule that an equivalence breaks, and the first equivalence that breaks one.
pub fn faults_are_decided()
    ensures none { (symbols : Symbols) (t : Tree)
        → (group_fault symbols t ≡ None) ↔ IsAccepted symbols t }
    ensures some { (symbols : Symbols) (t : Tree) (r : GroupRule)
        → (group_fault symbols t ≡ Some r) ↔ IsFirstBroken symbols t r }
    ensures all { (symbols : Symbols) (ts : List Tree)
        → (first_group_fault symbols ts ≡ None) ↔ AreAccepted symbols ts }
    ensures first { (symbols : Symbols) (ts : List Tree) (k : ℕ) (r : GroupRule)
        → (first_group_fault symbols ts ≡ Some (k, r)) ↔ IsFirstGroupFault symbols ts k r }
{}

/// What a body of an accepted equivalence calls, wherever it stands in the body, is a function of the file.
pub fn calls_are_declared()
    ensures { (symbols : Symbols) (t : Tree) (which : Which) (f : ℕ) → IsAccepted symbols t
        → bodies_call (functions_in which t) f ≡ true → symbols.function f ≡ true }
{}

/// Worked equivalences that are accepted.
pub fn worked_accepted()
    ensures encryption { group_fault file_symbols encryption_equivalence ≡ None }
    ensures authentication { group_fault file_symbols authentication_equivalence ≡ None }
    ensures guess { group_fault file_symbols guess_equivalence ≡ None }
    ensures constant { group_fault file_symbols (replaced (leaf 6) (leaf 32)) ≡ None }
    ensures nested { group_fault file_symbols (replaced (leaf 31) two_alike) ≡ None }
    ensures defined { group_fault file_symbols (replaced (defining (leaf 33))
        (search (read 33 (leaf 36 ∷ []) ∷ []) (read 33 (leaf 36 ∷ [])) (lone Yes))) ≡ None }
    ensures bare { group_fault file_symbols (replaced (leaf 31)
        (test (lone Yes) (defining (leaf 33)) (search (argument_at 36 ∷ leaf 33 ∷ []) (leaf 33) (lone Yes)))) ≡ None }
{}

/// Worked equivalences whose shapes differ, or whose bodies are of another form.
pub fn worked_shapes()
    ensures left_test { group_fault file_symbols (alone (putting (test (lone Yes) (sealed 31) (sealed 31))) (putting (sealed 31))) ≡ Some LeftIsTerm }
    ensures no_index { group_fault file_symbols (replaced (leaf 31) (find 1 (branch [] [] (lone Yes) (lone Yes) ∷ []) (lone No))) ≡ Some OneIndex }
    ensures two_indices { group_fault file_symbols (replaced (leaf 31)
        (find 1 (branch ((36, 24) ∷ (37, 24) ∷ []) (argument_at 36 ∷ argument_at 37 ∷ []) (lone Yes) (lone Yes) ∷ []) (lone No))) ≡ Some OneIndex }
    ensures number { group_fault file_symbols (equivalence (group (putting (sealed 31) ∷ getting (sealed 32) ∷ [])) (group (putting (sealed 31) ∷ []))) ≡ Some SameShape }
    ensures name { group_fault file_symbols (alone (putting (sealed 31)) (oracle 25 (Bound 23 24) [] ((31, 5) ∷ []) (sealed 31))) ≡ Some SameShape }
    ensures bound { group_fault file_symbols (alone (putting (sealed 31)) (oracle 22 (Bound 23 27) [] ((31, 5) ∷ []) (sealed 31))) ≡ Some SameShape }
    ensures replication { group_fault file_symbols (alone (putting (sealed 31)) (oracle 22 (Single 22) [] ((31, 5) ∷ []) (sealed 31))) ≡ Some SameShape }
    ensures index { group_fault file_symbols (alone (putting (sealed 31)) (oracle 22 (Bound 28 24) [] ((31, 5) ∷ []) (sealed 31))) ≡ None }
    ensures argument { group_fault file_symbols (alone (putting (sealed 31)) (oracle 22 (Bound 23 24) [] ((32, 5) ∷ []) (sealed 32))) ≡ Some SameShape }
    ensures argument_type { group_fault file_symbols (alone (putting (sealed 31)) (oracle 22 (Bound 23 24) [] ((31, 0) ∷ []) (sealed 31))) ≡ Some SameShape }
    ensures shared { let f = oracle 25 (Bound 26 24) [] ((32, 5) ∷ []) (sealed 32) in
        group_fault file_symbols (equivalence (group (putting (sealed 31) ∷ f ∷ [])) (group (putting (sealed 31) ∷ f ∷ []))) ≡ Some SameShape }
{}

/// Worked equivalences that call what isn't declared.
pub fn worked_calls()
    ensures left { group_fault file_symbols (alone (putting (undeclared (leaf 31))) (putting (sealed 31))) ≡ Some BoundNames }
    ensures right { group_fault file_symbols (replaced (leaf 31) (undeclared (leaf 32))) ≡ Some BoundNames }
    ensures nested { group_fault file_symbols (replaced (leaf 31) (apply 40 (undeclared (leaf 32) ∷ []))) ≡ Some BoundNames }
    ensures defined { group_fault file_symbols (replaced (leaf 31) (Node (Let 33 0) (undeclared (leaf 32)) (leaf 33))) ≡ Some BoundNames }
    ensures tested { group_fault file_symbols (replaced (leaf 31) (test (undeclared (leaf 32)) (leaf 32) (leaf 32))) ≡ Some BoundNames }
    ensures condition { group_fault file_symbols (replaced (leaf 31)
        (search (argument_at 36 ∷ []) (undeclared (argument_at 36)) (lone Yes))) ≡ Some BoundNames }
    ensures bound { group_fault file_symbols (replaced (leaf 31) (apply 24 (leaf 32 ∷ []))) ≡ Some BoundNames }
    ensures known { group_fault file_symbols (replaced (leaf 31) (apply 40 (leaf 32 ∷ []))) ≡ None }
{}

/// Worked equivalences that name what isn't bound, or don't read what they bind.
pub fn worked_names()
    ensures other_argument { group_fault file_symbols (alone (putting (sealed 32)) (putting (leaf 31))) ≡ Some BoundNames }
    ensures own_index { group_fault file_symbols (replaced (leaf 23) (leaf 32)) ≡ Some BoundNames }
    ensures no_cell { group_fault file_symbols (replaced (leaf 31) (search [] (lone Yes) (lone Yes))) ≡ Some BoundNames }
    ensures unread_cell { group_fault file_symbols (replaced (leaf 31) (search (leaf 32 ∷ []) (lone Yes) (lone Yes))) ≡ Some BoundNames }
    ensures other_bound { group_fault file_symbols (replaced (leaf 31) (search (read 32 (leaf 36 ∷ []) ∷ []) (lone Yes) (lone Yes))) ≡ Some BoundNames }
    ensures key_cell { group_fault file_symbols (replaced (leaf 31) (search (argument_at 36 ∷ leaf 30 ∷ []) (lone Yes) (lone Yes))) ≡ Some BoundNames }
    ensures in_else { group_fault file_symbols (replaced (leaf 31) (find 1 (any_put (lone Yes) ∷ []) (argument_at 36))) ≡ Some BoundNames }
    ensures rebound { group_fault file_symbols (replaced (leaf 31) (search (argument_at 36 ∷ []) (lone Yes)
        (search (read 33 (leaf 36 ∷ []) ∷ []) (argument_at 36) (lone Yes)))) ≡ Some BoundNames }
    ensures own_term { group_fault file_symbols (replaced (Node (New 33 5) Empty (leaf 33)) (test (leaf 33) (leaf 32) (leaf 32))) ≡ Some BoundNames }
    ensures unread_key { group_fault file_symbols (alone (putting (leaf 31)) (putting (leaf 31))) ≡ Some ReadNames }
    ensures hidden { let f = oracle 22 (Bound 23 24) ((31, 5) ∷ []) ((31, 5) ∷ []) (sealed 31) in
        group_fault file_symbols (alone f (putting (leaf 31))) ≡ Some ReadNames }
{}
