ghost use Rattle.std.specs.Prelude.{◌≡◌, ◌↔◌, ℕ, List, map, [], ◌∷◌, None, Some};
ghost use Rattle.cv_syntax_trees.specs.Declarations.{Declaration};
ghost use Rattle.cv_syntax_trees.specs.Tree.{Tree};
ghost use Rattle.cv_scope_rules.specs.declared.typing.fault.Fault.{Fault};
ghost use Rattle.cv_scope_rules.specs.typing.Signature.{Signature, Above};
ghost use Rattle.cv_scope_rules.specs.typing.Wants.{Want};
ghost use Rattle.cv_scope_rules.specs.typing.Typing.{IsTyped, IsFirst, first_fault};
ghost use Rattle.cv_scope_rules.specs.typing.Worked.{file_fault, files, game_fault, games};
ghost use Rattle.cv_scope_rules.specs.typing.Parts.{IsTypedGame, IsTypedFile, IsFirstIn, file_parts, first_in, game_part};

/// A tree has no first fault exactly where it is typed, and what is computed is the first fault in preorder.
pub fn tree_faults_are_first()
    ensures typed { (e : Signature) (above : Above) (w : Want) (p : ℕ) (t : Tree) →
        (first_fault e above w p t ≡ None) ↔ IsTyped e above w t }
    ensures first { (e : Signature) (above : Above) (w : Want) (p : ℕ) (t : Tree) (q : ℕ) (f : Fault) →
        first_fault e above w p t ≡ Some (q, f) → IsFirst e above w p t q f }
{}

/// The same for a game.
pub fn game_faults_are_first()
    ensures typed { (ds : List Declaration) (game : Tree) →
        (first_in ds 0 (game_part game ∷ []) ≡ None) ↔ IsTypedGame ds game }
    ensures first { (ds : List Declaration) (game : Tree) (q : ℕ) (f : Fault) →
        first_in ds 0 (game_part game ∷ []) ≡ Some (q, f) → IsFirstIn ds 0 (game_part game ∷ []) q f }
{}

/// The same for a file: its equations, equivalences and queries in order, and then its process.
pub fn file_faults_are_first()
    ensures typed { (ds : List Declaration) (game : Tree) →
        (first_in ds 0 (file_parts ds game) ≡ None) ↔ IsTypedFile ds game }
    ensures first { (ds : List Declaration) (game : Tree) (q : ℕ) (f : Fault) →
        first_in ds 0 (file_parts ds game) ≡ Some (q, f) → IsFirstIn ds 0 (file_parts ds game) q f }
{}

/// Small games with their first faults.
pub fn worked_games()
    ensures { map (λ g. game_fault g.0) games ≡ map (λ g. g.1) games }
{}

/// Small files of equations, queries and equivalences with their first faults.
pub fn worked_files()
    ensures { map (λ f. file_fault f.0) files ≡ map (λ f. f.1) files }
{}
