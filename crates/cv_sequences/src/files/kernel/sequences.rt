// From one table of names and one list of steps, what is accepted is one sequence of games.

ghost use Rattle.std.specs.Prelude.{◌≡◌, ℕ, Bool, List, Some, map};
ghost use Rattle.cv_pool.specs.names.Texts.{NoRepeat};
ghost use Rattle.cv_syntax_trees.specs.Declarations.{Declaration};
ghost use Rattle.cv_syntax_trees.specs.Tree.{Tree};
ghost use Rattle.cv_scene.specs.Scenes.{Scene};
ghost use Rattle.cv_steps_laws.specs.crypto.Conditions.{equivalence_of};
ghost use Rattle.cv_kernel_crypto.specs.Applied.{DrawsNext};
ghost use Rattle.cv_kernel.specs.Drawings.{DrawsAlong, told};
ghost use Rattle.cv_kernel.specs.Proofs.{IsProof, Transition};

/// From one table of names a cryptographic step draws one table, and where no text stands twice in the first, the
/// names and labels that are drawn fix the next game.
pub fn drawn_next_games_are_one()
    ensures table { (before after other : List (List ℕ)) (own : ℕ) (s : Scene) (e x : ℕ)
        (t g h : Tree) → equivalence_of s e ≡ Some t → DrawsNext before after own s e x g →
        DrawsNext before other own s e x h → after ≡ other }
    ensures game { (before after other : List (List ℕ)) (own : ℕ) (s : Scene) (e x : ℕ)
        (t g h : Tree) → NoRepeat before → equivalence_of s e ≡ Some t →
        DrawsNext before after own s e x g → DrawsNext before other own s e x h → g ≡ h }
    ensures names { (before after : List (List ℕ)) (own : ℕ) (s : Scene) (e x : ℕ) (t g : Tree) →
        NoRepeat before → equivalence_of s e ≡ Some t → DrawsNext before after own s e x g →
        NoRepeat after }
{}

/// So accepted steps, all found or all of a proof block, lead from one game and one table of names to one sequence of games, each at
/// one cost, with one context and one table.
pub fn accepted_steps_lead_to_one_sequence()
    ensures { (found : Bool) (ds : List Declaration) (known : ℕ → Bool) (own : ℕ)
        (first g h : Tree) (ts us : List Transition) (before after other : List (List ℕ)) →
        NoRepeat before → IsProof ds known first ts g → IsProof ds known first us h →
        map (λ t. t.step) ts ≡ map (λ t. t.step) us →
        DrawsAlong found ds known own first (map told ts) before after →
        DrawsAlong found ds known own first (map told us) before other → (ts ≡ us) × (after ≡ other) }
{}
