// What is known at the places of a typed game is typed there, and what settling steps derive from it is right.
#![tactic(auto)]

ghost use Rattle.std.specs.Prelude.{◌≡◌, ◌⊎◌, ℕ, Some, true};
ghost use Rattle.std.specs.List.{AllByRecursion};
ghost use Rattle.cv_syntax_trees.specs.Tree.{Tree};
ghost use Rattle.cv_scope_rules.specs.Above.{stands_at};
ghost use Rattle.cv_scope_rules.specs.Context.{Context};
ghost use Rattle.cv_scope_rules.specs.Phrases.{Inputs};
ghost use Rattle.cv_typing_runs.specs.Games.{HasArguments, HasConstants};
ghost use Rattle.cv_scene.specs.Derivations.{Derives};
ghost use Rattle.cv_scene.specs.Pruning.{Pruned, pruned};
ghost use Rattle.cv_scene.specs.Scenes.{Scene, part_at};
ghost use Rattle.cv_scene.specs.Sights.{is_cell_at, sight_at, site_facts};
ghost use Rattle.cv_scene.specs.Terms.{is_game, is_term_at};
ghost use Rattle.cv_scene.specs.lines.Targets.{falsity};
ghost use Rattle.cv_steps.specs.Changes.{change_at};
ghost use Rattle.cv_steps.specs.Elementary.{prune_step, rewrite_step};
ghost use Rattle.cv_steps.specs.Judgements.{Refused, judgement_of};
ghost use Rattle.cv_steps.specs.Rewriting.{has_term_at};
ghost use Rattle.cv_steps.specs.Rows.{prune_row};
ghost use Rattle.cv_steps.specs.Steps.{Leads, Zero};
ghost use Rattle.cv_settling_rules.specs.Reasons.{IsUnreached, Unreached, derivation_of};
ghost use Rattle.cv_settling_rules.specs.Rewritings.{by_bool, by_equation, rewriting};
ghost use Rattle.cv_settling_laws.specs.Games.{IsTypedScene};
ghost use Rattle.cv_settling_laws.specs.Refusals.{IsOneOf, IsPruning};
ghost use Rattle.cv_settling_laws.specs.Rewritings.{IsInstance, IsRewriting, IsTruth, MayBecome};

/// What is asked of a game holds of each that passes the test of next games, where constants are functions.
pub fn next_games_are_typed_scenes()
    ensures { (s : Scene) → HasArguments s.declarations → HasConstants s.declarations →
        is_game s.declarations s.game ≡ true → IsTypedScene s }
{}

/// What stands above a place of a typed game is typed there: each fact is a term over the indices above the place, and each cell that is
/// directly defined there is a cell over them. So is each term of the game at its own place.
pub fn what_is_known_is_typed()
    ensures facts { (s : Scene) → IsTypedScene s → (place : ℕ) (Γ : Context) →
        stands_at s.game place ≡ Some Γ →
        AllByRecursion (λ t. is_term_at s place t ≡ true) Γ.facts }
    ensures cells { (s : Scene) → IsTypedScene s → (place : ℕ) (Γ : Context) →
        stands_at s.game place ≡ Some Γ →
        AllByRecursion (λ c. is_cell_at s place c ≡ true) Γ.cells }
    ensures terms { (s : Scene) → IsTypedScene s → (place : ℕ) →
        has_term_at Inputs s.game place ≡ true → is_term_at s place (part_at s.game place) ≡ true }
{}

/// So are the facts at the only definition of a cell that is directly defined there, with the cell's index terms for the indices.
pub fn what_is_known_of_a_cell_is_typed()
    ensures { (s : Scene) → IsTypedScene s → (place : ℕ) (Γ : Context) →
        stands_at s.game place ≡ Some Γ →
        AllByRecursion (λ c. AllByRecursion (λ t. is_term_at s place t ≡ true)
        (site_facts (sight_at s place) c)) Γ.cells }
{}

/// Where a body isn't reached for a plain reason, the derivation for that reason is right there, and ends with `false`.
pub fn reasons_are_derived()
    ensures { (s : Scene) → IsTypedScene s → (body : ℕ) (u : Unreached) →
        IsUnreached (sight_at s body) u → Derives (sight_at s body) (derivation_of u) falsity }
{}

/// Where a term may be rewritten by one of its sort, with which it stands in an equation of truth values or in an instance of a declared
/// one, the line that says so is a derivation of their equality.
pub fn rewritings_are_derived()
    ensures truths { (s : Scene) → IsTypedScene s → (place : ℕ) (term : Tree) →
        MayBecome s place term → IsTruth s place term → IsRewriting s place term by_bool }
    ensures instances { (s : Scene) → IsTypedScene s → (place : ℕ) (term : Tree) →
        MayBecome s place term → (number : ℕ) (terms : Tree) →
        IsInstance s place term number terms →
        IsRewriting s place term (by_equation number terms) }
{}

/// So the row of a `prune` leads on where the body isn't reached, and such a step is refused by other conditions than those of its
/// derivation alone.
pub fn bodies_that_are_not_reached_go()
    ensures leads { (s : Scene) → IsTypedScene s → (place : ℕ) (u : Unreached) (gone : Pruned) →
        pruned place (part_at s.game place) u.part ≡ Some gone →
        IsUnreached (sight_at s gone.body) u →
        prune_row s place u.part (derivation_of u)
        ≡ Leads (change_at s.game place (λ old. gone.left)) Zero }
    ensures refused { (s : Scene) → IsTypedScene s → (place : ℕ) (u : Unreached) →
        IsPruning s place u → (condition at : ℕ) →
        judgement_of s (prune_step place u.part (derivation_of u)) ≡ Refused condition at →
        IsOneOf condition 0 1 9 }
{}

/// And so it is with a `rewrite`.
pub fn equal_terms_are_rewritten()
    ensures truths { (s : Scene) → IsTypedScene s → (place : ℕ) (term : Tree) →
        IsTruth s place term → (condition at : ℕ) →
        judgement_of s (rewrite_step place term (rewriting s place term by_bool))
        ≡ Refused condition at → (condition ≡ 0) ⊎ IsOneOf condition 1 2 9 }
    ensures instances { (s : Scene) → IsTypedScene s → (place : ℕ) (term : Tree) →
        (number : ℕ) (terms : Tree) → IsInstance s place term number terms → (condition at : ℕ) →
        judgement_of s (rewrite_step place term (rewriting s place term (by_equation number terms)))
        ≡ Refused condition at → (condition ≡ 0) ⊎ IsOneOf condition 1 2 9 }
{}
