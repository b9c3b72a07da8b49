// Candidates for steps that settle a game by a derivation: bodies that are not reached go, and terms stand in equations with what they
// become.
#![tactic(auto)]

ghost use Rattle.std.specs.Prelude.{◌≡◌, ◌≤◌, ℕ, true};
ghost use Rattle.std.specs.List.{AllByRecursion};
ghost use Rattle.cv_syntax.specs.limits.Limits.{most_depth, most_nodes};
ghost use Rattle.cv_syntax_trees.specs.Tree.{Tree, depth, first, second, size};
ghost use Rattle.cv_scope_rules.specs.Phrases.{Inputs, is_phrase};
ghost use Rattle.cv_scene.specs.Scenes.{Scene, part_at};
ghost use Rattle.cv_scene.specs.Sights.{sight_at};
ghost use Rattle.cv_steps.specs.Rewriting.{has_term_at};
ghost use Rattle.cv_settling_rules.specs.Bodies.{prunings};
ghost use Rattle.cv_settling_rules.specs.Equations.{by_sides, by_truths};
ghost use Rattle.cv_settling_rules.specs.Reasons.{IsReason, IsUnreached, Unreached};
ghost use Rattle.cv_settling_laws.specs.Games.{IsTypedScene};
ghost use Rattle.cv_settling_laws.specs.Rewritings.{IsTruth};
ghost use Rattle.cv_settling_candidates.specs.Pruning.{Goes, HasReason};
ghost use Rattle.cv_settling_candidates.specs.Rewriting.{HasNoFunction, IsByEquation, IsDeclared};

/// Each body that is a candidate for a `prune` has a reason why it isn't reached.
pub fn bodies_have_reasons()
    ensures { (s : Scene) → is_phrase Inputs s.game ≡ true →
        AllByRecursion (HasReason s) (prunings s.game) }
{}

/// In a game that is no larger and no deeper than a game may be, the facts and the lines of a reason are few enough to be numbered.
pub fn reasons_are_short()
    ensures { (s : Scene) → size s.game ≤ most_nodes → depth s.game ≤ most_depth → (body : ℕ)
        (u : Unreached) → IsReason (sight_at s body) u.part u.condition u.fact u.why →
        IsUnreached (sight_at s body) u }
{}

/// So the row of each candidate for a `prune` leads on by some derivation.
pub fn bodies_go()
    ensures { (s : Scene) → IsTypedScene s → size s.game ≤ most_nodes →
        depth s.game ≤ most_depth → AllByRecursion (Goes s) (prunings s.game) }
{}

/// What the equations of truth values make of a term stands in one with it, and so the line that says so is right where the term may be
/// rewritten.
pub fn truths_are_equations()
    ensures { (s : Scene) (place : ℕ) →
        AllByRecursion (IsTruth s place) (by_truths s (part_at s.game place)) }
{}

/// What a declared equation makes of a term that stands in the game is said by an instance of the equation, where no index has the name of
/// a function.
pub fn instances_are_equations()
    ensures { (s : Scene) → IsTypedScene s → (place : ℕ) →
        has_term_at Inputs s.game place ≡ true → HasNoFunction s place →
        (number : ℕ) (equation : Tree) → IsDeclared s number equation →
        AllByRecursion (IsByEquation s place number)
        (by_sides s (first equation) (second equation) (part_at s.game place)) }
{}
