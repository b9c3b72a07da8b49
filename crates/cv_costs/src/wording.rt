// Games where terms at several places are changed: they say the same in other words, wherever a fact of the values of an array holds.
ghost use Rattle.std.specs.Prelude.{◌≡◌, ℕ, Bool, List, false, true};
ghost use Rattle.std.specs.List.{AllByRecursion};
ghost use Rattle.cv_syntax_trees.specs.Declarations.{Declaration};
ghost use Rattle.cv_syntax_trees.specs.Tree.{Tree};
ghost use Rattle.cv_meaning.specs.Advantage.{chance_of};
ghost use Rattle.cv_meaning.specs.Cells.{cells};
ghost use Rattle.cv_meaning.specs.Chances.{AtMost, Chance, chance, distance};
ghost use Rattle.cv_meaning.specs.Experiments.{Experiment, holds_on, mode_of, visits_of_run};
ghost use Rattle.cv_meaning.specs.Interpretation.{Setting};
ghost use Rattle.cv_meaning.specs.Memory.{Store};
ghost use Rattle.cv_meaning.specs.Runs.{Adversary, Mode};
ghost use Rattle.cv_meaning.specs.Tapes.{Tape};
ghost use Rattle.cv_meaning_chances.specs.Tests.{IsWithin};
ghost use Rattle.cv_scope_rules.specs.Phrases.{HasConstantsOf, IsWellFormed};
ghost use Rattle.cv_scene.specs.Scenes.{has_news_alone};
ghost use Rattle.cv_costs.specs.wording.Changing.{AreTermsAt, KeepsStill, changed_at};
ghost use Rattle.cv_costs.specs.wording.Facts.{HoldsIn, IsOfArray, KeepsValues};

/// A fact of stores, at a tape.
pub trait Fact {
    ghost stores: { Tape → Store → Type 0 };
}

/// Terms of a game may be changed at several places where each has its value with what is put there, wherever what it reads is assigned
/// and a fact of the array of a variable holds that is defined by `new` alone. On a tape on which the fact holds at each visit, an
/// experiment holds in both games or in none. So its chances differ by no more than the chance of the other tapes, or of a bound of it.
pub fn changed_terms_say_the_same<F: Fact>()
    ensures tests { (ds : List Declaration) (g : Setting) (x : Experiment) (a : Adversary)
        (game : Tree) (t : Tape) (y : ℕ) (places : ℕ → Bool) (change : Tree → Tree) →
        HasConstantsOf ds g → IsWellFormed ds game → has_news_alone y game ≡ true →
        IsOfArray y (F.stores t) → AreTermsAt places game → KeepsStill change →
        KeepsValues g game places change (F.stores t) →
        AllByRecursion (HoldsIn (F.stores t)) (visits_of_run g (mode_of x) a game t) →
        holds_on g x a game t ≡ holds_on g x a (changed_at places change 0 game) t }
    ensures cells { (ds : List Declaration) (g : Setting) (m : Mode) (a : Adversary)
        (game : Tree) (y : ℕ) (places : ℕ → Bool) (change : Tree → Tree) →
        HasConstantsOf ds g → IsWellFormed ds game → has_news_alone y game ≡ true →
        AreTermsAt places game → KeepsStill change →
        cells g m a game ≡ cells g m a (changed_at places change 0 game) }
    ensures distances { (ds : List Declaration) (g : Setting) (x : Experiment) (a : Adversary)
        (game : Tree) (y : ℕ) (places : ℕ → Bool) (change : Tree → Tree)
        (bad : Tape → Bool) (bound : Chance) →
        HasConstantsOf ds g → IsWellFormed ds game → has_news_alone y game ≡ true →
        ((t : Tape) → IsOfArray y (F.stores t)) → AreTermsAt places game → KeepsStill change →
        ((t : Tape) → KeepsValues g game places change (F.stores t)) →
        ((t : Tape) → IsWithin (cells g (mode_of x) a game) t → bad t ≡ false →
        AllByRecursion (HoldsIn (F.stores t)) (visits_of_run g (mode_of x) a game t)) →
        AtMost (chance (cells g (mode_of x) a game) bad) bound →
        AtMost (distance (chance_of g x a game)
        (chance_of g x a (changed_at places change 0 game))) bound }
{}
