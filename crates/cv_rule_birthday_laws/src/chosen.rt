// Values that are chosen at random: each is that of its cell on the tape, and two are equal only by chance.

ghost use Rattle.std.specs.Prelude.{◌≡◌, ℕ, Contains, List, Some, [], false, true};
ghost use Rattle.std.specs.List.{All, AllByRecursion};
ghost use Rattle.cv_syntax_trees.specs.Declarations.{Declaration};
ghost use Rattle.cv_syntax_trees.specs.Tree.{Tree};
ghost use Rattle.cv_syntax_trees.specs.declared.sites.sort.Sort.TheVariants.{OfType};
ghost use Rattle.cv_syntax_trees.specs.sites.Sites.{Variable, first_site};
ghost use Rattle.cv_meaning.specs.Cells.{cells};
ghost use Rattle.cv_meaning.specs.Chances.{AtMost, chance};
ghost use Rattle.cv_meaning.specs.Experiments.{run, visits_of_run};
ghost use Rattle.cv_meaning.specs.Interpretation.{Interpretation, Setting, setting_of};
ghost use Rattle.cv_meaning.specs.Memory.{Store};
ghost use Rattle.cv_meaning.specs.Runs.{Adversary, Mode};
ghost use Rattle.cv_meaning.specs.Tapes.{New_at, Tape};
ghost use Rattle.cv_meaning_chances.specs.Tests.{some_equal};
ghost use Rattle.cv_scope_rules.specs.Phrases.{HasConstantsOf, IsWellFormed};
ghost use Rattle.cv_scope_rules.specs.typing.Parts.{IsTypedGame};
ghost use Rattle.cv_scene.specs.Scenes.{has_news_alone};
ghost use Rattle.cv_costs.specs.wording.Facts.{HoldsIn};
ghost use Rattle.cv_rule_birthday_laws.specs.chosen.Drawn.{AreDrawn, choices_of, pairs_over};

/// In a run of a well-formed game each value of a variable that `new` alone defines is that of its cell on the tape, at indices below
/// the parameters of the variable's first definition: before each visit and at the end, on every tape.
pub fn chosen_values_are_drawn()
    ensures visits { (ds : List Declaration) (g : Setting) (m : Mode) (a : Adversary) (game : Tree)
        (t : Tape) (x : ℕ) (v : Variable) → HasConstantsOf ds g → IsWellFormed ds game →
        has_news_alone x game ≡ true → first_site x [] game ≡ Some v →
        AllByRecursion (HoldsIn (AreDrawn g x v.parameters t)) (visits_of_run g m a game t) }
    ensures last { (ds : List Declaration) (g : Setting) (m : Mode) (a : Adversary) (game : Tree)
        (t : Tape) (x : ℕ) (v : Variable) → HasConstantsOf ds g → IsWellFormed ds game →
        has_news_alone x game ≡ true → first_site x [] game ≡ Some v →
        AreDrawn g x v.parameters t (run g m a game t).memory.store }
{}

/// The cells of such a variable are listed among those of an experiment, with the size of its type; so is each that a run assigns. So
/// chances that speak of these cells alone count the values of assigned ones.
pub fn chosen_cells_are_listed()
    ensures choices { (ds : List Declaration) (i : Interpretation) (m : Mode) (a : Adversary)
        (game : Tree) (x type : ℕ) (v : Variable) → IsWellFormed ds game → IsTypedGame ds game →
        has_news_alone x game ≡ true → first_site x [] game ≡ Some v → v.sort ≡ OfType type →
        All (λ c. Contains (cells (setting_of ds i) m a game) (c, i.type_size type))
        (choices_of (setting_of ds i) x v.parameters) }
    ensures assigned { (ds : List Declaration) (i : Interpretation) (m : Mode) (a : Adversary)
        (game : Tree) (t : Tape) (x type : ℕ) (v : Variable) → IsWellFormed ds game →
        IsTypedGame ds game → has_news_alone x game ≡ true → first_site x [] game ≡ Some v →
        v.sort ≡ OfType type → (u : List ℕ) (k : ℕ) →
        (run (setting_of ds i) m a game t).memory.store x u ≡ Some k →
        Contains (cells (setting_of ds i) m a game) (New_at x u, i.type_size type) }
{}

/// Where no two cells of such a variable hold one value on the tape, values of it that are equal stand at one tuple.
pub fn equal_values_stand_at_one_tuple()
    ensures { (g : Setting) (x : ℕ) (parameters : List ℕ) (t : Tape) (m : Store) →
        AreDrawn g x parameters t m → some_equal (choices_of g x parameters) t ≡ false →
        (u w : List ℕ) (v : ℕ) → m x u ≡ Some v → m x w ≡ Some v → u ≡ w }
{}

/// That two of them hold one value has a chance of at most the square of the copies in twice the size of the type.
pub fn equal_choices_are_rare()
    ensures { (ds : List Declaration) (i : Interpretation) (m : Mode) (a : Adversary) (game : Tree)
        (x type : ℕ) (v : Variable) → IsWellFormed ds game → IsTypedGame ds game →
        has_news_alone x game ≡ true → first_site x [] game ≡ Some v → v.sort ≡ OfType type →
        AtMost (chance (cells (setting_of ds i) m a game)
        (some_equal (choices_of (setting_of ds i) x v.parameters))) (pairs_over v.parameters type i) }
{}
