// The laws of the rule `birthday`.
#![tactic(auto)]

pub mod chosen;
pub mod guess;

ghost use Rattle.std.specs.Prelude.{◌≡◌, ℕ, Bool, List, None, Some, []};
ghost use Rattle.cv_syntax_trees.specs.Declarations.{Declaration};
ghost use Rattle.cv_syntax_trees.specs.Tree.{Tree};
ghost use Rattle.cv_syntax_trees.specs.declared.sites.sort.Sort.TheVariants.{OfType};
ghost use Rattle.cv_syntax_trees.specs.sites.Sites.{Variable, first_site};
ghost use Rattle.cv_meaning.specs.Advantage.{chance_of};
ghost use Rattle.cv_meaning.specs.Chances.{AtMost, distance};
ghost use Rattle.cv_meaning.specs.Experiments.{Experiment};
ghost use Rattle.cv_meaning.specs.Interpretation.{Interpretation, setting_of};
ghost use Rattle.cv_meaning.specs.Runs.{Adversary};
ghost use Rattle.cv_scope_rules.specs.Phrases.{IsWellFormed};
ghost use Rattle.cv_scope_rules.specs.typing.Parts.{IsTypedGame};
ghost use Rattle.cv_derive_laws.specs.stores.Steps.{IsSound};
ghost use Rattle.cv_costs.specs.wording.Changing.{changed_at};
ghost use Rattle.cv_scene.specs.Large.{first_other_site};
ghost use Rattle.cv_rule_birthday.specs.Comparing.{compared, first_uncompared, is_one_of};
ghost use Rattle.cv_rule_birthday.specs.Row.{birthday_step};
ghost use Rattle.cv_rule_birthday_laws.specs.chosen.Drawn.{pairs_over};

/// Comparisons of two cells of one array whose values are all chosen at random may become comparisons of their indices: two of the
/// values are equal only by chance. So the chances of each experiment differ by no more than the square of the copies of the choice in
/// twice the size of its type.
pub fn comparisons_of_choices_become_those_of_indices()
    ensures { (ds : List Declaration) (game : Tree) (x type : ℕ) (places : List ℕ)
        (large : ℕ → Bool) (v : Variable) → IsWellFormed ds game → IsTypedGame ds game →
        first_uncompared game x places ≡ None → first_site x [] game ≡ Some v →
        v.sort ≡ OfType type → first_other_site large x 0 game ≡ None →
        (i : Interpretation) (y : Experiment) (a : Adversary) →
        AtMost (distance (chance_of (setting_of ds i) y a game)
        (chance_of (setting_of ds i) y a (changed_at (is_one_of places) compared 0 game)))
        (pairs_over v.parameters type i) }
{}

/// So the step is sound: chances stay as they were up to its cost, which has a value wherever the type has values.
pub fn birthday_is_sound()
    ensures { (x : ℕ) (places : List ℕ) → IsSound (birthday_step x places) }
{}
