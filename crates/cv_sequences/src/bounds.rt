// What bounds an experiment in the last game of a chain is carried back, with the sum of the costs on the way.

ghost use Rattle.std.specs.Prelude.{ℕ, List, [], false};
ghost use Rattle.cv_syntax_trees.specs.Declarations.{Declaration};
ghost use Rattle.cv_syntax_trees.specs.Tree.{Tree};
ghost use Rattle.cv_meaning.specs.Interpretation.{Interpretation, setting_of};
ghost use Rattle.cv_meaning.specs.Satisfies.{Satisfies};
ghost use Rattle.cv_meaning.specs.Runs.{Adversary};
ghost use Rattle.cv_meaning.specs.Experiments.{Experiment, mode_of};
ghost use Rattle.cv_meaning.specs.Chances.{AtMost, Chance};
ghost use Rattle.cv_meaning.specs.Advantage.{IsAsked, chance_of};
ghost use Rattle.cv_meaning.specs.Queries.{queries_in};
ghost use Rattle.cv_meaning_chances.specs.Fractions.{plus};
ghost use Rattle.cv_meaning_chances.specs.values.Values.{HasValuesIn};
ghost use Rattle.cv_bound.specs.declared.cost.Cost.{Cost};
ghost use Rattle.cv_bound.specs.Sums.{added};
ghost use Rattle.cv_steps.specs.values.Values.{Advantages, cost_value, sum_value};
ghost use Rattle.cv_sequences.specs.Chains.{IsChain, IsFileOf, Link, Prices, costs_behind, names_below, summed};

/// An experiment whose chance in the last game of a chain is at most a bound has in the first game a chance that is at most the sum
/// and this bound: a query that is closed in the last game by a certificate with a cost costs that and the sum. Where the bound is the
/// value of a cost, that is the value of the sum with this cost more.
pub fn chains_carry_bounds_back()
    ensures chance { (ds : List Declaration) (own : ℕ) (first : Tree) (links : List Link)
        (last : Tree) → IsFileOf ds own first →
        IsChain ds (names_below own) first links last →
        (i : Interpretation) → Satisfies ds i → (x : Experiment) → IsAsked (queries_in ds) x →
        HasValuesIn (setting_of ds i) (mode_of x) first →
        (a : Adversary) (advantages : Advantages) →
        Prices ds (names_below own) first links advantages i x a →
        (bound : Chance) → AtMost (chance_of (setting_of ds i) x a last) bound →
        AtMost (chance_of (setting_of ds i) x a first)
        (plus (sum_value i advantages (summed [] (costs_behind links))) bound) }
    ensures sum { (ds : List Declaration) (own : ℕ) (first : Tree) (links : List Link)
        (last : Tree) → IsFileOf ds own first →
        IsChain ds (names_below own) first links last →
        (i : Interpretation) → Satisfies ds i → (x : Experiment) → IsAsked (queries_in ds) x →
        HasValuesIn (setting_of ds i) (mode_of x) first →
        (a : Adversary) (advantages : Advantages) →
        Prices ds (names_below own) first links advantages i x a →
        (cost : Cost) →
        AtMost (chance_of (setting_of ds i) x a last) (cost_value i advantages cost false) →
        AtMost (chance_of (setting_of ds i) x a first)
        (sum_value i advantages (added (summed [] (costs_behind links)) cost false)) }
{}
