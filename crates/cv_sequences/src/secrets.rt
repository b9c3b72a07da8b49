// The laws of sequences of games for queries of secrecy.

ghost use Rattle.std.specs.Prelude.{◌≡◌, ◌↔◌, ℕ, Bool, false, true, List, [], ◌∷◌, ◌++◌};
ghost use Rattle.cv_syntax_trees.specs.Declarations.{Declaration};
ghost use Rattle.cv_syntax_trees.specs.Tree.{Tree};
ghost use Rattle.cv_meaning.specs.Interpretation.{Interpretation, setting_of};
ghost use Rattle.cv_meaning.specs.Satisfies.{Satisfies};
ghost use Rattle.cv_meaning.specs.Runs.{Adversary, Random, Real};
ghost use Rattle.cv_meaning.specs.Experiments.{Guesses};
ghost use Rattle.cv_meaning.specs.Chances.{AtMost, Same, zero_chance};
ghost use Rattle.cv_meaning.specs.Advantage.{IsAsked, secrecy};
ghost use Rattle.cv_meaning.specs.Queries.{queries_in};
ghost use Rattle.cv_meaning_chances.specs.Fractions.{HasTapes, plus};
ghost use Rattle.cv_meaning_chances.specs.values.Values.{HasValuesIn};
ghost use Rattle.cv_bound.specs.declared.cost.Cost.{Cost};
ghost use Rattle.cv_bound.specs.declared.terms.Experiment.TheVariants as term;
ghost use Rattle.cv_bound.specs.declared.terms.Term.{Term};
ghost use Rattle.cv_bound.specs.Sums.{added};
ghost use Rattle.cv_steps.specs.values.Values.{Advantages, sum_value};
ghost use Rattle.cv_sequences.specs.Chains.{HaveTapedPrices, IsChain, IsFileOf, Link, Prices, costs_behind, names_below, summed};
ghost use Rattle.cv_sequences.specs.secrets.Sums.{summed_by};

/// Without secrecy the sum of costs is that of a chain. A cost behind others is added to their sum.
pub fn sums_by_secrecy()
    ensures plain { (sum : List Term) (costs : List Cost) →
        summed_by false sum costs ≡ summed sum costs }
    ensures put { (secrecy : Bool) (sum : List Term) (costs : List Cost) (c : Cost) →
        summed_by secrecy sum (costs ++ c ∷ []) ≡ added (summed_by secrecy sum costs) c secrecy }
{}

/// The sum of costs for secrecy is worth the sum of the real and that of the random experiment together, also where
/// these have no tapes. It has tapes where both have, and nowhere else.
pub fn secret_sums_are_of_both()
    ensures value { (i : Interpretation) (advantages : Advantages) (costs : List Cost) →
        Same (sum_value i advantages (summed_by true [] costs))
        (plus (sum_value i (λ n e. advantages n term.Real) (summed_by false [] costs))
        (sum_value i (λ n e. advantages n term.Random) (summed_by false [] costs))) }
    ensures tapes { (i : Interpretation) (advantages : Advantages) (costs : List Cost) →
        HasTapes (sum_value i advantages (summed_by true [] costs))
        ↔ HasTapes (plus (sum_value i (λ n e. advantages n term.Real) (summed_by false [] costs))
        (sum_value i (λ n e. advantages n term.Random) (summed_by false [] costs))) }
{}

/// Where the last game of a chain shows nothing of a secret, no adversary has against its secrecy in the first game
/// more than the sum for secrecy: an equivalence costs the advantage of the context of its game in both experiments.
/// The sum has tapes where the advantages have in both.
pub fn chains_carry_secrets_back()
    ensures secrecy { (ds : List Declaration) (own : ℕ) (first : Tree) (links : List Link)
        (last : Tree) → IsFileOf ds own first →
        IsChain ds (names_below own) first links last →
        (i : Interpretation) → Satisfies ds i → (one : Bool) (x : ℕ) →
        IsAsked (queries_in ds) (Guesses (Real one x)) →
        IsAsked (queries_in ds) (Guesses (Random one x)) →
        HasValuesIn (setting_of ds i) (Real one x) first →
        HasValuesIn (setting_of ds i) (Random one x) first →
        (a : Adversary) (advantages : Advantages) →
        Prices ds (names_below own) first links
        (λ n e. advantages n term.Real) i (Guesses (Real one x)) a →
        Prices ds (names_below own) first links
        (λ n e. advantages n term.Random) i (Guesses (Random one x)) a →
        AtMost (secrecy (setting_of ds i) one x a last) zero_chance →
        AtMost (secrecy (setting_of ds i) one x a first)
        (sum_value i advantages (summed_by true [] (costs_behind links))) }
    ensures tapes { (ds : List Declaration) (known : ℕ → Bool) (first : Tree) (links : List Link)
        (last : Tree) → IsChain ds known first links last →
        (i : Interpretation) → Satisfies ds i → (advantages : Advantages) →
        HaveTapedPrices (λ n e. advantages n term.Real) links →
        HaveTapedPrices (λ n e. advantages n term.Random) links →
        HasTapes (sum_value i advantages (summed_by true [] (costs_behind links))) }
{}
