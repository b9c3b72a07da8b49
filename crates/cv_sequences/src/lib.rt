// The laws of accepted steps and of sequences of games: what an accepted file gives them, costs, secrecy, and bounds that are carried back.
#![tactic(auto)]

pub mod bounds;
pub mod costs;
pub mod files;
pub mod secrets;
pub mod soundness;

ghost use Rattle.std.specs.Prelude.{◌≡◌, ℕ, Bool, false, true, List, []};
ghost use Rattle.cv_syntax_trees.specs.Declarations.{Declaration};
ghost use Rattle.cv_syntax_trees.specs.Tree.{Tree};
ghost use Rattle.cv_meaning.specs.Interpretation.{Interpretation, setting_of};
ghost use Rattle.cv_meaning.specs.Satisfies.{Satisfies};
ghost use Rattle.cv_meaning.specs.Runs.{Adversary};
ghost use Rattle.cv_meaning.specs.Experiments.{Experiment, mode_of};
ghost use Rattle.cv_meaning.specs.Chances.{AtMost, distance, zero_chance};
ghost use Rattle.cv_meaning_chances.specs.Fractions.{HasTapes};
ghost use Rattle.cv_meaning.specs.Advantage.{IsAsked, chance_of};
ghost use Rattle.cv_steps.specs.values.Values.{Advantages, sum_value};
ghost use Rattle.cv_meaning.specs.Queries.{queries_in};
ghost use Rattle.cv_query_form.specs.Rules.{AreAsked};
ghost use Rattle.cv_scope_rules.specs.Phrases.{Inputs, is_phrase};
ghost use Rattle.cv_scope_rules.specs.typing.Parts.{IsTypedFile};
ghost use Rattle.cv_typing_runs.specs.Games.{HasConstants, HasDeclaredSorts};
ghost use Rattle.cv_scene.specs.Scenes.{KnowsQueries, Scene};
ghost use Rattle.cv_derive_laws.specs.stores.Holding.{IsReady};
ghost use Rattle.cv_derive_laws.specs.stores.Soundness.{DerivationsHold, DerivedBodiesAreUnreached};
ghost use Rattle.cv_derive_laws.specs.stores.Steps.{AreSound, IsSound};
ghost use Rattle.cv_steps.specs.Steps.{Cost, Step};
ghost use Rattle.cv_steps.specs.Judgements.{Accepted, judgement_of};
ghost use Rattle.cv_derive_laws.specs.stores.Costs.{CostsAtMost};
ghost use Rattle.cv_steps.specs.Sequences.{IsSequence, Passage, scene};
ghost use Rattle.cv_steps.specs.Asked.{AskForNoIndex};
ghost use Rattle.cv_sequences.specs.Chains.{HaveTapedPrices, IsChain, IsClose, IsFileOf, IsLink, Link, Prices, costs_behind, names_below, summed};
ghost use Rattle.cv_sequences.specs.Sequences.{added_up, costs_of};
ghost use Rattle.cv_meaning_chances.specs.values.Values.{HasValuesIn};

/// A sound step that is accepted in a game leads to one with all that the laws of runs ask for, and chances stay as they were up
/// to its cost, where derivations are sound.
pub fn accepted_steps_are_within_their_costs()
    ensures ready { (s : Scene) (step : Step) (next : Tree) (cost : Cost) → IsSound step →
        HasConstants s.declarations → IsReady s.declarations s.game →
        judgement_of s step ≡ Accepted next cost → IsReady s.declarations next }
    ensures chances { (s : Scene) (step : Step) (next : Tree) (cost : Cost) → IsSound step →
        IsReady s.declarations s.game → DerivationsHold s.declarations →
        DerivedBodiesAreUnreached s.declarations → KnowsQueries s →
        judgement_of s step ≡ Accepted next cost →
        CostsAtMost s.declarations s.game next cost }
{}

/// Each game of a sequence of sound steps has all that the laws of runs ask for, where the first has it. Where derivations
/// are sound and the choices of the first game have values, no adversary tells the last game from the first, in an
/// experiment for which a query asks, by more than the sum of the costs.
pub fn sequences_are_within_their_sums()
    ensures games { (ds : List Declaration) (known : ℕ → Bool) (first : Tree)
        (passages : List Passage) (last : Tree) → IsReady ds first → HasConstants ds →
        AreSound passages → IsSequence ds known first passages last → IsReady ds last }
    ensures sums { (ds : List Declaration) (known : ℕ → Bool) (first : Tree)
        (passages : List Passage) (last : Tree) → IsReady ds first → HasConstants ds →
        DerivationsHold ds → DerivedBodiesAreUnreached ds →
        KnowsQueries (scene ds known first) → AreSound passages →
        IsSequence ds known first passages last →
        (i : Interpretation) → Satisfies ds i → (x : Experiment) → IsAsked (queries_in ds) x →
        HasValuesIn (setting_of ds i) (mode_of x) first →
        (a : Adversary) (advantages : Advantages) →
        AtMost (distance (chance_of (setting_of ds i) x a first)
        (chance_of (setting_of ds i) x a last))
        (sum_value i advantages (added_up [] (costs_of passages) false)) }
{}

/// So an experiment for which a query asks, and that has no chance in the last game, has a chance in the first that is
/// at most the sum, whose value has tapes wherever types have values.
pub fn chances_are_carried_back()
    ensures chance { (ds : List Declaration) (known : ℕ → Bool) (first : Tree)
        (passages : List Passage) (last : Tree) → IsReady ds first → HasConstants ds →
        DerivationsHold ds → DerivedBodiesAreUnreached ds →
        KnowsQueries (scene ds known first) → AreSound passages →
        IsSequence ds known first passages last →
        (i : Interpretation) → Satisfies ds i → (x : Experiment) → IsAsked (queries_in ds) x →
        HasValuesIn (setting_of ds i) (mode_of x) first →
        (a : Adversary) (advantages : Advantages) →
        AtMost (chance_of (setting_of ds i) x a last) zero_chance →
        AtMost (chance_of (setting_of ds i) x a first)
        (sum_value i advantages (added_up [] (costs_of passages) false)) }
    ensures tapes { (ds : List Declaration) (known : ℕ → Bool) (first : Tree)
        (passages : List Passage) (last : Tree) → AreSound passages →
        IsSequence ds known first passages last →
        (i : Interpretation) → Satisfies ds i → (advantages : Advantages) →
        HasTapes (sum_value i advantages (added_up [] (costs_of passages) false)) }
{}

/// In a game of the grammar that is typed with its file, whose types and parameters are declared, and whose queries
/// may be asked, each choice has a value, and so has each test that an asked experiment makes: no query asks for
/// the secrecy of an index variable.
pub fn declared_games_have_values()
    ensures { (ds : List Declaration) (game : Tree) → is_phrase Inputs game ≡ true →
        IsTypedFile ds game → HasDeclaredSorts ds game → AreAsked game (queries_in ds) →
        (i : Interpretation) → Satisfies ds i → (x : Experiment) → IsAsked (queries_in ds) x →
        HasValuesIn (setting_of ds i) (mode_of x) game }
{}

/// Each game of a chain has all that the laws of runs and of cryptographic steps ask for, where the first is that of an
/// accepted file.
pub fn chains_lead_to_ready_games()
    ensures ready { (ds : List Declaration) (own : ℕ) (first : Tree) (links : List Link)
        (last : Tree) → IsFileOf ds own first →
        IsChain ds (names_below own) first links last → IsReady ds last }
    ensures unasked { (ds : List Declaration) (own : ℕ) (first : Tree) (links : List Link)
        (last : Tree) → IsFileOf ds own first →
        IsChain ds (names_below own) first links last →
        AskForNoIndex (scene ds (names_below own) last) }
{}

/// Behind a chain each link is within its own cost: no adversary tells its game from the one before it, in an experiment
/// for which a query asks, by more than the value of its cost. By a rule that costs nothing both have one chance; by an
/// equivalence they have those of the context of the game before it, with the left and with the right side.
pub fn links_are_within_their_costs()
    ensures { (ds : List Declaration) (own : ℕ) (first : Tree) (links : List Link)
        (game : Tree) (l : Link) → IsFileOf ds own first →
        IsChain ds (names_below own) first links game →
        IsLink (scene ds (names_below own) game) l →
        (i : Interpretation) → Satisfies ds i → (x : Experiment) → IsAsked (queries_in ds) x →
        HasValuesIn (setting_of ds i) (mode_of x) first →
        (a : Adversary) → IsClose (scene ds (names_below own) game) i x a l }
{}

/// So no adversary tells the last game from the first, in an experiment for which a query asks, by more than the sum of
/// the costs, where an equivalence costs the advantage of the context of its game.
pub fn chains_are_within_their_sums()
    ensures { (ds : List Declaration) (own : ℕ) (first : Tree) (links : List Link)
        (last : Tree) → IsFileOf ds own first →
        IsChain ds (names_below own) first links last →
        (i : Interpretation) → Satisfies ds i → (x : Experiment) → IsAsked (queries_in ds) x →
        HasValuesIn (setting_of ds i) (mode_of x) first →
        (a : Adversary) (advantages : Advantages) →
        Prices ds (names_below own) first links advantages i x a →
        AtMost (distance (chance_of (setting_of ds i) x a first)
        (chance_of (setting_of ds i) x a last))
        (sum_value i advantages (summed [] (costs_behind links))) }
{}

/// So an experiment without a chance in the last game has in the first a chance that is at most the sum. The sum has
/// tapes where the advantages have.
pub fn chains_carry_chances_back()
    ensures chance { (ds : List Declaration) (own : ℕ) (first : Tree) (links : List Link)
        (last : Tree) → IsFileOf ds own first →
        IsChain ds (names_below own) first links last →
        (i : Interpretation) → Satisfies ds i → (x : Experiment) → IsAsked (queries_in ds) x →
        HasValuesIn (setting_of ds i) (mode_of x) first →
        (a : Adversary) (advantages : Advantages) →
        Prices ds (names_below own) first links advantages i x a →
        AtMost (chance_of (setting_of ds i) x a last) zero_chance →
        AtMost (chance_of (setting_of ds i) x a first)
        (sum_value i advantages (summed [] (costs_behind links))) }
    ensures tapes { (ds : List Declaration) (known : ℕ → Bool) (first : Tree) (links : List Link)
        (last : Tree) → IsChain ds known first links last →
        (i : Interpretation) → Satisfies ds i → (advantages : Advantages) →
        HaveTapedPrices advantages links →
        HasTapes (sum_value i advantages (summed [] (costs_behind links))) }
{}
