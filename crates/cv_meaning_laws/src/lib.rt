// Laws of the meaning of the calculus, and cases that are computed from its definitions.
#![tactic(auto)]

pub mod adequacy;

ghost use Rattle.std.specs.Prelude.{◌≡◌, ℕ, ◌-◌, Bool, List, [], ◌∷◌, map, true, false};
ghost use Rattle.std.specs.List.{AllByRecursion, IsDistinct};
ghost use Rattle.cv_syntax_trees.specs.declared.head.Head.TheVariants.{Secret, SecretOnce};
ghost use Rattle.cv_syntax_trees.specs.Tree.{Tree, Node, chain, lone, reads_only};
ghost use Rattle.cv_meaning.specs.Tapes.{Tape, same_cell, cells_of};
ghost use Rattle.cv_meaning.specs.Side.{Side};
ghost use Rattle.cv_meaning.specs.Interpretation.{Setting};
ghost use Rattle.cv_meaning.specs.Memory.{Happened, Indices, Store};
ghost use Rattle.cv_meaning.specs.Terms.{value, values};
ghost use Rattle.cv_meaning.specs.Candidates.{candidates};
ghost use Rattle.cv_meaning.specs.Inputs.{inputs_of};
ghost use Rattle.cv_meaning_laws.specs.Agreement.{AgreeOn};
ghost use Rattle.cv_meaning.specs.Satisfies.{Satisfies};
ghost use Rattle.cv_meaning.specs.Runs.{Adversary, Events, Mode, Real, Random, State};
ghost use Rattle.cv_meaning.specs.Consulted.{consulted, IsListed};
ghost use Rattle.cv_meaning.specs.Cells.{cells};
ghost use Rattle.cv_meaning.specs.Experiments.{Experiment, Guesses, holds_in, visits_of_run};
ghost use Rattle.cv_meaning.specs.Correspondences.{Correspondence, RightEvent, alternatives_of, broken, correspondence_of};
ghost use Rattle.cv_meaning.specs.Chances.{IsFraction};
ghost use Rattle.cv_meaning.specs.Advantage.{IsAsked, advantage, chance_of};
ghost use Rattle.cv_syntax_trees.specs.Builders.{leaf};
ghost use Rattle.cv_meaning_laws.specs.Worked.{sized, adversary, colliding_game, game_after_collision, never_query, sends_twice, choosing_game, calls_copy, own_index_game, calls_once, two_events_game, authentication_query, some_query, right_atom, one_of, query_with, two_ways_game, sends_pair, left_twice, replay_game, replays, compares, sessions_game, tests_sessions, data_file, declared_file, with_function, interpretation_of_file, context_game, context_setting, constant_query};

/// No chance and no advantage is above one.
pub fn advantage_is_a_fraction()
    ensures chance { (g : Setting) (x : Experiment) (a : Adversary) (game : Tree) →
        IsFraction (chance_of g x a game) }
    ensures advantage { (g : Setting) (query : Tree) (a : Adversary) (game : Tree) →
        IsFraction (advantage g query a game) }
{}

/// No cell of an experiment stands twice in its list, and each cell that the run consults on a tape is
/// in the list. A key's cell is left to the rules of scope.
pub fn cells_are_complete()
    ensures distinct { (g : Setting) (m : Mode) (a : Adversary) (game : Tree) →
        IsDistinct same_cell (cells_of (cells g m a game)) }
    ensures listed { (g : Setting) (m : Mode) (a : Adversary) (game : Tree) (t : Tape) →
        AllByRecursion (IsListed (cells g m a game)) (consulted g (visits_of_run g m a game t)) }
{}

/// Nothing below the side looks at what answers calls: not the values of terms, the candidates of a find,
/// the inputs of a process, and whether a list of events breaks a query or an experiment holds at the end.
pub fn nothing_below_looks_at_the_side()
    ensures values { (g : Setting) (s : Side) (at : Indices) (m : Store) (term : Tree) →
        value (record g { side = s }) at m term ≡ value g at m term }
    ensures lists { (g : Setting) (s : Side) (at : Indices) (m : Store) (terms : Tree) →
        values (record g { side = s }) at m terms ≡ values g at m terms }
    ensures candidates { (g : Setting) (s : Side) (at : Indices) (m : Store) (branches : Tree) →
        candidates (record g { side = s }) at m branches ≡ candidates g at m branches }
    ensures inputs { (g : Setting) (s : Side) (process : Tree) (place : ℕ) (at : Indices) →
        inputs_of (record g { side = s }) process place at ≡ inputs_of g process place at }
    ensures broken { (g : Setting) (s : Side) (q : Correspondence) (events : List Happened) →
        broken (record g { side = s }) q events ≡ broken g q events }
    ensures experiments { (g : Setting) (s : Side) (x : Experiment) (last : State) →
        holds_in (record g { side = s }) x last ≡ holds_in g x last }
{}

/// The value of a term depends on the variables that it reads alone.
pub fn terms_read_their_variables_alone()
    ensures values { (g : Setting) (at : Indices) (on : ℕ → Bool) (m n : Store) → AgreeOn on m n →
        (term : Tree) → reads_only on term ≡ true → value g at m term ≡ value g at n term }
    ensures lists { (g : Setting) (at : Indices) (on : ℕ → Bool) (m n : Store) → AgreeOn on m n →
        (terms : Tree) → reads_only on terms ≡ true → values g at m terms ≡ values g at n terms }
{}

/// Two nonces of size 2 are equal on 8 of 16 tapes; where their indices are asked to be equal and
/// apart, never.
pub fn collision_of_two()
    ensures before { advantage (sized 2 2 2) never_query (adversary 3 sends_twice) colliding_game
        ≡ record { good = 8; all = 16 } }
    ensures after { advantage (sized 2 2 2) never_query (adversary 3 sends_twice) game_after_collision
        ≡ record { good = 0; all = 16 } }
{}

/// A cell of three values chooses the second of two candidates on one value of three, and an index
/// variable is not assigned in its own `defined` list.
pub fn worked_finds()
    ensures first { advantage (sized 1 2 3) never_query (adversary 1 (calls_copy 0)) choosing_game
        ≡ record { good = 6; all = 9 } }
    ensures second { advantage (sized 1 2 3) never_query (adversary 1 (calls_copy 1)) choosing_game
        ≡ record { good = 3; all = 9 } }
    ensures own { advantage (sized 1 2 2) never_query (adversary 1 calls_once) own_index_game
        ≡ record { good = 0; all = 2 } }
{}

/// The correspondence of a query's tree. Then a right event above the left one, below it, and missing;
/// one with another variable; and a replay, for the plain and the injective form.
pub fn worked_correspondences()
    ensures reading { correspondence_of some_query ≡ record {
      inj = false;
      event = 12;
      variables = 1 ∷ [];
      others = (2, 5) ∷ [];
      alternatives = ((1, RightEvent false 11 (chain (leaf 2 ∷ []))) ∷ []) ∷ [];
    } }

    ensures above { advantage (sized 3 1 1) (authentication_query false)
        (adversary 2 calls_once) (two_events_game 11 12) ≡ record { good = 0; all = 3 } }
    ensures below { advantage (sized 3 1 1) (authentication_query false)
        (adversary 2 calls_once) (two_events_game 12 11) ≡ record { good = 0; all = 3 } }
    ensures missing { advantage (sized 3 1 1) (authentication_query false)
        (adversary 2 calls_once) (two_events_game 12 13) ≡ record { good = 3; all = 3 } }

    ensures other { advantage (sized 3 1 1) some_query
        (adversary 2 calls_once) (two_events_game 11 12) ≡ record { good = 0; all = 3 } }
    ensures no_other { advantage (sized 3 1 1) some_query
        (adversary 2 calls_once) (two_events_game 12 13) ≡ record { good = 3; all = 3 } }

    ensures plain { advantage (sized 2 2 1) (authentication_query false)
        (adversary 3 replays) replay_game ≡ record { good = 0; all = 2 } }
    ensures injective { advantage (sized 2 2 1) (authentication_query true)
        (adversary 3 replays) replay_game ≡ record { good = 2; all = 2 } }
{}

/// The alternatives of `||` and of `&&` over it, in order, with the numbers of their atoms. Where one right
/// event comes before the left one on one way and another one on the other way, each way has its
/// alternative, in the injective form too, and the first right event alone is missing on the second way. One
/// right event isn't enough for two left ones, unless the text has it twice: the atoms are told apart by
/// their numbers.
pub fn worked_alternatives()
    ensures either { alternatives_of (one_of true 11 13)
        ≡ ((1, RightEvent true 11 (chain (leaf 1 ∷ []))) ∷ [])
        ∷ ((2, RightEvent true 13 (chain (leaf 1 ∷ []))) ∷ []) ∷ [] }
    ensures both { map (map (λ c. c.0))
        (alternatives_of (chain (one_of false 11 13 ∷ one_of false 11 13 ∷ [])))
        ≡ (1 ∷ 3 ∷ []) ∷ (1 ∷ 4 ∷ []) ∷ (2 ∷ 3 ∷ []) ∷ (2 ∷ 4 ∷ []) ∷ [] }

    ensures first_way { advantage (sized 2 1 1) (query_with false (one_of false 11 13))
        (adversary 2 (sends_pair 0 0)) two_ways_game ≡ record { good = 0; all = 1 } }
    ensures second_way { advantage (sized 2 1 1) (query_with false (one_of false 11 13))
        (adversary 2 (sends_pair 0 1)) two_ways_game ≡ record { good = 0; all = 1 } }
    ensures missing { advantage (sized 2 1 1) (query_with false (chain (right_atom false 11 ∷ [])))
        (adversary 2 (sends_pair 0 1)) two_ways_game ≡ record { good = 1; all = 1 } }
    ensures first_injective { advantage (sized 2 1 1) (query_with true (one_of true 11 13))
        (adversary 2 (sends_pair 0 0)) two_ways_game ≡ record { good = 0; all = 1 } }
    ensures second_injective { advantage (sized 2 1 1) (query_with true (one_of true 11 13))
        (adversary 2 (sends_pair 0 1)) two_ways_game ≡ record { good = 0; all = 1 } }

    ensures shared { broken (sized 2 1 1)
        (correspondence_of (query_with true (one_of true 11 13))) left_twice ≡ true }
    ensures by_number { broken (sized 2 1 1)
        (correspondence_of (query_with true (one_of true 11 11))) left_twice ≡ false }
{}

/// Secrecy of a nonce that was sent, and of the nonces of two sessions that were not: tests of both, two
/// tests of one, and two tests of one where one test is answered.
pub fn worked_secrecy()
    ensures real { chance_of (sized 3 1 1) (Guesses (Real false 4))
        (adversary 3 compares) (two_events_game 11 12) ≡ record { good = 9; all = 9 } }
    ensures random { chance_of (sized 3 1 1) (Guesses (Random false 4))
        (adversary 3 compares) (two_events_game 11 12) ≡ record { good = 3; all = 9 } }
    ensures sent { advantage (sized 3 1 1) (lone (Secret 4))
        (adversary 3 compares) (two_events_game 11 12) ≡ record { good = 54; all = 81 } }
    ensures sent_once { advantage (sized 3 1 1) (lone (SecretOnce 4))
        (adversary 3 compares) (two_events_game 11 12) ≡ record { good = 54; all = 81 } }

    ensures two_sessions { chance_of (sized 2 2 1) (Guesses (Random false 4))
        (adversary 5 (tests_sessions 1)) sessions_game ≡ record { good = 8; all = 16 } }
    ensures tested_twice { chance_of (sized 2 2 1) (Guesses (Random false 4))
        (adversary 5 (tests_sessions 0)) sessions_game ≡ record { good = 16; all = 16 } }
    ensures one_test { chance_of (sized 2 2 1) (Guesses (Random true 4))
        (adversary 5 (tests_sessions 0)) sessions_game ≡ record { good = 0; all = 16 } }
    ensures secret { advantage (sized 2 2 1) (lone (Secret 4))
        (adversary 5 (tests_sessions 1)) sessions_game ≡ record { good = 0; all = 256 } }
{}

/// A query of secrecy asks for the real and the random experiment of its variable, in its own form, and no
/// query asks for guesses in the mode of events.
pub fn worked_experiments()
    ensures real { (x : ℕ) → IsAsked (lone (Secret x) ∷ []) (Guesses (Real false x)) }
    ensures random { (x : ℕ) → IsAsked (lone (Secret x) ∷ []) (Guesses (Random false x)) }
    ensures other_form { (x : ℕ) → ¬ IsAsked (lone (Secret x) ∷ []) (Guesses (Real true x)) }
    ensures events { (queries : List Tree) → ¬ IsAsked queries (Guesses Events) }
{}

/// A call is answered by the side, from the key at the call's key tuple and a cell of the call.
pub fn worked_context()
    ensures { advantage context_setting constant_query
        (adversary 1 calls_once) context_game ≡ record { good = 2; all = 4 } }
{}

/// An interpretation satisfies a file with a parameter, a type, an injective function, a constant and an
/// equation. One by which the function is not injective does not, nor one by which the equation is false.
pub fn worked_declarations()
    ensures satisfied { Satisfies declared_file interpretation_of_file }
    ensures not_injective { ¬ Satisfies data_file (with_function (λ v. 0)) }
    ensures equation_false { ¬ Satisfies declared_file (with_function (λ v. 1 - v)) }
{}
