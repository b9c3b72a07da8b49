// Laws of the run of a context with the right side beside the run of its next game.

ghost use Rattle.std.specs.Prelude.{◌≡◌, ℕ, List, [], ◌∷◌};
ghost use Rattle.std.specs.List.{AllByRecursion};
ghost use Rattle.cv_syntax_trees.specs.Tree.{Tree};
ghost use Rattle.cv_meaning.specs.Side.{Arrays, OracleCall};
ghost use Rattle.cv_meaning.specs.Memory.{Happened, Indices, Store, tuple};
ghost use Rattle.cv_meaning.specs.Terms.{values};
ghost use Rattle.cv_meaning.specs.Inputs.{inputs_of};
ghost use Rattle.cv_meaning.specs.Serving.{serve, visits};
ghost use Rattle.cv_meaning.specs.Runs.{Adversary, Mode};
ghost use Rattle.cv_meaning.specs.Experiments.{Experiment, holds_on, mode_of, run};
ghost use Rattle.cv_meaning_runs.specs.Simulation.{AreAlike, AreServedAlike, InOrder};
ghost use Rattle.cv_meaning.specs.contexts.Groups.{Function};
ghost use Rattle.cv_meaning.specs.contexts.Bodies.{reply};
ghost use Rattle.cv_meaning.specs.contexts.Inlined.{Caller, TheKey, inlined_call};
ghost use Rattle.cv_inline.specs.bodies.Related.{MadeUnder};
ghost use Rattle.cv_inline.specs.NextGame.{callers_of, next_in};
ghost use Rattle.cv_inline_laws.specs.runs.Texts.{
  AreRelatedIn,
  IsExpectedCall,
  IsFineCalling,
  IsServedAs,
  Text,
  oracles_in,
};
ghost use Rattle.cv_inline_laws.specs.runs.Contexts.{
  AreFineInputs,
  AreLikeInputs,
  AreLikeTapes,
  AreRelatedMemories,
  IsExpected,
  IsFineContext,
  IsTextOf,
  context_setting,
};

/// Where the stores of a context's run and of its next game's are related, whatever the call, and the context
/// comes to a call as is expected, the arguments' `let` and the right body in the next game come to what
/// follows with a result whose value is the side's reply to the call, and there the stores are related again.
pub fn a_call_is_served_in_the_next_game()
    ensures { (T : Text) (caller : Caller) (at : Indices) (made : MadeUnder) (key : List ℕ)
        (es : List Happened) (br : Arrays) (m : Store) (ar : Arrays) (n : Store)
        (follows : Tree → Tree) → AreRelatedIn T made m ar n →
        (expected : IsExpectedCall T caller m at key) → (f : Function) (arguments : Tree) →
        IsFineCalling T caller f at expected.here arguments →
        (place branch : ℕ) (chosen : List ℕ) →
        IsServedAs T caller at made key es br m n follows
        (reply (oracles_in T) T.side_tape ar
        (record {
          key = key;
          number = record { tuple = tuple at; site = caller.number };
          arguments = values T.g at m arguments;
        }))
        (serve T.g T.game_tape (inlined_call T.calls.drawn (callers_of T.calls.callings) caller
        ((T.calls.group.key.0, TheKey) ∷ []) f.arguments arguments f.body follows)
        place branch chosen
        (record { indices = at; memory = record { store = n; events = es; arrays = br } })) }
{}

/// A service in a context, with any number of calls before a statement, and the service of what stands in its place
/// in the next game, are alike: from related stores on, on tapes that are alike, and where the context's visits
/// are as is expected, they give one reply, related memories, and inputs of which the second is in the next
/// game what the first is in the context.
pub fn a_service_in_the_next_game_is_alike()
    ensures served { (T : Text) (context : Tree) (place next_place k : ℕ) (vs : List ℕ)
        (at : Indices) (es : List Happened) (m n : Store) (ar br : Arrays) (made : MadeUnder) →
        AreLikeTapes T → IsFineContext T [] context → AreRelatedIn T made m ar n →
        AllByRecursion (IsExpected T) (visits (context_setting T) T.side_tape context place k vs
        (record { indices = at; memory = record { store = m; events = es; arrays = ar } })) →
        AreServedAlike (AreRelatedMemories T) (AreLikeInputs T)
        (serve (context_setting T) T.side_tape context place k vs
        (record { indices = at; memory = record { store = m; events = es; arrays = ar } }))
        (serve T.g T.game_tape (next_in T.calls [] context) next_place k vs
        (record { indices = at; memory = record { store = n; events = es; arrays = br } })) }
    ensures opened { (T : Text) (context : Tree) (place next_place : ℕ) (at : Indices) →
        AreLikeTapes T → AreFineInputs T context →
        InOrder (AreLikeInputs T) (inputs_of (context_setting T) context place at)
        (inputs_of T.g (next_in T.calls [] context) next_place at) }
{}

/// The run of a context with the right side and that of its next game, on tapes that are alike, show the
/// adversary the same, whatever the adversary, where the context's visits are as is expected, with any number of
/// calls before a statement. So each experiment holds in both or in none.
pub fn a_context_runs_as_its_next_game()
    ensures runs { (T : Text) (m : Mode) (a : Adversary) (context : Tree) →
        IsTextOf T m a context →
        AreAlike (AreRelatedMemories T) (AreLikeInputs T)
        (run (context_setting T) m a context T.side_tape)
        (run T.g m a (next_in T.calls [] context) T.game_tape) }
    ensures tests { (T : Text) (x : Experiment) (a : Adversary) (context : Tree) →
        IsTextOf T (mode_of x) a context →
        holds_on (context_setting T) x a context T.side_tape
        ≡ holds_on T.g x a (next_in T.calls [] context) T.game_tape }
{}
