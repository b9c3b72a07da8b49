// Laws of runs: which cells a run depends on, where its visits stand, and when two runs are alike.
#![tactic(auto)]

pub mod simulations;

ghost use Rattle.std.specs.Prelude.{◌≡◌, ℕ, Bool, false, true, List, ◌++◌, Option, Some, [], if◌then◌else◌};
ghost use Rattle.std.specs.List.{AllByRecursion, IsDistinct, list_any};
ghost use Rattle.cv_syntax_trees.specs.Tree.{Tree, subtree};
ghost use Rattle.cv_meaning.specs.Tapes.{Tape, Cell, Test_at, cells_of, same_cell};
ghost use Rattle.cv_meaning.specs.Side.{Side, no_side};
ghost use Rattle.cv_meaning.specs.Interpretation.{Setting};
ghost use Rattle.cv_meaning.specs.Memory.{Memory, Indices, Local};
ghost use Rattle.cv_meaning.specs.Inputs.{Input, inputs_of};
ghost use Rattle.cv_meaning.specs.Serving.{Visit, serve};
ghost use Rattle.cv_meaning.specs.Runs.{
  Adversary,
  Answer,
  Mode,
  Move,
  State,
  Taken,
  is_at,
  run_from,
  run_visits,
  taken,
};
ghost use Rattle.cv_meaning.specs.Consulted.{IsListed, consulted};
ghost use Rattle.cv_meaning.specs.Cells.{cells};
ghost use Rattle.cv_meaning.specs.Advantage.{chance_of};
ghost use Rattle.cv_meaning.specs.Experiments.{Experiment, Guesses, mode_of, run, visits_of_run};
ghost use Rattle.cv_meaning_runs.specs.Moments.{moments_of_run, visits_among, cells_of_run};
ghost use Rattle.cv_meaning_runs.specs.Listed.{IsTestable, AreKeysListed, has_no_calls};
ghost use Rattle.cv_meaning_runs.specs.Spots.{
  HasOwnChannels,
  HasOwnNames,
  same_address,
  same_spot,
  spots_of_visits,
  spots_of_inputs,
};
ghost use Rattle.cv_meaning_runs.specs.Simulation.{
  InOrder,
  AreServedAlike,
  AreAlike,
  HaveSameEvents,
  HoldAlike,
  IsSimulation,
  IsGameSimulation,
};
ghost use Rattle.cv_meaning_runs.specs.Replacement.{AreLikeInputs, IsLocalChange, IsReplaced, Process, SameMemory, ServeAlike, IsDecided, if_tree, may_come};
ghost use Rattle.cv_meaning.specs.Replaced.{is_output, replaced};
ghost use Rattle.cv_meaning_runs.specs.Placed.{
  IsPassedDown,
  InputHas,
  VisitHas,
  IsSubtree,
  IsSubtreeOrList,
};
ghost use Rattle.cv_meaning_runs.specs.Agreement.{
  AgreeAt,
  AgreeBut,
  IsLocal,
  SameRun,
  SameUpTo,
  consults,
  visit_consults,
};

/// A run depends on the cells that it consults alone: its coins, and those of its services and tests.
/// Where a context's calls are answered, each answer has to depend on the cells of its call alone, as
/// it does for a game, which has no calls.
pub fn runs_depend_on_consulted_cells()
    ensures same { (g : Setting) (m : Mode) (a : Adversary) (game : Tree) (t u : Tape) →
        IsLocal g.side → AgreeAt (cells_of_run g m a game t) t u → SameRun g m a game t u }
    ensures of_games { IsLocal no_side }
    ensures visits { (g : Setting) (m : Mode) (a : Adversary) (game : Tree) (t : Tape) →
        visits_among (moments_of_run g m a game t) ≡ visits_of_run g m a game t }
{}

/// Where two tapes differ in marked cells alone, the two runs go together up to and with the first
/// moment that consults a marked cell; if there is none, they are one run, and each of the two runs
/// tells whether there is one. Where no cell of a test is marked, the same holds of their visits.
pub fn runs_part_at_marked_cells()
    ensures moments { (g : Setting) (m : Mode) (a : Adversary) (game : Tree)
        (marked : Cell → Bool) (t u : Tape) → IsLocal g.side → AgreeBut a marked t u →
        SameUpTo (consults g m marked) (moments_of_run g m a game t) (moments_of_run g m a game u) }
    ensures visits { (g : Setting) (m : Mode) (a : Adversary) (game : Tree)
        (marked : Cell → Bool) (t u : Tape) → IsLocal g.side → AgreeBut a marked t u →
        ((w : List ℕ) → marked (Test_at w) ≡ false) →
        SameUpTo (visit_consults g marked)
        (visits_of_run g m a game t) (visits_of_run g m a game u) }
    ensures flag { (g : Setting) (m : Mode) (a : Adversary) (game : Tree)
        (marked : Cell → Bool) (t u : Tape) → IsLocal g.side → AgreeBut a marked t u →
        list_any (consults g m marked) (moments_of_run g m a game t)
        ≡ list_any (consults g m marked) (moments_of_run g m a game u) }
    ensures unmarked { (g : Setting) (m : Mode) (a : Adversary) (game : Tree)
        (marked : Cell → Bool) (t u : Tape) → IsLocal g.side → AgreeBut a marked t u →
        list_any (consults g m marked) (moments_of_run g m a game t) ≡ false →
        SameRun g m a game t u }
{}

/// The list of cells of an experiment has each cell that the run on a tape consults: its coins, and the
/// cells of its services and tests, but for keys. So where keys are listed, as in a game without calls,
/// tapes that agree on the list have one run. A variable whose tests tell random values has to be one
/// that has a type where it is bound.
pub fn listed_cells_are_enough()
    ensures listed { (g : Setting) (m : Mode) (a : Adversary) (game : Tree) (t : Tape) →
        IsTestable m game →
        AllByRecursion (IsListed (cells g m a game)) (cells_of_run g m a game t) }
    ensures same { (g : Setting) (m : Mode) (a : Adversary) (game : Tree) (t u : Tape) →
        IsLocal g.side → IsTestable m game → AreKeysListed g m a game t →
        AgreeAt (cells_of (cells g m a game)) t u → SameRun g m a game t u }
    ensures without_calls { (g : Setting) (m : Mode) (a : Adversary) (game : Tree) (t : Tape) →
        has_no_calls game ≡ true → AreKeysListed g m a game t }
{}

/// A fact of a node of a game and its place.
pub trait NodeFact {
    ghost holds: { ℕ → Tree → Type 0 };
}

/// What holds of the game at its root, and passes from each node to its children with their places,
/// holds at each visit of a run and of each available input.
pub fn visits_have_what_is_passed_down<F: NodeFact>()
    ensures visits { (g : Setting) (m : Mode) (a : Adversary) (game : Tree) (t : Tape) →
        IsPassedDown F.holds → F.holds 0 game →
        AllByRecursion (VisitHas F.holds) (visits_of_run g m a game t) }
    ensures inputs { (g : Setting) (m : Mode) (a : Adversary) (game : Tree) (t : Tape) →
        IsPassedDown F.holds → F.holds 0 game →
        AllByRecursion (InputHas F.holds) (run g m a game t).inputs }
{}

/// The tree of each visit is the subtree of the game at the visit's place, or a list of bodies that
/// begins there, and each available input is the input of the game at its place.
pub fn visits_stand_in_the_game()
    ensures visits { (g : Setting) (m : Mode) (a : Adversary) (game : Tree) (t : Tape) →
        AllByRecursion (VisitHas (IsSubtreeOrList game)) (visits_of_run g m a game t) }
    ensures inputs { (g : Setting) (m : Mode) (a : Adversary) (game : Tree) (t : Tape) →
        AllByRecursion (InputHas (IsSubtree game)) (run g m a game t).inputs }
{}

/// No construct is visited twice at the same values of its replication indices, so each copy of an input
/// is served at most once. No two available copies are at one place with the same values, and none was
/// served before. In a game without calls whose restrictions have names of their own, and whose finds
/// have labels of their own, services consult no cell twice.
pub fn no_construct_is_visited_twice()
    ensures spots { (g : Setting) (m : Mode) (a : Adversary) (game : Tree) (t : Tape) →
        IsDistinct same_spot (spots_of_visits (visits_of_run g m a game t)
        ++ spots_of_inputs (run g m a game t).inputs) }
    ensures cells { (g : Setting) (m : Mode) (a : Adversary) (game : Tree) (t : Tape) →
        HasOwnNames game → has_no_calls game ≡ true →
        IsDistinct same_cell (consulted g (visits_of_run g m a game t)) }
{}

/// Where no two available copies answer to the same calls, a call takes the only copy that it may. So it
/// is in each run of a game in which no two inputs have one channel.
pub fn a_call_takes_the_only_copy()
    ensures taken { (c : ℕ) (u : List ℕ) (inputs : List Input) (k : Taken) →
        IsDistinct same_address inputs → taken c u inputs ≡ Some k →
        AllByRecursion (λ i. is_at c u i ≡ false) k.others }
    ensures available { (g : Setting) (m : Mode) (a : Adversary) (game : Tree) (t : Tape) →
        HasOwnChannels game → IsDistinct same_address (run g m a game t).inputs }
{}

/// A relation between the memories of two runs, one between their available inputs, and what is
/// expected of the visits of the first run, at a tape of the first run.
pub trait RunRelation {
    ghost memories: { Tape → Memory → Memory → Type 0 };

    ghost inputs: { Tape → Input → Input → Type 0 };

    ghost expected: { Tape → Visit → Type 0 };
}

/// Where related inputs are served alike and tests tell the same, two runs show the adversary the same
/// answers and end with the same guess, in states that are related: from related states on, and for
/// two games that begin alike. There guesses hold alike, and where related memories have the same events
/// so does each experiment, whatever answers calls. If this is so on every tape, and the lists of cells
/// are equal, experiments that hold alike have one chance.
pub fn simulated_runs_are_alike<R: RunRelation>()
    ensures moves { (g h : Setting) (m n : Mode) (t u : Tape) →
        IsSimulation (R.memories t) (R.inputs t) (R.expected t) g h m n t u →
        (next : List Answer → Option Move) (k : ℕ) (x y : State) →
        AreAlike (R.memories t) (R.inputs t) x y →
        AllByRecursion (R.expected t) (run_visits g m next t k x) →
        AreAlike (R.memories t) (R.inputs t) (run_from g m next t k x) (run_from h n next u k y) }
    ensures games { (a : Adversary) (g h : Setting) (m n : Mode) (x y : Tree) (t u : Tape) →
        IsGameSimulation (R.memories t) (R.inputs t) (R.expected t) a g h m n x y t u →
        AreAlike (R.memories t) (R.inputs t) (run g m a x t) (run h n a y u) }
    ensures guesses { (t : Tape) (g h : Setting) (m n : Mode) →
        HoldAlike (R.memories t) (R.inputs t) g h (Guesses m) (Guesses n) }
    ensures experiments { (t : Tape) → HaveSameEvents (R.memories t) →
        (g : Setting) (s : Side) (x : Experiment) →
        HoldAlike (R.memories t) (R.inputs t) (record g { side = s }) g x x }
    ensures chances { (a : Adversary) (g h : Setting) (x y : Experiment) (p q : Tree) →
        ((t : Tape) → HoldAlike (R.memories t) (R.inputs t) g h x y) →
        ((t : Tape) → IsGameSimulation (R.memories t) (R.inputs t) (R.expected t) a g h
        (mode_of x) (mode_of y) p q t t) →
        cells g (mode_of x) a p ≡ cells h (mode_of y) a q →
        chance_of g x a p ≡ chance_of h y a q }
{}

/// The subtree at a place where a service may come is replaced by another.
pub fn replaced_where_a_service_comes()
    ensures { (old new game : Tree) (p : ℕ) →
        may_come Process game p ≡ true → subtree game p ≡ Some old →
        IsReplaced old new p Process 0 game (replaced game p new) }
{}

/// A subtree serves alike at any two places, and opens alike inputs there. An output process is served in
/// one way, whatever the body's number and the values that are handed to it, and opens no input itself.
pub fn subtrees_serve_alike_anywhere()
    ensures served { (g : Setting) (t : Tape) (old new : Tree) (place : ℕ)
        (b : Tree) (p q k : ℕ) (vs : List ℕ) (s : Local) →
        AreServedAlike SameMemory (AreLikeInputs old new place)
        (serve g t b p k vs s) (serve g t b q k vs s) }
    ensures opened { (g : Setting) (old new : Tree) (place : ℕ)
        (b : Tree) (p q : ℕ) (at : Indices) →
        InOrder (AreLikeInputs old new place) (inputs_of g b p at) (inputs_of g b q at) }
    ensures begins { (g : Setting) (t : Tape) (b : Tree) (p k : ℕ) (vs : List ℕ) (s : Local) →
        is_output b ≡ true → serve g t b p k vs s ≡ serve g t b p 0 [] s }
    ensures opens { (g : Setting) (b : Tree) (p : ℕ) (at : Indices) →
        is_output b ≡ true → inputs_of g b p at ≡ [] }
{}

/// An `if` whose condition is found to hold, or not to hold, at each visit at its place serves as the
/// body that it takes: a first user of the law of local changes.
pub fn a_decided_if_serves_as_its_body()
    ensures { (g : Setting) (t : Tape) (condition then_body else_body : Tree)
        (place : ℕ) (holds : Bool) → is_output (if holds then then_body else else_body) ≡ true →
        ServeAlike (IsDecided g place condition then_body else_body holds) g t
        (if_tree condition then_body else_body)
        (if holds then then_body else else_body) place }
{}

/// What is expected of the visits of a run on a tape.
pub trait Expectation {
    ghost visits: { Tape → Visit → Type 0 };
}

/// A subtree of a game, at a place where a service may come to it, is replaced by another that serves
/// alike there wherever the visits are as expected: with the same reply, the same memory after it, and
/// alike inputs. If the visits of the run are as expected, the run keeps its answers, memory and guess;
/// and if that is so on every tape, and the lists of cells are equal, the chances are equal.
pub fn local_changes_keep_runs<E: Expectation>()
    ensures runs { (a : Adversary) (g : Setting) (m : Mode) (old new : Tree) (p : ℕ)
        (game next : Tree) (t : Tape) → IsLocalChange (E.visits t) a g m old new p game next t →
        AreAlike SameMemory (AreLikeInputs old new p) (run g m a game t) (run g m a next t) }
    ensures chances { (x : Experiment) (a : Adversary) (g : Setting) (old new : Tree) (p : ℕ)
        (game next : Tree) →
        ((t : Tape) → IsLocalChange (E.visits t) a g (mode_of x) old new p game next t) →
        cells g (mode_of x) a game ≡ cells g (mode_of x) a next →
        chance_of g x a game ≡ chance_of g x a next }
{}
