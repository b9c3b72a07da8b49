// Laws of well-formed games and contexts: single assignment, and what holds at a visited place.
#![tactic(auto)]

ghost use Rattle.std.specs.Prelude.{◌≡◌, ℕ, List, [], ◌∷◌, false, true};
ghost use Rattle.std.specs.List.{AllByRecursion, IsDistinct};
ghost use Rattle.cv_syntax_trees.specs.Declarations.{Declaration};
ghost use Rattle.cv_syntax_trees.specs.Tree.{Tree};
ghost use Rattle.cv_meaning.specs.Tapes.{Tape, blank, same_cell};
ghost use Rattle.cv_meaning.specs.Interpretation.{Setting, is_constant_of};
ghost use Rattle.cv_meaning.specs.Memory.{Memory};
ghost use Rattle.cv_meaning.specs.Runs.{Adversary, Mode};
ghost use Rattle.cv_meaning.specs.Experiments.{Breaks, holds_on, run, visits_of_run};
ghost use Rattle.cv_meaning.specs.Consulted.{consulted};
ghost use Rattle.cv_meaning_runs.specs.Listed.{AreKeysListed, has_no_calls};
ghost use Rattle.cv_meaning_runs.specs.Spots.{same_address};
ghost use Rattle.cv_scope_rules.specs.Branches.{Pairs};
ghost use Rattle.cv_scope_rules.specs.Scope.{IsScoped};
ghost use Rattle.cv_scope_rules.specs.Worked.{cell_found, constants, finds};
ghost use Rattle.cv_scope_runs.specs.Worked.{
  begun_query,
  sessions,
  told,
  keyed,
  assigned_again,
  constant_captured,
  two_values,
  caller,
};
ghost use Rattle.cv_scope_rules.specs.Phrases.{
  Inputs,
  is_phrase,
  is_plain,
  binds_none,
  IsWellFormed,
  IsWellFormedContext,
  HasConstantsOf,
};
ghost use Rattle.cv_scope_runs.specs.Indexed.{
  StateHasValuesBelow,
  VisitHasValuesBelow,
  is_index_below,
};
ghost use Rattle.cv_scope_runs.specs.Keys.{HasOwnCells, calls_read_keys};
ghost use Rattle.cv_scope_runs.specs.Reads.{VisitReadsAssigned};
ghost use Rattle.cv_scope_rules.specs.Made.{MakeApart, AssignsNew, OwnUnassigned};
ghost use Rattle.cv_scope_runs.specs.Promises.{
  VisitsGrow,
  GrowsToEnd,
  PlaceHolds,
  InputHolds,
  CandidatesHold,
  CellsHold,
  OneDefinitionHolds,
  VisitCellsHold,
};

/// A well-formed game is a well-formed context, and a well-formed context with no key and no call is a
/// well-formed game. So what is said of contexts holds of games.
pub fn games_are_contexts()
    ensures games { (ds : List Declaration) (game : Tree) → IsWellFormed ds game →
        IsWellFormedContext ds game }
    ensures contexts { (ds : List Declaration) (context : Tree) →
        IsWellFormedContext ds context → is_plain context ≡ true → IsWellFormed ds context }
{}

/// At each visit of a run of a well-formed game or context, each value that the construct reads has been
/// assigned, or is a constant's or a current index's: a call reads its key and its arguments. In the list
/// and the condition of a branch, at each tuple that the `find` tries, the branch's index variables have
/// the tuple's values; there the list is read up to its first cell that is not assigned, and the condition
/// where the whole list is assigned.
pub fn values_are_assigned_before_they_are_read()
    ensures { (ds : List Declaration) (g : Setting) (m : Mode) (a : Adversary) (game : Tree)
        (t : Tape) → HasConstantsOf ds g → IsWellFormedContext ds game →
        AllByRecursion (VisitReadsAssigned g) (visits_of_run g m a game t) }
{}

/// In a run of a well-formed game or context no two visits assign one cell of a variable, serve one copy of
/// a channel's input, or choose at one copy of a `find`; what a visit assigns was not assigned before; and
/// at a visited `find` the index variables of its branches are not assigned at its copy, so whether a
/// branch is taken or not. In a run of a game no cell of the tape is consulted twice. (That no construct is
/// visited twice at one copy is a law of all games: `no_construct_is_visited_twice`.)
pub fn cells_are_assigned_once()
    ensures made { (ds : List Declaration) (g : Setting) (m : Mode) (a : Adversary) (game : Tree)
        (t : Tape) → IsWellFormedContext ds game →
        Pairs MakeApart (visits_of_run g m a game t) }
    ensures new { (ds : List Declaration) (g : Setting) (m : Mode) (a : Adversary) (game : Tree)
        (t : Tape) → IsWellFormedContext ds game →
        AllByRecursion AssignsNew (visits_of_run g m a game t) }
    ensures own { (ds : List Declaration) (g : Setting) (m : Mode) (a : Adversary) (game : Tree)
        (t : Tape) → IsWellFormedContext ds game →
        AllByRecursion OwnUnassigned (visits_of_run g m a game t) }
    ensures consulted { (ds : List Declaration) (g : Setting) (m : Mode) (a : Adversary)
        (game : Tree) (t : Tape) → IsWellFormed ds game →
        IsDistinct same_cell (consulted g (visits_of_run g m a game t)) }
{}

/// In a run of a well-formed game or context no two available copies answer to the same calls, so a call
/// takes the only copy that it may (`a_call_takes_the_only_copy`); and a game in the grammar has no calls
/// of oracles.
pub fn calls_take_the_only_copy()
    ensures available { (ds : List Declaration) (g : Setting) (m : Mode) (a : Adversary)
        (game : Tree) (t : Tape) → IsWellFormedContext ds game →
        IsDistinct same_address (run g m a game t).inputs }
    ensures no_oracles { (ds : List Declaration) (game : Tree) → IsWellFormed ds game →
        has_no_calls game ≡ true }
{}

/// What is assigned before a visit of a run of a well-formed game or context stays so, with its value, and
/// what was recorded stays recorded, at later visits and at the end.
pub fn runs_only_grow()
    ensures visits { (ds : List Declaration) (g : Setting) (m : Mode) (a : Adversary) (game : Tree)
        (t : Tape) → HasConstantsOf ds g → IsWellFormedContext ds game →
        Pairs VisitsGrow (visits_of_run g m a game t) }
    ensures last { (ds : List Declaration) (g : Setting) (m : Mode) (a : Adversary) (game : Tree)
        (t : Tape) → HasConstantsOf ds g → IsWellFormedContext ds game →
        AllByRecursion (GrowsToEnd (run g m a game t)) (visits_of_run g m a game t) }
{}

/// What is known at a visited place of a well-formed game or context holds there, then and later: its
/// replications have the current indices, below their parameters, its cells are assigned, its facts are
/// true, and its events were recorded, with the values that their terms have at this copy. At a visited
/// `find` it holds at each tuple in the list of a branch, in its condition where the list is assigned, and
/// in its body where the branch is a candidate, taken or not. It holds of each available copy of an input.
/// And behind some definition of the variable of each assigned cell, so behind its only one, what is known
/// holds at the cell's tuple, before each visit and at the end.
pub fn what_stands_above_holds()
    ensures places { (ds : List Declaration) (g : Setting) (m : Mode) (a : Adversary) (game : Tree)
        (t : Tape) → HasConstantsOf ds g → IsWellFormedContext ds game →
        AllByRecursion (PlaceHolds g game) (visits_of_run g m a game t) }
    ensures candidates { (ds : List Declaration) (g : Setting) (m : Mode) (a : Adversary)
        (game : Tree) (t : Tape) → HasConstantsOf ds g → IsWellFormedContext ds game →
        AllByRecursion (CandidatesHold g game) (visits_of_run g m a game t) }
    ensures inputs { (ds : List Declaration) (g : Setting) (m : Mode) (a : Adversary) (game : Tree)
        (t : Tape) → HasConstantsOf ds g → IsWellFormedContext ds game →
        AllByRecursion (InputHolds g game (run g m a game t).memory) (run g m a game t).inputs }
    ensures cells { (ds : List Declaration) (g : Setting) (m : Mode) (a : Adversary) (game : Tree)
        (t : Tape) → HasConstantsOf ds g → IsWellFormedContext ds game →
        AllByRecursion (VisitCellsHold g game) (visits_of_run g m a game t) }
    ensures last { (ds : List Declaration) (g : Setting) (m : Mode) (a : Adversary) (game : Tree)
        (t : Tape) → HasConstantsOf ds g → IsWellFormedContext ds game →
        CellsHold g game (run g m a game t).memory }
    ensures one { (g : Setting) (game : Tree) (x : Memory) →
        CellsHold g game x → OneDefinitionHolds g game x }
{}

/// Where branches of a `find` alone define a variable of a well-formed game or context, each as an index
/// below the same parameter, the variable's values are below it, before each visit and at the end, on every
/// tape. (That current replication indices are, `what_stands_above_holds` says.)
pub fn index_variables_stay_below_their_parameters()
    ensures visits { (ds : List Declaration) (g : Setting) (m : Mode) (a : Adversary) (game : Tree)
        (t : Tape) (x n : ℕ) → HasConstantsOf ds g → IsWellFormedContext ds game →
        is_index_below x n game ≡ true →
        AllByRecursion (VisitHasValuesBelow g x n) (visits_of_run g m a game t) }
    ensures last { (ds : List Declaration) (g : Setting) (m : Mode) (a : Adversary) (game : Tree)
        (t : Tape) (x n : ℕ) → HasConstantsOf ds g → IsWellFormedContext ds game →
        is_index_below x n game ≡ true → StateHasValuesBelow g x n (run g m a game t) }
{}

/// Each key that a run of a well-formed context consults is in the list of cells, on every tape, where each
/// call reads first a variable that is a key and nothing else, and the side's own cells are no keys: the
/// key is assigned, so it is at a copy of its definition.
pub fn consulted_keys_are_listed()
    ensures { (ds : List Declaration) (g : Setting) (m : Mode) (a : Adversary) (context : Tree)
        (t : Tape) → HasConstantsOf ds g → IsWellFormedContext ds context →
        calls_read_keys context context ≡ true → HasOwnCells g.side →
        AreKeysListed g m a context t }
{}

/// Worked games that are well-formed. The first has two inputs below a replication, and the second a `find`.
/// In the third an event has a function's value and a constant as arguments. The fourth tree is a context,
/// which makes a call under a key and sends the result.
pub fn worked_games()
    ensures sessions { IsWellFormed [] sessions }
    ensures found { IsWellFormed [] (finds (cell_found ∷ [])) }
    ensures terms { IsWellFormed constants told }
    ensures context { IsWellFormedContext [] keyed }
    ensures no_game { IsWellFormed [] keyed → ⊥ }
{}

/// Array scope is needed: a game in the grammar that assigns a variable again breaks a correspondence
/// whose right event stands above the left one with the same argument. And so is it that no constant is
/// bound: a game in array scope whose replication index is named as a constant does the same.
pub fn scope_and_constants_are_needed()
    ensures unscoped { IsScoped constants assigned_again → ⊥ }
    ensures phrase { is_phrase Inputs assigned_again ≡ true }
    ensures unbound { binds_none (is_constant_of constants) assigned_again ≡ true }
    ensures broken { holds_on two_values (Breaks begun_query)
        (caller 1 (0 ∷ [])) assigned_again blank ≡ true }
    ensures captured_scope { IsScoped constants constant_captured }
    ensures captured_phrase { is_phrase Inputs constant_captured ≡ true }
    ensures captured { binds_none (is_constant_of constants) constant_captured ≡ false }
    ensures captured_broken { holds_on two_values (Breaks begun_query)
        (caller 2 []) constant_captured blank ≡ true }
{}
