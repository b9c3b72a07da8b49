// The definitions of the calculus say what the sentences of the papers say.

ghost use Rattle.std.specs.Prelude.{◌≡◌, ◌≢◌, ℕ, ◌+◌, ◌*◌, ◌<◌, ◌≤◌, ◌↔◌, Bool, true, false, [], List, length, count_by, All, AllPairs, Contains};
ghost use Rattle.cv_syntax_trees.specs.Tree.{Tree};
ghost use Rattle.cv_meaning.specs.Tapes.{Cell, Key_at, Tape, count, total, blank};
ghost use Rattle.cv_meaning.specs.Side.{Side, no_side};
ghost use Rattle.cv_meaning.specs.Interpretation.{Interpretation, Setting, setting_with};
ghost use Rattle.cv_meaning.specs.Memory.{Store, Indices, Happened};
ghost use Rattle.cv_meaning.specs.Candidates.{Candidate, candidates};
ghost use Rattle.cv_meaning.specs.Terms.{value};
ghost use Rattle.cv_meaning.specs.Runs.{Adversary, Mode};
ghost use Rattle.cv_meaning.specs.Cells.{cells};
ghost use Rattle.cv_meaning.specs.Experiments.{run};
ghost use Rattle.cv_meaning.specs.Correspondences.{Correspondence, correspondence_of, broken};
ghost use Rattle.cv_meaning_laws.specs.Worked.{colliding_game, finder, nonce_at, interpretation_of_file};
ghost use Rattle.cv_meaning_laws.specs.adequacy.Broken.{IsKept, IsBroken};
ghost use Rattle.cv_meaning_laws.specs.adequacy.Queries.{IsOnTheRightAlone};
ghost use Rattle.cv_meaning_laws.specs.adequacy.Finds.{IsCandidateOf, IsBefore, times_chosen};
ghost use Rattle.cv_meaning_laws.specs.adequacy.Tables.{Table, table_adversary, Play, run_of, Target, advantage_at};
ghost use Rattle.cv_meaning_laws.specs.adequacy.Typed.{Context, Scope, Sort, size_of, HasSort, IsTyped, IsModel, KeepsSorts, HasNoOracles, AreIndicesOf, IsTypedStore, IsTypedTape, HasTypedRestrictions, LeavesRestrictions};
ghost use Rattle.cv_meaning_laws.specs.adequacy.Counted.{tapes_of};
ghost use Rattle.cv_meaning_laws.specs.adequacy.WorkedTyping.{worked_context, answering_context, answered_game, echo, key_teller, predecessor, counter};

/// The test that a list of events breaks a correspondence says what keeping and breaking one mean, in
/// the plain form and in the injective one. The variables whose values may be chosen are those that the
/// query has on the right alone.
pub fn broken_says_its_sentence()
    ensures kept { (g : Setting) (q : Correspondence) (es : List Happened) →
        (broken g q es ≡ false) ↔ IsKept g q es }
    ensures broken { (g : Setting) (q : Correspondence) (es : List Happened) →
        (broken g q es ≡ true) ↔ IsBroken g q es }
    ensures others { (q : Tree) (x : ℕ × ℕ) →
        Contains (correspondence_of q).others x ↔ IsOnTheRightAlone q x }
{}

/// The candidates of a find are the branches whose cells are assigned and whose condition is true, each
/// with each such tuple of its index variables once, by tuple and then by branch.
pub fn candidates_are_those_of_the_find()
    ensures among { (g : Setting) (at : Indices) (m : Store) (branches : Tree) (c : Candidate) →
        Contains (candidates g at m branches) c ↔ IsCandidateOf g at m branches c }
    ensures once { (g : Setting) (at : Indices) (m : Store) (branches : Tree) →
        AllPairs (λ c d. c ≢ d) (candidates g at m branches) }
    ensures order { (g : Setting) (at : Indices) (m : Store) (branches : Tree) →
        AllPairs IsBefore (candidates g at m branches) }
{}

/// The values of a find's cell choose each candidate equally often, but for less than one more round:
/// the choice is nearly uniform, and uniform where the number of candidates divides that of the values.
pub fn a_find_chooses_evenly()
    ensures { (cs : List Candidate) (p : Candidate → Bool) (rounds values : ℕ) →
        rounds * length cs ≤ values → values ≤ (rounds + 1) * length cs →
        (rounds * count_by p cs ≤ times_chosen cs p values) ×
        (times_chosen cs p values ≤ (rounds + 1) * count_by p cs) }
{}

/// A finite table plays each of finitely many runs as the adversary does, and has its advantage at each
/// of finitely many queries, games and settings. So "each adversary" means each finite table.
pub fn adversaries_are_tables()
    ensures runs { (a : Adversary) (plays : List Play) →
        (T : Table) × (T.coins ≡ a.coins) × (T.moves ≡ a.moves) ×
        All (λ p. run_of p (table_adversary T) ≡ run_of p a) plays }
    ensures advantage { (a : Adversary) (targets : List Target) →
        (T : Table) × (T.coins ≡ a.coins) × (T.moves ≡ a.moves) ×
        All (λ x. advantage_at x (table_adversary T) ≡ advantage_at x a) targets }
{}

/// A count is the number of the tapes of a list on which the test holds, and the total is the length of
/// that list.
pub fn counts_are_of_tapes()
    ensures count { (cs : List (Cell × ℕ)) (p : Tape → Bool) (t : Tape) →
        count cs p t ≡ count_by p (tapes_of cs t) }
    ensures total { (cs : List (Cell × ℕ)) (t : Tape) → total cs ≡ length (tapes_of cs t) }
{}

/// In a store whose variables have values of their sorts, a typed term has a value of its sort. A run
/// of a typed game or context, on a tape whose restrictions have values of their types, ends in such a
/// store, where the side keeps sorts on that tape: in a game it does on each tape. The tapes that an
/// experiment counts are such, where each restriction has the type of its variable.
pub fn typed_variables_have_values()
    ensures terms { (c : Context) (i : Interpretation) (side : Side) → IsModel c i →
        (ps : Scope) (at : Indices) (m : Store) → AreIndicesOf i ps at → IsTypedStore c i m →
        (a : Tree) (S : Sort) → HasSort c ps a S →
        value (setting_with c.declarations i side) at m a < size_of i S }
    ensures runs { (c : Context) (i : Interpretation) (side : Side) → IsModel c i →
        (game : Tree) → IsTyped c [] game →
        (m : Mode) (a : Adversary) (t : Tape) → IsTypedTape c i t →
        KeepsSorts c i side t →
        IsTypedStore c i (run (setting_with c.declarations i side) m a game t).memory.store }
    ensures games { (c : Context) (i : Interpretation) (t : Tape) → HasNoOracles c →
        KeepsSorts c i no_side t }
    ensures tapes { (c : Context) (i : Interpretation) (side : Side) → IsModel c i →
        LeavesRestrictions side → (game : Tree) → HasTypedRestrictions c game →
        (m : Mode) (a : Adversary) →
        All (IsTypedTape c i) (tapes_of (cells (setting_with c.declarations i side) m a game) blank) }
{}

/// The game of two nonces that a find compares is typed, in a context that an interpretation satisfies.
/// It is not where the condition of the find is a nonce.
pub fn worked_typing()
    ensures typed { IsTyped worked_context [] colliding_game }
    ensures restrictions { HasTypedRestrictions worked_context colliding_game }
    ensures model { IsModel worked_context interpretation_of_file }
    ensures leaves { LeavesRestrictions no_side }
    ensures no_boolean { ¬ IsTyped worked_context [] (finder (nonce_at 9)) }
{}

/// A side that answers its argument keeps sorts, and so does one that answers what it has assigned, on each
/// tape; one that answers its key does on the tapes whose keys are values of the result's type. One that
/// answers a larger number doesn't. A context that calls them is typed.
pub fn sides_keep_sorts()
    ensures typed { IsTyped answering_context [] answered_game }
    ensures model { IsModel answering_context interpretation_of_file }
    ensures argument { (t : Tape) → KeepsSorts answering_context interpretation_of_file echo t }
    ensures arrays { (t : Tape) →
        KeepsSorts answering_context interpretation_of_file predecessor t }
    ensures key { (t : Tape) → ((key : List ℕ) → t (Key_at key) < 2) →
        KeepsSorts answering_context interpretation_of_file key_teller t }
    ensures no_larger { (t : Tape) →
        ¬ KeepsSorts answering_context interpretation_of_file counter t }
{}
