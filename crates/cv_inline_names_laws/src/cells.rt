// Laws of the cells of a context with the right side and of its next game: each is one of the other's, and both
// have equal chances.

ghost use Rattle.std.specs.Prelude.{◌≡◌, ℕ, true, List, [], Option, Some, None};
ghost use Rattle.cv_syntax_trees.specs.Tree.{Tree};
ghost use Rattle.cv_syntax_trees.specs.Declarations.{Declaration};
ghost use Rattle.cv_meaning.specs.Tapes.{Cell, Find_at, Made_at, New_at, Picked_at, Tape, cells_of};
ghost use Rattle.cv_meaning.specs.Interpretation.{Interpretation, setting_of};
ghost use Rattle.cv_meaning.specs.Runs.{Adversary};
ghost use Rattle.cv_meaning.specs.Cells.{coin_cells};
ghost use Rattle.cv_meaning.specs.Experiments.{Experiment, mode_of};
ghost use Rattle.cv_meaning.specs.Chances.{Same};
ghost use Rattle.cv_meaning.specs.Advantage.{chance_of};
ghost use Rattle.cv_meaning_chances.specs.Tests.{IsOneToOne};
ghost use Rattle.cv_meaning_runs.specs.Agreement.{AgreeAt};
ghost use Rattle.cv_meaning.specs.contexts.Groups.{Right};
ghost use Rattle.cv_meaning.specs.contexts.Sites.{sites_of};
ghost use Rattle.cv_meaning.specs.contexts.Sides.{Context};
ghost use Rattle.cv_meaning.specs.contexts.ContextAdvantage.{context_chance};
ghost use Rattle.cv_meaning.specs.contexts.Inlined.{Drawn};
ghost use Rattle.cv_meaning.specs.contexts.Roles.{Gone};
ghost use Rattle.cv_inline.specs.NextGame.{inlined_calls_of, next_in, next_of};
ghost use Rattle.cv_inline_laws.specs.runs.Texts.{Text};
ghost use Rattle.cv_inline_laws.specs.runs.Contexts.{AreLikeTapes, IsTextOf, context_setting};
ghost use Rattle.cv_inline_names_laws.specs.cells.Cells.{RightNames, at_right, on_tape};
ghost use Rattle.cv_inline_names_laws.specs.cells.Layout.{IsLaidOut, Types};

/// The cells of the key and of calls are swapped with those of the drawn names, each with one other.
pub fn right_cells_are_swapped()
    ensures back { (n : RightNames) (c : Cell) → at_right n (at_right n c) ≡ c }
    ensures one_to_one { (n : RightNames) → IsOneToOne (at_right n) }
{}

/// A context with the right side has the chance of its next game, for each experiment and adversary: where the
/// context and the right bodies are laid out as the grammar has them, with one type for a name, and where on each
/// tape, read with cells swapped, its run is as the law of runs expects. Nothing is asked of the lists of cells:
/// parts of bodies that don't come into the game cost nothing, and what is drawn in them is ignored.
pub fn right_sides_have_equal_chances()
    ensures texts { (T : Text) (find : ℕ → Option (ℕ × ℕ)) (types : Types) (x : Experiment)
        (a : Adversary) (context : Tree) → IsLaidOut T types context →
        ((t : Tape) → IsTextOf (on_tape T find t) (mode_of x) a context) →
        Same (chance_of (context_setting T) x a context)
        (chance_of T.g x a (next_in T.calls [] context)) }
    ensures contexts { (T : Text) (find : ℕ → Option (ℕ × ℕ)) (types : Types) (x : Experiment)
        (a : Adversary) (ds : List Declaration) (i : Interpretation) (c : Context) (key : ℕ)
        (drawn : Drawn) → T.g ≡ setting_of ds i → T.calls ≡ inlined_calls_of c key drawn →
        T.sites ≡ sites_of (setting_of ds i) c.game c.functions → IsLaidOut T types c.game →
        ((t : Tape) → IsTextOf (on_tape T find t) (mode_of x) a c.game) →
        Same (context_chance ds i c Right x a)
        (chance_of (setting_of ds i) x a (next_of c key drawn)) }
{}

/// A tape of the next game, read with cells swapped, is like it: in what the game chooses, in the key, in what
/// each call draws and picks, in the finds of the game, in the adversary's coins and in tests.
pub fn swapped_tapes_are_alike()
    ensures tapes { (T : Text) (find : ℕ → Option (ℕ × ℕ)) (t : Tape) → T.role T.calls.key ≡ Gone →
        AreLikeTapes (on_tape T find t) }
    ensures chosen { (T : Text) (find : ℕ → Option (ℕ × ℕ)) (t : Tape) (s v : ℕ) (w : List ℕ) →
        T.has s v ≡ true → (on_tape T find t).side_tape (Made_at v w s)
        ≡ t (New_at (T.calls.drawn.variable s v) w) }
    ensures picked { (T : Text) (find : ℕ → Option (ℕ × ℕ)) (t : Tape) (s q : ℕ) (w : List ℕ) →
        find (T.calls.drawn.label s q) ≡ Some (s, q) →
        (on_tape T find t).side_tape (Picked_at q w s)
        ≡ t (Find_at (T.calls.drawn.label s q) w) }
    ensures finds { (T : Text) (find : ℕ → Option (ℕ × ℕ)) (t : Tape) (l : ℕ) (w : List ℕ) →
        find l ≡ None → (on_tape T find t).side_tape (Find_at l w) ≡ t (Find_at l w) }
    ensures coins { (T : Text) (find : ℕ → Option (ℕ × ℕ)) (t : Tape) (a : Adversary) →
        AgreeAt (cells_of (coin_cells 0 a.coins)) (on_tape T find t).side_tape t }
{}
