// Laws of contexts whose names are drawn: they are laid out, and have the chance of their next game.

ghost use Rattle.std.specs.Prelude.{◌≡◌, ℕ, true, List, []};
ghost use Rattle.std.specs.List.{AllByRecursion};
ghost use Rattle.cv_syntax_trees.specs.Declarations.{Declaration};
ghost use Rattle.cv_meaning.specs.Tapes.{Find_at, Picked_at, Tape, blank};
ghost use Rattle.cv_meaning.specs.Side.{no_side};
ghost use Rattle.cv_meaning.specs.Interpretation.{Interpretation, setting_of};
ghost use Rattle.cv_meaning.specs.Runs.{Adversary};
ghost use Rattle.cv_meaning.specs.Experiments.{Experiment, mode_of};
ghost use Rattle.cv_meaning.specs.Chances.{Same};
ghost use Rattle.cv_meaning.specs.Advantage.{chance_of};
ghost use Rattle.cv_meaning.specs.contexts.Groups.{Right, side_group};
ghost use Rattle.cv_meaning.specs.contexts.Worked.{parity};
ghost use Rattle.cv_meaning.specs.contexts.ContextAdvantage.{context_chance};
ghost use Rattle.cv_inline.specs.NextGame.{next_of};
ghost use Rattle.cv_inline_laws.specs.draws.DrawnNames.{drawn_in, find_in, has_find};
ghost use Rattle.cv_inline.specs.Worked.{one_sender};
ghost use Rattle.cv_inline_laws.specs.runs.Contexts.{IsTextOf};
ghost use Rattle.cv_inline_names_laws.specs.cells.Cells.{on_tape};
ghost use Rattle.cv_inline_names_laws.specs.cells.Layout.{IsContextText, IsLaidOut, IsRightFunction};
ghost use Rattle.cv_inline_names_laws.specs.drawn.Named.{NamedContext, named_on_tape, names_of, text_of, types_of};
ghost use Rattle.cv_inline_names_laws.specs.drawn.Worked.{drawn_numbers, type_there};

/// The finds of right bodies pick as the finds that are drawn for them, on a tape and read with cells swapped.
pub fn drawn_finds_pick_alike()
    ensures { (c : NamedContext) (t : Tape) (s q : ℕ) (w : List ℕ) →
        has_find (names_of c) s q ≡ true →
        (on_tape (text_of c t t) (find_in (names_of c)) t).side_tape (Picked_at q w s)
        ≡ t (Find_at ((drawn_in (names_of c)).label s q) w) }
{}

/// Where names are drawn for all that is drawn, no two alike, and the right functions are of the grammar, with
/// one type for a name, a context of the grammar is laid out: so it has the chance of its next game, where on
/// each tape its run is as the law of runs expects.
pub fn contexts_with_drawn_names_are_laid_out()
    ensures laid_out { (c : NamedContext) (game : ℕ → ℕ) → c.g.side ≡ no_side →
        AllByRecursion IsRightFunction (side_group Right c.context.equivalence).functions →
        IsContextText (text_of c blank blank) game c.context.game →
        IsLaidOut (text_of c blank blank) (types_of c game) c.context.game }
    ensures chances { (c : NamedContext) (game : ℕ → ℕ) (x : Experiment) (a : Adversary)
        (ds : List Declaration) (i : Interpretation) → c.g ≡ setting_of ds i →
        AllByRecursion IsRightFunction (side_group Right c.context.equivalence).functions →
        IsContextText (text_of c blank blank) game c.context.game →
        ((t : Tape) → IsTextOf (named_on_tape c t) (mode_of x) a c.context.game) →
        Same (context_chance ds i c.context Right x a)
        (chance_of (setting_of ds i) x a (next_of c.context c.key (drawn_in (names_of c)))) }
{}

/// A context with one sender and one receiver, whose names are drawn, is of the grammar with its right functions. So
/// nothing that is asked of texts is out of reach.
pub fn one_sender_is_of_the_grammar()
    ensures { (c : NamedContext) × (c.g ≡ setting_of [] parity) × (c.context ≡ one_sender)
        × (c.names ≡ drawn_numbers)
        × AllByRecursion IsRightFunction (side_group Right one_sender.equivalence).functions
        × IsContextText (text_of c blank blank) type_there one_sender.game }
{}
