// Variables that come later than a place are not assigned where the place is visited.

ghost use Rattle.std.specs.Prelude.{List};
ghost use Rattle.std.specs.List.{AllByRecursion};
ghost use Rattle.cv_syntax_trees.specs.Declarations.{Declaration};
ghost use Rattle.cv_syntax_trees.specs.Tree.{Tree};
ghost use Rattle.cv_meaning.specs.Tapes.{Tape};
ghost use Rattle.cv_meaning.specs.Interpretation.{Setting};
ghost use Rattle.cv_meaning.specs.Runs.{Adversary, Mode};
ghost use Rattle.cv_meaning.specs.Experiments.{visits_of_run};
ghost use Rattle.cv_scope_rules.specs.Phrases.{HasConstantsOf, IsWellFormedContext};
ghost use Rattle.cv_derive_laws.specs.late.Unassigned.{IsWellVisited, LateAreUnassigned};

/// Before each visit of a run, a variable of which each definition comes later than a place of the visited construct is assigned at
/// no outer part of the copy: a copy of a construct is visited once, of the bodies of an `if` or a `find` one alone is taken, and what
/// stands below is visited later. It holds on every tape, and of the places of conditions and bodies of a visited `find` too.
pub fn late_variables_are_unassigned()
    ensures unassigned { (ds : List Declaration) (g : Setting) (m : Mode) (a : Adversary)
        (game : Tree) (t : Tape) → IsWellFormedContext ds game →
        AllByRecursion (LateAreUnassigned game) (visits_of_run g m a game t) }
    ensures visited { (ds : List Declaration) (g : Setting) (m : Mode) (a : Adversary)
        (game : Tree) (t : Tape) → HasConstantsOf ds g → IsWellFormedContext ds game →
        AllByRecursion IsWellVisited (visits_of_run g m a game t) }
{}
