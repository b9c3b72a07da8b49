// Laws of accepted equivalences: their right bodies can stand in a game.

ghost use Rattle.std.specs.Prelude.{◌≡◌, ℕ, List, Some, [], ◌∷◌, true};
ghost use Rattle.cv_syntax_trees.specs.Tree.{Tree, second};
ghost use Rattle.cv_meaning.specs.contexts.Groups.{Function, Right, function_at, side_group};
ghost use Rattle.cv_meaning.specs.contexts.Worked.{
  authentication_equivalence,
  encryption_equivalence,
  guess_equivalence,
};
ghost use Rattle.cv_group_rules.specs.Symbols.{Symbols};
ghost use Rattle.cv_group_rules.specs.Faults.{IsAccepted};
ghost use Rattle.cv_group_rules.specs.Rules.{functions_in};
ghost use Rattle.cv_inline.specs.bodies.Accepted.{IsFineCall};
ghost use Rattle.cv_meaning.specs.contexts.Inlined.{Caller, TheKey};
ghost use Rattle.cv_inline.specs.bodies.Inlining.{Inlining};
ghost use Rattle.cv_inline_names_laws.specs.accepted.Drawn.{IsDrawnFor};
ghost use Rattle.cv_inline_names_laws.specs.accepted.RightBodies.{are_as_many, is_right_side};

/// Each function of the right side of an accepted equivalence, in the grammar of files, has a body that can stand
/// in a game behind as many arguments as it takes, wherever it is inlined with what is drawn for its sites.
pub fn accepted_bodies_are_fine()
    ensures { (symbols : Symbols) (equivalence : Tree) (k : ℕ) (f : Function) (p : Inlining)
        (callers : List Caller) (arguments : Tree) → IsAccepted symbols equivalence →
        is_right_side (second equivalence) ≡ true →
        function_at (side_group Right equivalence) k ≡ Some f →
        are_as_many f.arguments arguments ≡ true →
        IsDrawnFor symbols.constant (functions_in Right equivalence) f p callers →
        IsFineCall p callers (((side_group Right equivalence).key.0, TheKey) ∷ [])
        f.arguments arguments f.body }
{}

/// Worked right sides are of the grammar of files: with a `new`, with a `find`, and terms alone.
pub fn worked_right_sides()
    ensures encryption { is_right_side (second encryption_equivalence) ≡ true }
    ensures authentication { is_right_side (second authentication_equivalence) ≡ true }
    ensures guess { is_right_side (second guess_equivalence) ≡ true }
{}
