// The soundness of derivations: what they say is true.
#![tactic(auto)]

pub mod late;
pub mod reached;
pub mod stores;

ghost use Rattle.std.specs.Prelude.{◌≡◌, false, None};
ghost use Rattle.std.specs.List.{AllByRecursion};
ghost use Rattle.cv_syntax_trees.specs.Tree.{Tree};
ghost use Rattle.cv_meaning.specs.Interpretation.{Interpretation, setting_of};
ghost use Rattle.cv_meaning.specs.Memory.{Indices, Store};
ghost use Rattle.cv_meaning.specs.Satisfies.{Satisfies};
ghost use Rattle.cv_scope_rules.specs.Phrases.{IsWellFormed};
ghost use Rattle.cv_typing_runs.specs.Games.{HasArguments};
ghost use Rattle.cv_scene.specs.Derivations.{first_bad_line};
ghost use Rattle.cv_scene.specs.Late.{is_alone};
ghost use Rattle.cv_scene.specs.lines.Lines.{lines_of, statements};
ghost use Rattle.cv_scene.specs.Sights.{Sight};
ghost use Rattle.cv_derive_laws.specs.stores.Truth.{HasClosedEquations, IsReached, IsTrue, WasReached};

/// Where each line of a derivation is right, each line outside blocks is true at a copy at which its place
/// is reached: a term is 1, and a cell is assigned. Terms have their values in the second store; cells are
/// looked up in the first one. So a line may speak of the index variables of a branch, in its condition, that
/// aren't assigned yet. The two copies of which a derivation at two places speaks may have been reached before: no
/// right line of it is by `late`.
pub fn derivations_hold()
    ensures reached { (s : Sight) (i : Interpretation) (at : Indices) (m n : Store) (by : Tree) →
        HasArguments s.scene.declarations → IsWellFormed s.scene.declarations s.scene.game →
        Satisfies s.scene.declarations i → HasClosedEquations s.scene.declarations →
        IsReached s i at m n → first_bad_line s by ≡ None →
        AllByRecursion (IsTrue (setting_of s.scene.declarations i) at m n)
        (statements (lines_of by)) }
    ensures beside { (s : Sight) (i : Interpretation) (at : Indices) (m n : Store) (by : Tree) →
        HasArguments s.scene.declarations → IsWellFormed s.scene.declarations s.scene.game →
        Satisfies s.scene.declarations i → HasClosedEquations s.scene.declarations →
        WasReached s i at m n → is_alone s.pair ≡ false → first_bad_line s by ≡ None →
        AllByRecursion (IsTrue (setting_of s.scene.declarations i) at m n)
        (statements (lines_of by)) }
{}
