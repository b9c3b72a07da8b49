// Laws of the rule `SArename`: a game and the one where each definition of a variable has its own name have equal chances.
#![tactic(auto)]

ghost use Rattle.std.specs.Prelude.{ℕ, List};
ghost use Rattle.cv_derive_laws.specs.stores.Steps.{IsSound};
ghost use Rattle.cv_rule_array_names.specs.Row.{array_names_step};

/// Each definition of a variable may get a name of its own, where the next game is one. On tapes that have the
/// cells of both games, and for each cell of the variable those of all names at its size, the exchange of cells
/// is one to one, so as many tapes serve the one game as the other.
pub fn splitting_definitions_is_sound()
    ensures { (x : ℕ) (names : List ℕ) → IsSound (array_names_step x names) }
{}
