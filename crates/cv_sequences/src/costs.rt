// The laws of costs.

ghost use Rattle.std.specs.Prelude.{◌≡◌, ◌↔◌, List, false};
ghost use Rattle.cv_syntax_trees.specs.Declarations.{Declaration};
ghost use Rattle.cv_syntax_trees.specs.Tree.{Tree};
ghost use Rattle.cv_meaning.specs.Interpretation.{Interpretation};
ghost use Rattle.cv_steps.specs.values.Values.{Advantages, cost_value};
ghost use Rattle.cv_steps.specs.Chances.{KeepsChances};
ghost use Rattle.cv_steps.specs.Costs.{cost_of};
ghost use Rattle.cv_steps.specs.Steps.{Cost, Zero};
ghost use Rattle.cv_derive_laws.specs.stores.Costs.{CostsAtMost, bound_of};

/// A sum takes a step's cost for what it bounds, whatever the advantages of contexts are.
pub fn costs_have_their_value()
    ensures { (i : Interpretation) (advantages : Advantages) (c : Cost) →
        cost_value i advantages (cost_of c) false ≡ bound_of i c }
{}

/// A step that keeps chances costs nothing, and one that costs nothing keeps chances. What keeps chances costs at most anything.
pub fn kept_chances_cost_nothing()
    ensures zero { (ds : List Declaration) (game next : Tree) →
        KeepsChances ds game next ↔ CostsAtMost ds game next Zero }
    ensures any { (ds : List Declaration) (game next : Tree) (c : Cost) →
        KeepsChances ds game next → CostsAtMost ds game next c }
{}
