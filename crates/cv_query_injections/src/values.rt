// What certificates cost has a value.

ghost use Rattle.cv_syntax_trees.specs.Tree.{Tree};
ghost use Rattle.cv_meaning.specs.Interpretation.{Interpretation};
ghost use Rattle.cv_meaning.specs.Satisfies.{Satisfies};
ghost use Rattle.cv_meaning_chances.specs.Fractions.{HasTapes};
ghost use Rattle.cv_costs.specs.Certificates.{cost_of_certificate};
ghost use Rattle.cv_scene.specs.Scenes.{Scene};
ghost use Rattle.cv_derive_laws.specs.stores.Costs.{bound_of};
ghost use Rattle.cv_derive_laws.specs.stores.Holding.{IsReady};
ghost use Rattle.cv_query_certificates.specs.Accepted.{IsAccepted};

/// What an accepted certificate costs is a number in each interpretation that satisfies the declarations: the variables that it takes to
/// differ are of large types, and no type is empty.
pub fn accepted_certificates_cost_a_number()
    ensures { (s : Scene) (query certificate : Tree) → IsReady s.declarations s.game →
        IsAccepted s query certificate →
        (i : Interpretation) → Satisfies s.declarations i →
        HasTapes (bound_of i (cost_of_certificate s certificate)) }
{}
