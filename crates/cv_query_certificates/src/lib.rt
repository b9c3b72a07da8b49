// Certificates of correspondences and of secrecy: which are accepted, and which condition fails first.
#![tactic(auto)]

ghost use Rattle.std.specs.Prelude.{◌≡◌, ◌↔◌, ◌∷◌, [], true, false, Some, None};
ghost use Rattle.std.specs.List.{AllByRecursion};
ghost use Rattle.cv_syntax_trees.specs.Tree.{Tree};
ghost use Rattle.cv_scene.specs.Scenes.{Scene};
ghost use Rattle.cv_query_certificates.specs.Accepted.{IsAccepted, is_query};
ghost use Rattle.cv_query_certificates.specs.Failures.{first_failure};
ghost use Rattle.cv_query_certificates.specs.Worked.{begun, begun_once, cell_cases, cell_entry, direct, direct_cases, direct_entry, events, is_true, never, one_site, pair, two_sites, two_sites_cases};
ghost use Rattle.cv_query_certificates.specs.WorkedAlternatives.{either_begun, of_each, one_above, one_above_cases, two_branches, two_branches_cases};
ghost use Rattle.cv_query_certificates.specs.WorkedSecrets.{Fails, by_form, by_pairs, chosen, compared, copied, one_session, secret, secret_cases, secret_once};

/// A certificate of a query is accepted exactly where no condition of it fails.
pub fn accepted_exactly_where_nothing_fails()
    ensures { (s : Scene) (query certificate : Tree) → is_query query ≡ true →
        (IsAccepted s query certificate ↔ (first_failure s (Some query) certificate ≡ None)) }
{}

/// Which condition fails first of certificates for small games: the event above, a cell of a variable with one
/// definition, witnesses and terms are accepted; `never` that ends with `true`, and a cell of a variable with two
/// definitions, are not.
pub fn worked_certificates()
    ensures direct { AllByRecursion (λ c. first_failure direct c.0 c.1 ≡ c.2) direct_cases }
    ensures cells { AllByRecursion (λ c. first_failure one_site c.0 c.1 ≡ c.2) cell_cases }
    ensures two_sites { AllByRecursion (λ c. first_failure two_sites c.0 c.1 ≡ c.2) two_sites_cases }
    ensures above { IsAccepted direct begun (events (direct_entry ∷ [])) }
    ensures cell { IsAccepted one_site begun (events (cell_entry 26 ∷ [])) }
    ensures other { IsAccepted two_sites begun (events (cell_entry 35 ∷ [])) → ⊥ }
    ensures never { IsAccepted direct begun (events (never 4 (is_true ∷ []) ∷ [])) → ⊥ }
    ensures once { IsAccepted direct begun_once (events (direct_entry ∷ pair 4 4 1 ∷ [])) }
    ensures unpaired { IsAccepted direct begun_once (events (direct_entry ∷ [])) → ⊥ }
{
    accepted_exactly_where_nothing_fails();
}

/// Which condition fails first of certificates of correspondences with alternatives. At each place one is named, which no entry
/// does for a query that has but one; a number that isn't there and a route too many fail. With `inj`, two places need the
/// pair of an atom that both of their alternatives have, and none for other atoms.
pub fn worked_alternatives()
    ensures chosen { AllByRecursion (λ c. first_failure two_branches c.0 c.1 ≡ c.2)
        two_branches_cases }
    ensures shared { AllByRecursion (λ c. first_failure one_above c.0 c.1 ≡ c.2) one_above_cases }
    ensures accepted { IsAccepted two_branches (either_begun false) (events of_each) }
    ensures unpaired { IsAccepted two_branches (either_begun true) (events of_each) → ⊥ }
{
    accepted_exactly_where_nothing_fails();
}

/// Which condition fails first of certificates of secrecy, for many sessions and for one. A variable that is chosen and read
/// nowhere is accepted; a read of it fails, in a condition or in an output. One that copies another, which is read nowhere
/// else, is accepted for one session, and for many with the pair that is needed; a read of the other one fails, and so does a query
/// for it. A pair that isn't needed fails.
pub fn worked_secrets()
    ensures fails { AllByRecursion Fails secret_cases }
    ensures accepted { IsAccepted chosen (secret 4) by_form }
    ensures read { IsAccepted compared (secret 4) by_form → ⊥ }
    ensures copied { IsAccepted copied (secret 4) by_form → ⊥ }
    ensures once { IsAccepted copied (secret_once 4) by_form }
    ensures paired { IsAccepted copied (secret 4) (by_pairs (one_session 5 ∷ [])) }
{
    accepted_exactly_where_nothing_fails();
}
