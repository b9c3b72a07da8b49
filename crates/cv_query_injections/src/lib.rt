// Injective correspondences: that accepted ones hold where values that are taken to differ do, and what accepted correspondences cost.
#![tactic(auto)]

pub mod values;

ghost use Rattle.std.specs.Prelude.{◌≡◌, true, false};
ghost use Rattle.std.specs.List.{All};
ghost use Rattle.cv_syntax_trees.specs.Tree.{Tree};
ghost use Rattle.cv_meaning.specs.Advantage.{advantage, chance_of};
ghost use Rattle.cv_meaning.specs.Cells.{cells};
ghost use Rattle.cv_meaning.specs.Chances.{AtMost};
ghost use Rattle.cv_meaning.specs.Correspondences.{broken, correspondence_of};
ghost use Rattle.cv_meaning.specs.Experiments.{Breaks, run};
ghost use Rattle.cv_meaning.specs.Interpretation.{Interpretation, setting_of};
ghost use Rattle.cv_meaning.specs.Runs.{Adversary, Events};
ghost use Rattle.cv_meaning.specs.Satisfies.{Satisfies};
ghost use Rattle.cv_meaning.specs.Tapes.{blank};
ghost use Rattle.cv_meaning_laws.specs.adequacy.Counted.{tapes_of};
ghost use Rattle.cv_costs.specs.Certificates.{cost_of_certificate};
ghost use Rattle.cv_scene.specs.Scenes.{Scene};
ghost use Rattle.cv_derive_laws.specs.stores.Costs.{bound_of};
ghost use Rattle.cv_query_injections.specs.Differing.{AllDiffer};
ghost use Rattle.cv_query_laws.specs.correspondences.Premises.{IsProved};

use cv_derive_facts::sites_stand_in_the_game;
use cv_derive_laws::reached::{derivations_of_visited_copies_hold, visited_copies_stay_reached};
use cv_meaning_laws::adequacy::broken_says_its_sentence;
use cv_query_laws::correspondences::accepted_correspondences_are_never_broken;
use cv_query_laws::routes::entries_are_met_by_visits;
use cv_query_laws::visits::positions_are_visits;
use cv_rule_birthday_laws::chosen::{
    chosen_values_are_drawn, equal_choices_are_rare, equal_values_stand_at_one_tuple,
};
use cv_scope_runs::games_are_contexts;

/// An injective correspondence whose certificate is accepted is broken on no tape that is counted and on which the values differ that
/// the certificate takes to differ.
pub fn accepted_injections_hold()
    ensures { (s : Scene) (query certificate : Tree) → IsProved s query certificate →
        (correspondence_of query).inj ≡ true →
        (i : Interpretation) → Satisfies s.declarations i → (a : Adversary) →
        All (λ t. AllDiffer s i certificate t →
        broken (setting_of s.declarations i) (correspondence_of query)
        (run (setting_of s.declarations i) Events a s.game t).memory.events ≡ false)
        (tapes_of (cells (setting_of s.declarations i) Events a s.game) blank) }
{
    games_are_contexts();
    sites_stand_in_the_game();
    broken_says_its_sentence();
    positions_are_visits();
    entries_are_met_by_visits();
    visited_copies_stay_reached();
    derivations_of_visited_copies_hold();
    chosen_values_are_drawn();
    equal_values_stand_at_one_tuple();
}

/// A correspondence whose certificate is accepted, with `inj` or without, is broken with a chance of at most what the certificate costs,
/// in each interpretation that satisfies the declarations and against each adversary. So no adversary has a greater advantage against
/// the query.
pub fn accepted_correspondences_are_within_their_costs()
    ensures chance { (s : Scene) (query certificate : Tree) → IsProved s query certificate →
        (i : Interpretation) → Satisfies s.declarations i → (a : Adversary) →
        AtMost (chance_of (setting_of s.declarations i) (Breaks query) a s.game)
        (bound_of i (cost_of_certificate s certificate)) }
    ensures query { (s : Scene) (query certificate : Tree) → IsProved s query certificate →
        (i : Interpretation) → Satisfies s.declarations i → (a : Adversary) →
        AtMost (advantage (setting_of s.declarations i) query a s.game)
        (bound_of i (cost_of_certificate s certificate)) }
{
    accepted_correspondences_are_never_broken();
    accepted_injections_hold();
    equal_choices_are_rare();
}
