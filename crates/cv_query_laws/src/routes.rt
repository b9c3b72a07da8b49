// The right events that the routes of a certificate's entry name are those of visits.

ghost use Rattle.std.specs.Prelude.{◌≡◌, ℕ, true};
ghost use Rattle.std.specs.List.{All};
ghost use Rattle.cv_syntax_trees.specs.Tree.{Tree};
ghost use Rattle.cv_meaning.specs.Tapes.{blank};
ghost use Rattle.cv_meaning.specs.Cells.{cells};
ghost use Rattle.cv_meaning.specs.Correspondences.{correspondence_of};
ghost use Rattle.cv_meaning.specs.Interpretation.{Interpretation, setting_of};
ghost use Rattle.cv_meaning.specs.Runs.{Adversary, Events};
ghost use Rattle.cv_meaning.specs.Experiments.{run, visits_of_run};
ghost use Rattle.cv_meaning.specs.Satisfies.{Satisfies};
ghost use Rattle.cv_meaning_laws.specs.adequacy.Counted.{tapes_of};
ghost use Rattle.cv_derive_laws.specs.stores.Holding.{IsReady};
ghost use Rattle.cv_derive_laws.specs.stores.Soundness.{DerivationsHold};
ghost use Rattle.cv_scene.specs.Scenes.{Scene};
ghost use Rattle.cv_query.specs.kinds.Closed.{IsClosedQuery};
ghost use Rattle.cv_query_certificates.specs.Accepted.{IsEntry};
ghost use Rattle.cv_query_laws.specs.correspondences.Premises.{is_correspondence};
ghost use Rattle.cv_query_laws.specs.routes.Ends.{AreMetBy};

use cv_derive_laws::stores::stores_are_typed_at_each_visit;

/// Where an accepted entry stands for an event's node, each left event of this node has its right events at positions of the run whose
/// visits are of the nodes that the routes name, at the copies that these name. Two left events that share a right event are found by
/// this to be of one copy.
pub fn entries_are_met_by_visits()
    ensures { (s : Scene) (query : Tree) → IsReady s.declarations s.game →
        DerivationsHold s.declarations → is_correspondence query ≡ true →
        IsClosedQuery s.declarations query →
        (i : Interpretation) → Satisfies s.declarations i → (a : Adversary) →
        (place : ℕ) (entry : Tree) → IsEntry s (correspondence_of query) place entry →
        All (λ t. AreMetBy (setting_of s.declarations i) (correspondence_of query)
        (visits_of_run (setting_of s.declarations i) Events a s.game t)
        (run (setting_of s.declarations i) Events a s.game t).memory.events place entry)
        (tapes_of (cells (setting_of s.declarations i) Events a s.game) blank) }
{
    stores_are_typed_at_each_visit();
}
