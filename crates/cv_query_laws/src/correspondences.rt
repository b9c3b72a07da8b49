// Correspondences without `inj` whose certificates are accepted are never broken.

ghost use Rattle.std.specs.Prelude.{◌≡◌, false};
ghost use Rattle.std.specs.List.{All};
ghost use Rattle.cv_syntax_trees.specs.Tree.{Tree};
ghost use Rattle.cv_meaning.specs.Tapes.{Tape, blank};
ghost use Rattle.cv_meaning.specs.Interpretation.{Interpretation, Setting, setting_of};
ghost use Rattle.cv_meaning.specs.Advantage.{advantage, chance_of};
ghost use Rattle.cv_meaning.specs.Cells.{cells};
ghost use Rattle.cv_meaning.specs.Chances.{AtMost, zero_chance};
ghost use Rattle.cv_meaning.specs.Correspondences.{broken, correspondence_of};
ghost use Rattle.cv_meaning.specs.Runs.{Adversary, Events, Mode};
ghost use Rattle.cv_meaning.specs.Experiments.{Breaks, run, visits_of_run};
ghost use Rattle.cv_meaning.specs.Satisfies.{Satisfies};
ghost use Rattle.cv_meaning_laws.specs.adequacy.Counted.{tapes_of};
ghost use Rattle.cv_scene.specs.Scenes.{Scene};
ghost use Rattle.cv_query_laws.specs.correspondences.Happenings.{happenings};
ghost use Rattle.cv_query_laws.specs.correspondences.Premises.{IsProved};

use cv_derive_laws::stores::stores_are_typed_at_each_visit;
use cv_meaning_laws::adequacy::broken_says_its_sentence;

/// The events at the end of a run are those that its visits of event nodes execute, in their order.
pub fn events_are_those_of_visits()
    ensures { (g : Setting) (m : Mode) (a : Adversary) (game : Tree) (t : Tape) →
        (run g m a game t).memory.events ≡ happenings g (visits_of_run g m a game t) }
{}

/// A correspondence without `inj` whose certificate is accepted in a game that is typed and in array scope
/// is broken on no tape that is counted, in each interpretation that satisfies the declarations and against
/// each adversary.
/// So no adversary has an advantage against the query.
pub fn accepted_correspondences_are_never_broken()
    ensures tapes { (s : Scene) (query certificate : Tree) → IsProved s query certificate →
        (correspondence_of query).inj ≡ false →
        (i : Interpretation) → Satisfies s.declarations i → (a : Adversary) →
        All (λ t. broken (setting_of s.declarations i) (correspondence_of query)
        (run (setting_of s.declarations i) Events a s.game t).memory.events ≡ false)
        (tapes_of (cells (setting_of s.declarations i) Events a s.game) blank) }
    ensures chance { (s : Scene) (query certificate : Tree) → IsProved s query certificate →
        (correspondence_of query).inj ≡ false →
        (i : Interpretation) → Satisfies s.declarations i → (a : Adversary) →
        AtMost (chance_of (setting_of s.declarations i) (Breaks query) a s.game) zero_chance }
    ensures query { (s : Scene) (query certificate : Tree) → IsProved s query certificate →
        (correspondence_of query).inj ≡ false →
        (i : Interpretation) → Satisfies s.declarations i → (a : Adversary) →
        AtMost (advantage (setting_of s.declarations i) query a s.game) zero_chance }
{
    stores_are_typed_at_each_visit();
    broken_says_its_sentence();
}
