// Laws below the soundness of derivations: what holds in the stores in which lines are read.

ghost use Rattle.std.specs.Prelude.{◌≡◌, ℕ, List, Some, true};
ghost use Rattle.std.specs.List.{All, AllByRecursion};
ghost use Rattle.cv_syntax_trees.specs.Declarations.{Declaration};
ghost use Rattle.cv_syntax_trees.specs.Tree.{Tree};
ghost use Rattle.cv_meaning.specs.Tapes.{Tape, blank};
ghost use Rattle.cv_meaning.specs.Interpretation.{Interpretation, Setting, setting_of};
ghost use Rattle.cv_meaning.specs.Cells.{cells};
ghost use Rattle.cv_meaning.specs.Runs.{Adversary, Mode};
ghost use Rattle.cv_meaning.specs.Experiments.{visits_of_run};
ghost use Rattle.cv_meaning.specs.Satisfies.{Satisfies};
ghost use Rattle.cv_meaning_laws.specs.adequacy.Counted.{tapes_of};
ghost use Rattle.cv_meaning_laws.specs.adequacy.Typed.{HasSort};
ghost use Rattle.cv_scope_rules.specs.Phrases.{HasConstantsOf, IsWellFormed, IsWellFormedContext};
ghost use Rattle.cv_syntax_trees.specs.declared.sites.sort.Sort.{Sort};
ghost use Rattle.cv_scope_rules.specs.typing.Parts.{IsTypedGame};
ghost use Rattle.cv_scope_rules.specs.typing.Signature.{sort_of};
ghost use Rattle.cv_typing_runs.specs.Games.{HasArguments, HasDeclaredSorts, HasKnownNames, context_of, sort_of_meaning};
ghost use Rattle.cv_scene.specs.Scenes.{Scene};
ghost use Rattle.cv_scene.specs.Terms.{above_at, is_term_at, replications_at, signature_in};
ghost use Rattle.cv_derive_laws.specs.stores.Reached.{
  CandidateSitesStand,
  HasTypes,
  PlaceCellsBetween,
  SiteCellsBetween,
};

use cv_derive_facts::facts_hold_where_they_stand;
use cv_scope_runs::{cells_are_assigned_once, games_are_contexts, runs_only_grow};

/// At a visited `find` what stands behind the only definition of the variable of an assigned cell holds at
/// the cell's tuple in the store of each candidate, taken or not: of its own index variables too, whose
/// cells were not assigned before.
pub fn sites_stand_at_candidates()
    ensures { (ds : List Declaration) (g : Setting) (m : Mode) (a : Adversary) (game : Tree)
        (t : Tape) → HasConstantsOf ds g → IsWellFormedContext ds game →
        AllByRecursion (CandidateSitesStand g game) (visits_of_run g m a game t) }
{
    facts_hold_where_they_stand();
    cells_are_assigned_once();
}

/// Before each visit of a run of a typed game, on each tape that is counted, variables have values of their
/// types, and at indices below their parameters alone.
pub fn stores_are_typed_at_each_visit()
    ensures { (ds : List Declaration) (game : Tree) → HasArguments ds → IsWellFormed ds game →
        IsTypedGame ds game → HasKnownNames ds game → HasDeclaredSorts ds game →
        (i : Interpretation) → Satisfies ds i → (m : Mode) (a : Adversary) →
        All (λ t. AllByRecursion (HasTypes ds game i) (visits_of_run (setting_of ds i) m a game t))
        (tapes_of (cells (setting_of ds i) m a game) blank) }
{
    games_are_contexts();
    runs_only_grow();
}

/// A term that may stand at a place of a well-formed game has the sort there that typing computes.
pub fn terms_at_places_have_sorts()
    ensures { (s : Scene) (place : ℕ) (term : Tree) → HasArguments s.declarations →
        IsWellFormed s.declarations s.game → is_term_at s place term ≡ true → (S : Sort) ×
        (sort_of (signature_in s) (above_at s place) term ≡ Some S) ×
        HasSort (context_of s.declarations s.game) (replications_at s place) term
        (sort_of_meaning S) }
{}

/// The cells that are directly defined at a visited place are assigned in the store before the visit, also where
/// their indices are read in a later store, as in the condition of a branch with a tuple's values: they
/// read what is assigned. So it is behind the only definition of the variable of an assigned cell.
pub fn cells_stand_between_stores()
    ensures places { (ds : List Declaration) (g : Setting) (m : Mode) (a : Adversary) (game : Tree)
        (t : Tape) → HasConstantsOf ds g → IsWellFormedContext ds game →
        AllByRecursion (PlaceCellsBetween g game) (visits_of_run g m a game t) }
    ensures sites { (ds : List Declaration) (g : Setting) (m : Mode) (a : Adversary) (game : Tree)
        (t : Tape) → HasConstantsOf ds g → IsWellFormedContext ds game →
        AllByRecursion (SiteCellsBetween g game) (visits_of_run g m a game t) }
{}
