ghost use Rattle.std.specs.Prelude.{◌≡◌, ◌≤◌, ◌↔◌, ℕ, Bool, List, None, Some, length, map, min, option_map, slice_get};
ghost use Rattle.std.specs.List.{AllByRecursion};
ghost use Rattle.cv_syntax_trees.specs.Declarations.{Declaration};
ghost use Rattle.cv_syntax_trees.specs.Tree.{Tree, size};
ghost use Rattle.cv_meaning.specs.Tapes.{Tape};
ghost use Rattle.cv_meaning.specs.Interpretation.{Setting};
ghost use Rattle.cv_meaning.specs.Runs.{Adversary, Mode};
ghost use Rattle.cv_meaning.specs.Experiments.{run, visits_of_run};
ghost use Rattle.cv_directory.specs.Definitions.{definitions_of, entries_of, most};
ghost use Rattle.cv_scope_rules.specs.Context.{known_at};
ghost use Rattle.cv_scope_rules.specs.Phrases.{HasConstantsOf, IsWellFormed, IsWellFormedContext};
ghost use Rattle.cv_path.specs.Copies.{copies_at, few_copies_at, most_factors};
ghost use Rattle.cv_derive_facts.specs.Definitions.{IsBehind, definition_entry, places, places_of, site_entry};
ghost use Rattle.cv_derive_facts.specs.Facts.{AreFactsOf, facts_at, terms_of};
ghost use Rattle.cv_scope_rules.specs.Behind.{sites_of};
ghost use Rattle.cv_derive_facts.specs.Promises.{CandidatesStand, PlaceStands, SitesStand, VisitSitesStand};
ghost use Rattle.cv_scope_rules.specs.Above.{stands_at};

/// The facts with their kinds are those that stand at a place, by their terms. There is a place exactly
/// below the size. In a well-formed game or context no condition is missing, so that the facts are all that
/// array scope knows at the place.
pub fn facts_stand_in_the_game()
    ensures terms { (game : Tree) (place : ℕ)
        → AreFactsOf (stands_at game place) (facts_at game place) }
    ensures places { (game : Tree) (place : ℕ)
        → (stands_at game place ≡ None) ↔ (size game ≤ place) }
    ensures all { (ds : List Declaration) (game : Tree) (place : ℕ) → IsWellFormedContext ds game →
        terms_of (stands_at game place) ≡ terms_of (known_at game place) }
{}

/// The sites of a variable stand at the places of its definitions. In a well-formed game or context what
/// stands behind each is what stands at the place of the process behind it. A directory of a well-formed
/// game lists the same places, with the same replications above them, and so it says how many there are
/// and what the first one is.
pub fn sites_stand_in_the_game()
    ensures places { (game : Tree) (x : ℕ) → places (sites_of game x) ≡ places_of x 0 game }
    ensures behind { (ds : List Declaration) (game : Tree) (x : ℕ) → IsWellFormedContext ds game →
        AllByRecursion (IsBehind game) (sites_of game x) }
    ensures directory { (ds : List Declaration) (game : Tree) (x : ℕ) → IsWellFormed ds game →
        map definition_entry (definitions_of game x) ≡ map site_entry (sites_of game x) }
    ensures count { (ds : List Declaration) (large : ℕ → Bool) (game : Tree) (x : ℕ) →
        IsWellFormed ds game → (entries_of large game).count x ≡ min (length (sites_of game x)) most }
    ensures first { (ds : List Declaration) (large : ℕ → Bool) (game : Tree) (x : ℕ) →
        IsWellFormed ds game → option_map definition_entry ((entries_of large game).first x)
        ≡ slice_get (map site_entry (sites_of game x)) 0 }
{}

/// At each visited place of a run of a well-formed game or context, and at the places of the construct's own
/// terms, the facts that a derivation may cite are true and the cells that are directly defined are assigned,
/// then and later, and the indices are those of the replications above. So it is, at each tuple of a branch
/// of a visited `find`, in the branch's list, in its condition where the cells of the list are assigned, and
/// in its body where the branch is a candidate, taken or not: what is said there stands at the places of the
/// list and of the condition, and at that of the body. And behind the only definition of the variable of an
/// assigned cell what stands there holds at the cell's tuple, before each visit and at the end.
pub fn facts_hold_where_they_stand()
    ensures places { (ds : List Declaration) (g : Setting) (m : Mode) (a : Adversary) (game : Tree)
        (t : Tape) → HasConstantsOf ds g → IsWellFormedContext ds game →
        AllByRecursion (PlaceStands g game) (visits_of_run g m a game t) }
    ensures candidates { (ds : List Declaration) (g : Setting) (m : Mode) (a : Adversary)
        (game : Tree) (t : Tape) → HasConstantsOf ds g → IsWellFormedContext ds game →
        AllByRecursion (CandidatesStand g game) (visits_of_run g m a game t) }
    ensures sites { (ds : List Declaration) (g : Setting) (m : Mode) (a : Adversary) (game : Tree)
        (t : Tape) → HasConstantsOf ds g → IsWellFormedContext ds game →
        AllByRecursion (VisitSitesStand g game) (visits_of_run g m a game t) }
    ensures last { (ds : List Declaration) (g : Setting) (m : Mode) (a : Adversary) (game : Tree)
        (t : Tape) → HasConstantsOf ds g → IsWellFormedContext ds game →
        SitesStand g game (run g m a game t).memory }
{}

/// A place of a well-formed game or context has at most 16 factors, eight for replications and eight for the indices of a
/// branch. So its copies are counted: that there are none says that there is no such place (`places_are_below_the_size`).
pub fn places_have_few_factors()
    ensures few { (ds : List Declaration) (game : Tree) (place : ℕ) (factors : List ℕ) →
        IsWellFormedContext ds game → copies_at game place ≡ Some factors →
        length factors ≤ most_factors }
    ensures counted { (ds : List Declaration) (game : Tree) (place : ℕ) →
        IsWellFormedContext ds game → few_copies_at game place ≡ copies_at game place }
{}
