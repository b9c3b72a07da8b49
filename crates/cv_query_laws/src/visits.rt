// What the visits of a run say of its copies: what stands above a visit was visited, one body of an `if` or a `find` is served at a
// copy, and positions of events are those of visits.

ghost use Rattle.std.specs.Prelude.{◌≡◌, ℕ, ◌+◌, ◌<◌, ◌≤◌, List, [], ◌∷◌, Some, length, take, true};
ghost use Rattle.cv_syntax_trees.specs.declared.head.Head.{Head};
ghost use Rattle.cv_syntax_trees.specs.Declarations.{Declaration};
ghost use Rattle.cv_syntax_trees.specs.Head.{weight};
ghost use Rattle.cv_syntax.specs.Layouts.{IsSyntax};
ghost use Rattle.cv_syntax_trees.specs.Tree.{Node, Tree, size, subtree};
ghost use Rattle.cv_meaning.specs.Tapes.{Tape};
ghost use Rattle.cv_meaning.specs.Interpretation.{Setting};
ghost use Rattle.cv_meaning.specs.Memory.{Happened, tuple};
ghost use Rattle.cv_meaning.specs.Serving.{Visit};
ghost use Rattle.cv_meaning.specs.Runs.{Adversary, Mode};
ghost use Rattle.cv_meaning.specs.Experiments.{run, visits_of_run};
ghost use Rattle.cv_meaning_laws.specs.adequacy.Broken.{StandsAt};
ghost use Rattle.cv_scope_rules.specs.Context.{Context, known_at};
ghost use Rattle.cv_scope_rules.specs.Made.{made_at};
ghost use Rattle.cv_scope_rules.specs.Sites.{Variable};
ghost use Rattle.cv_scope_rules.specs.Phrases.{HasConstantsOf, IsWellFormedContext};
ghost use Rattle.cv_query_laws.specs.correspondences.Happenings.{happening_at};
ghost use Rattle.cv_query_laws.specs.visits.Bodies.{LiesInBody};
ghost use Rattle.cv_query_laws.specs.visits.Events.{event_visits};
ghost use Rattle.cv_query_laws.specs.visits.Visited.{HasVisitAbove, head_is_visited};

/// A node that stands above a visited one was visited at its copy, and took the body in which the visited one lies. Events are found
/// again by this that a certificate names by their place alone.
pub fn what_stands_above_was_visited()
    ensures { (g : Setting) (m : Mode) (a : Adversary) (game : Tree) (t : Tape) (number : ℕ)
        (v : Visit) → StandsAt (visits_of_run g m a game t) number v → IsSyntax v.tree →
        (place : ℕ) (h : Head) (x y : Tree) → subtree game place ≡ Some (Node h x y) →
        weight h ≡ 1 → head_is_visited h ≡ true →
        place ≤ v.place → v.place < place + size (Node h x y) →
        HasVisitAbove g t (visits_of_run g m a game t) place (Node h x y) v.place v.before.indices }
{}

/// Each cell that is assigned at the end was assigned by a visit of one of its variable's definitions, at its tuple. Events behind the
/// definition of a cell are found again by this.
pub fn cells_are_assigned_at_visits()
    ensures { (g : Setting) (m : Mode) (a : Adversary) (game : Tree) (t : Tape) (x : ℕ) (u : List ℕ)
        (k : ℕ) → (run g m a game t).memory.store x u ≡ Some k → (number : ℕ) × (v : Visit)
        × StandsAt (visits_of_run g m a game t) number v × (made_at v.tree (Variable x) ≡ true)
        × (tuple v.before.indices ≡ u) }
{}

/// Two visits of a run at one tuple of the replications above an `if` or a `find` don't lie in different bodies of it. So two events
/// behind different bodies are of different copies.
pub fn one_body_is_served()
    ensures { (ds : List Declaration) (g : Setting) (m : Mode) (a : Adversary) (game : Tree)
        (t : Tape) (i j : ℕ) (v w : Visit) → HasConstantsOf ds g → IsWellFormedContext ds game →
        StandsAt (visits_of_run g m a game t) i v → StandsAt (visits_of_run g m a game t) j w →
        IsSyntax v.tree → IsSyntax w.tree →
        (place : ℕ) (node : Tree) (Γ : Context) → subtree game place ≡ Some node →
        known_at game place ≡ Some Γ →
        take (length Γ.replications) (tuple v.before.indices)
        ≡ take (length Γ.replications) (tuple w.before.indices) →
        (k l : ℕ) → LiesInBody node place k v.place → LiesInBody node place l w.place → k ≡ l }
{}

/// The event at a position is the one that the visit at this position executes, among the visits of event nodes; and two such visits
/// at one place and tuple stand at one position. So an event that is found by its node and copy is found once.
pub fn positions_are_visits()
    ensures events { (g : Setting) (m : Mode) (a : Adversary) (game : Tree) (t : Tape) (n : ℕ)
        (e : Happened) → StandsAt (run g m a game t).memory.events n e →
        (v : Visit) × StandsAt (event_visits (visits_of_run g m a game t)) n v
        × (happening_at g v ≡ e ∷ []) }
    ensures visits { (g : Setting) (m : Mode) (a : Adversary) (game : Tree) (t : Tape) (n : ℕ)
        (v : Visit) → StandsAt (event_visits (visits_of_run g m a game t)) n v →
        (e : Happened) × StandsAt (run g m a game t).memory.events n e
        × (happening_at g v ≡ e ∷ []) }
    ensures once { (g : Setting) (m : Mode) (a : Adversary) (game : Tree) (t : Tape) (i j : ℕ)
        (v w : Visit) → StandsAt (event_visits (visits_of_run g m a game t)) i v →
        StandsAt (event_visits (visits_of_run g m a game t)) j w → v.place ≡ w.place →
        tuple v.before.indices ≡ tuple w.before.indices → i ≡ j }
{}
