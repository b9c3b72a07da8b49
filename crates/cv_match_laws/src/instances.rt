// Laws of sites: what is found there, which variables stand for coins, and whose cells they have.

ghost use Rattle.std.specs.Prelude.{◌≡◌, ◌+◌, ◌<◌, ◌≤◌, ◌==◌, ℕ, List, Some, false, slice_get, true};
ghost use Rattle.cv_syntax_trees.specs.Declarations.{Declaration};
ghost use Rattle.cv_syntax_trees.specs.Tree.{Tree};
ghost use Rattle.cv_meaning.specs.Tapes.{Made_at, New_at};
ghost use Rattle.cv_scope_rules.specs.Phrases.{Term, is_phrase};
ghost use Rattle.cv_scope_rules.specs.declared.position.Position.{Position};
ghost use Rattle.cv_scene.specs.Sights.{variable_of};
ghost use Rattle.cv_scene.specs.lines.Given.{term_for, with_given};
ghost use Rattle.cv_scene.specs.Instances.{Call, Matching, call_at};
ghost use Rattle.cv_scene.specs.Refusals.{uses};
ghost use Rattle.cv_scene.specs.Sites.{Site, sites_in};
ghost use Rattle.cv_scene.specs.LeftTerms.{HasLeftTerms, reads_no_array};
ghost use Rattle.cv_scene.specs.Reductions.{Reduction, matching, sites};
ghost use Rattle.cv_scene.specs.Cells.{at_left};
ghost use Rattle.cv_match_laws.specs.instances.Calls.{IsCallAt};
ghost use Rattle.cv_match_laws.specs.instances.Uses.{IsUsedAt, uses_in, uses_outside};

/// What is found at a node is an instance of a function of the group, which stands at the position that is told.
pub fn calls_are_of_instances()
    ensures { (ds : List Declaration) (M : Matching) (t : Tree) (c : Call) →
        HasLeftTerms ds M.group → call_at M t ≡ Some c → IsCallAt ds M t c }
{}

/// A tree uses a variable outside its sites, or in the term of one of them. So a variable that it uses only as
/// often as the body at a site has a name, for which a term with the variable stands there, is used at this
/// site alone; and there what stands for another name that the body reads doesn't use it.
pub fn coins_are_used_at_their_site()
    ensures apart { (M : Matching) (w : Position) (rs : List (ℕ × ℕ)) (p x : ℕ) (t : Tree) →
        uses x t ≡ uses_outside M w x t + uses_in x (sites_in M w rs p t) }
    ensures there { (M : Matching) (w : Position) (rs : List (ℕ × ℕ)) (p : ℕ) (t : Tree)
        (x z number : ℕ) (s : Site) (names : List ℕ) (terms given body : Tree) →
        slice_get (sites_in M w rs p t) number ≡ Some s → with_given names terms body ≡ s.term →
        term_for names terms z ≡ Some given → 0 < uses x given → is_phrase Term body ≡ true →
        reads_no_array body ≡ true → uses x t ≡ uses z body →
        (uses_outside M w x t ≡ 0) × IsUsedAt x number (sites_in M w rs p t)
        × (uses x s.term ≡ uses z body) }
    ensures alone { (names : List ℕ) (terms given other body : Tree) (x y z : ℕ) →
        term_for names terms z ≡ Some given → 0 < uses y given → (x == z) ≡ false →
        term_for names terms x ≡ Some other → is_phrase Term body ≡ true →
        reads_no_array body ≡ true → 0 < uses x body →
        uses y (with_given names terms body) ≤ uses z body → uses y other ≡ 0 }
{}

/// A variable that stands for a coin at a site, and that the game uses only as often as the body uses the
/// coin, is not the key's; and its cell is what the call of this site draws for the coin.
pub fn coins_have_the_cells_of_calls()
    ensures cells { (r : Reduction) (number j : ℕ) (s : Site) (coin : ℕ × ℕ) (term : Tree) (y : ℕ)
        (w : List ℕ) → HasLeftTerms r.scene.declarations (matching r).group →
        slice_get (sites r) number ≡ Some s → slice_get s.call.function.coins j ≡ Some coin →
        slice_get s.call.instance.coins j ≡ Some term → variable_of term ≡ Some y →
        uses y r.scene.game ≡ uses coin.0 s.call.function.body →
        at_left r (New_at y w) ≡ Made_at coin.0 w number }
    ensures key { (r : Reduction) (number j : ℕ) (s : Site) (coin : ℕ × ℕ) (term : Tree) (y : ℕ) →
        HasLeftTerms r.scene.declarations (matching r).group →
        slice_get (sites r) number ≡ Some s → slice_get s.call.function.coins j ≡ Some coin →
        slice_get s.call.instance.coins j ≡ Some term → variable_of term ≡ Some y →
        uses y r.scene.game ≡ uses coin.0 s.call.function.body → (y == r.key) ≡ false }
{}
