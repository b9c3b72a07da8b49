// Laws of the texts of calls: in a game that nothing refuses each site is apt and has its text, where drawn names are
// apart from the game's.

ghost use Rattle.std.specs.Prelude.{◌≡◌, ℕ, List, length, slice_get, None, Some, true};
ghost use Rattle.cv_meaning.specs.Interpretation.{Interpretation};
ghost use Rattle.cv_meaning.specs.Tapes.{Find_at};
ghost use Rattle.cv_group_rules.specs.Symbols.{symbols_of};
ghost use Rattle.cv_group_rules.specs.Faults.{IsAccepted};
ghost use Rattle.cv_scope_rules.specs.Phrases.{IsWellFormed};
ghost use Rattle.cv_scope_rules.specs.typing.Parts.{IsTypedGame};
ghost use Rattle.cv_typing_runs.specs.Games.{HasArguments, HasKnownNames};
ghost use Rattle.cv_scene.specs.Apt.{IsSiteApt};
ghost use Rattle.cv_scene.specs.Contexts.{AreAnswers};
ghost use Rattle.cv_scene.specs.Reductions.{Reduction, matching, sites};
ghost use Rattle.cv_scene.specs.Refusals.{first_refusal, new_of};
ghost use Rattle.cv_scene.specs.Scenes.{names};
ghost use Rattle.cv_scene.specs.Sites.{Site};
ghost use Rattle.cv_scene.specs.Terms.{has_index};
ghost use Rattle.cv_match_laws.specs.functions.Forms.{HasLeftForm};
ghost use Rattle.cv_meaning.specs.contexts.Roles.{Gone, Replication};
ghost use Rattle.cv_inline_laws.specs.runs.Texts.{Text};
ghost use Rattle.cv_context_runs.specs.visits.Fine.{HasRolesOf, has_label};
ghost use Rattle.cv_context_right_side.specs.texts.SiteTexts.{HasSiteText, IsTextOfGame, role_in_game};
ghost use Rattle.cv_context_right_side.specs.texts.Tagging.{tagging};
ghost use Rattle.cv_context_right_side.specs.texts.Worked.{tagged_text};

/// Where names of a well-formed game have the roles that it gives them, they have the roles that laws of contexts ask
/// for: no index of a game is a variable of it. The key goes.
pub fn names_have_the_roles_of_their_game()
    ensures names { (T : Text) (r : Reduction) → IsWellFormed r.scene.declarations r.scene.game →
        ((x : ℕ) → names x r.scene.game ≡ true → T.role x ≡ role_in_game r x) →
        ((l : ℕ) → has_label l r.scene.game ≡ true → (w : List ℕ) →
        T.side_tape (Find_at l w) ≡ T.game_tape (Find_at l w)) → HasRolesOf T r r.scene.game }
    ensures indices { (T : Text) (r : Reduction) → IsWellFormed r.scene.declarations r.scene.game →
        ((x : ℕ) → names x r.scene.game ≡ true → T.role x ≡ role_in_game r x) →
        (i : ℕ) → has_index r.scene.game i ≡ true → T.role i ≡ Replication }
    ensures key { (r : Reduction) (definition : ℕ × List (ℕ × ℕ)) →
        IsWellFormed r.scene.declarations r.scene.game →
        new_of r.scene.game r.key ≡ Some definition → role_in_game r r.key ≡ Gone }
{}

/// In a typed game that nothing refuses for an accepted equivalence each site is apt.
pub fn sites_of_games_are_apt()
    ensures { (r : Reduction) → HasArguments r.scene.declarations →
        IsWellFormed r.scene.declarations r.scene.game →
        IsTypedGame r.scene.declarations r.scene.game →
        HasKnownNames r.scene.declarations r.scene.game → HasLeftForm r.equivalence →
        IsAccepted (symbols_of r.scene.declarations) r.equivalence →
        first_refusal (matching r) ≡ None → AreAnswers r.scene (length (sites r)) r.answer →
        (l : ℕ) (s : Site) → slice_get (sites r) l ≡ Some s → IsSiteApt r s.replications l s }
{}

/// And each site has its text, where the text's names are those of the game: the key is read at indices above and at
/// variables of the game, as many as the key has.
pub fn sites_of_games_have_texts()
    ensures { (T : Text) (r : Reduction) → IsTextOfGame T r → HasArguments r.scene.declarations →
        IsWellFormed r.scene.declarations r.scene.game →
        IsTypedGame r.scene.declarations r.scene.game →
        HasKnownNames r.scene.declarations r.scene.game → HasLeftForm r.equivalence →
        IsAccepted (symbols_of r.scene.declarations) r.equivalence →
        first_refusal (matching r) ≡ None → AreAnswers r.scene (length (sites r)) r.answer →
        (l : ℕ) (s : Site) → slice_get (sites r) l ≡ Some s → HasSiteText T s }
{}

/// The small protocol with tags, which meets the other premises (`worked_reduction`), meets what is asked of names:
/// a text in which the key alone is drawn is one of its game.
pub fn worked_text()
    ensures { (i : Interpretation) → IsTextOfGame (tagged_text i) tagging }
{}
