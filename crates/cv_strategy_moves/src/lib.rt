// Laws of moves: what can be told of a move before its step is tried.
#![tactic(auto)]

ghost use Rattle.std.specs.Prelude.{◌≡◌, ℕ, List, ◌∷◌, [], Some, false, nat_lt, true};
ghost use Rattle.std.specs.List.{AllByRecursion};
ghost use Rattle.cv_syntax_trees.specs.Builders.{leaf};
ghost use Rattle.cv_syntax_trees.specs.Tree.{Tree, size};
ghost use Rattle.cv_match_laws.specs.Worked.{game, matching};
ghost use Rattle.cv_match_laws.specs.answers.Drawn.{next_game};
ghost use Rattle.cv_meaning.specs.contexts.Groups.{Right, side_group};
ghost use Rattle.cv_scene.specs.Instances.{Matching};
ghost use Rattle.cv_scene.specs.LeftTerms.{HasLeftTerms};
ghost use Rattle.cv_scene.specs.Reductions as reductions;
ghost use Rattle.cv_scene.specs.Reductions.{Reduction};
ghost use Rattle.cv_scene.specs.Refusals.{first_refusal, first_use, has_key};
ghost use Rattle.cv_scene.specs.Scenes.{Scene};
ghost use Rattle.cv_scope_rules.specs.Phrases.{Inputs, Term, is_phrase};
ghost use Rattle.cv_scope_rules.specs.declared.position.Position.TheVariants.{Anywhere};
ghost use Rattle.cv_scope_rules.specs.typing.Signature.{is_fixed_in};
ghost use Rattle.cv_settling_rules.specs.Conjuncts.{is_among};
ghost use Rattle.cv_settling_rules.specs.Equations.{by_truths};
ghost use Rattle.cv_steps_laws.specs.crypto.Conditions.{equivalence_of};
ghost use Rattle.cv_steps_laws.specs.crypto.Steps.{is_next};
ghost use Rattle.cv_strategy_moves.specs.Demands.{Demands, HasTerms, advice};
ghost use Rattle.cv_strategy_moves.specs.Truths.{shorter};
ghost use Rattle.cv_strategy_moves.specs.Uses.{first_outside, is_read_openly, reads_of_key};
ghost use Rattle.cv_strategy_moves.specs.Worked.{assigned, sent, truths, twice, within};
ghost use Rattle.cv_edit_names.specs.Splitting.{split_game};
ghost use Rattle.cv_rule_array_names.specs.Row.{array_names_step};
ghost use Rattle.cv_rule_array_names.specs.Sites.{has_names};
ghost use Rattle.cv_strategy_rules.specs.Legal.{LeadsTo};
ghost use Rattle.cv_strategy_rules.specs.Moves.{ArrayRename, Crypto, MayBeMade, Move, Unlet, advised_by};

/// What a move asks of the game: one for which it isn't so may not be made.
pub fn moves_demand()
    ensures { (s : Scene) (m : Move) → MayBeMade s m → Demands s m }
{}

/// Where `new` may not choose the right side's key, no next game is one, whatever names and labels are drawn for it: for left
/// bodies that are terms, as those of accepted equivalences are (`accepted_equivalences_have_left_terms`).
pub fn unfixed_keys_lead_to_no_game()
    ensures { (r : Reduction) (names labels : List ℕ) → is_phrase Inputs r.scene.game ≡ true →
        HasLeftTerms r.scene.declarations (reductions.matching r).group →
        has_key (reductions.matching r) ≡ true →
        is_fixed_in r.scene.declarations (side_group Right r.equivalence).key.1 ≡ false →
        is_next r.scene.declarations (next_game r names labels) ≡ false }
{}

/// What stands outside instances is told read by read: the first use of a key outside them is the first of its reads, outside `defined`
/// lists and conditions, around which no instance stands.
pub fn uses_of_keys_stand_in_no_instance()
    ensures { (M : Matching) → first_use M Anywhere 0 M.scene.game
        ≡ first_outside (reads_of_key M false Anywhere 0 M.scene.game) }
{}

/// In an accepted file the key of a step that may be made is read outside `defined` lists and conditions, and `new` may choose
/// the right side's key.
pub fn keys_are_read_and_chosen()
    ensures read { (s : Scene) (e x : ℕ) (equivalence : Tree) → HasTerms s equivalence →
        equivalence_of s e ≡ Some equivalence → MayBeMade s (Crypto e x) →
        is_read_openly x Anywhere s.game ≡ true }
    ensures fixed { (s : Scene) (e x : ℕ) (equivalence : Tree) → HasTerms s equivalence →
        equivalence_of s e ≡ Some equivalence → MayBeMade s (Crypto e x) →
        is_fixed_in s.declarations (side_group Right equivalence).key.1 ≡ true }
{}

/// A new name for each definition is advised exactly where a key has several and is read; that a `let` goes, exactly where its whole
/// term is the first use of a key outside all instances.
pub fn advice_is_by_definitions_and_uses()
    ensures { (M : Matching) → advised_by M (first_refusal M) ≡ advice M }
{}

/// Whether the conditions of `SArename` hold doesn't depend on which names are given, if there is a new one for each definition.
pub fn other_names_meet_the_conditions()
    ensures { (s : Scene) (x : ℕ) (names others : List ℕ) (next : Tree) →
        LeadsTo s (array_names_step x names) next → has_names s x others ≡ true →
        LeadsTo s (array_names_step x others) (split_game x others s.game) }
{}

/// All equations of truth values that make a term smaller make one term of it: so at each place the first of these candidates stands
/// for all. Where it isn't legal, no later one is.
pub fn shorter_truths_are_one()
    ensures { (s : Scene) (term other : Tree) → is_phrase Term term ≡ true →
        is_among (by_truths s term) other ≡ true → nat_lt (size other) (size term) ≡ true →
        other ≡ shorter term }
{}

/// In a small protocol all reads of the key stand in instances, but one that is sent. Where a `let` gives the key, that the `let` goes is
/// advised; where the key has two definitions, a name for each. And small truths with what they become.
pub fn worked_moves()
    ensures inside { reads_of_key (matching (game [])) false Anywhere 0 (game []) ≡ within }
    ensures sent { reads_of_key (matching (game (leaf 40 ∷ []))) false Anywhere 0 (game (leaf 40 ∷ []))
        ≡ sent }
    ensures assigned { advice (matching assigned) ≡ Unlet 50 ∷ [] }
    ensures twice { advice (matching twice) ≡ ArrayRename 40 ∷ [] }
    ensures shorter { AllByRecursion (λ c. shorter c.0 ≡ c.1) truths }
{}
