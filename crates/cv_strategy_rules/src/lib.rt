// Which step comes next where steps are looked for: the one that settles the game, one that closes a query, or a move.
#![tactic(auto)]

ghost use Rattle.std.specs.Prelude.{◌≡◌, ℕ, List, ◌∷◌, [], None, length, true};
ghost use Rattle.cv_syntax_trees.specs.Tree.{Tree};
ghost use Rattle.cv_scope_rules.specs.Phrases.{Inputs, is_phrase};
ghost use Rattle.cv_scene.specs.Pruning.{Else, Part};
ghost use Rattle.cv_scene.specs.Scenes.{Scene};
ghost use Rattle.cv_steps.specs.Changes.{change_at, without_body};
ghost use Rattle.cv_steps.specs.Elementary.{prune_step, rewrite_step};
ghost use Rattle.cv_rule_birthday.specs.guess.Guessing.{first_other_read};
ghost use Rattle.cv_settling_rules.specs.Candidates.{Candidate, Fresh, Guess, Merge, Prune, Rewrite, Unlet, Unnew};
ghost use Rattle.cv_settling_rules.specs.Comparisons.{compares_both, compares_one, is_equality, places_of};
ghost use Rattle.cv_settling_rules.specs.Variables.{reads_of};
ghost use Rattle.cv_settling_rules.specs.Worked.{image, own};
ghost use Rattle.cv_strategy_rules.specs.Coming.{ComesNext, IsStuck, IsTried, Kind};
ghost use Rattle.cv_strategy_rules.specs.Demands.{Demands};
ghost use Rattle.cv_strategy_rules.specs.Legal.{LeadsTo};
ghost use Rattle.cv_strategy_rules.specs.Places.{compared_places, equality_places, guessed_places};
ghost use Rattle.cv_strategy_rules.specs.Settling.{IsFirst, IsSettled, Settles};
ghost use Rattle.cv_strategy_rules.specs.Worked.{alike, asked, at_rest, certain, guessing, read_once, shorter, unused};

/// What comes next is tried: nothing that comes next stands before it.
pub fn what_comes_next_is_tried()
    ensures { (s : Scene) (closed : List ℕ) (kind : Kind) (step : Tree) →
        ComesNext s closed kind step → IsTried s closed kind step }
{}

/// By whatever derivation a term is rewritten, it leads to the game with the other term in its place: whether the measure is lowered
/// depends on the two terms alone.
pub fn rewriting_leads_to_one_game()
    ensures { (s : Scene) (place : ℕ) (term by next : Tree) →
        LeadsTo s (rewrite_step place term by) next → next ≡ change_at s.game place (λ old. term) }
{}

/// By whatever derivation a body is dropped, it leads to the game without the body.
pub fn pruning_leads_to_one_game()
    ensures { (s : Scene) (place : ℕ) (part : Part) (by next : Tree) →
        LeadsTo s (prune_step place part by) next →
        next ≡ change_at s.game place (without_body place part) }
{}

/// What a step that settles a game asks of it: a candidate for which it isn't so may be left out.
pub fn settling_steps_demand()
    ensures { (s : Scene) (c : Candidate) → Settles s c → Demands s c }
{}

/// The places of candidates that rest on collisions are those at which the rules' own conditions hold.
pub fn places_are_those_of_the_rules()
    ensures birthday { (game : Tree) (x : ℕ) → places_of (compares_both x) game
        ≡ compared_places x game }
    ensures guess { (game : Tree) (x : ℕ) → places_of (compares_one x) game ≡ guessed_places x game }
    ensures fresh { (game : Tree) → places_of is_equality game ≡ equality_places game }
{}

/// A variable is read in equalities alone exactly where as many of them have a side that reads it as there are reads: what can be
/// counted along one walk is what `guess` asks.
pub fn reads_in_equalities_are_counted()
    ensures alone { (game : Tree) (x : ℕ) → is_phrase Inputs game ≡ true →
        length (places_of (compares_one x) game) ≡ reads_of game x →
        first_other_read (places_of (compares_one x) game) x game ≡ None }
    ensures counted { (game : Tree) (x : ℕ) → is_phrase Inputs game ≡ true →
        first_other_read (places_of (compares_one x) game) x game ≡ None →
        length (places_of (compares_one x) game) ≡ reads_of game x }
{}

/// The steps that settle small games: a body that is not reached, a test with equal bodies, a value that nothing names, a `let` that is
/// read once, a term that an equation makes smaller, and an equality of a random value, which nothing else reads or which is
/// compared with what was known before. A game where nothing is left to do is settled, and stuck where a query is open.
pub fn worked_games()
    ensures prune { IsFirst certain (Prune 2 Else) }
    ensures merge { IsFirst alike (Merge 2) }
    ensures unnew { IsFirst unused (Unnew 4) }
    ensures unlet { IsFirst read_once (Unlet 10) }
    ensures rewrite { IsFirst shorter (Rewrite 3 (image (own 9))) }
    ensures guess { IsFirst (guessing []) (Guess 4 (4 ∷ [])) }
    ensures fresh { IsFirst (guessing (own 4 ∷ [])) (Fresh 4) }
    ensures settled { IsSettled at_rest }
    ensures stuck { IsStuck asked [] }
{}
