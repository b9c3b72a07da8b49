// A worked step by an equivalence: a small protocol meets the premises of the laws of right games.

ghost use Rattle.std.specs.Prelude.{◌≡◌};
ghost use Rattle.cv_meaning.specs.Advantage.{chance_of};
ghost use Rattle.cv_meaning.specs.Chances.{AtMost, distance};
ghost use Rattle.cv_meaning.specs.Experiments.{Breaks};
ghost use Rattle.cv_meaning.specs.Interpretation.{Interpretation, setting_of};
ghost use Rattle.cv_meaning.specs.Runs.{Adversary};
ghost use Rattle.cv_meaning.specs.contexts.ContextAdvantage.{context_advantage};
ghost use Rattle.cv_scene.specs.Reductions.{context_of_game};
ghost use Rattle.cv_inline_names_laws.specs.drawn.Named.{NamedContext};
ghost use Rattle.cv_match_laws.specs.answers.Drawn.{AreDrawnFor, next_game};
ghost use Rattle.cv_context_laws.specs.types.Typed.{variable_type};
ghost use Rattle.cv_context_right_side.specs.Right.{IsRightGame, IsStepOfFile};
ghost use Rattle.cv_context_right_side.specs.worked.Worked.{
  accepted_query,
  accepting,
  declarations,
  drawn_labels,
  drawn_names,
  next,
};

/// A protocol in which one party sends messages with tags and another accepts those with a right tag meets what is asked
/// of a step of a file by authentication, and names and a label are drawn for its next game, which is written out. So its
/// context is a right game, and no adversary has more advantage in breaking the query of what is accepted from one game
/// to the next than in telling the two sides of the context apart.
pub fn worked_right_game()
    ensures step { IsStepOfFile accepting }
    ensures drawn { AreDrawnFor accepting drawn_names drawn_labels }
    ensures next { next_game accepting drawn_names drawn_labels ≡ next }
    ensures right { (i : Interpretation) → (c : NamedContext)
        × IsRightGame accepting c (variable_type accepting.scene.game)
        × (c.g ≡ setting_of declarations i) }
    ensures costs { (i : Interpretation) (a : Adversary) → AtMost
        (distance
        (chance_of (setting_of declarations i) (Breaks accepted_query) a accepting.scene.game)
        (chance_of (setting_of declarations i) (Breaks accepted_query) a next))
        (context_advantage declarations i (context_of_game accepting) (Breaks accepted_query) a) }
{}
