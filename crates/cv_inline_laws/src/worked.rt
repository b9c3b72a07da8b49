// A worked context whose run meets what the laws of next games expect.

ghost use Rattle.std.specs.Prelude.{◌≡◌, length};
ghost use Rattle.cv_meaning.specs.Runs.{Events};
ghost use Rattle.cv_meaning.specs.Experiments.{visits_of_run};
ghost use Rattle.cv_inline.specs.NextGame.{inlined_calls_of};
ghost use Rattle.cv_inline.specs.Worked.{one_sender};
ghost use Rattle.cv_inline_laws.specs.runs.Texts.{Text};
ghost use Rattle.cv_inline_laws.specs.runs.Contexts.{IsTextOf, context_setting};
ghost use Rattle.cv_inline_laws.specs.worked.Worked.{asker, drawn, setting};

/// A context with one sender and one receiver has names, roles and tapes with its next game as the laws of
/// runs ask, and the visits of its run are as is expected, against an adversary that lets a message be sent
/// and another one be received: 13 visits, two of them calls. So nothing that these laws ask is out of reach.
pub fn one_sender_meets_what_is_expected()
    ensures { (T : Text) × (T.g ≡ setting) × (T.calls ≡ inlined_calls_of one_sender 50 drawn)
        × IsTextOf T Events asker one_sender.game
        × (length (visits_of_run (context_setting T) Events asker one_sender.game T.side_tape)
        ≡ 13) }
{}
