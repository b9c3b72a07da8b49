// The law of bounded calls: a run of a context chooses as many keys and makes as many calls as its shape says at most.
ghost use Rattle.cv_meaning.specs.Experiments.{visits_of_run};
ghost use Rattle.cv_meaning.specs.Interpretation.{Setting};
ghost use Rattle.cv_meaning.specs.Runs.{Adversary, Mode};
ghost use Rattle.cv_meaning.specs.Tapes.{Tape};
ghost use Rattle.cv_scope_rules.specs.Phrases.{HasConstantsOf};
ghost use Rattle.cv_scene.specs.Reductions.{Reduction, context_of_game};
ghost use Rattle.cv_context.specs.products.Shapes.{shape_of};
ghost use Rattle.cv_context_left_side.specs.refusals.Reducible.{IsReducible};
ghost use Rattle.cv_context_files.specs.counts.Counts.{IsWithinShape};

/// Whatever answers the calls of a game's context, and whoever plays: its run on a tape is within the context's
/// shape.
pub fn runs_of_contexts_are_within_their_shapes()
    ensures { (r : Reduction) (g : Setting) (m : Mode) (a : Adversary) (t : Tape) →
        IsReducible r → HasConstantsOf r.scene.declarations g →
        IsWithinShape g.interpretation (context_of_game r).functions
        (shape_of r.scene r.equivalence r.key)
        (visits_of_run g m a (context_of_game r).game t) }
{}
