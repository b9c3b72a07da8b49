// The advantage of the context of a game has tapes.

ghost use Rattle.std.specs.Prelude.{ℕ, ◌<◌, Contains, List};
ghost use Rattle.cv_syntax_trees.specs.Declarations.{Declaration, Equiv};
ghost use Rattle.cv_syntax_trees.specs.Tree.{Tree};
ghost use Rattle.cv_meaning.specs.Experiments.{Experiment, mode_of};
ghost use Rattle.cv_meaning.specs.Interpretation.{Interpretation, setting_with};
ghost use Rattle.cv_meaning.specs.Runs.{Adversary, Mode};
ghost use Rattle.cv_meaning.specs.Satisfies.{Satisfies};
ghost use Rattle.cv_meaning.specs.Side.{CallNumber};
ghost use Rattle.cv_meaning_chances.specs.Fractions.{HasTapes};
ghost use Rattle.cv_meaning_chances.specs.Tests.{HasValues};
ghost use Rattle.cv_meaning.specs.contexts.ContextAdvantage.{context_advantage, context_chance};
ghost use Rattle.cv_meaning.specs.contexts.Groups.{Which};
ghost use Rattle.cv_meaning.specs.contexts.Sides.{Context, side_of};
ghost use Rattle.cv_meaning_chances.specs.values.Values.{HasValuesIn};
ghost use Rattle.cv_scope_rules.specs.typing.Parts.{IsTypedFile};
ghost use Rattle.cv_scene.specs.Reductions.{Reduction, context_of_game, in_game};
ghost use Rattle.cv_context_files.specs.tapes.Declared.{BodiesChooseFromDeclaredTypes, HasDeclaredTypes};

/// A side of an equivalence whose types are declared chooses its keys, and each cell of its calls, among some values.
pub fn sides_choose_among_values()
    ensures key { (ds : List Declaration) (i : Interpretation) (c : Context) (which : Which) →
        Satisfies ds i → HasDeclaredTypes ds c.equivalence →
        0 < (side_of ds i c which).key_size }
    ensures cells { (ds : List Declaration) (i : Interpretation) (c : Context) (which : Which) →
        Satisfies ds i → HasDeclaredTypes ds c.equivalence → (number : CallNumber) →
        HasValues ((side_of ds i c which).cells number) }
{}

/// So the context of a game has values with either side, where the game has: its chances have tapes, and its advantage
/// has. No condition of a step is needed for that.
pub fn context_advantages_have_tapes()
    ensures values { (r : Reduction) (i : Interpretation) (m : Mode) (which : Which) →
        Satisfies r.scene.declarations i → HasDeclaredTypes r.scene.declarations r.equivalence →
        HasValuesIn (in_game r i) m r.scene.game → HasValuesIn (setting_with r.scene.declarations i
        (side_of r.scene.declarations i (context_of_game r) which)) m (context_of_game r).game }
    ensures chances { (r : Reduction) (i : Interpretation) (x : Experiment) (a : Adversary)
        (which : Which) →
        Satisfies r.scene.declarations i → HasDeclaredTypes r.scene.declarations r.equivalence →
        HasValuesIn (in_game r i) (mode_of x) r.scene.game →
        HasTapes (context_chance r.scene.declarations i (context_of_game r) which x a) }
    ensures advantages { (r : Reduction) (i : Interpretation) (x : Experiment) (a : Adversary) →
        Satisfies r.scene.declarations i → HasDeclaredTypes r.scene.declarations r.equivalence →
        HasValuesIn (in_game r i) (mode_of x) r.scene.game →
        HasTapes (context_advantage r.scene.declarations i (context_of_game r) x a) }
{}

/// In a typed file the bodies of an equivalence choose from declared types: each `new` is of a fixed type.
pub fn typed_bodies_choose_declared_types()
    ensures { (ds : List Declaration) (game : Tree) (name : ℕ) (equivalence : Tree) →
        IsTypedFile ds game → Contains ds (Equiv name equivalence) →
        (which : Which) → BodiesChooseFromDeclaredTypes ds equivalence which }
{}
