// The types from which the equivalences of a file choose are declared, so the advantages of contexts have tapes.

ghost use Rattle.std.specs.Prelude.{◌≡◌, ℕ, Contains, List, Ok};
ghost use Rattle.cv_syntax_trees.specs.Declarations.{Equiv};
ghost use Rattle.cv_syntax_trees.specs.Tree.{Tree};
ghost use Rattle.cv_meaning.specs.Experiments.{Experiment, mode_of};
ghost use Rattle.cv_meaning.specs.Interpretation.{Interpretation};
ghost use Rattle.cv_meaning.specs.Runs.{Adversary};
ghost use Rattle.cv_meaning.specs.Satisfies.{Satisfies};
ghost use Rattle.cv_meaning_chances.specs.Fractions.{HasTapes};
ghost use Rattle.cv_meaning.specs.contexts.ContextAdvantage.{context_advantage};
ghost use Rattle.cv_meaning_chances.specs.values.Values.{HasValuesIn};
ghost use Rattle.cv_parse_notation.specs.declared.sign.Sign.{Sign};
ghost use Rattle.cv_parse.specs.Parsed.{Parsed, parsed};
ghost use Rattle.cv_scope_rules.specs.typing.Parts.{IsTypedFile};
ghost use Rattle.cv_scene.specs.Reductions.{Reduction, context_of_game, in_game};
ghost use Rattle.cv_context_files.specs.tapes.Declared.{HasDeclaredTypes};

/// By the rules of names the keys and coins of each equivalence of a file, a collision among them, are of declared
/// types, and by typing so is what its bodies choose.
pub fn equivalences_of_files_have_declared_types()
    ensures { (limit : ℕ) (signs : List Sign) (p : Parsed) → parsed limit signs ≡ Ok p →
        IsTypedFile p.declarations p.game → (name : ℕ) (equivalence : Tree) →
        Contains p.declarations (Equiv name equivalence) →
        HasDeclaredTypes p.declarations equivalence }
{}

/// So the advantage of the context of a game, for an equivalence of a typed file, has tapes, where the choices and tests
/// of the game have values: those of a file's game have, and each accepted step keeps that.
pub fn contexts_of_files_have_tapes()
    ensures { (limit : ℕ) (signs : List Sign) (p : Parsed) → parsed limit signs ≡ Ok p →
        IsTypedFile p.declarations p.game → (r : Reduction) (name : ℕ) →
        r.scene.declarations ≡ p.declarations →
        Contains p.declarations (Equiv name r.equivalence) →
        (i : Interpretation) → Satisfies p.declarations i → (x : Experiment) (a : Adversary) →
        HasValuesIn (in_game r i) (mode_of x) r.scene.game →
        HasTapes (context_advantage r.scene.declarations i (context_of_game r) x a) }
{}
