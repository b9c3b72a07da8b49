// The law of the step that rewrites a term.

ghost use Rattle.std.specs.Prelude.{◌≡◌, ℕ, true};
ghost use Rattle.cv_syntax_trees.specs.Tree.{Tree};
ghost use Rattle.cv_scene.specs.Scenes.{Scene};
ghost use Rattle.cv_scene.specs.Terms.{is_term_at};
ghost use Rattle.cv_derive_laws.specs.stores.Holding.{IsReady};
ghost use Rattle.cv_derive_laws.specs.stores.Soundness.{DerivationsHold};
ghost use Rattle.cv_steps.specs.Steps.{Cost, Leads};
ghost use Rattle.cv_steps.specs.Rows.{rewrite_row};
ghost use Rattle.cv_steps.specs.Chances.{KeepsChances};

/// A term may be rewritten to one that a derivation at its place shows to be equal, where derivations hold:
/// both have one value at each visit of a run, so the construct does with the new term what it does with the
/// old one.
pub fn rewriting_keeps_chances()
    ensures { (s : Scene) (place : ℕ) (term by next : Tree) (cost : Cost) →
        IsReady s.declarations s.game → DerivationsHold s.declarations →
        is_term_at s place term ≡ true → rewrite_row s place term by ≡ Leads next cost →
        KeepsChances s.declarations s.game next }
{}
