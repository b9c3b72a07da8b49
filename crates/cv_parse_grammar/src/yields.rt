// What is spelled has what its rows give it, and the names that it uses are told by their roles.

ghost use Rattle.std.specs.Prelude.{ℕ, Bool, IsTrue, List};
ghost use Rattle.cv_syntax_trees.specs.Tree.{Tree};
ghost use Rattle.cv_parse_notation.specs.declared.sign.Sign.{Sign};
ghost use Rattle.cv_parse_notation.specs.Spells.{IsSort};
ghost use Rattle.cv_parse_grammar.specs.declared.role.Role.{Role};
ghost use Rattle.cv_parse_grammar.specs.Names.{Uses};
ghost use Rattle.cv_parse_grammar.specs.Phrases.{Sort};
ghost use Rattle.cv_parse_grammar.specs.Rules.{heads, rule};
ghost use Rattle.cv_parse_grammar.specs.yields.Yields.{AllUsed, Yields};

/// What the values of each row have, where the values one level down have it and each name is such in its
/// role, all that is spelled has, where each of its names is such.
pub fn rows_are_enough()
    ensures { (named : Role → ℕ → Bool) (has : Sort → Tree → Bool) →
        ((s : Sort) (t : Tree) →
        Yields (λ r x. IsTrue (named r x)) (λ z a. IsTrue (has z a)) (rule s) t → IsTrue (has s t)) →
        (n : ℕ) (s : Sort) (tokens : List Sign) (t : Tree) (uses : Uses) (rest : List Sign) →
        IsSort heads rule n s tokens t uses rest → AllUsed (λ r x. IsTrue (named r x)) uses → IsTrue (has s t) }
{}
