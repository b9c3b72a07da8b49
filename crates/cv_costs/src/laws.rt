ghost use Rattle.std.specs.Prelude.{◌≡◌, ℕ, ◌*◌, List, [], ◌∷◌};
ghost use Rattle.cv_meaning.specs.Interpretation.{Interpretation};
ghost use Rattle.cv_steps.specs.values.Values.{product_value};
ghost use Rattle.cv_costs.specs.Factors.{factors_of};

/// The factors of parameters have the value of their product, in whatever order the parameters are declared.
pub fn factors_have_the_value()
    ensures none { (order : List ℕ) (i : Interpretation) →
        product_value i (factors_of order []) ≡ 1 }
    ensures more { (order : List ℕ) (i : Interpretation) (n : ℕ) (ns : List ℕ) →
        product_value i (factors_of order (n ∷ ns))
        ≡ i.parameter_value n * product_value i (factors_of order ns) }
{}
