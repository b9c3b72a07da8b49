// Which steps settle a game: what may be one, in the order of the strategy, and the measure that each lowers.
#![tactic(auto)]

ghost use Rattle.std.specs.Prelude.{◌≡◌, map};
ghost use Rattle.std.specs.List.{AllByRecursion};
ghost use Rattle.cv_syntax_trees.specs.Tree.{Tree, size};
ghost use Rattle.cv_scene.specs.lines.Truths.{is_truth_of_sides};
ghost use Rattle.cv_settling_rules.specs.Assignments.{unlettings, unnewings};
ghost use Rattle.cv_settling_rules.specs.Bodies.{mergers, prunings};
ghost use Rattle.cv_settling_rules.specs.Comparisons.{birthdays, freshes, guesses};
ghost use Rattle.cv_settling_rules.specs.Conjuncts.{is_among};
ghost use Rattle.cv_settling_rules.specs.Equations.{of_sides, rewritings};
ghost use Rattle.cv_settling_rules.specs.Measure.{measure_of};
ghost use Rattle.cv_settling_rules.specs.Order.{candidates};
ghost use Rattle.cv_settling_rules.specs.Spots.{IsSpot, Spot, places_from, spots};
ghost use Rattle.cv_settling_rules.specs.Worked.{all_kinds, bodies, by_chance, compared, merged, of_compared, rewritten, scene_of, small, unlet, unnewed};

/// The nodes of a game that candidates are looked for at are those at its places, in their order, each with what stands above it.
pub fn spots_are_places()
    ensures places { (game : Tree) → map (λ (v : Spot). v.place) (spots game)
        ≡ places_from 0 (size game) }
    ensures nodes { (game : Tree) → AllByRecursion (IsSpot game) (spots game) }
{}

/// What the equations of truth values make of a term, from left to right, are the terms with which it stands in one, and no others.
pub fn truths_are_listed()
    ensures { (t r : Tree) → is_among (of_sides t) r ≡ is_truth_of_sides t r }
{}

/// The candidates of small games, of each kind by itself: bodies that are not reached, tests, variables that are chosen, `let`s, terms
/// that an equation changes, and equalities that may hold by chance alone.
pub fn worked_candidates()
    ensures bodies { AllByRecursion (λ c. prunings c.0 ≡ c.1) bodies }
    ensures merged { AllByRecursion (λ c. mergers c.0 ≡ c.1) merged }
    ensures unnewed { AllByRecursion (λ c. unnewings c.0 ≡ c.1) unnewed }
    ensures unlet { AllByRecursion (λ c. unlettings c.0 ≡ c.1) unlet }
    ensures rewritten { AllByRecursion (λ c. rewritings (scene_of c.0) ≡ c.1) rewritten }
    ensures birthdays { AllByRecursion (λ c. birthdays c.0 ≡ c.1) by_chance }
    ensures guesses { AllByRecursion (λ c. guesses c.0 ≡ c.2) by_chance }
    ensures freshes { AllByRecursion (λ c. freshes c.0 ≡ c.3) by_chance }
    ensures order { candidates (scene_of small) ≡ all_kinds }
    ensures measure { measure_of (scene_of compared) ≡ of_compared }
{}
