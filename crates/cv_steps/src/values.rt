// What sums of costs are worth in an interpretation, and laws of adding a cost to a sum.
ghost use Rattle.std.specs.Prelude.{◌≡◌, ℕ, ◌+◌, ◌*◌, ◌^◌, ◌<◌, ◌++◌, [], ◌∷◌, Bool, false, true, List, codes, length, map, sum_by, take};
ghost use Rattle.std.specs.List.{AllByRecursion, IsDistinct};
ghost use Rattle.cv_meaning.specs.Chances.{AtMost, Chance, Same, zero_chance};
ghost use Rattle.cv_meaning.specs.Interpretation.{Interpretation};
ghost use Rattle.cv_meaning_chances.specs.Fractions.{HasTapes, plus, times};
ghost use Rattle.cv_bound.specs.declared.terms.Term.{Term};
ghost use Rattle.cv_steps.specs.values.Orders.{are_like_terms, bare};
ghost use Rattle.cv_bound.specs.Sums.{AllFit, added, coefficients, counted, terms_of, with_terms};
ghost use Rattle.cv_bound.specs.Texts.{cost_text, listed_text, sum_text};
ghost use Rattle.cv_steps.specs.values.Worked.{birthday, guesses, name, names, twos};
ghost use Rattle.cv_steps.specs.values.Values.{Advantages, collision_value, cost_value, sum_value, term_value};

use cv_bound::{Collision, Cost};

/// Adding a cost to a sum adds its value, whatever the interpretation and the advantages of the contexts
/// are, also where a type is empty. Where the fractions have a value, so where no type is empty and the
/// advantages have tapes, what they bound is bounded by the new sum.
pub fn adding_keeps_the_value()
    ensures value { (i : Interpretation) (a : Advantages) (s : List Term) (c : Cost)
        (secrecy : Bool) → Same (sum_value i a (added s c secrecy))
        (plus (sum_value i a s) (cost_value i a c secrecy)) }
    ensures tapes { (i : Interpretation) (a : Advantages) (s : List Term) (c : Cost)
        (secrecy : Bool) → HasTapes (plus (sum_value i a s) (cost_value i a c secrecy)) →
        HasTapes (sum_value i a (added s c secrecy)) }
    ensures bound { (i : Interpretation) (a : Advantages) (s : List Term) (c : Cost)
        (secrecy : Bool) (p : Chance) →
        HasTapes (plus (sum_value i a s) (cost_value i a c secrecy)) →
        AtMost p (plus (sum_value i a s) (cost_value i a c secrecy)) →
        AtMost p (sum_value i a (added s c secrecy)) }
{}

/// A sum without terms has the value 0, and terms behind others add their value. A collision whose
/// coefficient is a sum has the value of both. For secrecy the collisions of a cost count twice. A sum
/// has tapes where its terms have, and a collision where its type isn't empty.
pub fn values_of_sums()
    ensures none { (i : Interpretation) (a : Advantages) → sum_value i a [] ≡ zero_chance }
    ensures both { (i : Interpretation) (a : Advantages) (s t : List Term) →
        sum_value i a (s ++ t) ≡ plus (sum_value i a s) (sum_value i a t) }
    ensures merged { (i : Interpretation) (c : Collision) (m n : ℕ) →
        Same (collision_value i (record c { times = m + n }))
        (plus (collision_value i (record c { times = m }))
        (collision_value i (record c { times = n }))) }
    ensures secrecy { (i : Interpretation) (a : Advantages) (cs : List Collision) →
        Same (cost_value i a (Cost.Collisions cs) true)
        (times 2 (cost_value i a (Cost.Collisions cs) false)) }
    ensures tapes { (i : Interpretation) (a : Advantages) (s : List Term) →
        AllByRecursion (λ t. HasTapes (term_value i a t)) s → HasTapes (sum_value i a s) }
    ensures size { (i : Interpretation) (c : Collision) →
        0 < i.type_size c.over.0 → HasTapes (collision_value i c) }
{}

/// The terms of a sum keep their places, and new ones stand behind them; only coefficients change. In a
/// sum to which costs were added no two collisions differ only in their coefficient. A collision that
/// counts twice is one with twice its coefficient. Where no two terms of a cost are alike, they are those
/// of its sum.
pub fn terms_of_sums()
    ensures places { (s : List Term) (c : Cost) (secrecy : Bool) →
        take (length s) (map bare (added s c secrecy)) ≡ map bare s }
    ensures apart { (s : List Term) (c : Cost) (secrecy : Bool) →
        IsDistinct are_like_terms s → IsDistinct are_like_terms (added s c secrecy) }
    ensures twice { (s : List Term) (c : Collision) → with_terms s (counted true c)
        ≡ with_terms s (counted false (record c { times = 2 * c.times })) }
    ensures alone { (c : Cost) →
        IsDistinct are_like_terms (terms_of c false) → added [] c false ≡ terms_of c false }
{}

/// Adding a cost adds its coefficients to those of the sum. Where all of them together have at most 64
/// bits, each has. So a cost can be added where it has few enough.
pub fn coefficients_of_sums()
    ensures added { (s : List Term) (c : Cost) (secrecy : Bool) →
        coefficients (added s c secrecy) ≡ coefficients s + coefficients (terms_of c secrecy) }
    ensures collisions { (cs : List Collision) → coefficients (terms_of (Cost.Collisions cs) false)
        ≡ sum_by (λ c. c.times) cs }
    ensures secrecy { (cs : List Collision) → coefficients (terms_of (Cost.Collisions cs) true)
        ≡ 2 * sum_by (λ c. c.times) cs }
    ensures fits { (s : List Term) → coefficients s < 2 ^ 64 → AllFit s }
{}

/// Worked sums: an advantage and a collision, with their text; the same with two equal collisions more,
/// for secrecy; the two texts of a cost with equal collisions; and a value, where each parameter is 2 and
/// each type has two values.
pub fn worked_sums()
    ensures none { sum_text names [] ≡ codes "0" }
    ensures events { sum_text names (added (added [] (Cost.Advantage 1 (name 0)) false)
        (Cost.Collisions (birthday ∷ [])) false) ≡ codes "Adv(uf, C1) + NB^2/(2|message|)" }
    ensures secrecy { sum_text names (added (added [] (Cost.Advantage 1 (name 0)) true)
        (Cost.Collisions (birthday ∷ guesses 3 ∷ guesses 2 ∷ [])) true)
        ≡ codes "Adv(uf, C1, real) + Adv(uf, C1, random) + 2*NB^2/(2|message|) + 10*1/|message|" }
    ensures added { cost_text names (Cost.Collisions (guesses 1 ∷ guesses 1 ∷ []))
        ≡ codes "2*1/|message|" }
    ensures listed { listed_text names (Cost.Collisions (guesses 1 ∷ guesses 1 ∷ []))
        ≡ codes "1/|message| + 1/|message|" }
    ensures value { (a : Advantages) →
        cost_value twos a (Cost.Collisions (birthday ∷ [])) false ≡ record { good = 4; all = 4 } }
{}
