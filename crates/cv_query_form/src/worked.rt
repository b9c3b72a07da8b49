ghost use Rattle.std.specs.Prelude.{◌≡◌, false, true, [], ◌∷◌, None, Some};
ghost use Rattle.cv_syntax_trees.specs.declared.head.Head.TheVariants.{Eq, No, SomeOf, Yield};
ghost use Rattle.cv_syntax_trees.specs.Tree.{Empty, Node, chain, lone};
ghost use Rattle.cv_syntax_trees.specs.Builders.{leaf, occurs};
ghost use Rattle.cv_query_form.specs.Tests.{first_refused, may_be_asked};
ghost use Rattle.cv_query_form.specs.Worked.{applied, asks, asks_alternatives, asks_some, begins_before, choices, game, or_more, secret, secret_once, two_variables};

/// Worked correspondences on the arguments of their left event, and on marks.
pub fn worked_correspondences()
    ensures distinct { may_be_asked game (begins_before false false two_variables) ≡ true }
    ensures no_argument { may_be_asked game (asks (occurs false 11 []) (lone No ∷ [])) ≡ true }
    ensures repeated { may_be_asked game
        (begins_before false false (leaf 21 ∷ leaf 22 ∷ leaf 21 ∷ [])) ≡ false }
    ensures constant { may_be_asked game (begins_before false false (leaf 20 ∷ [])) ≡ false }
    ensures applied { may_be_asked game (begins_before false false (applied ∷ [])) ≡ false }
    ensures both { may_be_asked game (begins_before true true two_variables) ≡ true }
    ensures left_alone { may_be_asked game (begins_before true false two_variables) ≡ false }
    ensures right_alone { may_be_asked game (begins_before false true two_variables) ≡ false }
    ensures some_marked { may_be_asked game
        (asks (occurs true 11 two_variables)
        (occurs false 12 [] ∷ Node Eq (leaf 21) (leaf 22) ∷ occurs true 12 [] ∷ [])) ≡ true }
    ensures term_alone { may_be_asked game
        (asks (occurs true 11 two_variables) (Node Eq (leaf 21) (leaf 22) ∷ [])) ≡ false }
{}

/// Worked correspondences with alternatives on the right: marks, and how many there may be.
pub fn worked_alternatives()
    ensures one_marked { may_be_asked game (asks_some (occurs true 11 two_variables)
        (Node SomeOf (occurs false 12 []) (occurs true 12 []))) ≡ true }
    ensures marked_within { may_be_asked game (asks (occurs true 11 two_variables)
        (lone No ∷ Node SomeOf (chain (occurs true 12 [] ∷ lone No ∷ [])) (lone No) ∷ []))
        ≡ true }
    ensures none_marked { may_be_asked game (asks_some (occurs true 11 two_variables)
        (Node SomeOf (occurs false 12 []) (occurs false 12 []))) ≡ false }
    ensures right_alone { may_be_asked game (asks_some (occurs false 11 two_variables)
        (Node SomeOf (occurs false 12 []) (occurs true 12 []))) ≡ false }
    ensures most { may_be_asked game (asks_alternatives (or_more 63 (lone No))) ≡ true }
    ensures too_many { may_be_asked game (asks_alternatives (or_more 64 (lone No))) ≡ false }
    ensures most_multiplied { may_be_asked game (asks_alternatives (chain (choices 6))) ≡ true }
    ensures too_many_multiplied { may_be_asked game (asks_alternatives
        (chain (or_more 4 (lone No) ∷ or_more 12 (lone No) ∷ []))) ≡ false }
    ensures far_too_many { may_be_asked game (asks_alternatives (chain (choices 300))) ≡ false }
    ensures refused { first_refused game
        (secret 4 ∷ asks_alternatives (or_more 64 (lone No)) ∷ secret 9 ∷ []) ≡ Some 2 }
{}

/// Worked queries of secrecy, and the first of several that may not be asked.
pub fn worked_secrets()
    ensures nonce { may_be_asked game (secret 4) ≡ true }
    ensures once { may_be_asked game (secret_once 4) ≡ true }
    ensures received { may_be_asked game (secret 10) ≡ true }
    ensures index { may_be_asked game (secret 9) ≡ false }
    ensures unknown { may_be_asked game (secret_once 20) ≡ false }
    ensures no_query { may_be_asked game (lone Yield) ≡ false }
    ensures none { first_refused game [] ≡ None }
    ensures all { first_refused game (secret 4 ∷ begins_before true true two_variables ∷ [])
        ≡ None }
    ensures first { first_refused game (secret 4 ∷ secret 9 ∷ secret 20 ∷ []) ≡ Some 2 }
    ensures second { first_refused game (secret 9 ∷ secret 4 ∷ []) ≡ Some 1 }
{}
