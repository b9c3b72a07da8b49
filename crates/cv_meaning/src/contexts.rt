// Reduction contexts with a side of an equivalence, and their advantage.
ghost use Rattle.std.specs.Prelude.{◌≡◌, ℕ, ◌==◌, ◌&&◌, [], ◌∷◌, List, Some, None, map};
ghost use Rattle.cv_syntax_trees.specs.declared.head.Head.TheVariants.{Equivalence};
ghost use Rattle.cv_syntax_trees.specs.Declarations.{Declaration};
ghost use Rattle.cv_syntax_trees.specs.Tree.{Tree, Node};
ghost use Rattle.cv_meaning.specs.Tapes.{Tape, Key_at, Made_at, Picked_at, blank, count};
ghost use Rattle.cv_meaning.specs.Interpretation.{Interpretation, setting_of};
ghost use Rattle.cv_meaning.specs.Terms.{bit, is_one};
ghost use Rattle.cv_meaning.specs.Runs.{Adversary};
ghost use Rattle.cv_meaning.specs.Experiments.{Experiment};
ghost use Rattle.cv_meaning.specs.Chances.{chance};
ghost use Rattle.cv_syntax_trees.specs.Builders.{leaf};
ghost use Rattle.cv_meaning.specs.contexts.Groups.{Left, Right, side_group};
ghost use Rattle.cv_meaning.specs.contexts.Sites.{sites_of};
ghost use Rattle.cv_meaning.specs.contexts.Finds.{picks};
ghost use Rattle.cv_meaning.specs.contexts.Sides.{Context, side_of};
ghost use Rattle.cv_meaning.specs.contexts.ContextAdvantage.{context_advantage};
ghost use Rattle.cv_meaning.specs.contexts.Worked.{binding_again, binder_again, choosing, choosing_twice, kept_by, one_label, renewing, uneven, parity, answers, at_site, site, encrypting, encryption, chosen_after, encryption_equivalence, encrypter, was_authenticated, checked, authenticating, tag, check, call_with, keeper, one_put, one_of_two_branches, two_alike, bound_or_not, itself, put, get, last_of, picking, replicated_game};

/// An equivalence whose two sides are one group has the advantage zero in every context and every
/// experiment, and so has any context whose two sides answer alike, whatever the interpretation and
/// the adversary.
pub fn equal_sides_have_no_advantage()
    ensures one_group { (ds : List Declaration) (i : Interpretation) (p : ℕ) (group game : Tree)
        (fs : List ℕ) (x : Experiment) (a : Adversary) →
        (context_advantage ds i
        (record { game = game; equivalence = Node (Equivalence p) group group; functions = fs }) x a).good ≡ 0 }
    ensures equal_sides { (ds : List Declaration) (i : Interpretation) (c : Context) (x : Experiment)
        (a : Adversary) → side_of ds i c Left ≡ side_of ds i c Right →
        (context_advantage ds i c x a).good ≡ 0 }
{}

/// The parts of the two groups of an equivalence. Coins stand before the arguments on the left, and at
/// the front of the body on the right; a function without a replication has a bound of its own name.
pub fn worked_groups()
    ensures left { side_group Left encryption_equivalence ≡ record {
      key = (30, 5);
      functions =
          record { index = Some 23; bound = 24; coins = (34, 38) ∷ []; arguments = (31, 5) ∷ []; body = encryption }
          ∷ record { index = None; bound = 25; coins = []; arguments = []; body = leaf 30 }
          ∷ [];
    } }
    ensures right { side_group Right encryption_equivalence ≡ record {
      key = (30, 5);
      functions =
          record { index = Some 23; bound = 24; coins = []; arguments = (31, 5) ∷ []; body = chosen_after }
          ∷ record { index = None; bound = 25; coins = []; arguments = []; body = leaf 30 }
          ∷ [];
    } }
{}

/// The sites of a context by number, with the values of the parameters above each call. A call whose
/// function isn't told is no site, nor is a number without a call.
pub fn worked_sites()
    ensures { sites_of (setting_of [] parity) replicated_game (1 ∷ 0 ∷ 1 ∷ [])
        ≡ site 0 1 (2 ∷ 2 ∷ []) ∷ site 1 0 (2 ∷ []) ∷ [] }
{}

/// The coins of a call are those of its tuple and site, on either side, and each has a cell of the size of
/// its type. The key is that of the call's key tuple.
pub fn worked_coins()
    ensures left { (i : Interpretation) (t : Tape) →
        answers (encrypter i (encrypting ((34, 38) ∷ []) encryption)) t
        (call_with (0 ∷ []) (at_site 0 (1 ∷ [])) (1 ∷ [])
        ∷ call_with (1 ∷ []) (at_site 1 (0 ∷ [])) (0 ∷ []) ∷ [])
        ≡ i.table 40 (1 ∷ t (Key_at (0 ∷ [])) ∷ t (Made_at 34 (1 ∷ []) 0) ∷ [])
        ∷ i.table 40 (0 ∷ t (Key_at (1 ∷ [])) ∷ t (Made_at 34 (0 ∷ []) 1) ∷ []) ∷ [] }
    ensures right { (i : Interpretation) (t : Tape) →
        answers (encrypter i (encrypting [] chosen_after)) t
        (call_with (0 ∷ []) (at_site 0 (1 ∷ [])) (1 ∷ [])
        ∷ call_with (1 ∷ []) (at_site 1 (0 ∷ [])) (0 ∷ []) ∷ [])
        ≡ i.table 40 (1 ∷ t (Key_at (0 ∷ [])) ∷ t (Made_at 34 (1 ∷ []) 0) ∷ [])
        ∷ i.table 40 (0 ∷ t (Key_at (1 ∷ [])) ∷ t (Made_at 34 (0 ∷ []) 1) ∷ []) ∷ [] }
    ensures left_cells { (i : Interpretation) →
        (encrypter i (encrypting ((34, 38) ∷ []) encryption)).cells (at_site 1 (0 ∷ []))
        ≡ (Made_at 34 (0 ∷ []) 1, i.type_size 38) ∷ [] }
    ensures right_cells { (i : Interpretation) →
        (encrypter i (encrypting [] chosen_after)).cells (at_site 1 (0 ∷ []))
        ≡ (Made_at 34 (0 ∷ []) 1, i.type_size 38) ∷ [] }
    ensures key_size { (i : Interpretation) →
        (encrypter i (encrypting [] chosen_after)).key_size ≡ i.type_size 5 }
{}

/// Of a name that is bound twice the newest binding is meant, in the order of the text: an argument hides
/// the coin and the key of its name, and what a body binds hides the argument, in terms and in arrays.
pub fn worked_names()
    ensures over_coin { (i : Interpretation) (t : Tape) (v : ℕ) →
        answers (binder_again i (binding_again ((31, 38) ∷ []) 31 (leaf 31))) t
        (call_with [] (at_site 0 []) (v ∷ []) ∷ []) ≡ v ∷ [] }
    ensures over_key { (i : Interpretation) (t : Tape) (v : ℕ) →
        answers (binder_again i (binding_again [] 30 (leaf 30))) t
        (call_with [] (at_site 0 []) (v ∷ []) ∷ []) ≡ v ∷ [] }
    ensures coin_over_key { (i : Interpretation) (t : Tape) (v : ℕ) →
        answers (binder_again i (binding_again ((30, 38) ∷ []) 31 (leaf 30))) t
        (call_with [] (at_site 0 []) (v ∷ []) ∷ []) ≡ t (Made_at 30 [] 0) ∷ [] }
    ensures over_argument { (i : Interpretation) (t : Tape) (v : ℕ) →
        answers (binder_again i (binding_again [] 34 (choosing 38))) t
        (call_with [] (at_site 0 []) (v ∷ []) ∷ []) ≡ t (Made_at 34 [] 0) ∷ [] }
    ensures in_arrays { answers (kept_by parity (renewing one_put)) blank
        (put 0 (0 ∷ []) 0 ∷ get 1 ∷ []) ≡ 1 ∷ 1 ∷ [] }
{}

/// Where both branches of a body choose one variable, they share its cell. Where they gave it two types,
/// the cell would have the size of the first: a value that the second branch alone chooses on one tape of
/// two would be chosen on none. So a name has one type wherever a function binds it.
pub fn worked_types()
    ensures shared { (i : Interpretation) →
        (keeper i (choosing_twice 38)).cells (at_site 2 []) ≡ (Made_at 34 [] 2, i.type_size 38) ∷ [] }
    ensures two_types { (i : Interpretation) →
        (keeper i (choosing_twice 5)).cells (at_site 2 []) ≡ (Made_at 34 [] 2, i.type_size 38) ∷ [] }
    ensures chosen_on_none { chance ((keeper uneven (choosing_twice 5)).cells (at_site 2 []))
        (λ t. last_of (answers (keeper uneven (choosing_twice 5)) t (get 0 ∷ [])) == 1)
        ≡ record { good = 0; all = 1 } }
    ensures chosen_on_one { chance ((keeper uneven (choosing 5)).cells (at_site 2 []))
        (λ t. last_of (answers (keeper uneven (choosing 5)) t (get 0 ∷ [])) == 1)
        ≡ record { good = 1; all = 2 } }
{}

/// A find over earlier calls, whatever the values, the functions and the tape: a message is accepted
/// exactly where it was authenticated under the key and the function accepts it with its tag. It is not
/// accepted where a message was authenticated under another key alone, or none before. The other side
/// accepts each message that the function accepts.
pub fn worked_authentication()
    ensures authenticated { (i : Interpretation) (t : Tape) (m n z : ℕ) →
        answers (authenticating i was_authenticated) t (tag 0 m ∷ check 0 n z ∷ [])
        ≡ i.table 40 (m ∷ t (Key_at (0 ∷ [])) ∷ [])
        ∷ bit ((n == m) && is_one (i.table 41 (m ∷ t (Key_at (0 ∷ [])) ∷ z ∷ []))) ∷ [] }
    ensures other_key { (i : Interpretation) (t : Tape) (m z : ℕ) →
        answers (authenticating i was_authenticated) t (tag 0 m ∷ check 1 m z ∷ [])
        ≡ i.table 40 (m ∷ t (Key_at (0 ∷ [])) ∷ []) ∷ 0 ∷ [] }
    ensures no_message { (i : Interpretation) (t : Tape) (m z : ℕ) →
        answers (authenticating i was_authenticated) t (check 0 m z ∷ tag 0 m ∷ [])
        ≡ 0 ∷ i.table 40 (m ∷ t (Key_at (0 ∷ [])) ∷ []) ∷ [] }
    ensures other_side { (i : Interpretation) (t : Tape) (m z : ℕ) →
        answers (authenticating i checked) t (check 0 m z ∷ [])
        ≡ i.table 41 (m ∷ t (Key_at (0 ∷ [])) ∷ z ∷ []) ∷ [] }
{}

/// The candidates of a find stand by tuple, then by site, and then by branch, in whatever order the calls
/// were made, and each value of the find's cell picks one. Each find of a body has a cell of its own, by its
/// place, whatever its label. Two calls with one value are told apart by their sites, and a call finds itself. A plain name in a list is that of the call that searches.
pub fn worked_finds()
    ensures cells { (i : Interpretation) →
        (keeper i one_put).cells (at_site 2 []) ≡ (Picked_at 0 [] 2, i.choices) ∷ [] }
    ensures by_tuple { map (λ v. last_of (answers (keeper parity one_put) (picking v)
        (put 0 (1 ∷ []) 1 ∷ put 1 (0 ∷ []) 0 ∷ get 1 ∷ []))) (0 ∷ 1 ∷ 2 ∷ []) ≡ 0 ∷ 1 ∷ 0 ∷ [] }
    ensures by_length { map (λ v. last_of (answers (keeper parity one_put) (picking v)
        (put 0 (0 ∷ []) 1 ∷ put 3 [] 0 ∷ get 1 ∷ []))) (0 ∷ 1 ∷ 2 ∷ []) ≡ 0 ∷ 1 ∷ 0 ∷ [] }
    ensures by_site { map (λ v. last_of (answers (keeper parity one_put) (picking v)
        (put 1 (0 ∷ []) 0 ∷ put 0 (0 ∷ []) 1 ∷ get 1 ∷ []))) (0 ∷ 1 ∷ 2 ∷ []) ≡ 1 ∷ 0 ∷ 1 ∷ [] }
    ensures by_branch { map (λ v. last_of (answers (keeper parity one_of_two_branches) (picking v)
        (put 0 (0 ∷ []) 1 ∷ put 0 (1 ∷ []) 1 ∷ get 1 ∷ []))) (0 ∷ 1 ∷ 2 ∷ 3 ∷ []) ≡ 1 ∷ 0 ∷ 1 ∷ 0 ∷ [] }
    ensures each_half { count ((keeper parity one_put).cells (at_site 2 []))
        (λ t. last_of (answers (keeper parity one_put) t (put 0 (0 ∷ []) 0 ∷ put 0 (1 ∷ []) 1 ∷ get 1 ∷ [])) == 1) blank ≡ 1 }

    ensures own_cells { (i : Interpretation) → (keeper i one_label).cells (at_site 2 [])
        ≡ (Picked_at 0 [] 2, i.choices) ∷ (Picked_at 5 [] 2, i.choices) ∷ [] }
    ensures own_choices { chance ((keeper parity one_label).cells (at_site 2 []))
        (λ t. last_of (answers (keeper parity one_label) t (put 0 (0 ∷ []) 0 ∷ put 0 (1 ∷ []) 1 ∷ get 1 ∷ [])) == 1)
        ≡ record { good = 2; all = 4 } }

    ensures alike { answers (keeper parity two_alike) blank
        (put 0 (0 ∷ []) 1 ∷ put 1 (0 ∷ []) 1 ∷ get 1 ∷ []) ≡ 1 ∷ 1 ∷ 1 ∷ [] }
    ensures one_alone { answers (keeper parity two_alike) blank
        (put 0 (0 ∷ []) 1 ∷ get 1 ∷ []) ≡ 1 ∷ 0 ∷ [] }
    ensures bound_or_not { answers (keeper parity bound_or_not) blank
        (put 0 (0 ∷ []) 1 ∷ get 0 ∷ get 1 ∷ []) ≡ 1 ∷ 0 ∷ 1 ∷ [] }
    ensures itself { answers (keeper parity itself) blank
        (get 1 ∷ []) ≡ 1 ∷ [] }
{}
