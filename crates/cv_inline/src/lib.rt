// The next game of a context with the right side and what is drawn for it: worked cases, and what each drawn name
// is for.
#![tactic(auto)]

pub mod bodies;
pub mod terms;

ghost use Rattle.std.specs.Prelude.{◌≡◌, ℕ, ◌==◌, true, List, [], ◌∷◌, length, Some, codes};
ghost use Rattle.std.specs.List.{IsDistinct};
ghost use Rattle.cv_syntax_trees.specs.Tree.{subtree};
ghost use Rattle.cv_inline.specs.NextGame.{callings_of};
ghost use Rattle.cv_meaning.specs.contexts.Roles.{Role};
ghost use Rattle.cv_inline.specs.Draws.{
  Draw,
  drawn_for,
  drawn_texts,
  is_drawn,
  label_draws,
  labels_from,
  name_for,
  roles_of,
  same_find,
  same_role,
};
ghost use Rattle.cv_inline.specs.Worked.{
  bases_for,
  found_key,
  found_key_next,
  many_keys,
  many_keys_next,
  next_with,
  no_sender,
  no_sender_next,
  one_sender,
  one_sender_next,
  one_statement,
  one_statement_next,
  received,
  searching,
  searching_next,
  two_senders,
  two_senders_next,
};

/// The next game of a context with one sender and one receiver: the receiver looks for its message among those
/// that were sent, and what follows its check stands twice, at two places. With a second sender the find has a
/// second branch. Under a replicated key the branch compares the indices of the keys, and the cells that these
/// indices read stand first in its list. Of a find that has nothing to find its else is left. Two sites in one
/// statement come one after the other, the second behind each result of the first. In finds within finds the
/// branches stand by site, and then in the order of the text.
pub fn worked_next_games()
    ensures one_sender { next_with one_sender (71 ∷ 72 ∷ 73 ∷ 74 ∷ 75 ∷ []) ≡ one_sender_next }
    ensures then_place { subtree one_sender_next 47 ≡ Some received }
    ensures else_place { subtree one_sender_next 55 ≡ Some received }
    ensures two_senders { next_with two_senders (71 ∷ 72 ∷ 73 ∷ 74 ∷ 75 ∷ 76 ∷ 77 ∷ [])
        ≡ two_senders_next }
    ensures many_keys { next_with many_keys (71 ∷ 72 ∷ 73 ∷ 74 ∷ 75 ∷ []) ≡ many_keys_next }
    ensures found_key { next_with found_key (71 ∷ 72 ∷ 73 ∷ 74 ∷ 75 ∷ []) ≡ found_key_next }
    ensures no_sender { next_with no_sender (71 ∷ 72 ∷ 73 ∷ 74 ∷ 75 ∷ []) ≡ no_sender_next }
    ensures one_statement { next_with one_statement (71 ∷ 72 ∷ 73 ∷ 74 ∷ 75 ∷ [])
        ≡ one_statement_next }
    ensures finds_in_finds { next_with searching
        (71 ∷ 72 ∷ 73 ∷ 74 ∷ 75 ∷ 76 ∷ 77 ∷ 78 ∷ 79 ∷ 80 ∷ []) ≡ searching_next }
{}

/// What is drawn, by the names from which the drawn names come: the key, and then for each site the arguments,
/// what the body binds, and the indices of its finds.
pub fn worked_draws()
    ensures one_sender { bases_for one_sender ≡ 33 ∷ 37 ∷ 40 ∷ 41 ∷ 42 ∷ [] }
    ensures two_senders { bases_for two_senders ≡ 33 ∷ 37 ∷ 40 ∷ 41 ∷ 42 ∷ 42 ∷ 37 ∷ [] }
    ensures no_sender { bases_for no_sender ≡ 33 ∷ 40 ∷ 41 ∷ 43 ∷ 44 ∷ [] }
    ensures finds_in_finds { bases_for searching
        ≡ 33 ∷ 37 ∷ 43 ∷ 40 ∷ 41 ∷ 42 ∷ 48 ∷ 47 ∷ 46 ∷ 44 ∷ [] }
    ensures labels { labels_from (1 ∷ 3 ∷ []) 1 (label_draws (callings_of searching))
        ≡ 2 ∷ 4 ∷ [] }
{}

/// The texts of drawn names have numbers in a row, from one more than the greatest number of at most nine digits
/// without a leading zero that stands behind `_` at the end of a name. A number with which a text would be taken
/// is passed over.
pub fn worked_texts()
    ensures begins { drawn_texts (codes "k" ∷ codes "a" ∷ [])
        (codes "r" ∷ codes "x" ∷ codes "y" ∷ codes "z" ∷ codes "u" ∷ [])
        ≡ codes "r_1" ∷ codes "x_2" ∷ codes "y_3" ∷ codes "z_4" ∷ codes "u_5" ∷ [] }
    ensures goes_on { drawn_texts (codes "r_1" ∷ codes "x_12" ∷ codes "y_3" ∷ [])
        (codes "r" ∷ codes "x" ∷ []) ≡ codes "r_13" ∷ codes "x_14" ∷ [] }
    ensures no_numbers { drawn_texts (codes "a_007" ∷ codes "b_1234567890" ∷ codes "x_0" ∷ [])
        (codes "r" ∷ codes "x0" ∷ []) ≡ codes "r_1" ∷ codes "x0_2" ∷ [] }
    ensures passed_over { drawn_texts (codes "z_999999999" ∷ codes "r_1000000000" ∷ [])
        (codes "r" ∷ codes "x" ∷ []) ≡ codes "r_1000000001" ∷ codes "x_1000000002" ∷ [] }
{}

/// Where as many names are given as are drawn, and no name twice, what a name is drawn for is found again from
/// the name; and so it is with labels. So names that are drawn for different things differ.
pub fn drawn_names_have_their_roles()
    ensures names { (other : ℕ → Role) (ds : List Draw) (names : List ℕ) (role : Role) →
        length names ≡ length (roles_of ds) → IsDistinct ◌==◌ names →
        is_drawn same_role (roles_of ds) role ≡ true →
        drawn_for other (roles_of ds) names (name_for same_role (roles_of ds) names role) ≡ role }
    ensures labels { (other : ℕ → ℕ × ℕ) (finds : List (ℕ × ℕ)) (labels : List ℕ) (find : ℕ × ℕ) →
        length labels ≡ length finds → IsDistinct ◌==◌ labels →
        is_drawn same_find finds find ≡ true →
        drawn_for other finds labels (name_for same_find finds labels find) ≡ find }
{}
