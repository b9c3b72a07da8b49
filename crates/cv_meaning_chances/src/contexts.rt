// Laws of contexts and of the sides that answer their calls.

ghost use Rattle.std.specs.Prelude.{◌≡◌, true, false, [], ◌∷◌};
ghost use Rattle.std.specs.List.{AllByRecursion, IsDistinct};
ghost use Rattle.cv_syntax_trees.specs.declared.head.Head.TheVariants.{Equivalence};
ghost use Rattle.cv_syntax_trees.specs.Tree.{Tree, Node};
ghost use Rattle.cv_meaning.specs.Tapes.{Tape, Key_at, same_cell, cells_of, blank};
ghost use Rattle.cv_meaning.specs.Side.{Arrays, CallNumber, OracleCall};
ghost use Rattle.cv_meaning.specs.Interpretation.{Interpretation, setting_of};
ghost use Rattle.cv_meaning.specs.Runs.{Real, Random};
ghost use Rattle.cv_meaning.specs.Experiments.{Breaks, Guesses};
ghost use Rattle.cv_meaning_laws.specs.Worked.{adversary, never_query, declared_file};
ghost use Rattle.cv_meaning.specs.contexts.Groups.{Left, Right};
ghost use Rattle.cv_meaning.specs.contexts.Frames.{Frame};
ghost use Rattle.cv_meaning.specs.contexts.Finds.{Oracles, Pick, picks};
ghost use Rattle.cv_meaning.specs.contexts.Made.{WasMade, have_own_cells};
ghost use Rattle.cv_meaning.specs.contexts.Sides.{side_from};
ghost use Rattle.cv_meaning.specs.contexts.ContextAdvantage.{context_chance, context_advantage};
ghost use Rattle.cv_meaning.specs.contexts.OwnCells.{IsOfCall};
ghost use Rattle.cv_meaning.specs.contexts.Worked.{parity, answers, at_site, site, side_at, tag, call_with, bound_twice, constant_group, keeper, get, guessing, is_key, guess_equivalence, guess_context, guesses_zero, tells_the_test, authentication_context, forges, asks};

/// A side's answer to a call depends on the key and on the listed cells of the call alone. Each cell is
/// listed once, and is no other call's.
pub fn answers_are_local()
    ensures reads { (o : Oracles) (t u : Tape) (arrays : Arrays) (call : OracleCall) →
        AllByRecursion (λ c. t c ≡ u c) (Key_at call.key ∷ cells_of ((side_from o).cells call.number)) →
        (side_from o).reply t arrays call ≡ (side_from o).reply u arrays call }
    ensures once { (o : Oracles) (n : CallNumber) →
        IsDistinct same_cell (cells_of ((side_from o).cells n)) }
    ensures own { (o : Oracles) (n : CallNumber) →
        AllByRecursion (IsOfCall n) (cells_of ((side_from o).cells n)) }
{}

/// Where the list of each branch of a find has a cell at the branch's own index, each candidate is a call
/// that was made under the key of the call that searches.
pub fn only_calls_that_were_made_are_found()
    ensures { (o : Oracles) (e : Frame) (branches : Tree) → have_own_cells branches ≡ true →
        AllByRecursion (λ (c : Pick). WasMade e c.number) (picks o e branches) }
{}

/// A name that nothing binds has the value 0, unless it is a constant. A site that the side doesn't have
/// is answered by 0.
pub fn worked_bodies()
    ensures bound_twice { answers (keeper parity bound_twice) blank
        (get 1 ∷ get 0 ∷ call_with [] (at_site 7 []) (1 ∷ []) ∷ []) ≡ 1 ∷ 1 ∷ 0 ∷ [] }
    ensures constant { (i : Interpretation) →
        answers (side_at (setting_of declared_file i) (site 0 0 [] ∷ []) constant_group) blank
        (call_with [] (at_site 0 []) [] ∷ []) ≡ i.table 6 [] ∷ [] }
{}

/// Whether a message is a key of size 2: with the side that tells it, the event comes on 1 of 2 tapes, and
/// with the side that denies it on none. A test of the answer tells the sides apart in the same way, and
/// a test of a random value does not. With one side in both places the advantage is zero.
pub fn worked_guess()
    ensures left { context_chance [] parity (guess_context guess_equivalence) Left (Breaks never_query)
        (adversary 1 guesses_zero) ≡ record { good = 1; all = 2 } }
    ensures right { context_chance [] parity (guess_context guess_equivalence) Right (Breaks never_query)
        (adversary 1 guesses_zero) ≡ record { good = 0; all = 2 } }
    ensures advantage { context_advantage [] parity (guess_context guess_equivalence) (Breaks never_query)
        (adversary 1 guesses_zero) ≡ record { good = 2; all = 4 } }
    ensures real { context_advantage [] parity (guess_context guess_equivalence) (Guesses (Real false 15))
        (adversary 3 tells_the_test) ≡ record { good = 8; all = 16 } }
    ensures random { context_advantage [] parity (guess_context guess_equivalence) (Guesses (Random false 15))
        (adversary 3 tells_the_test) ≡ record { good = 0; all = 16 } }
    ensures same { context_advantage [] parity (guess_context (Node (Equivalence 1) (guessing is_key) (guessing is_key)))
        (Breaks never_query) (adversary 1 guesses_zero) ≡ record { good = 0; all = 4 } }
{}

/// A tag that is right under one of two keys is accepted on half of the tapes by the side that checks it,
/// and on none by the side that searches for its message. Where the tag was asked for, both accept it.
pub fn worked_context()
    ensures forged { context_advantage [] parity authentication_context (Breaks never_query)
        (adversary 2 forges) ≡ record { good = 4; all = 8 } }
    ensures asked { context_chance [] parity authentication_context Right (Breaks never_query)
        (adversary 3 asks) ≡ record { good = 4; all = 4 } }
    ensures asked_on_both { context_advantage [] parity authentication_context (Breaks never_query)
        (adversary 3 asks) ≡ record { good = 0; all = 8 } }
{}
