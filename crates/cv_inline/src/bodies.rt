// Laws of the right bodies of an equivalence that stand in a game in place of the calls.

ghost use Rattle.std.specs.Prelude.{◌≡◌, ℕ, List, [], ◌∷◌, Some};
ghost use Rattle.cv_syntax_trees.specs.Tree.{Tree};
ghost use Rattle.cv_meaning.specs.Side.{Arrays, OracleCall};
ghost use Rattle.cv_meaning.specs.Memory.{Happened, Store};
ghost use Rattle.cv_meaning.specs.Terms.{value};
ghost use Rattle.cv_meaning.specs.Serving.{serve};
ghost use Rattle.cv_meaning.specs.contexts.Groups.{Function};
ghost use Rattle.cv_meaning.specs.contexts.Frames.{Frame};
ghost use Rattle.cv_meaning.specs.contexts.BodyTerms.{body_value};
ghost use Rattle.cv_meaning.specs.contexts.Bodies.{body_answer, function_called, reply, with_arguments};
ghost use Rattle.cv_meaning.specs.contexts.Inlined.{Scope, TheKey, in_game, inlined_body, inlined_call};
ghost use Rattle.cv_inline.specs.bodies.Inlining.{Inlining, Naming};
ghost use Rattle.cv_inline.specs.bodies.Accepted.{IsFineBody, IsFineCall, IsFineTerm};
ghost use Rattle.cv_inline.specs.bodies.Related.{
  ArgumentsStay,
  ComesTo,
  RunPair,
  IsAsBefore,
  IsCallToBeMade,
  IsServing,
  IsUnderWay,
  KeepsMemories,
  MadeUnder,
  at_store,
  oracles,
  this_call,
  with_made,
};

/// While a call is served, each term of its right body has in the next game the value that it has for the
/// side. A right body, of `new`, `let`, `if` and `find` at any number of sites, comes in the next game to
/// what follows a result whose value is the side's answer, there and in later stores, whichever branch of
/// which `find` is taken on the way; and so it is with the arguments' `let` before it.
pub fn right_bodies_are_served()
    ensures terms { (p : Inlining) (nm : Naming p) (made : MadeUnder) (key : List ℕ) (Σ : Scope)
        (e : Frame) (n : Store) (q : ℕ) (term : Tree) → IsServing p nm made key Σ e n q →
        IsFineTerm p Σ term →
        value p.g p.at n (in_game p.d p.c Σ term) ≡ body_value p.g e term }
    ensures bodies { (p : Inlining) (nm : Naming p) (i : RunPair) (made : MadeUnder) (key : List ℕ)
        (es : List Happened) (br : Arrays) (before : Store) (follows : Tree → Tree) →
        IsUnderWay p nm i made key before →
        (Σ : Scope) (e : Frame) (q : ℕ) (body : Tree) (n : Store) →
        IsFineBody p i.callers Σ q body → IsServing p nm made key Σ e n q →
        IsAsBefore p nm before n → (place branch : ℕ) (chosen : List ℕ) →
        ComesTo p nm i made es br before follows
        (body_answer (oracles p i) i.side_tape e q body)
        (serve p.g i.game_tape (inlined_body p.d i.callers p.c Σ q body follows)
        place branch chosen (at_store p es br n)) }
    ensures calls { (p : Inlining) (nm : Naming p) (i : RunPair) (made : MadeUnder) (key : List ℕ)
        (es : List Happened) (br : Arrays) (before : Store) (follows : Tree → Tree) →
        IsUnderWay p nm i made key before →
        (Σ : Scope) (e : Frame) (xs : List (ℕ × ℕ)) (arguments body : Tree) (vs : List ℕ)
        (n : Store) → IsFineCall p i.callers Σ xs arguments body →
        IsServing p nm made key Σ e n 0 → IsAsBefore p nm before n →
        ArgumentsStay p nm before arguments vs → (place branch : ℕ) (chosen : List ℕ) →
        ComesTo p nm i made es br before follows
        (body_answer (oracles p i) i.side_tape (with_arguments e xs vs) 0 body)
        (serve p.g i.game_tape (inlined_call p.d i.callers p.c Σ xs arguments body follows)
        place branch chosen (at_store p es br n)) }
{}

/// Where the memories of a context with the right side and of the next game are related, and the context
/// comes to a call, the text that stands for the call in the next game comes to what follows, with a result
/// whose value is the side's reply; and there the memories are related again, this call among those that
/// were made.
pub fn a_call_keeps_the_memories_related()
    ensures { (p : Inlining) (nm : Naming p) (answer : ℕ → ℕ) (i : RunPair) (made : MadeUnder)
        (key : List ℕ) (es : List Happened) (br : Arrays) (m : Store) (ar : Arrays) (n : Store)
        (follows : Tree → Tree) → IsCallToBeMade p nm answer i made key m ar n →
        (f : Function) (arguments : Tree) (vs : List ℕ) →
        function_called (oracles p i) (this_call p) ≡ Some f → f.coins ≡ [] →
        IsFineCall p i.callers ((i.group.key.0, TheKey) ∷ []) f.arguments arguments f.body →
        ArgumentsStay p nm n arguments vs → (place branch : ℕ) (chosen : List ℕ) →
        KeepsMemories p nm answer i (with_made made (this_call p) key) es br m n follows
        (reply (oracles p i) i.side_tape ar
        (record { key = key; number = this_call p; arguments = vs }))
        (serve p.g i.game_tape
        (inlined_call p.d i.callers p.c ((i.group.key.0, TheKey) ∷ []) f.arguments arguments f.body
        follows) place branch chosen (at_store p es br n)) }
{}
