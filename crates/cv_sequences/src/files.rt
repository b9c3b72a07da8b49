// What an accepted file gives the laws of sequences of games, and laws of the kernel: steps with a rule are sound, and from one table of
// names and one list of steps comes one sequence.
ghost use Rattle.std.specs.Prelude.{◌≡◌, ◌≤◌, ℕ, List, Ok, Some, length};
ghost use Rattle.cv_syntax_trees.specs.Declarations.{Declaration};
ghost use Rattle.cv_syntax_trees.specs.Tree.{Tree};
ghost use Rattle.cv_accept.specs.Accepted.{Content, most_bytes, read_of};
ghost use Rattle.cv_accept.specs.Accepted.{most_pool};
ghost use Rattle.cv_library.specs.Givens.{Given};
ghost use Rattle.cv_derive_laws.specs.stores.Soundness.{DerivationsHold, DerivedBodiesAreUnreached};
ghost use Rattle.cv_sequences.specs.Chains.{IsFileOf};

/// An accepted file of no more bytes than a file may have, with a library or without one, meets all that the law of sequences asks of the file and its
/// first game, where derivations hold and derived bodies are never reached.
pub fn accepted_files_begin_sequences()
    ensures { (source : Given) (c : Content) → read_of most_pool source ≡ Ok c → length source.bytes ≤ most_bytes
        → ((ds : List Declaration) → DerivationsHold ds)
        → ((ds : List Declaration) → DerivedBodiesAreUnreached ds)
        → IsFileOf c.declarations c.own c.game }
{}

pub mod kernel;
