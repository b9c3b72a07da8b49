ghost use Rattle.std.specs.Prelude.{◌≡◌, ℕ, Ok};
ghost use Rattle.cv_accept.specs.Accepted.{Content, IsFile, read_of};
ghost use Rattle.cv_library.specs.Givens.{Given};
ghost use Rattle.cv_accept.specs.Works.{IsAccepted};

/// A file that is accepted is small and typed, its game is well formed, and its queries may be asked.
pub fn accepted_is_well_formed()
    ensures { (limit : ℕ) (given : Given) (f : Content) → read_of limit given ≡ Ok f
        → IsAccepted f }
{}

/// The computed reading of files is the relation between what is given and what it holds.
pub fn file_is_computed()
    ensures is { (limit : ℕ) (given : Given) (f : Content) → read_of limit given ≡ Ok f
        → IsFile limit given f }
    ensures only { (limit : ℕ) (given : Given) (f : Content) → IsFile limit given f
        → read_of limit given ≡ Ok f }
{}
