ghost use Rattle.std.specs.Prelude.{◌≡◌};
ghost use Rattle.cv_path.specs.declared.error.PathError.{PathError};
ghost use Rattle.cv_rule.specs.edit.Edits.{of_pool};

use cv_path::PathError;
use cv_pool::PoolError;
use cv_syntax::BuildError;

/// How a pool without room ends an edit.
pub(crate) fn no_room(fault: PoolError) -> BuildError
    ensures { result ≡ of_pool fault }
{
    match fault {
        PoolError::Full { need } => BuildError::Full { need },
        PoolError::OutOfMemory => BuildError::OutOfMemory,
    }
}

/// Why no game is made of one that has what changes.
pub(crate) fn no_game(fault: PathError) -> BuildError
    requires { fault ≡ PathError.NoSuchPlace → ⊥ }
    ensures { fault ≡ PathError.Build result }
{
    match fault {
        PathError::NoSuchPlace => unreachable!(),
        PathError::Build(fault) => fault,
    }
}
