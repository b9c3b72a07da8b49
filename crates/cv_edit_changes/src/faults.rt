ghost use Rattle.std.specs.Prelude.{◌≡◌};
ghost use Rattle.cv_edit_changes.specs.Faults.{no_room};

use cv_path::PathError;
use cv_pool::PoolError;
use cv_syntax::BuildError;

/// How a pool without room ends the making of a game.
pub(crate) fn no_room(fault: PoolError) -> PathError
    ensures { result ≡ no_room fault }
{
    match fault {
        PoolError::Full { need } => PathError::Build(BuildError::Full { need }),
        PoolError::OutOfMemory => PathError::Build(BuildError::OutOfMemory),
    }
}
