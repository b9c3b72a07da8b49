ghost use Rattle.std.specs.Prelude.{◌≡◌};
ghost use Rattle.cv_report.specs.outcome.Fetched.{fetch_ended};

use crate::{Status, Which};
use cv_outside::FetchError;

/// How a file that wasn't fetched ends a run.
pub fn fetch_status(fault: FetchError) -> Status
    ensures { result ≡ fetch_ended fault }
{
    match fault {
        FetchError::Failed => Status::Read,
        FetchError::Long => Status::Limit(Which::File),
        FetchError::OutOfMemory => Status::Memory,
    }
}
