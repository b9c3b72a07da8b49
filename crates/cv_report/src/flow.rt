ghost use Rattle.std.specs.Prelude.{◌≡◌};
ghost use Rattle.cv_report.specs.Streams.{is_streamed as streamed};

use crate::report::Command;

/// What became of the lines of a report so far.
#[derive(Clone, Copy, Debug, PartialEq, Eq)]
pub enum Flow {
    /// All that was to be put was taken.
    Going,
    /// The sink failed, and no more is put.
    Failed,
    /// Memory ran out for a text, and no more is put.
    Spent,
}

/// Whether the lines of a run under a command are put while it goes on. Of the proof of a sample there are only counts.
pub fn is_streamed(command: Command) -> bool
    ensures { result ≡ streamed command }
{
    match command {
        Command::Prove {
            moves: _,
            more: _,
            query: _,
        } => true,
        Command::Games => true,
        Command::Sample {
            number: _,
            prove: _,
        } => false,
        Command::Nothing => false,
    }
}
