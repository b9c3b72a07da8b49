ghost use Rattle.std.specs.Prelude.{◌≡◌, ◌∷◌, IfOk, IfSome, IsErrOf, Some, option_map};
ghost use Rattle.cv_outside.specs.Causes.{Rose};
ghost use Rattle.cv_outside.specs.words.sample.Samples.{file_of as sample_of};
ghost use Rattle.cv_outside.specs.words.Words.{asked_of};
ghost use Rattle.cv.specs.Strategy.{asks_more, ends_under, is_games as games, moves_in, shown};
ghost use Rattle.cv.specs.Sources.{given_of};
ghost use Rattle.cv.specs.Words.{AreTold, AsksOnly, IsLong, IsShort, command_of as command_by, files_asked, library_asked, source_asked, source_under, text_asked as text_by, with_query, without_library};

use cv_alone::leave_alone;
use cv_outside::words::Request;
use cv_outside::words::sample::file_of;
use cv_outside::{FetchError, Shelf};
use cv_report::{Cause, Command, Status};
use std::alloc::{AllocError, Global};

/// The most bytes of a file.
const MOST_BYTES: usize = 1_048_576;

/// The command of a request.
pub fn command_of(request: Request<'_>) -> Command
    ensures { result ≡ command_by (Some (asked_of request.entry)) }
{
    match request {
        Request::Prove {
            moves,
            more,
            query,
            ..
        } => Command::Prove { moves, more, query },
        Request::Games { .. } => Command::Games,
        Request::Sample { number, prove } => Command::Sample { number, prove },
    }
}

/// The number of a sample whose text is asked for.
pub fn text_asked(request: Request<'_>) -> Option<u32>
    ensures { result ≡ text_by (asked_of request.entry) }
{
    match request {
        Request::Sample {
            number,
            prove: false,
        } => Some(number),
        Request::Sample { prove: true, .. } => None,
        Request::Prove { .. } => None,
        Request::Games { .. } => None,
    }
}

/// Whether a command asks for games without verdicts.
pub fn is_games(command: Command) -> bool
    ensures { result ≡ games command }
{
    match command {
        Command::Games => true,
        Command::Prove { .. } => false,
        Command::Sample { .. } => false,
        Command::Nothing => false,
    }
}

/// The moves of a proof where the words don't say.
const MOVES: u32 = 32;

/// How many moves a command allows.
pub fn moves_of(command: Command) -> u32
    ensures { result ≡ moves_in command }
{
    match command {
        Command::Prove { moves, .. } => moves,
        Command::Games => 0,
        Command::Sample { .. } => MOVES,
        Command::Nothing => 0,
    }
}

/// Whether a command asks for further moves.
pub fn goes_further(command: Command) -> bool
    ensures { result ≡ asks_more command }
{
    match command {
        Command::Prove { more, .. } => more,
        Command::Games => false,
        Command::Sample { .. } => false,
        Command::Nothing => false,
    }
}

/// How a run ends that asks for no verdicts.
fn end_of_games(status: Status) -> Status
    ensures { result ≡ shown status }
{
    match status {
        Status::Proved => Status::Done,
        Status::Open(Cause::NoClose(_)) => Status::Done,
        other => other,
    }
}

/// How a run ends under a command whose proof block was followed to such an end.
pub fn end_under(command: Command, status: Status) -> Status
    ensures { result ≡ ends_under command status }
{
    match command {
        Command::Games => end_of_games(status),
        Command::Prove { .. } => status,
        Command::Sample { .. } => status,
        Command::Nothing => status,
    }
}

/// What a request reads: the bytes of a file or a sample, and those of a library where one is named.
#[derive(Drop)]
pub struct Source {
    pub bytes: Vec<u8>,
    pub library: Option<Vec<u8>>,
}

/// The bytes of a sample.
fn sample(alloc: Global, number: u32) -> Result<Source, FetchError>
    ensures bytes { IfOk result (λ s. given_of s ≡ without_library (sample_of number)) }
    ensures few { IfOk result (λ s. IsShort (given_of s)) }
    ensures never { ¬ IsErrOf result FetchError.Failed }
    ensures long { IsErrOf result FetchError.Long → IsLong (without_library (sample_of number)) }
{
    let Ok(bytes) = file_of(alloc, number) else {
        return Err(FetchError::OutOfMemory);
    };
    if bytes.len() > MOST_BYTES {
        return Err(FetchError::Long);
    }
    Ok(Source {
        bytes,
        library: None,
    })
}

/// The bytes of a file, for which the shelf is asked, and directly behind it those of a library.
#[tactic(auto, using(crate::proofs::Sources::sources))]
fn with_library<F: Shelf>(
    alloc: Global,
    file: &str,
    library: Option<&str>,
    shelf: &mut F,
) -> Result<Source, FetchError>
    ensures told { IfOk result (λ s. AreTold
        (source_under (F.told shelf.old) file.now (option_map (λ l. l.now) library.entry))
        (given_of s)) }
    ensures few { IfOk result (λ s. IsShort (given_of s)) }
    ensures failed { IsErrOf result FetchError.Failed
        → Rose (F.faults shelf.old) (F.faults shelf.new) }
    ensures long { IsErrOf result FetchError.Long
        → IfSome (source_under (F.told shelf.old) file.now
        (option_map (λ l. l.now) library.entry)) IsLong }
    ensures asked { AsksOnly (file.now ∷ library_asked (option_map (λ l. l.now) library.entry))
        (F.asked shelf.old) (F.asked shelf.new) }
{
    let bytes = shelf.fetch(alloc, file, MOST_BYTES)?;
    let Some(name) = library else {
        return Ok(Source {
            bytes,
            library: None,
        });
    };
    let more = shelf.fetch(alloc, name, MOST_BYTES)?;
    Ok(Source {
        bytes,
        library: Some(more),
    })
}

/// The same, where one query may be asked alone.
#[tactic(auto, using(crate::proofs::Sources::sources))]
fn for_query<F: Shelf>(
    alloc: Global,
    file: &str,
    library: Option<&str>,
    query: Option<u32>,
    shelf: &mut F,
) -> Result<Source, FetchError>
    ensures told { IfOk result (λ s. AreTold (option_map (with_query query)
        (source_under (F.told shelf.old) file.now (option_map (λ l. l.now) library.entry)))
        (given_of s)) }
    ensures few { IfOk result (λ s. IsShort (given_of s)) }
    ensures failed { IsErrOf result FetchError.Failed
        → Rose (F.faults shelf.old) (F.faults shelf.new) }
    ensures long { IsErrOf result FetchError.Long
        → IfSome (option_map (with_query query) (source_under (F.told shelf.old) file.now
        (option_map (λ l. l.now) library.entry))) IsLong }
    ensures asked { AsksOnly (file.now ∷ library_asked (option_map (λ l. l.now) library.entry))
        (F.asked shelf.old) (F.asked shelf.new) }
{
    let mut source = with_library(alloc, file, library, shelf)?;
    let Some(number) = query else {
        return Ok(source);
    };
    match leave_alone(alloc, &mut source.bytes, number) {
        Ok(()) => Ok(source),
        Err(AllocError) => Err(FetchError::OutOfMemory),
    }
}

/// What a request reads: its file and its library, or a sample.
#[tactic(auto, using(crate::proofs::Sources::sources))]
pub fn fetch_source<F: Shelf>(
    alloc: Global,
    request: Request<'_>,
    shelf: &mut F,
) -> Result<Source, FetchError>
    ensures told { IfOk result (λ s. AreTold
        (source_asked (F.told shelf.old) (Some (asked_of request.entry))) (given_of s)) }
    ensures few { IfOk result (λ s. IsShort (given_of s)) }
    ensures failed { IsErrOf result FetchError.Failed
        → Rose (F.faults shelf.old) (F.faults shelf.new) }
    ensures long { IsErrOf result FetchError.Long
        → IfSome (source_asked (F.told shelf.old) (Some (asked_of request.entry))) IsLong }
    ensures asked { AsksOnly (files_asked (Some (asked_of request.entry)))
        (F.asked shelf.old) (F.asked shelf.new) }
{
    match request {
        Request::Prove {
            file,
            library,
            query,
            ..
        } => for_query(alloc, file, library, query, shelf),
        Request::Games { file, library } => with_library(alloc, file, library, shelf),
        Request::Sample { number, .. } => sample(alloc, number),
    }
}
