// A report that is written line by line.

ghost use Rattle.std.specs.Prelude.{◌<◌, IfOk, length};
ghost use Rattle.cv_report.specs.Text.{IsLive};

use cv_lex::tokens;
use cv_outside::{MemSink, PutError, Sink};
use cv_parse::file;
use cv_report::outcome::write;
use cv_report::{Cause, Command, Report, Status, Stream, Verdict, rest_text};
use cv_syntax::{File, Work};
use std::alloc::Global;
use std::process::Abort;
use std::test::Fail;

/// A file whose query nothing closes, and the lines of the report on it.
const OPEN: &str =
    "type T [fixed]. channel c, d. event e(T). event f(T). query x:T; event e(x) ==> event f(x). process in(c, ()); new n:T; event e(n); out(d, (n))";

const LINES: [&str; 7] = [
    "game 1\n",
    "in(c, ());\n",
    "new n: T;\n",
    "event e(n);\n",
    "out(d, (n));\n",
    "0\n",
    "query 1 open\n",
];

const END: &str = "end 1 open: stuck\n";

/// What is put behind the lines of games where the query was asked alone, as the second of a file.
const ALONE: &str = "query 2 alone open\nend 1 open: stuck\n";

/// A sink that takes one byte at each call.
#[derive(Drop)]
struct ByteSink {
    inner: MemSink,
}

impl Sink for ByteSink {
    ghost taken = { λ s. ⟦<MemSink as Sink>⟧.taken s.inner };

    ghost faults = { λ s. ⟦<MemSink as Sink>⟧.faults s.inner };

    fn put(&mut self, piece: &[u8]) -> Result<usize, PutError> {
        if piece.len() > 1 {
            return self.inner.put(&piece[..1]);
        }
        self.inner.put(piece)
    }

    fn flush(&mut self) -> Result<(), PutError> {
        self.inner.flush()
    }
}

/// The work of the file, and the file.
fn read_file(rt: &impl Abort, alloc: Global) -> Result<(Work, File), Fail>
    ensures { IfOk result (λ p. p.1.game.root.0 < length p.0.pool.trees) }
{
    let found = tokens(alloc, OPEN.as_bytes())?;
    assert!(rt; found.len() < 200_000_000);
    let mut work = Work::new(alloc, 1_000_000);
    let read = file(alloc, &mut work, &found)?;
    Ok((work, read))
}

/// The report that says of the query that it is open.
fn report(rt: &impl Abort, alloc: Global) -> Result<Report, Fail>
    ensures { IfOk result (λ r. IsLive r) }
{
    let (work, file) = read_file(rt, alloc)?;
    let mut verdicts = Vec::new(alloc);
    verdicts.push(Verdict::NotProved)?;
    Ok(Report {
        work,
        file: Some(file),
        command: Command::Prove {
            moves: 32,
            more: false,
            query: None,
        },
        script: None,
        verdicts,
        status: Status::Open(Cause::Stuck),
    })
}

/// Puts the report, its game first, and answers how the run ends.
fn put<K: Sink>(rt: &impl Abort, alloc: Global, sink: &mut K) -> Result<Status, Fail> {
    let report = report(rt, alloc)?;
    let Some(file) = report.file else {
        return Ok(report.status);
    };
    let stream = Stream::begin(alloc, sink, &report.work, report.command, file.game);
    Ok(write(alloc, report, stream, sink).status)
}

/// The lines before one, and the last line behind all.
fn text(alloc: Global, lines: usize) -> Result<String, Fail> {
    let mut text = String::new(alloc);
    for line in LINES.iter().take(lines) {
        text.push_str(line)?;
    }
    if lines > LINES.len() {
        text.push_str(END)?;
    }
    Ok(text)
}

#[test]
fn one_byte_at_a_time(rt: HostRuntime) -> Result<(), Fail> {
    let alloc = rt.alloc();
    let inner = MemSink::new(alloc, 1_000, Vec::new(alloc))?;
    let mut sink = ByteSink { inner };
    let ended = put(&rt, alloc, &mut sink)?;
    assert_eq!(rt; ended, Status::Open(Cause::Stuck));
    assert_eq!(rt; sink.inner.taken(), text(alloc, 8)?.as_bytes());
    Ok(())
}

#[test]
fn each_line_fails(rt: HostRuntime) -> Result<(), Fail> {
    let alloc = rt.alloc();
    for k in 0..8 {
        let mut sink = MemSink::new(alloc, 1_000, vec![in alloc; k as u64 + 1]?)?;
        let ended = put(&rt, alloc, &mut sink)?;
        assert_eq!(rt; ended, Status::Write);
        assert_eq!(rt; sink.taken(), text(alloc, k)?.as_bytes());
    }
    Ok(())
}

#[test]
fn a_query_asked_alone(rt: HostRuntime) -> Result<(), Fail> {
    let alloc = rt.alloc();
    let mut report = report(&rt, alloc)?;
    report.command = Command::Prove {
        moves: 32,
        more: false,
        query: Some(2),
    };
    assert_eq!(rt; rest_text(alloc, &report)?.as_slice(), ALONE.as_bytes());
    Ok(())
}
