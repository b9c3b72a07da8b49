ghost use Rattle.std.specs.Prelude.{◌≡◌, ◌+◌, ◌<◌, ◌≤◌, ◌++◌, ◌∷◌, [], ℕ, List, length, take, IfOk, OnOk, OnErr, IsSome};
ghost use Rattle.cv_outside.specs.Causes.{Rose};
ghost use Rattle.cv_report.specs.Streams.{IsPut};
ghost use Rattle.cv_report.specs.Writing.{TakesFront, TakesAll};

use crate::flow::Flow;
use cv_outside::{PutError, Sink};
use std::alloc::AllocError;

/// Puts all of a piece, going on after a partial take.
#[tactic(auto, using(crate::proofs::Takes::pieces))]
pub fn put_all<K: Sink>(sink: &mut K, piece: &[u8]) -> Result<(), PutError>
    ensures tells { IsSome (K.taken sink.new) → IsSome (K.taken sink.old) }
    ensures ok { OnOk result (TakesAll (K.taken sink.old) (K.taken sink.new) piece.now) }
    ensures front { TakesFront (K.taken sink.old) (K.taken sink.new) piece.now }
    ensures later { K.faults sink.old ≤ K.faults sink.new }
    ensures failed { OnErr result (Rose (K.faults sink.old) (K.faults sink.new)) }
{
    let mut done = 0;
    'pieces: while done < piece.len() {
        done += sink.put(&piece[done..])?;
    }
    Ok(())
}

/// How long the first line of a text is, with its end.
fn line_len(text: &[u8]) -> usize
    ensures within { result ≤ length text.now }
    ensures some { 0 < length text.now → 0 < result }
{
    match text.iter().position(|b| *b == b'\n') {
        Some(place) => place + 1,
        None => text.len(),
    }
}

/// Puts a text line by line.
#[tactic(auto, using(crate::proofs::Takes::lines))]
fn put_each_line<K: Sink>(sink: &mut K, text: &[u8]) -> Result<(), PutError>
    ensures tells { IsSome (K.taken sink.new) → IsSome (K.taken sink.old) }
    ensures ok { OnOk result (TakesAll (K.taken sink.old) (K.taken sink.new) text.now) }
    ensures front { TakesFront (K.taken sink.old) (K.taken sink.new) text.now }
    ensures later { K.faults sink.old ≤ K.faults sink.new }
    ensures failed { OnErr result (Rose (K.faults sink.old) (K.faults sink.new)) }
{
    let mut done = 0;
    'lines: while done < text.len() {
        let rest = &text[done..];
        let line = line_len(rest);
        put_all(sink, &rest[..line])?;
        done += line;
    }
    Ok(())
}

/// Puts a text line by line, and lets the sink hand it on.
#[tactic(auto, using(crate::proofs::Takes::handed))]
pub fn put_lines<K: Sink>(sink: &mut K, text: &[u8]) -> Result<(), PutError>
    ensures tells { IsSome (K.taken sink.new) → IsSome (K.taken sink.old) }
    ensures ok { OnOk result (TakesAll (K.taken sink.old) (K.taken sink.new) text.now) }
    ensures front { TakesFront (K.taken sink.old) (K.taken sink.new) text.now }
    ensures later { K.faults sink.old ≤ K.faults sink.new }
    ensures failed { OnErr result (Rose (K.faults sink.old) (K.faults sink.new)) }
{
    put_each_line(sink, text)?;
    sink.flush()
}

/// Puts a text, where there was memory for it.
#[tactic(auto, using(crate::proofs::Streams::puts))]
pub(crate) fn put_text<K: Sink>(sink: &mut K, text: Result<Vec<u8>, AllocError>) -> Flow
    ensures tells { IsSome (K.taken sink.new) → IsSome (K.taken sink.old) }
    ensures later { K.faults sink.old ≤ K.faults sink.new }
    ensures put { (whole : List ℕ) → IfOk text (λ v. v.items ≡ whole)
        → IsPut result (K.taken sink.old) (K.taken sink.new)
        (K.faults sink.old) (K.faults sink.new) whole }
    ensures spent { result ≡ Flow.Spent → K.taken sink.new ≡ K.taken sink.old }
{
    let Ok(text) = text else {
        return Flow::Spent;
    };
    match put_lines(sink, &text) {
        Ok(()) => Flow::Going,
        Err(_) => Flow::Failed,
    }
}
