ghost use Rattle.std.specs.Prelude.{◌≡◌, ◌<◌, ◌≤◌, [], ℕ, List, OnErr, OnOk, Option, None, length, map, take, IfOk, IfSome, string_bytes};
ghost use Rattle.cv_outside.specs.Causes.{next_count};

use crate::shelf::{FetchError, Shelf, note};
use crate::sink::{PutError, Sink};
use std::alloc::Global;
use std::io::{ErrorKind, Read};
use std::rt::Files;
use std::{fs, io};

/// Real files, of whose content nothing is told. That the bytes of an answer are those of the file
/// rests on the operating system.
#[derive(Drop)]
pub struct FileShelf<'a, R: Files> {
    rt: &'a R,
    asked: Vec<String>,
    faults: u64,
}

impl<'a, R: Files> FileShelf<'a, R> {
    /// A shelf that nobody asked yet. It takes no memory before its first call.
    pub fn new(alloc: Global, rt: &'a R) -> FileShelf<'a, R>
        ensures asked { ⟦<FileShelf<'a, R> as Shelf>⟧.asked result ≡ [] }
        ensures faults { ⟦<FileShelf<'a, R> as Shelf>⟧.faults result ≡ 0 }
    {
        FileShelf {
            rt,
            asked: Vec::new(alloc),
            faults: 0,
        }
    }
}

// The bytes of a reader, of which those after the first past the limit are left.
fn read_front<S: Read + Drop>(alloc: Global, source: S, limit: usize) -> io::Result<Vec<u8>>
    ensures { IfOk result (λ v. IfSome (S.remaining source)
        (λ bytes. v.items ≡ take (next_count limit) bytes)) }
{
    let mut bytes = Vec::new(alloc);
    source
        .take((limit as u64).saturating_add(1))
        .read_to_end(&mut bytes)?;
    Ok(bytes)
}

fn read_file<R: Files>(alloc: Global, rt: &R, name: &str, limit: usize) -> io::Result<Vec<u8>> {
    read_front(alloc, fs::open(rt, name)?, limit)
}

impl<'a, R: Files> Shelf for FileShelf<'a, R> {
    ghost told = { λ _. None };

    ghost asked = { λ s. map string_bytes s.asked.items };

    ghost faults = { λ s. s.faults };

    /// What can't be opened or read to its end, as a directory, is a fault.
    fn fetch(&mut self, alloc: Global, name: &str, limit: usize) -> Result<Vec<u8>, FetchError> {
        note(alloc, &mut self.asked, name)?;
        match read_file(alloc, self.rt, name, limit) {
            Ok(bytes) if bytes.len() > limit => Err(FetchError::Long),
            Ok(bytes) => Ok(bytes),
            Err(e) if e.kind() == ErrorKind::OutOfMemory => Err(FetchError::OutOfMemory),
            Err(_) => {
                self.faults = self.faults.saturating_add(1);
                Err(FetchError::Failed)
            }
        }
    }
}

/// How many bytes standard output keeps back at most.
const MOST_KEPT: usize = 65_536;

/// Writes a text piece by piece, as much of each as goes.
fn write_all<R: Print>(rt: &R, text: &[u8]) -> Result<(), PutError> {
    let mut done = 0;
    'pieces: while done < text.len() {
        match rt.write_some(&text[done..]) {
            Ok(count) if count > 0 => done += count,
            _ => return Err(PutError::Failed),
        }
    }
    Ok(())
}

/// Standard output, of whose content nothing is told. What is put is kept back until there is much of it, or it is flushed; without
/// memory for that each piece is written at once.
#[derive(Drop)]
pub struct OutSink<'a, R: Print> {
    rt: &'a R,
    kept: Vec<u8>,
    faults: u64,
}

impl<'a, R: Print> OutSink<'a, R> {
    /// Standard output, with no fault yet. It takes no memory before its first call.
    pub fn new(alloc: Global, rt: &'a R) -> OutSink<'a, R>
        ensures { ⟦<OutSink<'a, R> as Sink>⟧.faults result ≡ 0 }
    {
        OutSink {
            rt,
            kept: Vec::new(alloc),
            faults: 0,
        }
    }

    /// Writes a front of a piece.
    fn write_front(&mut self, piece: &[u8]) -> Result<usize, PutError>
        requires { 0 < length piece.now }
        ensures count { IfOk result (λ n. (0 < n) × (n ≤ length piece.now)) }
        ensures same { OnOk result (self.new.faults ≡ self.old.faults) }
        ensures failed { OnErr result (self.new.faults ≡ next_count self.old.faults) }
        ensures later { self.old.faults ≤ self.new.faults }
    {
        match self.rt.write_some(piece) {
            Ok(count) if count > 0 => Ok(count),
            _ => {
                self.faults = self.faults.saturating_add(1);
                Err(PutError::Failed)
            }
        }
    }

    /// Writes all that was kept back. What is left at a fault is lost.
    fn write_kept(&mut self) -> Result<(), PutError>
        ensures same { OnOk result (self.new.faults ≡ self.old.faults) }
        ensures failed { OnErr result (self.new.faults ≡ next_count self.old.faults) }
        ensures later { self.old.faults ≤ self.new.faults }
    {
        let written = write_all(self.rt, &self.kept);
        self.kept.clear();
        if written.is_err() {
            self.faults = self.faults.saturating_add(1);
        }
        written
    }
}

impl<'a, R: Print> Sink for OutSink<'a, R> {
    ghost taken = { λ _. None };

    ghost faults = { λ s. s.faults };

    fn put(&mut self, piece: &[u8]) -> Result<usize, PutError> {
        if piece.is_empty() {
            return Ok(0);
        }
        if piece.len() <= MOST_KEPT.saturating_sub(self.kept.len())
            && self.kept.extend_from_slice(piece).is_ok()
        {
            return Ok(piece.len());
        }
        self.write_kept()?;
        self.write_front(piece)
    }

    fn flush(&mut self) -> Result<(), PutError> {
        self.write_kept()
    }
}
