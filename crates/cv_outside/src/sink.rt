ghost use Rattle.std.specs.Prelude.{◌≡◌, ◌-◌, ◌<◌, ◌≤◌, ◌++◌, [], ℕ, List, Option, Some, None, length, take, IfOk, IfSome, OnErr, IsErrOf, IsSome, vec_capacity, vec_len};
ghost use Rattle.cv_outside.specs.Causes.{Rose, next_count};
ghost use Rattle.cv_outside.specs.Told.{Takes};

use std::alloc::{AllocError, Global};

/// Why a piece wasn't taken.
#[derive(Clone, Copy, Debug, PartialEq, Eq)]
pub enum PutError {
    /// A fault, which the sink counted.
    Failed,
}

/// Where the bytes of a report go.
pub trait Sink {
    /// The bytes taken so far, where the sink tells them.
    ghost taken: { Self → Option (List ℕ) };

    /// How many faults there were.
    ghost faults: { Self → ℕ };

    /// Takes a front of a piece, and answers its length.
    fn put(&mut self, piece: &[u8]) -> Result<usize, PutError>
        ensures count { IfOk result (λ n. n ≤ length piece.now) }
        ensures some { 0 < length piece.now → IfOk result (λ n. 0 < n) }
        ensures empty { length piece.now ≡ 0 → result ≡ Ok 0 }

        // A sink may cease to tell, and never begins to.
        ensures tells { IsSome (taken self.new) → IsSome (taken self.old) }
        ensures ok { IfOk result (λ n. Takes (taken self.old) (taken self.new) (take n piece.now)) }
        ensures err { OnErr result (Takes (taken self.old) (taken self.new) []) }

        ensures later { faults self.old ≤ faults self.new }
        ensures failed { IsErrOf result PutError.Failed → Rose (faults self.old) (faults self.new) };

    /// Hands on what was taken and is still kept back.
    fn flush(&mut self) -> Result<(), PutError>
        ensures tells { IsSome (taken self.new) → IsSome (taken self.old) }
        ensures same { Takes (taken self.old) (taken self.new) [] }

        ensures later { faults self.old ≤ faults self.new }
        ensures failed { OnErr result (Rose (faults self.old) (faults self.new)) };
}

/// Bytes in memory. The calls with the numbers in `failing`, from 1 on, fail.
#[derive(Drop)]
pub struct MemSink {
    bytes: Vec<u8>,
    room: usize,
    failing: Vec<u64>,
    calls: u64,
    faults: u64,
    ghost within: { vec_len bytes ≤ room },
    ghost holds: { room ≤ vec_capacity bytes },
}

impl MemSink {
    ghost use Rattle.cv_outside.specs.Sinks.{calls_of, failing_of, room_of};

    /// An empty sink, with all the memory that it will take.
    pub fn new(alloc: Global, room: usize, failing: Vec<u64>) -> Result<MemSink, AllocError>
        ensures taken { IfOk result (λ s. ⟦<MemSink as Sink>⟧.taken s ≡ Some []) }
        ensures faults { IfOk result (λ s. ⟦<MemSink as Sink>⟧.faults s ≡ 0) }
        ensures room { IfOk result (λ s. room_of s ≡ room) }
        ensures failing { IfOk result (λ s. failing_of s ≡ failing.items) }
        ensures calls { IfOk result (λ s. calls_of s ≡ 0) }
    {
        let bytes = Vec::with_capacity(alloc, room)?;
        Ok(MemSink {
            bytes,
            room,
            failing,
            calls: 0,
            faults: 0,
        })
    }

    /// The bytes taken so far.
    pub fn taken(&self) -> &[u8]
        ensures { ⟦<MemSink as Sink>⟧.taken self.now ≡ Some result.now }
    {
        &self.bytes
    }
}

impl Sink for MemSink {
    ghost use Rattle.cv_outside.specs.Sinks.{answer_of, calls_of, failing_of, faults_of, room_of, taken_of};

    ghost taken = { λ s. Some (taken_of s) };

    ghost faults = { λ s. faults_of s };

    /// Every call has a number. One with an empty piece answers 0, also where its number is failing.
    fn put(&mut self, piece: &[u8]) -> Result<usize, PutError>
        ensures answer { result ≡ answer_of self.old (length piece.now) }
        ensures room { room_of self.new ≡ room_of self.old }
        ensures failing { failing_of self.new ≡ failing_of self.old }
        ensures calls { calls_of self.new ≡ next_count (calls_of self.old) }

        ensures ok { IfOk result (λ n. taken_of self.new ≡ taken_of self.old ++ take n piece.now) }
        ensures err { OnErr result (taken_of self.new ≡ taken_of self.old) }

        ensures later { faults_of self.old ≤ faults_of self.new }
        ensures counted { IsErrOf result PutError.Failed
            → faults_of self.new ≡ next_count (faults_of self.old) }
        ensures uncounted { IfOk result (λ _. faults_of self.new ≡ faults_of self.old) }
    {
        self.calls = self.calls.saturating_add(1);
        if piece.is_empty() {
            return Ok(0);
        }
        let count = piece.len().min(self.room - self.bytes.len());
        if count == 0 || self.failing.contains(&self.calls) {
            self.faults = self.faults.saturating_add(1);
            return Err(PutError::Failed);
        }
        self.bytes.extend_from_slice(&piece[..count]).unwrap();
        Ok(count)
    }

    fn flush(&mut self) -> Result<(), PutError>
        ensures ok { result ≡ Ok tt }
        ensures room { room_of self.new ≡ room_of self.old }
        ensures failing { failing_of self.new ≡ failing_of self.old }
        ensures calls { calls_of self.new ≡ calls_of self.old }
        ensures taken { taken_of self.new ≡ taken_of self.old }
        ensures faults { faults_of self.new ≡ faults_of self.old }
    {
        Ok(())
    }
}

/// Bytes in memory that never fail to be taken. Those past the room are counted and not kept, and
/// from then on the sink doesn't tell its bytes.
#[derive(Drop)]
pub struct SureSink {
    bytes: Vec<u8>,
    room: usize,
    beyond: u64,
    ghost within: { vec_len bytes ≤ room },
    ghost holds: { room ≤ vec_capacity bytes },
}

impl SureSink {
    ghost use Rattle.cv_outside.specs.Sinks.{beyond_of, sure_left_of, sure_room_of};

    /// An empty sink, with all the memory that it will take.
    pub fn new(alloc: Global, room: usize) -> Result<SureSink, AllocError>
        ensures taken { IfOk result (λ s. ⟦<SureSink as Sink>⟧.taken s ≡ Some []) }
        ensures room { IfOk result (λ s. sure_room_of s ≡ room) }
        ensures left { IfOk result (λ s. sure_left_of s ≡ room) }
        ensures beyond { IfOk result (λ s. beyond_of s ≡ 0) }
    {
        let bytes = Vec::with_capacity(alloc, room)?;
        Ok(SureSink {
            bytes,
            room,
            beyond: 0,
        })
    }
}

impl Sink for SureSink {
    ghost use Rattle.cv_outside.specs.Sinks.{beyond_after, beyond_of, sure_left_of, sure_room_of, told_after, told_of};

    ghost taken = { λ s. told_of s };

    ghost faults = { λ _. 0 };

    fn put(&mut self, piece: &[u8]) -> Result<usize, PutError>
        ensures all { result ≡ Ok (length piece.now) }
        ensures room { sure_room_of self.new ≡ sure_room_of self.old }
        ensures left { sure_left_of self.new ≡ sure_left_of self.old - length piece.now }
        ensures beyond { beyond_of self.new ≡ beyond_after self.old (length piece.now) }

        ensures told { IfSome (told_of self.old)
            (λ before. told_of self.new ≡ told_after before piece.now (sure_room_of self.old)) }
        ensures untold { told_of self.old ≡ None → told_of self.new ≡ None }
    {
        let kept = piece.len().min(self.room - self.bytes.len());
        let (front, rest) = piece.split_at(kept);
        self.bytes.extend_from_slice(front).unwrap();
        self.beyond = self.beyond.saturating_add(rest.len() as u64);
        Ok(piece.len())
    }

    fn flush(&mut self) -> Result<(), PutError>
        ensures ok { result ≡ Ok tt }
        ensures room { sure_room_of self.new ≡ sure_room_of self.old }
        ensures left { sure_left_of self.new ≡ sure_left_of self.old }
        ensures beyond { beyond_of self.new ≡ beyond_of self.old }
        ensures told { told_of self.new ≡ told_of self.old }
    {
        Ok(())
    }
}
