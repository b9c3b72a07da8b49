ghost use Rattle.std.specs.Prelude.{◌≡◌, ◌≢◌, ◌<◌, ◌≤◌, ◌++◌, ◌∷◌, ◌⊎◌, [], ℕ, List, Option, Some, length, map, IfOk, IfSome, OnErr, OnOk, IsErrOf, string_bytes};
ghost use Rattle.std.specs.Option.{option_map};
ghost use Rattle.cv_outside.specs.Causes.{Rose, next_count};
ghost use Rattle.cv_outside.specs.Shelves.{calls_of, failing_of, faults_of, files_of, found_next, names_of, sure_files_of, sure_names_of};
ghost use Rattle.cv_outside.specs.Told.{Files, Gives, GivesWithin, bytes_of, entry_of};

use std::alloc::Global;

/// Why a file wasn't read.
#[derive(Clone, Copy, Debug, PartialEq, Eq)]
pub enum FetchError {
    /// A fault, which the shelf counted.
    Failed,
    /// The file has more bytes than the limit.
    Long,
    /// There was no memory for the name or the bytes.
    OutOfMemory,
}

/// Files by name.
pub trait Shelf {
    /// The files, where the shelf tells them.
    ghost told: { Self → Option Files };

    /// The names that were asked for, in their order.
    ghost asked: { Self → List (List ℕ) };

    /// How many faults there were.
    ghost faults: { Self → ℕ };

    /// Reads the whole file of a name, if it has at most `limit` bytes.
    fn fetch(&mut self, alloc: Global, name: &str, limit: usize) -> Result<Vec<u8>, FetchError>
        ensures told { told self.new ≡ told self.old }

        // The name is noted, and only want of memory can prevent that.
        ensures asked { result ≢ Err FetchError.OutOfMemory
            → asked self.new ≡ asked self.old ++ name.now ∷ [] }
        ensures asked_or_not { (asked self.new ≡ asked self.old)
            ⊎ (asked self.new ≡ asked self.old ++ name.now ∷ []) }

        ensures bytes { IfOk result (λ v. IfSome (told self.old)
            (λ files. v.items ≡ bytes_of files name.now)) }
        ensures limit { IfOk result (λ v. length v.items ≤ limit) }

        ensures later { faults self.old ≤ faults self.new }
        ensures failed { IsErrOf result FetchError.Failed
            → Rose (faults self.old) (faults self.new) }

        // A told file is too long exactly where it exceeds the limit and no fault came.
        ensures long_only { IsErrOf result FetchError.Long
            → IfSome (told self.old) (λ files. limit < length (bytes_of files name.now)) }
        ensures long_uncounted { IsErrOf result FetchError.Long
            → faults self.new ≡ faults self.old }
        ensures long { IfSome (told self.old) (λ files. limit < length (bytes_of files name.now)
            → ¬ Rose (faults self.old) (faults self.new) → result ≢ Err FetchError.OutOfMemory
            → IsErrOf result FetchError.Long) };
}

/// Files in memory, of which the first of a name counts. The calls with the numbers in `failing`,
/// from 1 on, fail, and so does a call for a name that isn't there.
#[derive(Drop)]
pub struct MemShelf {
    files: Vec<(String, Vec<u8>)>,
    failing: Vec<u64>,
    asked: Vec<String>,
    calls: u64,
    faults: u64,
}

impl MemShelf {
    /// A shelf that nobody asked yet. It takes no memory before its first call.
    pub fn new(alloc: Global, files: Vec<(String, Vec<u8>)>, failing: Vec<u64>) -> MemShelf
        ensures told { ⟦<MemShelf as Shelf>⟧.told result ≡ Some (entry_of files.items) }
        ensures asked { ⟦<MemShelf as Shelf>⟧.asked result ≡ [] }
        ensures faults { ⟦<MemShelf as Shelf>⟧.faults result ≡ 0 }
        ensures failing { failing_of result ≡ failing.items }
        ensures calls { calls_of result ≡ 0 }
    {
        MemShelf {
            files,
            failing,
            asked: Vec::new(alloc),
            calls: 0,
            faults: 0,
        }
    }
}

// The first file of this name.
#[tactic(auto, using(crate::proofs::Entries::entries))]
fn named<'a>(files: &'a [(String, Vec<u8>)], name: &str) -> Option<&'a Vec<u8>>
    ensures { option_map (λ v. v.now.items) result ≡ entry_of files.now name.now }
{
    for entry in files {
        if entry.0.as_str() == name {
            return Some(&entry.1);
        }
    }
    None
}

// Notes a name, unless there is no memory for it.
pub(crate) fn note(alloc: Global, asked: &mut Vec<String>, name: &str) -> Result<(), FetchError>
    ensures ok { OnOk result
        (map string_bytes asked.new.items ≡ map string_bytes asked.old.items ++ name.now ∷ []) }
    ensures err { OnErr result (asked.new.items ≡ asked.old.items) }
    ensures only { OnErr result (IsErrOf result FetchError.OutOfMemory) }
{
    let Ok(text) = String::from_str(alloc, name) else {
        return Err(FetchError::OutOfMemory);
    };
    match asked.push(text) {
        Ok(()) => Ok(()),
        Err(_) => Err(FetchError::OutOfMemory),
    }
}

// A copy of a file, if it has at most `limit` bytes.
fn copy_within(alloc: Global, bytes: &[u8], limit: usize) -> Result<Vec<u8>, FetchError>
    ensures { result ≢ Err FetchError.OutOfMemory → GivesWithin bytes.now limit result }
{
    if bytes.len() > limit {
        return Err(FetchError::Long);
    }
    match Vec::from_slice(alloc, bytes) {
        Ok(copy) => Ok(copy),
        Err(_) => Err(FetchError::OutOfMemory),
    }
}

impl Shelf for MemShelf {
    ghost told = { λ s. Some (files_of s) };

    ghost asked = { λ s. names_of s };

    ghost faults = { λ s. faults_of s };

    /// Every call has a number, whatever it answers.
    fn fetch(&mut self, alloc: Global, name: &str, limit: usize) -> Result<Vec<u8>, FetchError>
        ensures answer { result ≢ Err FetchError.OutOfMemory
            → Gives (found_next self.old name.now) limit result }
        ensures files { files_of self.new ≡ files_of self.old }
        ensures failing { failing_of self.new ≡ failing_of self.old }
        ensures calls { calls_of self.new ≡ next_count (calls_of self.old) }

        ensures asked { result ≢ Err FetchError.OutOfMemory
            → names_of self.new ≡ names_of self.old ++ name.now ∷ [] }
        ensures asked_or_not { (names_of self.new ≡ names_of self.old)
            ⊎ (names_of self.new ≡ names_of self.old ++ name.now ∷ []) }

        ensures later { faults_of self.old ≤ faults_of self.new }
        ensures counted { IsErrOf result FetchError.Failed
            → faults_of self.new ≡ next_count (faults_of self.old) }
        ensures uncounted { result ≢ Err FetchError.Failed
            → faults_of self.new ≡ faults_of self.old }
    {
        self.calls = self.calls.saturating_add(1);
        note(alloc, &mut self.asked, name)?;
        if self.failing.contains(&self.calls) {
            self.faults = self.faults.saturating_add(1);
            return Err(FetchError::Failed);
        }
        let Some(bytes) = named(&self.files, name) else {
            self.faults = self.faults.saturating_add(1);
            return Err(FetchError::Failed);
        };
        copy_within(alloc, bytes, limit)
    }
}

/// Files in memory that never fail; a name that isn't there is the empty file.
#[derive(Drop)]
pub struct SureShelf {
    files: Vec<(String, Vec<u8>)>,
    asked: Vec<String>,
}

impl SureShelf {
    /// A shelf that nobody asked yet. It takes no memory before its first call.
    pub fn new(alloc: Global, files: Vec<(String, Vec<u8>)>) -> SureShelf
        ensures told { ⟦<SureShelf as Shelf>⟧.told result ≡ Some (entry_of files.items) }
        ensures asked { ⟦<SureShelf as Shelf>⟧.asked result ≡ [] }
    {
        SureShelf {
            files,
            asked: Vec::new(alloc),
        }
    }
}

impl Shelf for SureShelf {
    ghost told = { λ s. Some (sure_files_of s) };

    ghost asked = { λ s. sure_names_of s };

    ghost faults = { λ _. 0 };

    fn fetch(&mut self, alloc: Global, name: &str, limit: usize) -> Result<Vec<u8>, FetchError>
        ensures answer { result ≢ Err FetchError.OutOfMemory
            → GivesWithin (bytes_of (sure_files_of self.old) name.now) limit result }
        ensures sure { result ≢ Err FetchError.Failed }
        ensures files { sure_files_of self.new ≡ sure_files_of self.old }

        ensures asked { result ≢ Err FetchError.OutOfMemory
            → sure_names_of self.new ≡ sure_names_of self.old ++ name.now ∷ [] }
        ensures asked_or_not { (sure_names_of self.new ≡ sure_names_of self.old)
            ⊎ (sure_names_of self.new ≡ sure_names_of self.old ++ name.now ∷ []) }
    {
        note(alloc, &mut self.asked, name)?;
        match named(&self.files, name) {
            Some(bytes) => copy_within(alloc, bytes, limit),
            None => Ok(Vec::new(alloc)),
        }
    }
}
