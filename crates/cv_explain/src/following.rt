// Accepted files: where their proof block leads, or the steps that are found without one.
ghost use Rattle.std.specs.Prelude.{◌≡◌, ◌<◌, ◌≤◌, [], All, IfSome, Some, length, true};
ghost use Rattle.cv_syntax.specs.Declarations.{declarations};
ghost use Rattle.cv_syntax_trees.specs.Tree.{size};
ghost use Rattle.cv_syntax.specs.PoolTrees.{tree_at};
ghost use Rattle.cv_parse.specs.Declaring.{IsBelow};
ghost use Rattle.cv_scope_rules.specs.Phrases.{IsWellFormed};
ghost use Rattle.cv_accept.specs.Works.{HasSteps};
ghost use Rattle.cv_accept.specs.Accepted.{most_pool};
ghost use Rattle.cv_scene_view.specs.Kept.{scene_of};
ghost use Rattle.cv_kernel_crypto.specs.Applied.{HasEquivalences};

use cv_accept::{Accepted, FileError, read};
use cv_follow::{Walk, follow_block, search};
use cv_outside::SureSink;
use cv_report::{Entry, Status, Stream};
use cv_script::Step;
use cv_syntax::{File, Game, Work};
use std::alloc::{AllocError, Global};

/// The most nodes of the pool.
const MOST_NODES: u32 = 16_000_000;

/// The most bytes of a file.
const MOST_BYTES: usize = 1_048_576;

/// How many moves the search makes at most.
const MOVES: u32 = 32;

/// A file that was followed: its trees, its steps, and what they lead to, with the accepted steps, which the stream keeps.
#[derive(Drop)]
pub struct Followed {
    pub work: Work,
    pub file: File,
    pub script: Option<Vec<Step>>,
    pub walk: Walk,
    stream: Stream,
}

/// Why there is nothing to tell of a file's steps.
#[derive(Clone, Copy)]
pub enum Stopped {
    Refused(FileError),
    Long,
    OutOfMemory,
}

impl From<AllocError> for Stopped {
    fn from(_: AllocError) -> Stopped {
        Stopped::OutOfMemory
    }
}

/// Follows the steps of an accepted file, which a stream keeps. Nothing is put.
fn walk_of(
    alloc: Global,
    work: &mut Work,
    accepted: &Accepted,
    stream: &mut Stream,
) -> Result<Walk, AllocError>
    requires game { accepted.now.file.game.root.0 < length work.old.pool.trees }
    requires small { size (tree_at work.old.pool.trees (Some accepted.now.file.game.root)) ≤ 50000 }
    requires below { All (IsBelow (length work.old.pool.trees)) work.old.decls.list }
    requires equivalences { HasEquivalences
        (scene_of work.old.pool work.old.decls accepted.now.file.game.root) }
    requires limit { work.old.pool.limit ≡ most_pool }
    requires steps { IfSome accepted.now.script (λ s.
        HasSteps work.old.pool.limit work.old.pool.trees s.items) }
    requires formed { IsWellFormed (declarations work.old.pool.trees work.old.decls.list)
        (tree_at work.old.pool.trees (Some accepted.now.file.game.root)) }
    requires begun { stream.old.steps ≡ 0 }
{
    let mut sink = SureSink::new(alloc, 0)?;
    let game = accepted.file.game;
    let walk = match &accepted.script {
        Some(steps) => follow_block(alloc, work, game, steps, stream, &mut sink),
        None => search(alloc, work, game, MOVES, false, stream, &mut sink),
    };
    match walk.status {
        Status::Memory => Err(AllocError),
        _ => Ok(walk),
    }
}

/// Follows the steps of an accepted file, with its trees.
fn follow_accepted(alloc: Global, work: Work, accepted: Accepted) -> Result<Followed, Stopped>
    requires game { accepted.file.game.root.0 < length work.pool.trees }
    requires small { size (tree_at work.pool.trees (Some accepted.file.game.root)) ≤ 50000 }
    requires below { All (IsBelow (length work.pool.trees)) work.decls.list }
    requires equivalences { HasEquivalences
        (scene_of work.pool work.decls accepted.file.game.root) }
    requires limit { work.pool.limit ≡ most_pool }
    requires steps { IfSome accepted.script (λ s.
        HasSteps work.pool.limit work.pool.trees s.items) }
    requires formed { IsWellFormed (declarations work.pool.trees work.decls.list)
        (tree_at work.pool.trees (Some accepted.file.game.root)) }
{
    let mut work = work;
    let mut stream = Stream::keeping_steps(alloc);
    let walk = walk_of(alloc, &mut work, &accepted, &mut stream)?;
    let Accepted { file, script } = accepted;
    Ok(Followed {
        work,
        file,
        script,
        walk,
        stream,
    })
}

/// Reads a file into an empty work and follows its steps.
fn follow_in(
    alloc: Global,
    work: Work,
    bytes: &[u8],
    library: Option<&[u8]>,
) -> Result<Followed, Stopped>
    requires names { work.names ≡ [] }
    requires decls { work.decls.list ≡ [] }
    requires trees { work.pool.trees ≡ [] }
    requires limit { work.pool.limit ≡ most_pool }
    requires few { length bytes.now ≤ 1048576 }
    requires few_more { IfSome library (λ more. length more.now ≤ 1048576) }
{
    let mut work = work;
    match read(alloc, &mut work, bytes, library) {
        Ok(accepted) => follow_accepted(alloc, work, accepted),
        Err(fault) => Err(Stopped::Refused(fault)),
    }
}

/// Whether a library has no more bytes than a file may have.
pub fn is_short(library: Option<&[u8]>) -> bool
    ensures { result ≡ true → IfSome library.entry (λ more. length more.now ≤ 1048576) }
{
    match library {
        Some(bytes) => bytes.len() <= MOST_BYTES,
        None => true,
    }
}

/// Reads a file with its library and follows its steps.
pub fn follow(alloc: Global, bytes: &[u8], library: Option<&[u8]>) -> Result<Followed, Stopped> {
    if bytes.len() > MOST_BYTES || !is_short(library) {
        return Err(Stopped::Long);
    }
    follow_in(alloc, Work::new(alloc, MOST_NODES), bytes, library)
}

impl Followed {
    /// The steps that were accepted, each with the game that it leads to.
    pub fn trail(&self) -> &[Entry] {
        self.stream.trail()
    }

    /// The games: that of the file, and those to which its steps lead.
    pub fn games(&self, alloc: Global) -> Result<Vec<Game>, AllocError> {
        let mut games = Vec::new(alloc);
        games.push(self.file.game)?;
        for entry in self.trail() {
            if let Some(next) = entry.next {
                games.push(next)?;
            }
        }
        Ok(games)
    }

    /// The first step of the proof block that isn't among those that were accepted.
    pub fn refused_step(&self) -> Option<Step> {
        let Some(script) = &self.script else {
            return None;
        };
        let mut next = 0;
        for step in script {
            match self.behind(next, *step) {
                Some(behind) => next = behind,
                None => return Some(*step),
            }
        }
        None
    }

    /// How many steps were accepted through a step that is among those from one on.
    fn behind(&self, from: usize, step: Step) -> Option<usize> {
        let trail = self.trail();
        for k in from..trail.len() {
            if trail[k].step.0.0 == step.0.0 {
                return Some(k + 1);
            }
        }
        None
    }
}
