// What is put of a report while its steps are found: its first game, and each step as soon as it is accepted.
ghost use Rattle.std.specs.Prelude.{◌≡◌, ◌+◌, ◌<◌, ◌≤◌, ◌++◌, ◌∷◌, ◌⊎◌, [], ℕ, Bool, IfOk, IsSome, IsTrue, List, Option, false, length, true};
ghost use Rattle.cv_report.specs.Lines.{Lines, shown_text, with_leg};
ghost use Rattle.cv_report.specs.Text.{EntryLive, leg_in};

use crate::flow::{Flow, is_streamed};
use crate::lines::put_text;
use crate::report::{Command, Entry};
use crate::text::{entry_text, first_text, game_behind};
use cv_costs::order_of;
use cv_outside::Sink;
use cv_syntax::{Game, Work};
use std::alloc::{AllocError, Global};

/// The lines of a report that are put while its steps are found, if they are to be shown: how many steps there are, the number of the next
/// game, and the steps themselves where they are kept.
#[derive(Drop)]
pub struct Stream {
    shows: bool,
    flow: Flow,
    order: Vec<u32>,
    steps: u32,
    game: u64,
    keeps: bool,
    trail: Vec<Entry>,
    ghost few: { game ≤ steps + 2 },
}

impl Stream {
    ghost use Rattle.cv_report.specs.Streams.{IsClosed, IsPut, PutsLeg, Streams, is_streamed as streamed, lines_at};
    ghost use Rattle.cv_report.specs.declared.flow.Flow.TheVariants.{Going, Spent};

    /// Nothing is put.
    pub fn silent(alloc: Global) -> Stream
        ensures shows { result.shows ≡ false }
        ensures flow { result.flow ≡ Going }
        ensures steps { result.steps ≡ 0 }
        ensures game { result.game ≡ 2 }
        ensures keeps { result.keeps ≡ false }
        ensures trail { result.trail.items ≡ [] }
    {
        Stream {
            shows: false,
            flow: Flow::Going,
            order: Vec::new(alloc),
            steps: 0,
            game: 2,
            keeps: false,
            trail: Vec::new(alloc),
        }
    }

    /// Nothing is put, and the steps are kept, with the games that they lead to.
    pub fn keeping_steps(alloc: Global) -> Stream
        ensures shows { result.shows ≡ false }
        ensures flow { result.flow ≡ Going }
        ensures steps { result.steps ≡ 0 }
        ensures game { result.game ≡ 2 }
        ensures keeps { result.keeps ≡ true }
        ensures trail { result.trail.items ≡ [] }
    {
        let mut stream = Stream::silent(alloc);
        stream.keeps = true;
        stream
    }

    /// Puts the first game, where the lines of a run under the command are put while it goes on.
    pub fn begin<K: Sink>(
        alloc: Global,
        sink: &mut K,
        work: &Work,
        command: Command,
        game: Game,
    ) -> Stream
        requires { game.root.0 < length work.now.pool.trees }
        ensures { Streams (streamed command) (lines_at work.now game.root) (K.taken sink.old)
            (K.taken sink.new) (K.faults sink.old) (K.faults sink.new) result }
    {
        let mut stream = Stream::silent(alloc);
        if !is_streamed(command) {
            return stream;
        }
        stream.shows = true;
        let Ok(order) = order_of(alloc, &work.decls) else {
            stream.flow = Flow::Spent;
            return stream;
        };
        stream.order = order;
        let text = first_text(alloc, &work.pool, &work.names, game.root);
        stream.flow = put_text(sink, text);
        stream
    }

    /// What became of what was put.
    pub fn flow(&self) -> Flow
        ensures { result ≡ self.now.flow }
    {
        self.flow
    }

    /// Whether steps are kept with the games that they lead to.
    pub fn keeps(&self) -> bool
        ensures { result ≡ self.now.keeps }
    {
        self.keeps
    }

    /// The steps, where they are kept.
    pub fn trail(&self) -> &[Entry]
        ensures { result.now ≡ self.now.trail.items }
    {
        &self.trail
    }

    /// Whether more is to be put.
    fn puts(&self) -> bool
        ensures going { IsTrue result → self.now.flow ≡ Going }
        ensures shows { IsTrue result → self.now.shows ≡ true }
        ensures none { result ≡ false → self.now.flow ≡ Going → self.now.shows ≡ false }
    {
        match self.flow {
            Flow::Going => self.shows,
            _ => false,
        }
    }

    /// Keeps a step, if steps are kept. Where memory runs out no more is put.
    fn keep(&mut self, entry: Entry)
        ensures flow { (self.new.flow ≡ self.old.flow) ⊎ (self.new.flow ≡ Spent) }
        ensures shows { self.new.shows ≡ self.old.shows }
        ensures order { self.new.order ≡ self.old.order }
        ensures steps { self.new.steps ≡ self.old.steps }
        ensures game { self.new.game ≡ self.old.game }
        ensures keeps { self.new.keeps ≡ self.old.keeps }
        ensures trail { self.old.keeps ≡ true → self.new.flow ≡ Going
            → self.new.trail.items ≡ self.old.trail.items ++ entry ∷ [] }
    {
        if !self.keeps {
            return;
        }
        if self.trail.push(entry).is_err() {
            self.flow = Flow::Spent;
        }
    }

    /// Puts the lines of a step, where more is to be put.
    fn put_entry<K: Sink>(&mut self, alloc: Global, sink: &mut K, work: &Work, entry: &Entry)
        requires live { EntryLive (length work.now.pool.trees) entry.now }
        requires few { self.old.steps < 4294967295 }
        ensures later { K.faults sink.old ≤ K.faults sink.new }
        ensures going { self.new.flow ≡ Going → self.old.flow ≡ Going }
        ensures shows { self.new.shows ≡ self.old.shows }
        ensures order { self.new.order ≡ self.old.order }
        ensures steps { self.new.steps ≡ self.old.steps }
        ensures game { self.new.game ≡ self.old.game }
        ensures keeps { self.new.keeps ≡ self.old.keeps }
        ensures trail { self.new.trail ≡ self.old.trail }
        ensures put { (shows : Bool) (l : Lines) (before : Option (List ℕ)) (old : ℕ)
            → Streams shows l before (K.taken sink.old) old (K.faults sink.old) self.old
            → IsPut self.new.flow before (K.taken sink.new) old (K.faults sink.new)
            (shown_text shows (with_leg l (leg_in work.now entry.now))) }
    {
        if !self.puts() {
            return;
        }
        let number = u64::from(self.steps) + 1;
        let text = entry_text(alloc, work, &self.order, number, self.game, entry);
        self.flow = put_text(sink, text);
    }

    /// Puts the lines of an accepted step in a work where it has led to the next game.
    pub fn put_step<K: Sink>(&mut self, alloc: Global, sink: &mut K, work: &Work, entry: Entry)
        requires live { EntryLive (length work.now.pool.trees) entry }
        requires few { self.old.steps < 4294967295 }
        ensures puts { PutsLeg (K.taken sink.old) (K.taken sink.new) (K.faults sink.old)
            (K.faults sink.new) (leg_in work.now entry) self.old self.new }
        ensures count { self.new.steps ≡ self.old.steps + 1 }
        ensures keeps { self.new.keeps ≡ self.old.keeps }
        ensures trail { self.old.keeps ≡ true → self.new.flow ≡ Going
            → self.new.trail.items ≡ self.old.trail.items ++ entry ∷ [] }
    {
        self.put_entry(alloc, sink, work, &entry);
        self.game = game_behind(self.game, &entry);
        self.steps += 1;
        self.keep(entry);
    }

    /// Puts a text behind what was put, where all of that was taken.
    pub(crate) fn close<K: Sink>(&mut self, sink: &mut K, text: Result<Vec<u8>, AllocError>)
        ensures later { K.faults sink.old ≤ K.faults sink.new }
        ensures put { (before : Option (List ℕ)) (old : ℕ) (lines whole : List ℕ)
            → IfOk text (λ v. v.items ≡ whole) → old ≤ K.faults sink.old
            → IsPut self.old.flow before (K.taken sink.old) old (K.faults sink.old) lines
            → IsClosed self.new.flow before (K.taken sink.new) old (K.faults sink.new) lines whole }
    {
        match self.flow {
            Flow::Going => self.flow = put_text(sink, text),
            _ => {}
        }
    }
}
