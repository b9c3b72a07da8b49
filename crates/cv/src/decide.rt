ghost use Rattle.std.specs.Prelude.{◌≡◌, ◌<◌, ◌≤◌, [], All, IfOk, IfSome, None, OnOk, Some, length, option_map};
ghost use Rattle.cv_syntax.specs.Declarations.{declarations};
ghost use Rattle.cv_syntax_trees.specs.Tree.{size};
ghost use Rattle.cv_syntax.specs.PoolTrees.{tree_at};
ghost use Rattle.cv_parse.specs.Declaring.{IsBelow};
ghost use Rattle.cv_scope_rules.specs.Phrases.{IsWellFormed};
ghost use Rattle.cv_accept.specs.Works.{HasSteps, Reads, content_at, content_nodes};
ghost use Rattle.cv_accept.specs.Accepted.{most_pool};
ghost use Rattle.cv_scene_view.specs.Kept.{scene_of};
ghost use Rattle.cv_kernel_crypto.specs.Applied.{HasEquivalences};
ghost use Rattle.cv_costs.specs.Factors.{parameters_in};
ghost use Rattle.cv_report.specs.outcome.Refused.{SaysNothing};
ghost use Rattle.cv.specs.Answers.{Begins, IsSilent};
ghost use Rattle.cv.specs.Causes.{Outside};
ghost use Rattle.cv.specs.Games.{HasCloseGames};
ghost use Rattle.cv.specs.Runs.{Runs};
ghost use Rattle.cv.specs.Calls.{HasBoundedCalls};
ghost use Rattle.cv.specs.Steps.{HasCloseSteps};
ghost use Rattle.cv.specs.Strategy.{IsSound, Judged};
ghost use Rattle.cv.specs.Sources.{given_of};
ghost use Rattle.cv.specs.Words.{AreTold, IsShort};

use crate::asked::{Source, is_games};
use crate::refusal::status_of;
use crate::script::run_script;
use crate::shown::run_games;
use crate::strategy::run_strategy;
use cv_accept::{Accepted, FileError, read};
use cv_derive_laws::reached::derivations_are_sound;
use cv_outside::Sink;
use cv_query_certificates::accepted_exactly_where_nothing_fails;
use cv_query_injections::accepted_correspondences_are_within_their_costs;
use cv_query_injections::values::accepted_certificates_cost_a_number;
use cv_query_secrets::sessions::accepted_secrets_have_no_advantage;
use cv_report::outcome::refused;
use cv_report::{Command, Report, Status, Stream};
use cv_syntax::{File, Work};
use std::alloc::Global;

/// A run before what is left of its report is put: the report, and what was put of it.
#[derive(Drop)]
pub struct Run {
    pub report: Report,
    pub stream: Stream,
}

/// A run that ended before a file was accepted.
pub fn run_refused(alloc: Global, work: Work, command: Command, status: Status) -> Run
    ensures status { result.report.status ≡ status }
    ensures command { result.report.command ≡ command }
    ensures file { result.report.file ≡ None }
    ensures nothing { SaysNothing result.report }
    ensures silent { IsSilent result.stream }
{
    Run {
        report: refused(alloc, work, command, status),
        stream: Stream::silent(alloc),
    }
}

/// A run over an accepted file without a proof block.
fn run_without<K: Sink>(
    alloc: Global,
    work: Work,
    command: Command,
    file: File,
    sink: &mut K,
) -> Run
    requires game { file.game.root.0 < length work.pool.trees }
    requires small { size (tree_at work.pool.trees (Some file.game.root)) ≤ 50000 }
    requires below { All (IsBelow (length work.pool.trees)) work.decls.list }
    requires equivalences { HasEquivalences (scene_of work.pool work.decls file.game.root) }
    requires limit { work.pool.limit ≡ most_pool }
    requires formed { IsWellFormed (declarations work.pool.trees work.decls.list)
        (tree_at work.pool.trees (Some file.game.root)) }
    ensures run { Runs (content_at work file.game.root None) file
        (parameters_in work.decls.list) (K.taken sink.old) (K.taken sink.new)
        (K.faults sink.old) (K.faults sink.new) result.stream result.report }
    ensures command { result.report.command ≡ command }
{
    if is_games(command) {
        run_games(alloc, work, command, file, sink)
    } else {
        run_strategy(alloc, work, command, file, sink)
    }
}

/// A run over an accepted file.
fn run_accepted<K: Sink>(
    alloc: Global,
    work: Work,
    command: Command,
    accepted: Accepted,
    sink: &mut K,
) -> Run
    requires game { accepted.file.game.root.0 < length work.pool.trees }
    requires small { size (tree_at work.pool.trees (Some accepted.file.game.root)) ≤ 50000 }
    requires below { All (IsBelow (length work.pool.trees)) work.decls.list }
    requires equivalences { HasEquivalences
        (scene_of work.pool work.decls accepted.file.game.root) }
    requires limit { work.pool.limit ≡ most_pool }
    requires nodes { length work.pool.trees
        ≤ content_nodes (content_at work accepted.file.game.root accepted.script) }
    requires steps { IfSome accepted.script (λ s.
        HasSteps work.pool.limit work.pool.trees s.items) }
    requires formed { IsWellFormed (declarations work.pool.trees work.decls.list)
        (tree_at work.pool.trees (Some accepted.file.game.root)) }
    ensures run { Runs (content_at work accepted.file.game.root accepted.script) accepted.file
        (parameters_in work.decls.list) (K.taken sink.old) (K.taken sink.new)
        (K.faults sink.old) (K.faults sink.new) result.stream result.report }
    ensures command { result.report.command ≡ command }
{
    let Accepted { file, script } = accepted;
    match script {
        None => run_without(alloc, work, command, file, sink),
        Some(steps) => run_script(alloc, work, command, file, steps, sink),
    }
}

/// The bytes of a library, where there is one.
fn library_of(source: &Source) -> Option<&[u8]>
    requires { IsShort (given_of source.now) }
    ensures same { option_map (λ more. more.now) result ≡ (given_of source.now).library }
    ensures few { IfSome result (λ more. length more.now ≤ 1048576) }
{
    match &source.library {
        Some(bytes) => Some(bytes.as_slice()),
        None => None,
    }
}

/// Reads what was fetched into an empty work.
fn read_source(alloc: Global, work: &mut Work, source: &Source) -> Result<Accepted, FileError>
    requires names { work.old.names ≡ [] }
    requires decls { work.old.decls.list ≡ [] }
    requires trees { work.old.pool.trees ≡ [] }
    requires limit { work.old.pool.limit ≡ most_pool }
    requires few { IsShort (given_of source.now) }
    ensures reads { Reads work.old.pool.limit (given_of source.now) work.new result }
    ensures live { IfOk result (λ f. f.file.game.root.0 < length work.new.pool.trees) }
    ensures fits { IfOk result (λ f. size (tree_at work.new.pool.trees (Some f.file.game.root))
        ≤ 50000) }
    ensures nodes { IfOk result (λ f. length work.new.pool.trees
        ≤ content_nodes (content_at work.new f.file.game.root f.script)) }
    ensures steps { IfOk result (λ f. IfSome f.script (λ s.
        HasSteps work.new.pool.limit work.new.pool.trees s.items)) }
    ensures limit { work.new.pool.limit ≡ work.old.pool.limit }
    ensures below { OnOk result (All (IsBelow (length work.new.pool.trees)) work.new.decls.list) }
{
    read(alloc, work, &source.bytes, library_of(source))
}

/// Reads a source into an empty work, and follows its proof block, or applies the strategy; where its games are
/// asked for it applies none. The lines of games and steps are put as these are found.
#[tactic(auto, using(crate::proofs::Endings::without_file))]
pub fn judge<K: Sink>(
    alloc: Global,
    work: Work,
    command: Command,
    source: &Source,
    sink: &mut K,
) -> Run
    requires names { work.names ≡ [] }
    requires decls { work.decls.list ≡ [] }
    requires trees { work.pool.trees ≡ [] }
    requires limit { work.pool.limit ≡ most_pool }
    requires few { IsShort (given_of source.now) }
    ensures sound { IsSound result.report }
    ensures games { HasCloseGames result.report }
    ensures steps { HasCloseSteps result.report }
    ensures calls { HasBoundedCalls result.report }
    ensures command { result.report.command ≡ command }
    ensures begins { (o : Outside) → AreTold o.told (given_of source.now)
        → Begins o (K.taken sink.old) (K.taken sink.new) (K.faults sink.old) (K.faults sink.new)
        result.stream result.report }
    ensures judged { Judged command result.report.status (given_of source.now) }
{
    derivations_are_sound();
    accepted_exactly_where_nothing_fails();
    accepted_correspondences_are_within_their_costs();
    accepted_certificates_cost_a_number();
    accepted_secrets_have_no_advantage();
    let mut work = work;
    match read_source(alloc, &mut work, source) {
        Ok(accepted) => run_accepted(alloc, work, command, accepted, sink),
        Err(fault) => run_refused(alloc, work, command, status_of(fault)),
    }
}
