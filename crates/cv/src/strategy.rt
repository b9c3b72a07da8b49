ghost use Rattle.std.specs.Prelude.{◌≡◌, ◌<◌, ◌≤◌, All, None, Some, false, length};
ghost use Rattle.cv_syntax.specs.Declarations.{declarations};
ghost use Rattle.cv_syntax_trees.specs.Tree.{size};
ghost use Rattle.cv_syntax.specs.PoolTrees.{tree_at};
ghost use Rattle.cv_parse.specs.Declaring.{IsBelow};
ghost use Rattle.cv_scope_rules.specs.Phrases.{IsWellFormed};
ghost use Rattle.cv_accept.specs.Accepted.{most_pool};
ghost use Rattle.cv_accept.specs.Works.{content_at};
ghost use Rattle.cv_scene_view.specs.Kept.{scene_of};
ghost use Rattle.cv_kernel_crypto.specs.Applied.{HasEquivalences};
ghost use Rattle.cv_costs.specs.Factors.{parameters_in};
ghost use Rattle.cv.specs.Runs.{Runs};
ghost use Rattle.cv.specs.Strategy.{is_games};

use crate::asked::{goes_further, moves_of};
use crate::decide::Run;
use cv_follow::{Walk, search};
use cv_outside::Sink;
use cv_report::{Command, Report, Stream};
use cv_syntax::{File, Work};
use std::alloc::Global;

/// A run over a file without a proof block: steps are searched for.
pub fn run_strategy<K: Sink>(
    alloc: Global,
    work: Work,
    command: Command,
    file: File,
    sink: &mut K,
) -> Run
    requires game { file.game.root.0 < length work.pool.trees }
    requires small { size (tree_at work.pool.trees (Some file.game.root)) ≤ 50000 }
    requires formed { IsWellFormed (declarations work.pool.trees work.decls.list)
        (tree_at work.pool.trees (Some file.game.root)) }
    requires below { All (IsBelow (length work.pool.trees)) work.decls.list }
    requires equivalences { HasEquivalences (scene_of work.pool work.decls file.game.root) }
    requires limit { work.pool.limit ≡ most_pool }
    requires proves { is_games command ≡ false }
    ensures run { Runs (content_at work file.game.root None) file
        (parameters_in work.decls.list) (K.taken sink.old) (K.taken sink.new)
        (K.faults sink.old) (K.faults sink.new) result.stream result.report }
    ensures command { result.report.command ≡ command }
{
    let mut work = work;
    let mut stream = Stream::begin(alloc, sink, &work, command, file.game);
    let Walk { verdicts, status } = search(
        alloc,
        &mut work,
        file.game,
        moves_of(command),
        goes_further(command),
        &mut stream,
        sink,
    );
    let report = Report {
        work,
        file: Some(file),
        command,
        script: None,
        verdicts,
        status,
    };
    Run { report, stream }
}
