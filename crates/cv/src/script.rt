ghost use Rattle.std.specs.Prelude.{◌≡◌, ◌<◌, ◌≤◌, All, Some, length};
ghost use Rattle.cv_syntax.specs.Declarations.{declarations};
ghost use Rattle.cv_syntax_trees.specs.Tree.{size};
ghost use Rattle.cv_syntax.specs.PoolTrees.{tree_at};
ghost use Rattle.cv_parse.specs.Declaring.{IsBelow};
ghost use Rattle.cv_scope_rules.specs.Phrases.{IsWellFormed};
ghost use Rattle.cv_accept.specs.Works.{HasSteps, content_at, content_nodes};
ghost use Rattle.cv_accept.specs.Accepted.{most_pool};
ghost use Rattle.cv_scene_view.specs.Kept.{scene_of};
ghost use Rattle.cv_kernel_crypto.specs.Applied.{HasEquivalences};
ghost use Rattle.cv_costs.specs.Factors.{parameters_in};
ghost use Rattle.cv.specs.Runs.{Runs};

use crate::asked::end_under;
use crate::decide::Run;
use cv_follow::{Walk, follow_block};
use cv_outside::Sink;
use cv_report::{Command, Report, Stream};
use cv_script::Step;
use cv_syntax::{File, Work};
use std::alloc::Global;

/// A run over a file with a proof block: its steps are followed.
pub fn run_script<K: Sink>(
    alloc: Global,
    work: Work,
    command: Command,
    file: File,
    script: Vec<Step>,
    sink: &mut K,
) -> Run
    requires game { file.game.root.0 < length work.pool.trees }
    requires small { size (tree_at work.pool.trees (Some file.game.root)) ≤ 50000 }
    requires formed { IsWellFormed (declarations work.pool.trees work.decls.list)
        (tree_at work.pool.trees (Some file.game.root)) }
    requires below { All (IsBelow (length work.pool.trees)) work.decls.list }
    requires equivalences { HasEquivalences (scene_of work.pool work.decls file.game.root) }
    requires limit { work.pool.limit ≡ most_pool }
    requires nodes { length work.pool.trees
        ≤ content_nodes (content_at work file.game.root (Some script)) }
    requires steps { HasSteps work.pool.limit work.pool.trees script.items }
    ensures run { Runs (content_at work file.game.root (Some script)) file
        (parameters_in work.decls.list) (K.taken sink.old) (K.taken sink.new)
        (K.faults sink.old) (K.faults sink.new) result.stream result.report }
    ensures command { result.report.command ≡ command }
{
    let mut work = work;
    let mut stream = Stream::begin(alloc, sink, &work, command, file.game);
    let Walk {
        verdicts,
        status: end,
    } = follow_block(alloc, &mut work, file.game, &script, &mut stream, sink);
    let report = Report {
        work,
        file: Some(file),
        command,
        script: Some(script),
        verdicts,
        status: end_under(command, end),
    };
    Run { report, stream }
}
