ghost use Rattle.std.specs.Prelude.{◌≡◌, IfOk, codes, false};
ghost use Rattle.clap.specs.Simple.{on_top};
ghost use Rattle.clap.specs.Words.{app_of, new_app, rule_of};
ghost use Rattle.cv_outside.specs.words.Clap.{cv_app, file_rule, lib_rule, more_rule, moves_rule, number_rule, prove_rule, query_rule, quiet};

use clap::{Arg, ArgAction, Command};
use std::alloc::{AllocError, Global};

/// The operand that names a file.
fn file_arg<'a>(alloc: Global) -> Arg<'a>
    ensures rule { rule_of result ≡ file_rule }
    ensures local { result.global ≡ false }
{
    Arg::new(alloc, "file").required(true)
}

/// The operand that numbers a sample.
fn number_arg<'a>(alloc: Global) -> Arg<'a>
    ensures rule { rule_of result ≡ number_rule }
    ensures local { result.global ≡ false }
{
    Arg::new(alloc, "number").required(true)
}

/// The option that says how many moves a proof may have.
fn moves_arg<'a>(alloc: Global) -> Arg<'a>
    ensures rule { rule_of result ≡ moves_rule }
    ensures local { result.global ≡ false }
{
    Arg::new(alloc, "moves").long("moves")
}

/// The flag that asks for further moves.
fn more_arg<'a>(alloc: Global) -> Arg<'a>
    ensures rule { rule_of result ≡ more_rule }
    ensures local { result.global ≡ false }
{
    Arg::new(alloc, "more")
        .long("more")
        .action(ArgAction::SetTrue)
}

/// The option that names a library.
fn lib_arg<'a>(alloc: Global) -> Arg<'a>
    ensures rule { rule_of result ≡ lib_rule }
    ensures local { result.global ≡ false }
{
    Arg::new(alloc, "lib").long("lib")
}

/// The option that numbers a query which is asked alone.
fn query_arg<'a>(alloc: Global) -> Arg<'a>
    ensures rule { rule_of result ≡ query_rule }
    ensures local { result.global ≡ false }
{
    Arg::new(alloc, "query").long("query")
}

/// The flag that asks for a proof of a sample.
fn prove_arg<'a>(alloc: Global) -> Arg<'a>
    ensures rule { rule_of result ≡ prove_rule }
    ensures local { result.global ≡ false }
{
    Arg::new(alloc, "prove")
        .long("prove")
        .action(ArgAction::SetTrue)
}

/// The program's own command, without flags for help and version, which wants a subcommand.
fn quiet_command<'a>(alloc: Global) -> Command<'a>
    ensures { app_of result ≡ on_top quiet (new_app (codes "cv")) }
{
    Command::new(alloc, "cv")
        .disable_help_flag(true)
        .disable_help_subcommand(true)
        .disable_version_flag(true)
        .subcommand_required(true)
}

/// The program's command line: `prove FILE [--moves N] [--more] [--lib LIB] [--query K]`, `games FILE [--lib LIB]`
/// or `sample N [--prove]`.
pub(crate) fn cv_command<'a>(alloc: Global) -> Result<Command<'a>, AllocError>
    ensures { IfOk result (λ c. app_of c ≡ cv_app) }
{
    let file = file_arg(alloc);
    let moves = moves_arg(alloc);
    let more = more_arg(alloc);
    let lib = lib_arg(alloc);
    let query = query_arg(alloc);
    let prove = Command::new(alloc, "prove")
        .arg(file)?
        .arg(moves)?
        .arg(more)?
        .arg(lib)?
        .arg(query)?;
    let shown = file_arg(alloc);
    let used = lib_arg(alloc);
    let games = Command::new(alloc, "games").arg(shown)?.arg(used)?;
    let number = number_arg(alloc);
    let flag = prove_arg(alloc);
    let sample = Command::new(alloc, "sample").arg(number)?.arg(flag)?;
    quiet_command(alloc)
        .subcommand(prove)?
        .subcommand(games)?
        .subcommand(sample)
}
