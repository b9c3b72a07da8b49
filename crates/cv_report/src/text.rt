// The text of a report.
ghost use Rattle.std.specs.Prelude.{◌≡◌, ◌+◌, ◌<◌, ◌^◌, ◌++◌, Some, codes, length, option_map, IfOk, OnOk, IfSome};
ghost use Rattle.cv_syntax.specs.PoolTrees.{tree_at};
ghost use Rattle.cv_syntax.specs.declared.work.Work.{Work};
ghost use Rattle.cv_print.specs.Games.{game_text};
ghost use Rattle.cv_report.specs.Lines.{cost_text, game_after, leg_text, next_text};
ghost use Rattle.cv_report.specs.Printed.{verdicts_and_end};
ghost use Rattle.cv_report.specs.Text.{EntryLive, alone_text, condition_text, end_text, expansion_text, fault_text, grammar_text, group_text, leg_in, lexis_text, library_lexis_text, library_text, no_close_text, numbered_text, open_text, place_text, query_text, refused_text, said_text, scope_text, script_text, step_refused_text, types_text, verdict_text, verdicts_asked, verdicts_text};

use crate::contexts::push_context;
use crate::report::{Cause, Entry, FileFault, Report, Status, Verdict, Which};
use cv_bound::{Cost, listed_text};
use cv_group::GroupFault;
use cv_lex::LexError;
use cv_library::{ExpandError, LibraryError};
use cv_parse::ParseError;
use cv_print::{push_decimal, push_game};
use cv_scope_rules::ScopeFault;
use cv_scope_rules::typing::TypeFault;
use cv_script::push_step;
use cv_syntax::{Game, Names, NodeId, Pool, Work};
use std::alloc::{AllocError, Global};

/// Appends the cost of a step.
fn push_cost(out: &mut Vec<u8>, names: &Names, cost: &Cost) -> Result<(), AllocError>
    ensures { OnOk result (out.new.items ≡ out.old.items ++ cost_text names.now cost.now) }
{
    let alloc = *out.allocator();
    let text = listed_text(alloc, names, cost)?;
    out.extend_from_slice(b"cost ")?;
    out.extend_from_slice(&text)?;
    out.extend_from_slice(b"\n")
}

/// Appends a game with its number, where there is one.
fn push_next(
    out: &mut Vec<u8>,
    work: &Work,
    number: u64,
    next: Option<Game>,
) -> Result<(), AllocError>
    requires { IfSome next (λ g. g.root.0 < length work.now.pool.trees) }
    ensures { OnOk result (out.new.items ≡ out.old.items ++ next_text work.now.names number
        (option_map (λ g. tree_at work.now.pool.trees (Some g.root)) next)) }
{
    let Some(game) = next else {
        return Ok(());
    };
    out.extend_from_slice(b"game ")?;
    push_decimal(out, number)?;
    out.extend_from_slice(b"\n")?;
    push_game(out, &work.pool, &work.names, game.root)
}

/// Appends a step with its number, its cost, its context and the game that it leads to, which would have this number.
fn push_entry(
    out: &mut Vec<u8>,
    work: &Work,
    order: &[u32],
    number: u64,
    game: u64,
    entry: &Entry,
) -> Result<(), AllocError>
    requires { EntryLive (length work.now.pool.trees) entry.now }
    ensures { OnOk result (out.new.items
        ≡ out.old.items ++ leg_text order.now number game (leg_in work.now entry.now)) }
{
    let names = &work.names;
    out.extend_from_slice(b"step ")?;
    push_decimal(out, number)?;
    out.extend_from_slice(b": ")?;
    push_step(out, &work.pool, names, entry.step)?;
    out.extend_from_slice(b";\n")?;
    push_cost(out, names, &entry.cost)?;
    push_context(out, names, order, number, &entry.context)?;
    push_next(out, work, game, entry.next)
}

/// The number of the next game behind an entry.
pub(crate) fn game_behind(game: u64, entry: &Entry) -> u64
    requires { game + 1 < 2 ^ 64 }
    ensures { (w : Work) → result ≡ game_after game (leg_in w entry.now) }
{
    match entry.next {
        Some(_) => game + 1,
        None => game,
    }
}

/// The lines of a step.
pub(crate) fn entry_text(
    alloc: Global,
    work: &Work,
    order: &[u32],
    number: u64,
    game: u64,
    entry: &Entry,
) -> Result<Vec<u8>, AllocError>
    requires { EntryLive (length work.now.pool.trees) entry.now }
    ensures { IfOk result (λ v. v.items
        ≡ leg_text order.now number game (leg_in work.now entry.now)) }
{
    let mut out = Vec::new(alloc);
    push_entry(&mut out, work, order, number, game, entry)?;
    Ok(out)
}

/// The lines of the game of a file.
pub(crate) fn first_text(
    alloc: Global,
    pool: &Pool,
    names: &Names,
    game: NodeId,
) -> Result<Vec<u8>, AllocError>
    requires { game.0 < length pool.now.trees }
    ensures { IfOk result (λ v. v.items ≡ codes "game 1\n"
        ++ game_text names.now (tree_at pool.now.trees (Some game))) }
{
    let mut out = Vec::new(alloc);
    out.extend_from_slice(b"game 1\n")?;
    push_game(&mut out, pool, names, game)?;
    Ok(out)
}

/// Appends what is said of a query.
fn push_said(out: &mut Vec<u8>, names: &Names, verdict: &Verdict) -> Result<(), AllocError>
    ensures { OnOk result (out.new.items ≡ out.old.items ++ said_text names.now verdict.now) }
{
    match verdict {
        Verdict::Proved(sum) => {
            let text = sum.text(names)?;
            out.extend_from_slice(b" proved up to ")?;
            out.extend_from_slice(&text)?;
            out.extend_from_slice(b"\n")
        }
        Verdict::NotProved => out.extend_from_slice(b" open\n"),
    }
}

/// Appends a verdict with the number of its query.
fn push_verdict(
    out: &mut Vec<u8>,
    names: &Names,
    number: u64,
    verdict: &Verdict,
) -> Result<(), AllocError>
    ensures { OnOk result (out.new.items
        ≡ out.old.items ++ verdict_text names.now number verdict.now) }
{
    out.extend_from_slice(b"query ")?;
    push_decimal(out, number)?;
    push_said(out, names, verdict)
}

/// Appends verdicts with the numbers of their queries.
#[tactic(auto, using(crate::proofs::Texts::texts))]
fn push_verdicts(out: &mut Vec<u8>, names: &Names, verdicts: &[Verdict]) -> Result<(), AllocError>
    ensures { OnOk result (out.new.items
        ≡ out.old.items ++ verdicts_text names.now 1 verdicts.now) }
{
    'verdicts: for k in 0..verdicts.len() {
        push_verdict(out, names, k as u64 + 1, &verdicts[k])?;
    }
    Ok(())
}

/// Appends what is said of a query that was asked alone, with its number.
fn push_alone(
    out: &mut Vec<u8>,
    names: &Names,
    number: u32,
    verdict: &Verdict,
) -> Result<(), AllocError>
    ensures { OnOk result (out.new.items
        ≡ out.old.items ++ alone_text names.now number verdict.now) }
{
    out.extend_from_slice(b"query ")?;
    push_decimal(out, number as u64)?;
    out.extend_from_slice(b" alone")?;
    push_said(out, names, verdict)
}

/// Appends each verdict as one on the query that was asked alone.
fn push_each_alone(
    out: &mut Vec<u8>,
    names: &Names,
    number: u32,
    verdicts: &[Verdict],
) -> Result<(), AllocError>
    ensures { OnOk result (out.new.items
        ≡ out.old.items ++ verdicts_asked names.now (Some number) verdicts.now) }
{
    'verdicts: for k in 0..verdicts.len() {
        push_alone(out, names, number, &verdicts[k])?;
    }
    Ok(())
}

/// Appends verdicts on all queries, or on the one that was asked alone.
fn push_asked(
    out: &mut Vec<u8>,
    names: &Names,
    query: Option<u32>,
    verdicts: &[Verdict],
) -> Result<(), AllocError>
    ensures { OnOk result (out.new.items
        ≡ out.old.items ++ verdicts_asked names.now query verdicts.now) }
{
    match query {
        Some(number) => push_each_alone(out, names, number, verdicts),
        None => push_verdicts(out, names, verdicts),
    }
}

/// Appends the end line of a file that is refused: what is wrong, and where.
fn push_refused(out: &mut Vec<u8>, what: &[u8], place: u32) -> Result<(), AllocError>
    ensures { OnOk result (out.new.items ≡ out.old.items ++ refused_text what.now place) }
{
    out.extend_from_slice(b"end 2 file refused: ")?;
    out.extend_from_slice(what)?;
    push_decimal(out, place as u64)?;
    out.extend_from_slice(b"\n")
}

/// Appends the end line of bytes without tokens.
fn push_lexis(out: &mut Vec<u8>, fault: LexError) -> Result<(), AllocError>
    ensures { OnOk result (out.new.items ≡ out.old.items ++ lexis_text fault) }
{
    match fault {
        LexError::Char(byte) => push_refused(out, b"char at byte ", byte),
        LexError::CommentOpen(byte) => push_refused(out, b"comment at byte ", byte),
        LexError::NumberWide(byte) => push_refused(out, b"number at byte ", byte),
        LexError::OutOfMemory => out.extend_from_slice(b"end 6 memory\n"),
    }
}

/// Appends the end line of a library without tokens.
fn push_library_lexis(out: &mut Vec<u8>, fault: LexError) -> Result<(), AllocError>
    ensures { OnOk result (out.new.items ≡ out.old.items ++ library_lexis_text fault) }
{
    match fault {
        LexError::Char(byte) => push_refused(out, b"library char at byte ", byte),
        LexError::CommentOpen(byte) => push_refused(out, b"library comment at byte ", byte),
        LexError::NumberWide(byte) => push_refused(out, b"library number at byte ", byte),
        LexError::OutOfMemory => out.extend_from_slice(b"end 6 memory\n"),
    }
}

/// Appends the end line of tokens that are no library.
fn push_library(out: &mut Vec<u8>, fault: LibraryError) -> Result<(), AllocError>
    ensures { OnOk result (out.new.items ≡ out.old.items ++ library_text fault) }
{
    match fault {
        LibraryError::Syntax(token) => push_refused(out, b"library syntax at token ", token),
        LibraryError::Twice(token) => push_refused(out, b"library name twice at token ", token),
        LibraryError::Inner(token) => push_refused(out, b"library inner expand at token ", token),
        LibraryError::OutOfMemory => out.extend_from_slice(b"end 6 memory\n"),
    }
}

/// Appends the end line of a file with a use that isn't one of a definition.
fn push_expansion(out: &mut Vec<u8>, fault: ExpandError) -> Result<(), AllocError>
    ensures { OnOk result (out.new.items ≡ out.old.items ++ expansion_text fault) }
{
    match fault {
        ExpandError::Unknown(token) => push_refused(out, b"no definition at token ", token),
        ExpandError::Count(token) => push_refused(out, b"expand count at token ", token),
        ExpandError::Tokens { count: _ } => out.extend_from_slice(b"end 7 limit: tokens\n"),
        ExpandError::OutOfMemory => out.extend_from_slice(b"end 6 memory\n"),
    }
}

/// Appends the end line of tokens that are no file.
fn push_grammar(out: &mut Vec<u8>, fault: ParseError) -> Result<(), AllocError>
    ensures { OnOk result (out.new.items ≡ out.old.items ++ grammar_text fault) }
{
    match fault {
        ParseError::Syntax(token) => push_refused(out, b"syntax at token ", token),
        ParseError::Nesting(token) => push_refused(out, b"nesting at token ", token),
        ParseError::NameTwice(token) => push_refused(out, b"name twice at token ", token),
        ParseError::NameUnknown(token) => push_refused(out, b"name unknown at token ", token),
        ParseError::Build(_) => out.extend_from_slice(b"end 6 memory\n"),
    }
}

/// Appends the end line of a file whose proof block begins with a token that begins no step.
fn push_script(out: &mut Vec<u8>, token: u32) -> Result<(), AllocError>
    ensures { OnOk result (out.new.items ≡ out.old.items ++ script_text token) }
{
    push_refused(out, b"script at token ", token)
}

/// Appends the end line of a file that isn't typed.
fn push_types(out: &mut Vec<u8>, fault: TypeFault) -> Result<(), AllocError>
    ensures { OnOk result (out.new.items ≡ out.old.items ++ types_text fault) }
{
    match fault {
        TypeFault::WrongType(node) => push_refused(out, b"type at node ", node),
        TypeFault::Arity(node) => push_refused(out, b"arity at node ", node),
        TypeFault::IndexAsMessage(node) => push_refused(out, b"index as message at node ", node),
        TypeFault::NotFixed(node) => push_refused(out, b"not fixed at node ", node),
        TypeFault::OutOfMemory => out.extend_from_slice(b"end 6 memory\n"),
    }
}

/// Appends the end line of a file whose game isn't scoped.
fn push_scope(out: &mut Vec<u8>, fault: ScopeFault) -> Result<(), AllocError>
    ensures { OnOk result (out.new.items ≡ out.old.items ++ scope_text fault) }
{
    match fault {
        ScopeFault::Unscoped(node) => push_refused(out, b"unscoped at node ", node),
        ScopeFault::TwoSites(node) => push_refused(out, b"two sites at node ", node),
        ScopeFault::Channel(node) => push_refused(out, b"channel at node ", node),
        ScopeFault::Replications(node) => push_refused(out, b"replications at node ", node),
        ScopeFault::OutOfMemory => out.extend_from_slice(b"end 6 memory\n"),
    }
}

/// Appends the end line of a file with an equivalence that is not accepted.
fn push_group(out: &mut Vec<u8>, equiv: u32, fault: GroupFault) -> Result<(), AllocError>
    ensures { OnOk result (out.new.items ≡ out.old.items ++ group_text equiv fault) }
{
    match fault {
        GroupFault::LeftNotTerm => push_refused(out, b"left not term in equivalence ", equiv),
        GroupFault::TwoIndices => push_refused(out, b"two indices in equivalence ", equiv),
        GroupFault::ShapeDiffers => push_refused(out, b"shape differs in equivalence ", equiv),
        GroupFault::FreeName => push_refused(out, b"free name in equivalence ", equiv),
        GroupFault::Unread => push_refused(out, b"unread name in equivalence ", equiv),
        GroupFault::OutOfMemory => out.extend_from_slice(b"end 6 memory\n"),
    }
}

/// Appends the end line of a file with a query that may not be asked.
fn push_query(out: &mut Vec<u8>, k: u32) -> Result<(), AllocError>
    ensures { OnOk result (out.new.items ≡ out.old.items ++ query_text k) }
{
    push_refused(out, b"query ", k)
}

/// Appends the end line of bytes that are no file.
fn push_fault(out: &mut Vec<u8>, fault: FileFault) -> Result<(), AllocError>
    ensures { OnOk result (out.new.items ≡ out.old.items ++ fault_text fault) }
{
    match fault {
        FileFault::Lex(fault) => push_lexis(out, fault),
        FileFault::LibraryLex(fault) => push_library_lexis(out, fault),
        FileFault::Library(fault) => push_library(out, fault),
        FileFault::Expand(fault) => push_expansion(out, fault),
        FileFault::Parse(fault) => push_grammar(out, fault),
        FileFault::Script(token) => push_script(out, token),
        FileFault::Types(fault) => push_types(out, fault),
        FileFault::Scope(fault) => push_scope(out, fault),
        FileFault::Group { equiv, fault } => push_group(out, equiv, fault),
        FileFault::Query(k) => push_query(out, k),
    }
}

/// Appends a number behind what it numbers.
#[tactic(auto, unfolding(crate::specs::Text::numbered_text))]
fn push_numbered(out: &mut Vec<u8>, what: &[u8], number: u32) -> Result<(), AllocError>
    ensures { OnOk result (out.new.items ≡ out.old.items ++ numbered_text what.now number) }
{
    out.extend_from_slice(what)?;
    push_decimal(out, number as u64)
}

/// Appends the place at which a condition fails.
#[tactic(auto, unfolding(crate::specs::Text::place_text, crate::specs::Text::numbered_text))]
fn push_place(out: &mut Vec<u8>, place: u64) -> Result<(), AllocError>
    ensures { OnOk result (out.new.items ≡ out.old.items ++ place_text place) }
{
    out.extend_from_slice(b" at ")?;
    push_decimal(out, place)?;
    out.extend_from_slice(b"\n")
}

/// Appends the condition that fails, with the place.
#[tactic(auto, unfolding(crate::specs::Text::condition_text))]
fn push_condition(out: &mut Vec<u8>, condition: u32, place: u64) -> Result<(), AllocError>
    ensures { OnOk result (out.new.items ≡ out.old.items ++ condition_text condition place) }
{
    push_numbered(out, b" condition ", condition)?;
    push_place(out, place)
}

/// Appends the end line of a script with a step that fails a condition at a place.
fn push_step_refused(
    out: &mut Vec<u8>,
    step: u32,
    condition: u32,
    place: u64,
) -> Result<(), AllocError>
    ensures { OnOk result (out.new.items
        ≡ out.old.items ++ step_refused_text step condition place) }
{
    push_numbered(out, b"end 1 open: step ", step)?;
    push_condition(out, condition, place)
}

/// Appends the end line of a script that closes a query by no step.
fn push_no_close(out: &mut Vec<u8>, k: u32) -> Result<(), AllocError>
    ensures { OnOk result (out.new.items ≡ out.old.items ++ no_close_text k) }
{
    push_numbered(out, b"end 1 open: no close of query ", k)?;
    out.extend_from_slice(b"\n")
}

/// Appends the end line of a run that leaves a query open.
fn push_open(out: &mut Vec<u8>, cause: Cause) -> Result<(), AllocError>
    ensures { OnOk result (out.new.items ≡ out.old.items ++ open_text cause) }
{
    match cause {
        Cause::Stuck => out.extend_from_slice(b"end 1 open: stuck\n"),
        Cause::Moves => out.extend_from_slice(b"end 1 open: moves\n"),
        Cause::StepRefused {
            step,
            condition,
            place,
        } => { push_step_refused(out, step, condition, place) }
        Cause::NoClose(k) => push_no_close(out, k),
    }
}

/// Appends the end line.
pub(crate) fn push_end(out: &mut Vec<u8>, status: Status) -> Result<(), AllocError>
    ensures { OnOk result (out.new.items ≡ out.old.items ++ end_text status) }
{
    match status {
        Status::Proved => out.extend_from_slice(b"end 0 proved\n"),
        Status::Done => out.extend_from_slice(b"end 0 done\n"),
        Status::Open(cause) => push_open(out, cause),
        Status::FileRefused(fault) => push_fault(out, fault),
        Status::Words => out.extend_from_slice(b"end 3 words\n"),
        Status::Read => out.extend_from_slice(b"end 4 read\n"),
        Status::Write => out.extend_from_slice(b"end 5 write\n"),
        Status::Memory => out.extend_from_slice(b"end 6 memory\n"),
        Status::Limit(Which::File) => out.extend_from_slice(b"end 7 limit: file\n"),
        Status::Limit(Which::Tokens { count: _ }) => {
            out.extend_from_slice(b"end 7 limit: tokens\n")
        }
        Status::Limit(Which::Nodes { count: _ }) => out.extend_from_slice(b"end 7 limit: nodes\n"),
        Status::Limit(Which::Depth { depth: _ }) => out.extend_from_slice(b"end 7 limit: depth\n"),
        Status::Limit(Which::Steps) => out.extend_from_slice(b"end 7 limit: steps\n"),
        Status::Limit(Which::Pool { need: _ }) => out.extend_from_slice(b"end 7 limit: pool\n"),
    }
}

/// Appends verdicts, on all queries or on the one that was asked alone, and the end line.
pub(crate) fn push_verdicts_and_end(
    out: &mut Vec<u8>,
    query: Option<u32>,
    report: &Report,
) -> Result<(), AllocError>
    ensures { OnOk result (out.new.items ≡ out.old.items ++ verdicts_and_end query report.now) }
{
    push_asked(out, &report.work.names, query, &report.verdicts)?;
    push_end(out, report.status)
}
