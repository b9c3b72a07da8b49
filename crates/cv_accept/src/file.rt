ghost use Rattle.std.specs.Prelude.{◌≡◌, ◌+◌, ◌<◌, ◌≤◌, ◌^◌, [], ℕ, Some, All, length, option_map, IfOk, IfSome, OnOk, OnErr};
ghost use Rattle.cv_library.specs.Givens.{given_by};
ghost use Rattle.cv_pool.specs.PoolView.{Grows};
ghost use Rattle.cv_parse.specs.Declaring.{IsBelow};
ghost use Rattle.cv_syntax_trees.specs.Tree.{size};
ghost use Rattle.cv_syntax.specs.PoolTrees.{tree_at};
ghost use Rattle.cv_accept.specs.Accepted.{block_by, names_by};
ghost use Rattle.cv_accept.specs.Faults.{IsBlock};
ghost use Rattle.cv_accept.specs.Works.{HasSteps, Reads, ReadsTokens, block_nodes, content_at, content_nodes, script_in};

use crate::error::FileError;
use crate::numbers::told;
use crate::scoping::check_game;
use cv_directory::Directory;
use cv_group::check_all;
use cv_lex::Tokens;
use cv_library::tokens_given;
use cv_oracles::read_source;
use cv_parse::file;
use cv_query_form::check as check_queries;
use cv_script::Step;
use cv_script::reader::script;
use cv_syntax::filling::empty_again;
use cv_syntax::{File, Work};
use cv_typing::check as check_types;
use std::alloc::Global;

/// An accepted file, with the steps of its proof block, where it has one.
#[derive(Drop)]
pub struct Accepted {
    pub file: File,
    pub script: Option<Vec<Step>>,
}

/// Reads the proof block of a file, and puts its names behind the others.
fn read_steps(
    alloc: Global,
    work: &mut Work,
    tokens: &Tokens,
    range: (u32, u32),
) -> Result<Option<Vec<Step>>, FileError>
    requires within { range.1 < length tokens.now }
    requires few { length work.old.names + length tokens.now < 2 ^ 32 }
    ensures reads { IsBlock work.old.pool.limit (length work.old.pool.trees)
        (block_by tokens.now work.old.names (Some range)) work.new.pool.trees result }
    ensures names { OnOk result (work.new.names
        ≡ names_by tokens.now work.old.names (Some range)) }
    ensures steps { IfOk result (λ v. IfSome v (λ s.
        HasSteps work.new.pool.limit work.new.pool.trees s.items)) }
    ensures few { IfOk result (λ v. length work.new.pool.trees
        ≤ length work.old.pool.trees + block_nodes (script_in work.new.pool.trees v)) }
    ensures grows { Grows work.old.pool work.new.pool }
    ensures decls { work.new.decls ≡ work.old.decls }
{
    let from = range.0.min(range.1);
    let steps = script(alloc, work, tokens, (from, range.1))?;
    Ok(Some(steps))
}

/// Reads the proof block of a file, where it has one.
fn read_block(
    alloc: Global,
    work: &mut Work,
    tokens: &Tokens,
    block: Option<(u32, u32)>,
) -> Result<Option<Vec<Step>>, FileError>
    requires within { IfSome block (λ b. b.1 < length tokens.now) }
    requires few { length work.old.names + length tokens.now < 2 ^ 32 }
    ensures reads { IsBlock work.old.pool.limit (length work.old.pool.trees)
        (block_by tokens.now work.old.names block) work.new.pool.trees result }
    ensures names { OnOk result (work.new.names ≡ names_by tokens.now work.old.names block) }
    ensures steps { IfOk result (λ v. IfSome v (λ s.
        HasSteps work.new.pool.limit work.new.pool.trees s.items)) }
    ensures few { IfOk result (λ v. length work.new.pool.trees
        ≤ length work.old.pool.trees + block_nodes (script_in work.new.pool.trees v)) }
    ensures grows { Grows work.old.pool work.new.pool }
    ensures decls { work.new.decls ≡ work.old.decls }
{
    match block {
        None => Ok(None),
        Some(range) => read_steps(alloc, work, tokens, range),
    }
}

/// Fills an empty work with what these tokens say, where they are a file.
fn fill_by(alloc: Global, work: &mut Work, tokens: &Tokens) -> Result<Accepted, FileError>
    requires names { work.old.names ≡ [] }
    requires decls { work.old.decls.list ≡ [] }
    requires trees { work.old.pool.trees ≡ [] }
    requires limit { work.old.pool.limit < 4294967295 }
    requires few { length tokens.now ≤ 16777216 }
    ensures reads { ReadsTokens work.old.pool.limit tokens.now work.new result }
    ensures live { IfOk result (λ f. f.file.game.root.0 < length work.new.pool.trees) }
    ensures fits { IfOk result (λ f. size (tree_at work.new.pool.trees (Some f.file.game.root))
        ≤ 50000) }
    ensures nodes { IfOk result (λ f. length work.new.pool.trees
        ≤ content_nodes (content_at work.new f.file.game.root f.script)) }
    ensures steps { IfOk result (λ f. IfSome f.script (λ s.
        HasSteps work.new.pool.limit work.new.pool.trees s.items)) }
    ensures limit { work.new.pool.limit ≡ work.old.pool.limit }
    ensures below { OnOk result (All (IsBelow (length work.new.pool.trees)) work.new.decls.list) }
{
    let _tokens = tokens.len();
    let file = file(alloc, work, tokens)?;
    let script = read_block(alloc, work, tokens, file.script)?;
    let directory = Directory::of(alloc, &work.pool, &work.decls, file.game.root)?;
    let (nodes, directory) = check_types(alloc, work, &file, directory)?;
    let directory = check_game(alloc, work, file.game, nodes, directory)?;
    check_all(alloc, work)?;
    check_queries(alloc, work, file.game, &directory)?;
    Ok(Accepted { file, script })
}

/// Fills an empty work with what is given, where it is a file.
fn fill(
    alloc: Global,
    work: &mut Work,
    bytes: &[u8],
    library: Option<&[u8]>,
) -> Result<Accepted, FileError>
    requires names { work.old.names ≡ [] }
    requires decls { work.old.decls.list ≡ [] }
    requires trees { work.old.pool.trees ≡ [] }
    requires limit { work.old.pool.limit < 4294967295 }
    requires few { length bytes.now ≤ 1048576 }
    requires few_more { IfSome library (λ more. length more.now ≤ 1048576) }
    ensures reads { Reads work.old.pool.limit (given_by bytes.now
        (option_map (λ more. more.now) library.entry)) work.new result }
    ensures live { IfOk result (λ f. f.file.game.root.0 < length work.new.pool.trees) }
    ensures fits { IfOk result (λ f. size (tree_at work.new.pool.trees (Some f.file.game.root))
        ≤ 50000) }
    ensures nodes { IfOk result (λ f. length work.new.pool.trees
        ≤ content_nodes (content_at work.new f.file.game.root f.script)) }
    ensures steps { IfOk result (λ f. IfSome f.script (λ s.
        HasSteps work.new.pool.limit work.new.pool.trees s.items)) }
    ensures limit { work.new.pool.limit ≡ work.old.pool.limit }
    ensures below { OnOk result (All (IsBelow (length work.new.pool.trees)) work.new.decls.list) }
{
    let given = tokens_given(alloc, bytes, library)?;
    let source = read_source(alloc, given)?;
    match fill_by(alloc, work, &source.tokens) {
        Ok(file) => Ok(file),
        Err(fault) => Err(told(&source, fault)),
    }
}

/// Reads a file into an empty work, expanded by a library where one is given, and sets how many names are its own. Where
/// no file is read the work is empty again and has as many own names as before; the pool may have more spare room. A
/// file has at most a mebibyte, and so has a library.
pub fn read(
    alloc: Global,
    work: &mut Work,
    bytes: &[u8],
    library: Option<&[u8]>,
) -> Result<Accepted, FileError>
    requires names { work.old.names ≡ [] }
    requires decls { work.old.decls.list ≡ [] }
    requires trees { work.old.pool.trees ≡ [] }
    requires limit { work.old.pool.limit < 4294967295 }
    requires few { length bytes.now ≤ 1048576 }
    requires few_more { IfSome library (λ more. length more.now ≤ 1048576) }
    ensures reads { Reads work.old.pool.limit (given_by bytes.now
        (option_map (λ more. more.now) library.entry)) work.new result }
    ensures live { IfOk result (λ f. f.file.game.root.0 < length work.new.pool.trees) }
    ensures fits { IfOk result (λ f. size (tree_at work.new.pool.trees (Some f.file.game.root))
        ≤ 50000) }
    ensures nodes { IfOk result (λ f. length work.new.pool.trees
        ≤ content_nodes (content_at work.new f.file.game.root f.script)) }
    ensures steps { IfOk result (λ f. IfSome f.script (λ s.
        HasSteps work.new.pool.limit work.new.pool.trees s.items)) }
    ensures limit { work.new.pool.limit ≡ work.old.pool.limit }
    ensures below { OnOk result (All (IsBelow (length work.new.pool.trees)) work.new.decls.list) }
    ensures names { OnErr result (work.new.names ≡ []) }
    ensures decls { OnErr result (work.new.decls.list ≡ []) }
    ensures same_own { OnErr result (work.new.decls.own ≡ work.old.decls.own) }
    ensures trees { OnErr result (work.new.pool.trees ≡ []) }
{
    let before = work.pool.mark();
    let own = work.decls.own();
    match fill(alloc, work, bytes, library) {
        Ok(file) => Ok(file),
        Err(fault) => {
            empty_again(work, before, own);
            Err(fault)
        }
    }
}
