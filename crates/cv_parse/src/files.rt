ghost use Rattle.std.specs.Prelude.{◌≡◌, ◌+◌, ◌<◌, ◌≤◌, ◌^◌, ◌++◌, [], Some, length, All, OnErr, IfOk, OnOk};
ghost use Rattle.cv_parse_grammar.specs.Filled.{filled};
ghost use Rattle.cv_parse_tables.specs.terminals.Signs.{signs_of};
ghost use Rattle.cv_syntax.specs.Postorder.{postorder};
ghost use Rattle.cv_syntax_trees.specs.Tree.{Tree, size};
ghost use Rattle.cv_syntax.specs.PoolTrees.{tree_at};
ghost use Rattle.cv_syntax.specs.Declarations.{declarations};
ghost use Rattle.cv_parse.specs.Declaring.{IsBelow};
ghost use Rattle.cv_parse.specs.Nodes.{file_nodes};
ghost use Rattle.cv_parse.specs.Parsed.{Parses, ParsesIn, range_of};

use crate::building::build;
use crate::error::ParseError;
use crate::measuring::check_size;
use crate::naming::check_names;
use cv_lex::Tokens;
use cv_parse_declarations::read;
use cv_parse_names::indices::{fill, measure};
use cv_parse_notation::Sign;
use cv_parse_tables::terminals::signs;
use cv_syntax::filling::{empty_again, own_all_names};
use cv_syntax::{Decls, File, Game, Make, Pool, Work};
use std::alloc::{AllocError, Global};

/// The parts of all trees of a file: those of its declarations, and behind them those of its game.
fn all_parts(alloc: Global, trees: &[Make], process: &[Make]) -> Result<Vec<Make>, AllocError>
    ensures { (t : Tree) → process.now ≡ postorder t
        → IfOk result (λ makes. makes.items ≡ trees.now ++ postorder (filled t)) }
{
    let game = fill(alloc, process)?;
    let mut makes = Vec::from_slice(alloc, trees)?;
    makes.extend_from_slice(&game)?;
    Ok(makes)
}

/// The tokens of a proof block, by how many tokens of so many are left at its ends.
fn range(count: usize, script: Option<(usize, usize)>) -> Option<(u32, u32)>
    requires few { count < 2 ^ 32 }
    ensures { result ≡ range_of count script }
{
    let (first, last) = script?;
    Some((
        count.saturating_sub(first) as u32,
        count.saturating_sub(last) as u32,
    ))
}

/// Reads a file from its tokens into a pool and declarations.
fn parse(
    alloc: Global,
    pool: &mut Pool,
    decls: &mut Decls,
    signs: &[Sign],
) -> Result<File, ParseError>
    requires empty { decls.old.list ≡ [] }
    requires trees { pool.old.trees ≡ [] }
    requires few { length signs.now < 2 ^ 32 }
    ensures parses { ParsesIn pool.old.limit signs.now pool.new.trees decls.new.list result }
    ensures live { IfOk result (λ f. f.game.root.0 < length pool.new.trees) }
    ensures fits { IfOk result (λ f. size (tree_at pool.new.trees (Some f.game.root)) ≤ 50000) }
    ensures nodes { IfOk result (λ f. length pool.new.trees
        ≤ file_nodes (declarations pool.new.trees decls.new.list)
        (tree_at pool.new.trees (Some f.game.root))) }
    ensures limit { pool.new.limit ≡ pool.old.limit }
    ensures below { OnOk result (All (IsBelow (length pool.new.trees)) decls.new.list) }
    ensures own { decls.new.own ≡ decls.old.own }
{
    let reading = read(alloc, signs)?;
    check_names(alloc, &reading.uses, signs.len())?;
    let extent = measure(alloc, &reading.process)?;
    check_size(extent)?;
    let makes = all_parts(alloc, &reading.trees, &reading.process)?;
    let root = build(alloc, pool, decls, &reading, &makes)?;
    Ok(File {
        game: Game { root },
        script: range(signs.len(), reading.script),
    })
}

/// Fills an empty work with what tokens say.
fn fill_work(alloc: Global, work: &mut Work, tokens: &Tokens) -> Result<File, ParseError>
    requires names { work.old.names ≡ [] }
    requires decls { work.old.decls.list ≡ [] }
    requires trees { work.old.pool.trees ≡ [] }
    requires few { length tokens.now < 200000000 }
    ensures parses { Parses work.old.pool.limit (signs_of tokens.now).signs work.new result }
    ensures names { OnOk result (work.new.names ≡ (signs_of tokens.now).names) }
    ensures live { IfOk result (λ f. f.game.root.0 < length work.new.pool.trees) }
    ensures fits { IfOk result (λ f. size (tree_at work.new.pool.trees (Some f.game.root))
        ≤ 50000) }
    ensures nodes { IfOk result (λ f. length work.new.pool.trees
        ≤ file_nodes (declarations work.new.pool.trees work.new.decls.list)
        (tree_at work.new.pool.trees (Some f.game.root))) }
    ensures limit { work.new.pool.limit ≡ work.old.pool.limit }
    ensures below { OnOk result (All (IsBelow (length work.new.pool.trees)) work.new.decls.list) }
    ensures own { OnOk result (work.new.decls.own ≡ length work.new.names) }
    ensures same_own { OnErr result (work.new.decls.own ≡ work.old.decls.own) }
{
    let signs = signs(alloc, &mut work.names, tokens)?;
    let file = parse(alloc, &mut work.pool, &mut work.decls, &signs)?;
    own_all_names(work);
    Ok(file)
}

/// Reads a file from its tokens into an empty work, and sets how many names are its own. Where no file is read
/// the work is empty again and has as many own names as before; the pool may have more spare room.
pub fn file(alloc: Global, work: &mut Work, tokens: &Tokens) -> Result<File, ParseError>
    requires names { work.old.names ≡ [] }
    requires decls { work.old.decls.list ≡ [] }
    requires trees { work.old.pool.trees ≡ [] }
    requires few { length tokens.now < 200000000 }
    ensures parses { Parses work.old.pool.limit (signs_of tokens.now).signs work.new result }
    ensures names { OnOk result (work.new.names ≡ (signs_of tokens.now).names) }
    ensures live { IfOk result (λ f. f.game.root.0 < length work.new.pool.trees) }
    ensures fits { IfOk result (λ f. size (tree_at work.new.pool.trees (Some f.game.root))
        ≤ 50000) }
    ensures nodes { IfOk result (λ f. length work.new.pool.trees
        ≤ file_nodes (declarations work.new.pool.trees work.new.decls.list)
        (tree_at work.new.pool.trees (Some f.game.root))) }
    ensures limit { work.new.pool.limit ≡ work.old.pool.limit }
    ensures below { OnOk result (All (IsBelow (length work.new.pool.trees)) work.new.decls.list) }
    ensures own { OnOk result (work.new.decls.own ≡ length work.new.names) }
    ensures no_names { OnErr result (work.new.names ≡ []) }
    ensures no_decls { OnErr result (work.new.decls.list ≡ []) }
    ensures same_own { OnErr result (work.new.decls.own ≡ work.old.decls.own) }
    ensures no_trees { OnErr result (work.new.pool.trees ≡ []) }
{
    let before = work.pool.mark();
    let own = work.decls.own();
    match fill_work(alloc, work, tokens) {
        Ok(file) => Ok(file),
        Err(fault) => {
            empty_again(work, before, own);
            Err(fault)
        }
    }
}
