ghost use Rattle.std.specs.Prelude.{◌≡◌, ◌+◌, ◌<◌, ◌≤◌, ◌^◌, length, take, drop, Some, IfOk, OnErr, OnOk};
ghost use Rattle.cv_pool.specs.PoolView.{Grows};
ghost use Rattle.cv_parse_tables.specs.terminals.Signs.{no_counts, signs_from};
ghost use Rattle.cv_syntax_trees.specs.Tree.{size};
ghost use Rattle.cv_syntax.specs.PoolTrees.{tree_at};
ghost use Rattle.cv_parse.specs.Games.{ReadsGame, game_of, game_read};

use crate::ParseError;
use crate::measuring::{check_size, measure};
use crate::naming::{check_names, note_declared};
use crate::planting::plant_one;
use crate::reading::read_game;
use cv_lex::Tokens;
use cv_parse_notation::Sign;
use cv_parse_tables::terminals::more_signs;
use cv_parse_terms::Trail;
use cv_syntax::{Decls, Game, Pool, Work};
use std::alloc::Global;

/// Reads a game from its signs into a pool.
fn game_in(
    alloc: Global,
    pool: &mut Pool,
    decls: &Decls,
    signs: &[Sign],
) -> Result<Game, ParseError>
    requires few { length signs.now < 2 ^ 32 }
    ensures reads { ReadsGame (game_of pool.old.limit (length pool.old.trees) decls.now.list
        signs.now) pool.new.trees result }
    ensures live { IfOk result (λ g. g.root.0 < length pool.new.trees) }
    ensures fits { IfOk result (λ g. size (tree_at pool.new.trees (Some g.root)) ≤ 50000) }
    ensures grows { Grows pool.old pool.new }
    ensures kept { OnErr result (pool.new.trees ≡ pool.old.trees) }
{
    let mut trail = Trail::new(alloc);
    note_declared(decls, &mut trail.uses)?;
    read_game(signs, &mut trail)?;
    check_names(alloc, &trail.uses, signs.len())?;
    let extent = measure(alloc, &trail.makes)?;
    check_size(extent)?;
    let root = plant_one(alloc, pool, &trail.makes)?;
    Ok(Game { root })
}

/// Reads a game's text with the declarations that are there. New names are put behind the others, without a
/// class; where no game is read they are taken back.
pub fn game(alloc: Global, work: &mut Work, tokens: &Tokens) -> Result<Game, ParseError>
    requires few { length work.old.names + length tokens.now < 2 ^ 32 }
    ensures reads { ReadsGame (game_read work.old.pool.limit (length work.old.pool.trees)
        work.old.names work.old.decls.list tokens.now) work.new.pool.trees result }
    ensures live { IfOk result (λ g. g.root.0 < length work.new.pool.trees) }
    ensures fits { IfOk result (λ g. size (tree_at work.new.pool.trees (Some g.root)) ≤ 50000) }
    ensures names { OnOk result (work.new.names
        ≡ (signs_from work.old.names no_counts tokens.now).names) }
    ensures decls { work.new.decls ≡ work.old.decls }
    ensures grows { Grows work.old.pool work.new.pool }
    ensures same_names { OnErr result (work.new.names ≡ work.old.names) }
    ensures same_trees { OnErr result (work.new.pool.trees ≡ work.old.pool.trees) }
{
    let _tokens = tokens.len();
    let before = work.names.len();
    let signs = more_signs(alloc, &mut work.names, tokens, 0)?;
    let outcome = game_in(alloc, &mut work.pool, &work.decls, &signs);
    if outcome.is_err() {
        work.names.keep(before);
    }
    outcome
}
