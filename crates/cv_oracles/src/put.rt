// The writing of tokens behind others.

ghost use Rattle.std.specs.Prelude.{◌≡◌, ◌∷◌, [], map, OnOk};
ghost use Rattle.cv_library.specs.Written.{Adds};
ghost use Rattle.cv_oracles.specs.Pieces.{copy_for, piece_for, word_for, written_for};

use crate::form::Form;
use crate::read::is_end_at;
use crate::words::{Piece, Word, kind_of, pieces, text_of};
use cv_lex::Tokens;
use std::alloc::AllocError;

// Writes a word or symbol for the token with this number. (More tokens than may be are want of memory.)
pub fn put_word(out: &mut Tokens, word: Word, k: u32) -> Result<(), AllocError>
    ensures { OnOk result (Adds out.old (word_for word k ∷ []) out.new) }
{
    if out.len() == u32::MAX {
        return Err(AllocError);
    }
    out.push(kind_of(word), text_of(word), k)
}

// Writes a token once more, for the token with the second number.
pub fn put_copy(out: &mut Tokens, tokens: &Tokens, j: u32, k: u32) -> Result<(), AllocError>
    ensures { OnOk result (Adds out.old (copy_for tokens.now j k ∷ []) out.new) }
{
    if is_end_at(tokens, j) {
        return put_word(out, Word::Never, k);
    }
    if out.len() == u32::MAX {
        return Err(AllocError);
    }
    let _tokens = tokens.len();
    out.push(tokens.kind(j), tokens.text(j), k)
}

fn put_piece(
    out: &mut Tokens,
    tokens: &Tokens,
    oracle: u32,
    k: u32,
    piece: Piece,
) -> Result<(), AllocError>
    ensures { OnOk result (Adds out.old (piece_for tokens.now oracle k piece ∷ []) out.new) }
{
    match piece {
        Piece::Own => put_copy(out, tokens, k, k),
        Piece::Oracle => put_copy(out, tokens, oracle, k),
        Piece::The(word) => put_word(out, word, k),
    }
}

// Writes what stands for the token with this number.
pub fn put_form(
    out: &mut Tokens,
    tokens: &Tokens,
    oracle: u32,
    k: u32,
    form: Form,
) -> Result<(), AllocError>
    ensures { OnOk result (Adds out.old (written_for tokens.now oracle k form) out.new) }
{
    let row = pieces(form);
    'pieces: for piece in row {
        put_piece(out, tokens, oracle, k, *piece)?;
    }
    Ok(())
}
