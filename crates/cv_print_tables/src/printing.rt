// The text of rows.
ghost use Rattle.std.specs.Prelude.{◌≡◌, ◌∷◌, [], true, ◌++◌, ◌≤◌, OnOk, IfOk, length, ℕ};
ghost use Rattle.cv_pool.specs.Nodes.{ChildBelow};
ghost use Rattle.cv_syntax.specs.PoolTrees.{tree_at};
ghost use Rattle.cv_parse_tables.specs.Table.{rows_of};
ghost use Rattle.cv_print_tables.specs.Items.{listed, items_at};
ghost use Rattle.cv_print_tables.specs.Layout.{layout, many, piece_layout, row_layout, takes_one};
ghost use Rattle.cv_print_tables.specs.Prints.{name_of, number_of, outer_text, prints_in, tree_text};

use crate::belonging::{alternative, fits, pieces_of, taken};
use crate::items::{Items, count, items_of, next, next_head};
use cv_parse_tables::spelling::{spelling, word_spelling};
use cv_parse_tables::{Outer, Piece};
use cv_print::{push_decimal, push_name, push_term, push_terms};
use cv_syntax::{Head, Names, NodeId, Pool, read_node};
use std::alloc::AllocError;

/// Appends a name, where a tree is one.
#[tactic(auto, using(cv_print::proofs::Readings::term_laws))]
fn push_name_at(
    out: &mut Vec<u8>,
    pool: &Pool,
    names: &Names,
    tree: Option<NodeId>,
) -> Result<(), AllocError>
    requires { ChildBelow (length pool.now.trees) tree }
    ensures { OnOk result (out.new.items
        ≡ out.old.items ++ name_of names.now (tree_at pool.now.trees tree)) }
{
    let Some(n) = tree else {
        return Ok(());
    };
    match read_node(pool, n).head {
        Head::Name(x) => push_name(out, names, x),
        _ => Ok(()),
    }
}

/// Appends a number, where a tree is one.
#[tactic(auto, using(cv_print::proofs::Readings::term_laws))]
fn push_number_at(out: &mut Vec<u8>, pool: &Pool, tree: Option<NodeId>) -> Result<(), AllocError>
    requires { ChildBelow (length pool.now.trees) tree }
    ensures { OnOk result (out.new.items
        ≡ out.old.items ++ number_of (tree_at pool.now.trees tree)) }
{
    let Some(n) = tree else {
        return Ok(());
    };
    match read_node(pool, n).head {
        Head::Number(value) => push_decimal(out, value),
        _ => Ok(()),
    }
}

/// Appends a phrase of files.
#[tactic(auto, using(cv_print::proofs::Readings::term_laws))]
fn push_outer(
    out: &mut Vec<u8>,
    pool: &Pool,
    names: &Names,
    phrase: Outer,
    tree: Option<NodeId>,
) -> Result<(), AllocError>
    requires { ChildBelow (length pool.now.trees) tree }
    ensures { OnOk result (out.new.items
        ≡ out.old.items ++ outer_text names.now phrase (tree_at pool.now.trees tree)) }
{
    match phrase {
        Outer::Terms => push_terms(out, pool, names, tree),
        Outer::InnerSubscript => {
            out.extend_from_slice(b"[")?;
            push_terms(out, pool, names, tree)?;
            out.extend_from_slice(b"]")
        }
        Outer::Term | Outer::InnerTerm | Outer::Cell | Outer::InnerCell => match tree {
            Some(n) => push_term(out, pool, names, n),
            None => Ok(()),
        },
    }
}

/// Appends the text of a tree by a piece that takes one.
#[cycle(rows)]
#[tactic(auto, using(crate::proofs::Rows::print_laws))]
fn push_tree(
    out: &mut Vec<u8>,
    pool: &Pool,
    names: &Names,
    rows: &[&[Piece]],
    bound: usize,
    piece: Piece,
    tree: Option<NodeId>,
    depth: u32,
) -> Result<(), AllocError>
    requires bound { bound ≤ length rows.now }
    requires table { length rows.now ≤ 65536 }
    requires live { ChildBelow (length pool.now.trees) tree }
    requires one { takes_one piece ≡ true }
    ensures { OnOk result (out.new.items ≡ out.old.items
        ++ (prints_in (rows_of rows.now) names.now depth
        (piece_layout (layout (rows_of rows.now) bound) piece)
        (tree_at pool.now.trees tree ∷ [])).text) }
{
    match piece {
        Piece::Word(_) => push_name_at(out, pool, names, tree),
        Piece::Number => push_number_at(out, pool, tree),
        Piece::Phrase(phrase) => push_outer(out, pool, names, phrase, tree),
        Piece::Deeper(r) => push_phrase(out, pool, names, rows, r as usize, tree, depth),
        Piece::Chain(r) => {
            let items = Items::Chain(tree);
            push_row(out, pool, names, rows, bound, r as usize, items, depth)?;
            Ok(())
        }
        Piece::Over(_, r) => {
            let items = items_of(pool, taken(rows, bound, r as usize), tree);
            push_row(out, pool, names, rows, bound, r as usize, items, depth)?;
            Ok(())
        }
        _ => Ok(()),
    }
}

/// Appends the text of the next tree by a piece that takes one, and answers the items behind.
#[cycle(rows)]
#[tactic(auto, using(crate::proofs::Rows::print_laws))]
fn push_next(
    out: &mut Vec<u8>,
    pool: &Pool,
    names: &Names,
    rows: &[&[Piece]],
    bound: usize,
    piece: Piece,
    items: Items,
    depth: u32,
) -> Result<Items, AllocError>
    requires bound { bound ≤ length rows.now }
    requires table { length rows.now ≤ 65536 }
    requires live { ChildBelow (length pool.now.trees) (items_at items) }
    requires one { takes_one piece ≡ true }
    ensures text { OnOk result (out.new.items ≡ out.old.items
        ++ (prints_in (rows_of rows.now) names.now depth
        (piece_layout (layout (rows_of rows.now) bound) piece) (listed pool.now.trees items)).text) }
    ensures rest { IfOk result (λ more. listed pool.now.trees more
        ≡ (prints_in (rows_of rows.now) names.now depth
        (piece_layout (layout (rows_of rows.now) bound) piece) (listed pool.now.trees items)).rest) }
    ensures live { IfOk result (λ more. ChildBelow (length pool.now.trees) (items_at more)) }
{
    let Some((tree, rest)) = next(pool, items) else {
        return Ok(items);
    };
    push_tree(out, pool, names, rows, bound, piece, tree, depth)?;
    Ok(rest)
}

/// Appends what a row prints, as often as the next tree belongs to it.
#[cycle(rows)]
#[tactic(auto, using(crate::proofs::Rows::print_laws))]
fn push_repeated(
    out: &mut Vec<u8>,
    pool: &Pool,
    names: &Names,
    rows: &[&[Piece]],
    bound: usize,
    row: usize,
    items: Items,
    depth: u32,
) -> Result<Items, AllocError>
    requires bound { bound ≤ length rows.now }
    requires table { length rows.now ≤ 65536 }
    requires live { ChildBelow (length pool.now.trees) (items_at items) }
    ensures text { OnOk result (out.new.items ≡ out.old.items
        ++ (prints_in (rows_of rows.now) names.now depth
        (many (layout (rows_of rows.now) bound row)) (listed pool.now.trees items)).text) }
    ensures rest { IfOk result (λ more. listed pool.now.trees more
        ≡ (prints_in (rows_of rows.now) names.now depth
        (many (layout (rows_of rows.now) bound row)) (listed pool.now.trees items)).rest) }
    ensures live { IfOk result (λ more. ChildBelow (length pool.now.trees) (items_at more)) }
{
    let mut rest = items;
    let mut turns = count(pool, items);
    'turns: while turns > 0 {
        if !fits(rows, bound, row, next_head(pool, rest)) {
            return Ok(rest);
        }
        rest = push_row(out, pool, names, rows, bound, row, rest, depth)?;
        turns -= 1;
    }
    Ok(rest)
}

/// Appends what a piece prints, and answers the items behind.
#[cycle(rows)]
#[tactic(auto, using(crate::proofs::Rows::print_laws))]
fn push_piece(
    out: &mut Vec<u8>,
    pool: &Pool,
    names: &Names,
    rows: &[&[Piece]],
    bound: usize,
    piece: Piece,
    items: Items,
    depth: u32,
) -> Result<Items, AllocError>
    requires bound { bound ≤ length rows.now }
    requires table { length rows.now ≤ 65536 }
    requires live { ChildBelow (length pool.now.trees) (items_at items) }
    ensures text { OnOk result (out.new.items ≡ out.old.items
        ++ (prints_in (rows_of rows.now) names.now depth
        (piece_layout (layout (rows_of rows.now) bound) piece) (listed pool.now.trees items)).text) }
    ensures rest { IfOk result (λ more. listed pool.now.trees more
        ≡ (prints_in (rows_of rows.now) names.now depth
        (piece_layout (layout (rows_of rows.now) bound) piece) (listed pool.now.trees items)).rest) }
    ensures live { IfOk result (λ more. ChildBelow (length pool.now.trees) (items_at more)) }
{
    match piece {
        Piece::Sign(mark) => out.extend_from_slice(spelling(mark).as_bytes())?,
        Piece::ScriptWord(word) => out.extend_from_slice(word_spelling(word).as_bytes())?,
        Piece::Blank => out.extend_from_slice(b" ")?,
        Piece::Note(_) => {}
        Piece::Word(_)
        | Piece::Number
        | Piece::Phrase(_)
        | Piece::Deeper(_)
        | Piece::Chain(_)
        | Piece::Over(_, _) => {
            return push_next(out, pool, names, rows, bound, piece, items, depth);
        }
        Piece::Level(r) => {
            return push_row(out, pool, names, rows, bound, r as usize, items, depth);
        }
        Piece::Many(_, r) => {
            return push_repeated(out, pool, names, rows, bound, r as usize, items, depth);
        }
        Piece::May(_, _) | Piece::Either(_, _) | Piece::OneOf(_, _) => {
            if let Some(row) = alternative(rows, bound, piece, next_head(pool, items)) {
                return push_row(out, pool, names, rows, bound, row, items, depth);
            }
        }
    }
    Ok(items)
}

/// Appends what pieces print one behind another, and answers the items behind.
#[cycle(rows)]
#[tactic(auto, using(crate::proofs::Rows::print_laws))]
fn push_pieces(
    out: &mut Vec<u8>,
    pool: &Pool,
    names: &Names,
    rows: &[&[Piece]],
    bound: usize,
    pieces: &[Piece],
    items: Items,
    depth: u32,
) -> Result<Items, AllocError>
    requires bound { bound ≤ length rows.now }
    requires table { length rows.now ≤ 65536 }
    requires live { ChildBelow (length pool.now.trees) (items_at items) }
    ensures text { OnOk result (out.new.items ≡ out.old.items
        ++ (prints_in (rows_of rows.now) names.now depth
        (row_layout (layout (rows_of rows.now) bound) pieces.now)
        (listed pool.now.trees items)).text) }
    ensures rest { IfOk result (λ more. listed pool.now.trees more
        ≡ (prints_in (rows_of rows.now) names.now depth
        (row_layout (layout (rows_of rows.now) bound) pieces.now)
        (listed pool.now.trees items)).rest) }
    ensures live { IfOk result (λ more. ChildBelow (length pool.now.trees) (items_at more)) }
{
    let mut rest = items;
    'pieces: for piece in pieces {
        rest = push_piece(out, pool, names, rows, bound, *piece, rest, depth)?;
    }
    Ok(rest)
}

/// Appends what a row prints, of those before the bound, and answers the items behind.
#[cycle(rows)]
#[tactic(auto, using(crate::proofs::Rows::print_laws))]
fn push_row(
    out: &mut Vec<u8>,
    pool: &Pool,
    names: &Names,
    rows: &[&[Piece]],
    bound: usize,
    row: usize,
    items: Items,
    depth: u32,
) -> Result<Items, AllocError>
    requires bound { bound ≤ length rows.now }
    requires table { length rows.now ≤ 65536 }
    requires live { ChildBelow (length pool.now.trees) (items_at items) }
    ensures text { OnOk result (out.new.items ≡ out.old.items
        ++ (prints_in (rows_of rows.now) names.now depth (layout (rows_of rows.now) bound row)
        (listed pool.now.trees items)).text) }
    ensures rest { IfOk result (λ more. listed pool.now.trees more
        ≡ (prints_in (rows_of rows.now) names.now depth (layout (rows_of rows.now) bound row)
        (listed pool.now.trees items)).rest) }
    ensures live { IfOk result (λ more. ChildBelow (length pool.now.trees) (items_at more)) }
{
    if row < bound {
        let pieces = pieces_of(rows, row);
        return push_pieces(out, pool, names, rows, row, pieces, items, depth);
    }
    Ok(items)
}

/// Appends the text of a tree by a row, in which so many levels are printed. It takes no memory but
/// that of the text, and fails for want of it alone.
#[cycle(rows)]
#[tactic(auto, using(crate::proofs::Rows::print_laws))]
pub fn push_phrase(
    out: &mut Vec<u8>,
    pool: &Pool,
    names: &Names,
    rows: &[&[Piece]],
    row: usize,
    tree: Option<NodeId>,
    depth: u32,
) -> Result<(), AllocError>
    requires table { length rows.now ≤ 65536 }
    requires live { ChildBelow (length pool.now.trees) tree }
    ensures { OnOk result (out.new.items ≡ out.old.items
        ++ tree_text (rows_of rows.now) names.now depth row (tree_at pool.now.trees tree)) }
{
    if depth > 0 {
        let items = Items::Single(1, tree);
        push_row(out, pool, names, rows, rows.len(), row, items, depth - 1)?;
    }
    Ok(())
}
