ghost use Rattle.std.specs.Prelude.{◌≡◌, ◌++◌, ◌∷◌, ◌+◌, ◌-◌, ◌<◌, ◌≤◌, ◌^◌, length, drop, replicate, reverse, IfErr, IfOk, OnOk};
ghost use Rattle.cv_syntax.specs.declared.make.Make.TheVariants.{Nothing};
ghost use Rattle.cv_parse_notation.specs.Spells.{next_is};
ghost use Rattle.cv_parse_notation.specs.Reads.{read_find, read_number, read_sign, read_word};
ghost use Rattle.cv_parse_terms.specs.Gives.{read_note};
ghost use Rattle.cv_parse_terms.specs.Tables.{Runs, Stops, alone, begins, bounds as bounds_parts, bounds_head as bounds_form, change_by, closed, closer as closer_parts, ended as ended_parts, head_of as head_form, instead as instead_of, last_name, made_no_part, marked as marked_parts, more, named as named_parts, nodes_of, other_names, pair_of as pair_form, paired as paired_parts, parts_of, piece_in, pieces_in, put, put_before, refused as refused_step, row_in, rows_of, twice, waits, work_of};
ghost use Rattle.cv_parse_terms.specs.declared.lookahead.ReadError.TheVariants.{OutOfMemory};

use crate::lookahead::{
    ReadError, begins_body, begins_branch, begins_input, begins_output, begins_rest, begins_term,
    expect, is_at, is_find_at, is_word_at, is_zero_at, shallow,
};
use crate::piece::{Ahead, Closing, Naming, Pairing, Piece};
use crate::tokens::{find_word, note, number, word, zero};
use crate::trail::Trail;
use cv_parse_grammar::Role;
use cv_parse_notation::{Mark, Sign};
use cv_syntax::{Head, Make};
use std::alloc::AllocError;

/// Whether the next token is such.
fn is_ahead(signs: &[Sign], at: usize, ahead: Ahead) -> bool
    ensures { result ≡ next_is (begins ahead) (drop at signs.now) }
{
    match ahead {
        Ahead::Mark(mark) => is_at(signs, at, mark),
        Ahead::Word => is_word_at(signs, at),
        Ahead::Zero => is_zero_at(signs, at),
        Ahead::Find => is_find_at(signs, at),
        Ahead::Term => begins_term(signs, at),
        Ahead::Input => begins_input(signs, at),
        Ahead::Output => begins_output(signs, at),
        Ahead::Body => begins_body(signs, at),
        Ahead::Branch => begins_branch(signs, at),
        Ahead::Arguments => begins_rest(signs, at),
    }
}

/// The fault of what begins so, where no level is left.
#[tactic(auto, using(crate::proofs::Walks::walks))]
fn refused(signs: &[Sign], at: usize, trail: &Trail, names: &Vec<u64>, ahead: Ahead) -> ReadError
    requires at { at ≤ length signs.now }
    requires few { length signs.now < 2 ^ 32 }
    ensures { Stops signs.now result (refused_step ahead
        (work_of trail.now names.now.items (drop at signs.now))) }
{
    shallow(signs, at, is_ahead(signs, at, ahead))
}

/// A word or symbol.
#[tactic(auto, using(crate::proofs::Walks::walks))]
fn passed(
    signs: &[Sign],
    at: usize,
    trail: &Trail,
    names: &Vec<u64>,
    mark: Mark,
) -> Result<usize, ReadError>
    requires at { at ≤ length signs.now }
    requires few { length signs.now < 2 ^ 32 }
    ensures { Runs signs.now result trail.now names.now.items (put made_no_part
        (work_of trail.now names.now.items (drop at signs.now))
        (read_sign mark (drop at signs.now))) }
{
    expect(signs, at, mark)
}

/// A name, which waits for a head.
#[tactic(auto, using(crate::proofs::Walks::walks))]
fn waiting(
    signs: &[Sign],
    at: usize,
    trail: &mut Trail,
    names: &mut Vec<u64>,
    role: Role,
) -> Result<usize, ReadError>
    requires at { at ≤ length signs.now }
    requires few { length signs.now < 2 ^ 32 }
    ensures { Runs signs.now result trail.new names.new.items (put waits
        (work_of trail.old names.old.items (drop at signs.now))
        (read_word role (drop at signs.now))) }
{
    let (x, place) = word(signs, at, &mut trail.uses, role)?;
    names.push(u64::from(x))?;
    Ok(place)
}

/// A note about names.
#[tactic(auto, using(crate::proofs::Walks::walks))]
fn noted(
    signs: &[Sign],
    at: usize,
    trail: &mut Trail,
    names: &Vec<u64>,
    role: Role,
) -> Result<usize, ReadError>
    requires at { at ≤ length signs.now }
    requires few { length signs.now < 2 ^ 32 }
    ensures { Runs signs.now result trail.new names.now.items (put made_no_part
        (work_of trail.old names.now.items (drop at signs.now))
        (read_note role (drop at signs.now))) }
{
    note(signs, at, &mut trail.uses, role)?;
    Ok(at)
}

/// The word `find`, whose number waits as a name.
#[tactic(auto, using(crate::proofs::Walks::walks))]
fn found(signs: &[Sign], at: usize, trail: &Trail, names: &mut Vec<u64>) -> Result<usize, ReadError>
    requires at { at ≤ length signs.now }
    requires few { length signs.now < 2 ^ 32 }
    ensures { Runs signs.now result trail.now names.new.items (put waits
        (work_of trail.now names.old.items (drop at signs.now))
        (read_find (drop at signs.now))) }
{
    let (count, place) = find_word(signs, at)?;
    names.push(count)?;
    Ok(place)
}

/// The name that waits last, which leaves.
#[tactic(auto, using(crate::proofs::Walks::walks))]
pub fn taken(names: &mut Vec<u64>) -> u64
    ensures leaves { (result ≡ last_name (reverse names.old.items))
        × (reverse names.new.items ≡ other_names (reverse names.old.items)) }
{
    names.pop().unwrap_or(0)
}

/// A number, in place of the name that waits last.
#[tactic(auto, using(crate::proofs::Walks::walks))]
fn instead(
    signs: &[Sign],
    at: usize,
    trail: &Trail,
    names: &mut Vec<u64>,
) -> Result<usize, ReadError>
    requires at { at ≤ length signs.now }
    requires few { length signs.now < 2 ^ 32 }
    ensures { Runs signs.now result trail.now names.new.items (put instead_of
        (work_of trail.now names.old.items (drop at signs.now))
        (read_number (drop at signs.now))) }
{
    let (value, place) = number(signs, at)?;
    taken(names);
    names.push(value)?;
    Ok(place)
}

/// A name as heads have it. No name is longer.
pub fn short(x: u64) -> Result<u32, ReadError>
    ensures value { IfOk result (λ y. y ≡ x) }
    ensures full { IfErr result (λ e. e ≡ OutOfMemory) }
{
    if x < 4294967296 {
        return Ok(x as u32);
    }
    Err(ReadError::OutOfMemory)
}

/// The head of a name.
fn head_of(naming: Naming, x: u32) -> Head
    ensures { result ≡ head_form naming x }
{
    match naming {
        Naming::Leaf => Head::Leaf(x),
        Naming::Primed => Head::Primed(x),
        Naming::Read => Head::Read(x),
        Naming::Apply => Head::Apply(x),
        Naming::Name => Head::Name(x),
        Naming::In => Head::In(x),
        Naming::Out => Head::Out(x),
        Naming::Event => Head::Event(x),
        Naming::Find => Head::Find(u64::from(x)),
        Naming::Occurs => Head::Occurs(x),
        Naming::OccursOnce => Head::OccursOnce(x),
        Naming::Secret => Head::Secret(x),
        Naming::SecretOnce => Head::SecretOnce(x),
        Naming::Oracle => Head::Oracle(x),
        Naming::Equivalence => Head::Equivalence(x),
    }
}

/// The head of a name or of a label, which may be longer.
#[tactic(auto)]
fn long_head(naming: Naming, x: u64) -> Result<Head, ReadError>
    ensures head { IfOk result (λ h. h ≡ head_form naming x) }
    ensures full { IfErr result (λ e. e ≡ OutOfMemory) }
{
    if let Naming::Find = naming {
        return Ok(Head::Find(x));
    }
    let name = short(x)?;
    Ok(head_of(naming, name))
}

/// A node with a head of the name that waits.
#[tactic(auto, using(crate::proofs::Walks::walks))]
fn named(trail: &mut Trail, names: &mut Vec<u64>, naming: Naming) -> Result<(), ReadError>
    ensures parts { OnOk result (parts_of trail.new names.new.items
        ≡ named_parts naming (parts_of trail.old names.old.items)) }
    ensures full { IfErr result (λ e. e ≡ OutOfMemory) }
    ensures uses { trail.new.uses ≡ trail.old.uses }
{
    let x = taken(names);
    let head = long_head(naming, x)?;
    trail.makes.push(Make::Over(head))?;
    Ok(())
}

/// A node with a head of the name that waits: of the first kind where this word or symbol stands, which
/// is taken, and else of the second.
#[tactic(auto, using(crate::proofs::Walks::walks))]
fn marked(
    signs: &[Sign],
    at: usize,
    trail: &mut Trail,
    names: &mut Vec<u64>,
    mark: Mark,
    first: Naming,
    second: Naming,
) -> Result<usize, ReadError>
    requires at { at ≤ length signs.now }
    requires few { length signs.now < 2 ^ 32 }
    ensures { Runs signs.now result trail.new names.new.items (marked_parts mark first second
        (work_of trail.old names.old.items (drop at signs.now))) }
{
    if !is_at(signs, at, mark) {
        named(trail, names, second)?;
        return Ok(at);
    }
    let place = passed(signs, at, trail, names, mark)?;
    named(trail, names, first)?;
    Ok(place)
}

/// The head of two names.
fn pair_of(pairing: Pairing, x: u32, y: u32) -> Head
    ensures { result ≡ pair_form pairing x y }
{
    match pairing {
        Pairing::Binder => Head::Binder(x, y),
        Pairing::New => Head::New(x, y),
        Pairing::Let => Head::Let(x, y),
        Pairing::Repl => Head::Repl(x, y),
        Pairing::Bound => Head::Bound(x, y),
    }
}

/// A node with a head of the two names that wait.
#[tactic(auto, using(crate::proofs::Walks::walks))]
fn paired(trail: &mut Trail, names: &mut Vec<u64>, pairing: Pairing) -> Result<(), ReadError>
    ensures parts { OnOk result (parts_of trail.new names.new.items
        ≡ paired_parts pairing (parts_of trail.old names.old.items)) }
    ensures full { IfErr result (λ e. e ≡ OutOfMemory) }
    ensures uses { trail.new.uses ≡ trail.old.uses }
{
    let last = taken(names);
    let first = taken(names);
    let y = short(last)?;
    let x = short(first)?;
    trail.makes.push(Make::Over(pair_of(pairing, x, y)))?;
    Ok(())
}

/// A number waits behind the others.
#[tactic(auto, using(crate::proofs::Walks::walks))]
fn push(names: &mut Vec<u64>, number: u64) -> Result<(), ReadError>
    ensures waits { OnOk result (reverse names.new.items ≡ number ∷ reverse names.old.items) }
    ensures full { IfErr result (λ e. e ≡ OutOfMemory) }
{
    names.push(number)?;
    Ok(())
}

/// The name that waits last waits twice.
#[tactic(auto, using(crate::proofs::Walks::walks))]
fn again(names: &mut Vec<u64>) -> Result<(), ReadError>
    ensures names { OnOk result (reverse names.new.items ≡ twice (reverse names.old.items)) }
    ensures full { IfErr result (λ e. e ≡ OutOfMemory) }
{
    let x = taken(names);
    push(names, x)?;
    push(names, x)
}

/// The two names that wait last go before the four before them, the last of which counts such pairs.
#[tactic(auto, using(crate::proofs::Walks::walks))]
fn before(names: &mut Vec<u64>) -> Result<(), ReadError>
    ensures names { OnOk result (reverse names.new.items ≡ put_before (reverse names.old.items)) }
    ensures full { IfErr result (λ e. e ≡ OutOfMemory) }
{
    let second = taken(names);
    let first = taken(names);
    let count = short(taken(names))?;
    let copied = taken(names);
    let bound = taken(names);
    let index = taken(names);
    push(names, first)?;
    push(names, second)?;
    push(names, index)?;
    push(names, bound)?;
    push(names, copied)?;
    push(names, u64::from(count) + 1)?;
    Ok(())
}

/// The head of a function's bounds: an index and its bound, or the function's name.
fn bounds_head(copied: u64, x: u32, y: u32) -> Head
    ensures { result ≡ bounds_form copied x y }
{
    if copied == 0 {
        return Head::Single(x);
    }
    Head::Bound(x, y)
}

/// So many empty trees.
#[tactic(auto, using(crate::proofs::Made::makes))]
fn empties(makes: &mut Vec<Make>, count: u64) -> Result<(), AllocError>
    ensures { OnOk result (makes.new.items ≡ makes.old.items ++ replicate count Nothing) }
{
    'empty: for _ in 0..count {
        makes.push(Make::Nothing)?;
    }
    Ok(())
}

/// A node with the bounds of a function, and so many empty trees.
#[tactic(auto, using(crate::proofs::Walks::walks))]
fn bounds(trail: &mut Trail, names: &mut Vec<u64>) -> Result<(), ReadError>
    ensures parts { OnOk result (parts_of trail.new names.new.items
        ≡ bounds_parts (parts_of trail.old names.old.items)) }
    ensures full { IfErr result (λ e. e ≡ OutOfMemory) }
    ensures uses { trail.new.uses ≡ trail.old.uses }
{
    let count = taken(names);
    let copied = taken(names);
    let y = short(taken(names))?;
    let x = short(taken(names))?;
    trail.makes.push(Make::Over(bounds_head(copied, x, y)))?;
    empties(&mut trail.makes, count)?;
    Ok(())
}

/// A node of a list.
#[tactic(auto)]
fn closer(trail: &mut Trail, names: &mut Vec<u64>, closing: Closing) -> Result<(), ReadError>
    ensures parts { OnOk result (parts_of trail.new names.new.items
        ≡ closer_parts closing (parts_of trail.old names.old.items)) }
    ensures full { IfErr result (λ e. e ≡ OutOfMemory) }
    ensures uses { trail.new.uses ≡ trail.old.uses }
{
    match closing {
        Closing::Trees => {
            trail.makes.push(Make::Over(Head::Cons))?;
            Ok(())
        }
        Closing::Binders => paired(trail, names, Pairing::Binder),
        Closing::Names => named(trail, names, Naming::Name),
        Closing::Apart => Ok(()),
        Closing::Alternatives => {
            trail.makes.push(Make::Over(Head::SomeOf))?;
            Ok(())
        }
    }
}

/// The end of a list.
#[tactic(auto)]
fn list_end(trail: &mut Trail, names: &Vec<u64>, closing: Closing) -> Result<(), ReadError>
    ensures parts { OnOk result (parts_of trail.new names.now.items
        ≡ ended_parts closing (parts_of trail.old names.now.items)) }
    ensures full { IfErr result (λ e. e ≡ OutOfMemory) }
    ensures uses { trail.new.uses ≡ trail.old.uses }
{
    match closing {
        Closing::Trees | Closing::Binders | Closing::Names => {
            trail.makes.push(Make::Nothing)?;
            Ok(())
        }
        Closing::Apart | Closing::Alternatives => Ok(()),
    }
}

/// How many nodes a list of so many has.
fn node_count(closing: Closing, count: usize) -> usize
    ensures { result ≡ nodes_of closing count }
{
    match closing {
        Closing::Alternatives => count.saturating_sub(1),
        Closing::Trees | Closing::Binders | Closing::Names | Closing::Apart => count,
    }
}

/// The end of a list of so many, and its nodes.
#[tactic(auto)]
fn close(
    trail: &mut Trail,
    names: &mut Vec<u64>,
    closing: Closing,
    count: usize,
) -> Result<(), ReadError>
    ensures parts { OnOk result (parts_of trail.new names.new.items
        ≡ closed closing count (parts_of trail.old names.old.items)) }
    ensures full { IfErr result (λ e. e ≡ OutOfMemory) }
    ensures uses { trail.new.uses ≡ trail.old.uses }
{
    list_end(trail, names, closing)?;
    'items: for _ in 0..node_count(closing, count) {
        closer(trail, names, closing)?;
    }
    Ok(())
}

/// What a piece makes that takes no token and speaks of no row.
#[tactic(auto, using(crate::proofs::Walks::walks))]
fn change(trail: &mut Trail, names: &mut Vec<u64>, piece: Piece) -> Result<(), ReadError>
    ensures parts { OnOk result (parts_of trail.new names.new.items
        ≡ change_by piece (parts_of trail.old names.old.items)) }
    ensures full { IfErr result (λ e. e ≡ OutOfMemory) }
    ensures uses { trail.new.uses ≡ trail.old.uses }
{
    match piece {
        Piece::Value(number) => push(names, number),
        Piece::Again => again(names),
        Piece::Before => before(names),
        Piece::Bounds => bounds(trail, names),
        Piece::Named(naming) => named(trail, names, naming),
        Piece::Paired(pairing) => paired(trail, names, pairing),
        Piece::Part(make) => {
            trail.makes.push(make)?;
            Ok(())
        }
        _ => Ok(()),
    }
}

/// A piece that speaks of no row.
#[tactic(auto, using(crate::proofs::Walks::walks))]
fn read_alone(
    signs: &[Sign],
    at: usize,
    trail: &mut Trail,
    names: &mut Vec<u64>,
    piece: Piece,
) -> Result<usize, ReadError>
    requires at { at ≤ length signs.now }
    requires few { length signs.now < 2 ^ 32 }
    ensures { Runs signs.now result trail.new names.new.items (alone piece
        (work_of trail.old names.old.items (drop at signs.now))) }
{
    match piece {
        Piece::Sign(mark) => passed(signs, at, trail, names, mark),
        Piece::Word(role) => waiting(signs, at, trail, names, role),
        Piece::Zero => zero(signs, at),
        Piece::Find => found(signs, at, trail, names),
        Piece::Instead => instead(signs, at, trail, names),
        Piece::Note(role) => noted(signs, at, trail, names, role),
        Piece::Marked(mark, first, second) => {
            marked(signs, at, trail, names, mark, first, second)
        }
        _ => {
            change(trail, names, piece)?;
            Ok(at)
        }
    }
}

/// What a row reads, again behind each such symbol, where so many were read.
#[cycle(walk)]
fn list(
    rows: &[&[Piece]],
    bound: usize,
    closing: Closing,
    mark: Mark,
    row: usize,
    read: usize,
    signs: &[Sign],
    at: usize,
    trail: &mut Trail,
    names: &mut Vec<u64>,
    depth: u32,
) -> Result<usize, ReadError>
    requires bound { bound ≤ length rows.now }
    requires table { length rows.now ≤ 65536 }
    requires at { at ≤ length signs.now }
    requires few { length signs.now < 2 ^ 32 }
    requires read { read ≤ 1 }
    ensures { Runs signs.now result trail.new names.new.items (more closing mark
        (row_in (rows_of rows.now) depth bound row) (length signs.now - at) read
        (work_of trail.old names.old.items (drop at signs.now))) }
{
    let mut count = read;
    let mut place = at;
    let mut turns = signs.len() - at;
    'turns: while turns > 0 {
        if !is_at(signs, place, mark) {
            close(trail, names, closing, count)?;
            return Ok(place);
        }
        let next = passed(signs, place, trail, names, mark)?;
        place = read_row(rows, bound, row, signs, next, trail, names, depth)?;
        count += 1;
        turns -= 1;
    }
    close(trail, names, closing, count)?;
    Ok(place)
}

/// A piece.
#[cycle(walk)]
fn read_piece(
    rows: &[&[Piece]],
    bound: usize,
    piece: Piece,
    signs: &[Sign],
    at: usize,
    trail: &mut Trail,
    names: &mut Vec<u64>,
    depth: u32,
) -> Result<usize, ReadError>
    requires bound { bound ≤ length rows.now }
    requires table { length rows.now ≤ 65536 }
    requires at { at ≤ length signs.now }
    requires few { length signs.now < 2 ^ 32 }
    ensures { Runs signs.now result trail.new names.new.items
        (piece_in (rows_of rows.now) depth bound piece
        (work_of trail.old names.old.items (drop at signs.now))) }
{
    match piece {
        Piece::Row(r) => read_row(rows, bound, r as usize, signs, at, trail, names, depth),
        Piece::Level(ahead, r) => {
            if depth > 0 {
                return read_row(rows, bound, r as usize, signs, at, trail, names, depth);
            }
            Err(refused(signs, at, trail, names, ahead))
        }
        Piece::Deeper(ahead, r) => {
            if depth > 0 {
                return read_table(rows, r as usize, signs, at, trail, names, depth - 1);
            }
            Err(refused(signs, at, trail, names, ahead))
        }
        Piece::Choice(ahead, r, s) => {
            let row = if is_ahead(signs, at, ahead) { r } else { s };
            read_row(rows, bound, row as usize, signs, at, trail, names, depth)
        }
        Piece::List(closing, mark, r) => {
            let row = r as usize;
            let place = read_row(rows, bound, row, signs, at, trail, names, depth)?;
            list(
                rows, bound, closing, mark, row, 1, signs, place, trail, names, depth,
            )
        }
        Piece::Many(closing, mark, r) => {
            let row = r as usize;
            list(
                rows, bound, closing, mark, row, 0, signs, at, trail, names, depth,
            )
        }
        _ => read_alone(signs, at, trail, names, piece),
    }
}

/// Pieces one behind another.
#[cycle(walk)]
fn read_pieces(
    rows: &[&[Piece]],
    bound: usize,
    pieces: &[Piece],
    signs: &[Sign],
    at: usize,
    trail: &mut Trail,
    names: &mut Vec<u64>,
    depth: u32,
) -> Result<usize, ReadError>
    requires bound { bound ≤ length rows.now }
    requires table { length rows.now ≤ 65536 }
    requires at { at ≤ length signs.now }
    requires few { length signs.now < 2 ^ 32 }
    ensures { Runs signs.now result trail.new names.new.items
        (pieces_in (rows_of rows.now) depth bound pieces.now
        (work_of trail.old names.old.items (drop at signs.now))) }
{
    let mut place = at;
    'pieces: for piece in pieces {
        place = read_piece(rows, bound, *piece, signs, place, trail, names, depth)?;
    }
    Ok(place)
}

/// A row, of those before the bound.
#[cycle(walk)]
fn read_row(
    rows: &[&[Piece]],
    bound: usize,
    row: usize,
    signs: &[Sign],
    at: usize,
    trail: &mut Trail,
    names: &mut Vec<u64>,
    depth: u32,
) -> Result<usize, ReadError>
    requires bound { bound ≤ length rows.now }
    requires table { length rows.now ≤ 65536 }
    requires at { at ≤ length signs.now }
    requires few { length signs.now < 2 ^ 32 }
    ensures { Runs signs.now result trail.new names.new.items
        (row_in (rows_of rows.now) depth bound row
        (work_of trail.old names.old.items (drop at signs.now))) }
{
    if row < bound {
        return read_pieces(rows, row, rows[row], signs, at, trail, names, depth);
    }
    Err(ReadError::Syntax(at as u32))
}

/// What a row of a table reads, with so many levels left.
#[cycle(walk)]
pub fn read_table(
    rows: &[&[Piece]],
    row: usize,
    signs: &[Sign],
    at: usize,
    trail: &mut Trail,
    names: &mut Vec<u64>,
    depth: u32,
) -> Result<usize, ReadError>
    requires table { length rows.now ≤ 65536 }
    requires at { at ≤ length signs.now }
    requires few { length signs.now < 2 ^ 32 }
    ensures { Runs signs.now result trail.new names.new.items
        (row_in (rows_of rows.now) depth (length rows.now) row
        (work_of trail.old names.old.items (drop at signs.now))) }
{
    read_row(rows, rows.len(), row, signs, at, trail, names, depth)
}
