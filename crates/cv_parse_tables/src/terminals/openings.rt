// The parentheses of a file that open right sides of queries, told from all others.

ghost use Rattle.std.specs.Prelude.{◌≡◌, ◌≢◌, ◌+◌, ◌<◌, ◌^◌, ◌&&◌, ℕ, false, length, slice_get, IfSome, List, Some};
ghost use Rattle.std.specs.List.{AllByRecursion};
ghost use Rattle.cv_parse_notation.specs.declared.sign.Mark.TheVariants.{Open, OpenAtoms};
ghost use Rattle.cv_parse_notation.specs.declared.sign.Sign.{Sign as ASign};
ghost use Rattle.cv_parse_tables.specs.terminals.Openings.{closings_at as closings_form, in_atom as in_atom_form, is_at_atom as at_atom_form, is_for_atoms as for_atoms_form, is_nought as nought_form, next_place as next_place_form, place_behind as place_behind_form, settled_from, turn_of as turn_form, with_events, with_opening as with_opening_form, with_openings, open_in};
ghost use Rattle.cv_parse_tables.specs.terminals.Worked.{small_right_side};
ghost use Rattle.cv_parse_tables.specs.declared.terminals.openings.Place.TheVariants as place;
ghost use Rattle.cv_parse_tables.specs.declared.terminals.openings.Turn.TheVariants.{Arrow, Opening};

use cv_parse_notation::{Mark, Sign};

// What a sign is to the right sides of queries.
#[derive(Clone, Copy)]
pub enum Turn {
    // The word `event` or `inj`.
    Event,
    // A period.
    Period,
    // An opening parenthesis of either kind.
    Opening,
    // A closing parenthesis.
    Closing,
    // `&&` or `||`.
    Joining,
    // The arrow before a right side.
    Arrow,
    // Any other.
    Other,
}

// Where a sign stands.
#[derive(Clone, Copy)]
pub enum Place {
    // Outside of right sides.
    Outside,
    // Where an atom of a right side begins.
    AtAtom,
    // In or behind an atom, with so many of its parentheses open.
    InAtom(usize),
}

// What a sign is to right sides.
fn turn_of(sign: Sign) -> Turn
    ensures { result ≡ turn_form sign }
{
    let Sign::Mark(mark) = sign else {
        return Turn::Other;
    };
    match mark {
        Mark::EventWord | Mark::Inj => Turn::Event,
        Mark::Dot => Turn::Period,
        Mark::Open | Mark::OpenAtoms => Turn::Opening,
        Mark::Close => Turn::Closing,
        Mark::Both | Mark::Either => Turn::Joining,
        Mark::Implies => Turn::Arrow,
        _ => Turn::Other,
    }
}

// Whether a sign is a parenthesis that opens a right side.
fn is_for_atoms(sign: Sign) -> bool
    ensures { result ≡ for_atoms_form sign }
{
    matches!(sign, Sign::Mark(Mark::OpenAtoms))
}

// An opening parenthesis, by whether it opens a right side, and any other sign as it is.
fn with_opening(right: bool, turn: Turn, sign: Sign) -> Sign
    ensures { result ≡ with_opening_form right turn sign }
{
    let Turn::Opening = turn else {
        return sign;
    };
    if right {
        return Sign::Mark(Mark::OpenAtoms);
    }
    Sign::Mark(Mark::Open)
}

// How many more parentheses are closed than opened before the next event, from a sign on.
fn closings_at(turn: Turn, closings: Option<usize>) -> Option<usize>
    requires { IfSome closings (λ n. n + 1 < 2 ^ 64) }
    ensures { result ≡ closings_form turn closings }
{
    match turn {
        Turn::Event => Some(0),
        Turn::Period => None,
        Turn::Opening => Some(closings?.saturating_sub(1)),
        Turn::Closing => Some(closings? + 1),
        Turn::Joining | Turn::Arrow | Turn::Other => closings,
    }
}

// Whether none more is.
fn is_nought(closings: Option<usize>) -> bool
    ensures { result ≡ nought_form closings }
{
    match closings {
        None => false,
        Some(count) => count == 0,
    }
}

// Each parenthesis with an event ahead, as if it opened a right side.
fn mark_events(signs: &mut [Sign])
    requires { length signs.old < 2 ^ 32 }
    ensures { signs.new ≡ with_events signs.old }
{
    let mut closings = None;
    let mut k = signs.len();
    'signs: while k > 0 {
        k -= 1;
        let sign = signs[k];
        let turn = turn_of(sign);
        signs[k] = with_opening(is_nought(closings), turn, sign);
        closings = closings_at(turn, closings);
    }
}

// The place behind a sign in an atom that opens no right side.
fn in_atom(depth: usize, turn: Turn) -> Place
    requires { depth + 1 < 2 ^ 64 }
    ensures { result ≡ in_atom_form depth turn }
{
    match turn {
        Turn::Period => Place::Outside,
        Turn::Opening => Place::InAtom(depth + 1),
        Turn::Closing => Place::InAtom(depth.saturating_sub(1)),
        Turn::Joining if depth == 0 => Place::AtAtom,
        _ => Place::InAtom(depth),
    }
}

// The place behind a sign that opens no right side.
fn place_behind(place: Place, turn: Turn) -> Place
    requires { open_in place + 1 < 2 ^ 64 }
    ensures { result ≡ place_behind_form place turn }
{
    match place {
        Place::Outside => {
            if let Turn::Arrow = turn {
                return Place::AtAtom;
            }
            Place::Outside
        }
        Place::AtAtom => in_atom(0, turn),
        Place::InAtom(depth) => in_atom(depth, turn),
    }
}

// The place behind a sign, by whether a parenthesis there opens a right side.
fn next_place(right: bool, place: Place, turn: Turn) -> Place
    requires { open_in place + 1 < 2 ^ 64 }
    ensures { result ≡ next_place_form right place turn }
{
    if let Turn::Opening = turn {
        if right {
            return Place::AtAtom;
        }
    }
    place_behind(place, turn)
}

// Whether an atom begins at a place.
fn is_at_atom(place: Place) -> bool
    ensures { result ≡ at_atom_form place }
{
    matches!(place, Place::AtAtom)
}

// Whether a sign opens a right side, where one that has an event ahead is a parenthesis that could.
fn is_right_side(place: Place, sign: Sign) -> bool
    ensures { result ≡ (at_atom_form place && for_atoms_form sign) }
{
    is_at_atom(place) && is_for_atoms(sign)
}

// Of the parentheses with an event ahead those at an atom open right sides.
fn settle(signs: &mut [Sign])
    requires { length signs.old < 2 ^ 32 }
    ensures { signs.new ≡ settled_from place.Outside signs.old }
{
    let mut place = Place::Outside;
    'signs: for k in 0..signs.len() {
        let sign = signs[k];
        let turn = turn_of(sign);
        let right = is_right_side(place, sign);
        signs[k] = with_opening(right, turn, sign);
        place = next_place(right, place, turn);
    }
}

// Tells the parentheses that open right sides from all others. Takes time linear in the signs.
pub fn tell_openings(signs: &mut [Sign])
    requires { length signs.old < 2 ^ 32 }
    ensures { signs.new ≡ with_openings signs.old }
{
    mark_events(signs);
    settle(signs);
}

/// Telling parentheses changes no other sign and their number, and nothing where no arrow stands.
pub fn only_parentheses_are_told()
    ensures length { (ss : List ASign) → length (with_openings ss) ≡ length ss }
    ensures others { (ss : List ASign) (k : ℕ) (s : ASign) → slice_get ss k ≡ Some s
        → turn_form s ≢ Opening → slice_get (with_openings ss) k ≡ Some s }
    ensures plain { (ss : List ASign) → AllByRecursion (λ s. turn_form s ≢ Arrow) ss
        → AllByRecursion (λ s. for_atoms_form s ≡ false) ss → with_openings ss ≡ ss }
    ensures small { with_openings (small_right_side Open) ≡ small_right_side OpenAtoms }
{}
