ghost use Rattle.std.specs.Prelude.{◌≡◌, ◌<◌, ◌≤◌, ◌^◌, length, drop};
ghost use Rattle.cv_syntax.specs.Postorder.{postorder};
ghost use Rattle.cv_parse_notation.specs.Spells.{next_is};
ghost use Rattle.cv_parse_terms.specs.Gives.{Makes, read_in};
ghost use Rattle.cv_parse.specs.Games.{process as process_form};
ghost use Rattle.cv_parse.specs.Terms.{goes_on as goes_on_by};
ghost use Rattle.cv_parse.specs.Stages.{GivesProcess, GivesTerm};

use cv_parse_declarations::processes::inputs;
use cv_parse_grammar::{Region, Role};
use cv_parse_notation::{Mark, Sign};
use cv_parse_terms::{ReadError, Trail, is_at, note, term};

/// How deep brackets and syntax nodes may stand.
pub const DEPTH: u32 = 200;

/// A process, with what is told about names at its ends.
#[tactic(auto, using(cv_parse_terms::proofs::Places::places))]
fn process(signs: &[Sign], at: usize, trail: &mut Trail, depth: u32) -> Result<usize, ReadError>
    requires at { at ≤ length signs.now }
    requires few { length signs.now < 2 ^ 32 }
    ensures makes { Makes postorder signs.now trail.old trail.new result
        (read_in depth process_form (drop at signs.now)) }
{
    note(signs, at, &mut trail.uses, Role::Enters(Region::InProcess))?;
    let place = inputs(signs, at, trail, depth)?;
    note(signs, place, &mut trail.uses, Role::Leaves)?;
    Ok(place)
}

/// Reads a game by the grammar, to the end of its tokens.
#[tactic(auto, using(cv_parse_terms::proofs::Places::places))]
pub fn read_game(signs: &[Sign], trail: &mut Trail) -> Result<(), ReadError>
    requires few { length signs.now < 2 ^ 32 }
    ensures gives { GivesProcess signs.now trail.old trail.new result }
{
    let place = process(signs, 0, trail, DEPTH)?;
    if place < signs.len() {
        return Err(ReadError::Syntax(place as u32));
    }
    Ok(())
}

/// Whether a token stands at a place that doesn't stand behind a term.
#[tactic(auto, using(crate::proofs::Behind::behind))]
fn goes_on(signs: &[Sign], at: usize) -> bool
    ensures { result ≡ next_is goes_on_by (drop at signs.now) }
{
    is_at(signs, at, Mark::Prime)
        || (is_at(signs, at, Mark::Open)
            || (is_at(signs, at, Mark::OpenSquare)
                || (is_at(signs, at, Mark::Equal)
                    || (is_at(signs, at, Mark::Differ)
                        || (is_at(signs, at, Mark::Both) || is_at(signs, at, Mark::Either))))))
}

/// Reads a term by the grammar, and answers the place behind it.
#[tactic(auto, using(cv_parse_terms::proofs::Places::places))]
pub fn read_term(signs: &[Sign], trail: &mut Trail) -> Result<usize, ReadError>
    requires few { length signs.now < 2 ^ 32 }
    ensures gives { GivesTerm signs.now trail.old trail.new result }
{
    let place = term(signs, 0, trail, DEPTH)?;
    if goes_on(signs, place) {
        return Err(ReadError::Syntax(place as u32));
    }
    Ok(place)
}
