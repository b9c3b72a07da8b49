ghost use Rattle.std.specs.Prelude.{◌<◌, ◌≤◌, ◌^◌, drop, length};
ghost use Rattle.cv_parse_grammar.specs.Declarations.{equiv_decl as equiv_form};
ghost use Rattle.cv_parse_terms.specs.Gives.{read_in};
ghost use Rattle.cv_parse_declarations.specs.signature.Declares.{Declares};

use crate::signature::Heard;
use cv_parse_notation::Sign;
use cv_parse_terms::{ReadError, Trail, enter_with_names, short, taken};

/// A declaration of an equivalence.
pub fn equiv_decl(
    signs: &[Sign],
    at: usize,
    trail: &mut Trail,
    heard: &mut Vec<Heard>,
    depth: u32,
) -> Result<usize, ReadError>
    requires at { at ≤ length signs.now }
    requires few { length signs.now < 2 ^ 32 }
    ensures declares { Declares signs.now trail.old trail.new heard.old.items heard.new.items
        result (read_in depth equiv_form (drop at signs.now)) }
{
    let mut names = Vec::new(*trail.makes.allocator());
    let place = enter_with_names(210, signs, at, trail, &mut names, depth)?;
    let name = short(taken(&mut names))?;
    heard.push(Heard::Equiv(name))?;
    Ok(place)
}
