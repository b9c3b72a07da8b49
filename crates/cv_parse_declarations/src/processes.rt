// Reading of processes and of the bodies of functions, by the rows of the table.
ghost use Rattle.std.specs.Prelude.{◌<◌, ◌≤◌, ◌^◌, length, drop};
ghost use Rattle.cv_syntax.specs.Postorder.{postorder};
ghost use Rattle.cv_parse_grammar.specs.Equivalences.{body as body_form};
ghost use Rattle.cv_parse_grammar.specs.Processes.{inputs as inputs_form};
ghost use Rattle.cv_parse_terms.specs.Gives.{Makes, read_in};

use cv_parse_notation::Sign;
use cv_parse_terms::{ReadError, Trail, enter};

/// A whole process: input processes with `|` between them.
#[tactic(auto, using(crate::proofs::processes::Entries::entries))]
pub fn inputs(signs: &[Sign], at: usize, trail: &mut Trail, depth: u32) -> Result<usize, ReadError>
    requires at { at ≤ length signs.now }
    requires few { length signs.now < 2 ^ 32 }
    ensures makes { Makes postorder signs.now trail.old trail.new result
        (read_in depth inputs_form (drop at signs.now)) }
{
    enter(94, signs, at, trail, depth)
}

/// The body of a function.
#[tactic(auto, using(crate::proofs::processes::Entries::entries))]
pub fn body(signs: &[Sign], at: usize, trail: &mut Trail, depth: u32) -> Result<usize, ReadError>
    requires at { at ≤ length signs.now }
    requires few { length signs.now < 2 ^ 32 }
    ensures makes { Makes postorder signs.now trail.old trail.new result
        (read_in depth body_form (drop at signs.now)) }
{
    enter(145, signs, at, trail, depth)
}
