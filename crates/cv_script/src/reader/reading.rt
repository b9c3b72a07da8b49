ghost use Rattle.std.specs.Prelude.{◌≡◌, ◌+◌, ◌<◌, ◌^◌, length};
ghost use Rattle.cv_parse_terms.specs.Gives.{Makes};
ghost use Rattle.cv_syntax.specs.Postorder.{postorder};
ghost use Rattle.cv_script.specs.reader.Scripts.{read_script};
ghost use Rattle.cv_script.specs.reader.Stages.{GivesScript, at_token as shifted_by};

use crate::reader::ScriptError;
use crate::rows::{SCRIPT, script_rows};
use cv_parse_notation::Sign;
use cv_parse_tables::phrase;
use cv_parse_terms::{ReadError, Trail};
use cv_syntax::BuildError;

/// How deep brackets and syntax nodes may stand.
const DEPTH: u32 = 200;

/// A fault of signs that begin at a token.
fn at_token(fault: ReadError, from: u32) -> ScriptError
    ensures { result ≡ shifted_by from fault }
{
    match fault {
        ReadError::Syntax(at) | ReadError::Nesting(at) => {
            ScriptError::Script(from.saturating_add(at))
        }
        ReadError::OutOfMemory => ScriptError::Build(BuildError::OutOfMemory),
    }
}

/// Reads a phrase of a script, to where it ends.
fn read_phrase(signs: &[Sign], trail: &mut Trail) -> Result<usize, ReadError>
    requires few { length signs.now < 2 ^ 32 }
    ensures { Makes postorder signs.now trail.old trail.new result (read_script signs.now) }
{
    phrase(&script_rows(), SCRIPT as usize, signs, 0, trail, DEPTH)
}

/// Reads signs, which begin at a token, as a script, to their end.
pub fn read(signs: &[Sign], from: u32, trail: &mut Trail) -> Result<(), ScriptError>
    requires few { from + length signs.now < 2 ^ 32 }
    ensures { GivesScript from signs.now trail.old trail.new result }
{
    match read_phrase(signs, trail) {
        Ok(end) => {
            if end < signs.len() {
                return Err(ScriptError::Script(from + end as u32));
            }
            Ok(())
        }
        Err(fault) => Err(at_token(fault, from)),
    }
}
