ghost use Rattle.std.specs.Prelude.{◌<◌, ◌≤◌, ◌^◌, length, drop};
ghost use Rattle.cv_parse_notation.specs.Form.{◌▸◌};
ghost use Rattle.cv_parse_notation.specs.declared.sign.Mark.TheVariants.{Process};
ghost use Rattle.cv_syntax.specs.Postorder.{postorder};
ghost use Rattle.cv_parse_grammar.specs.declared.role.Region.TheVariants.{InProcess};
ghost use Rattle.cv_parse_grammar.specs.Phrases.{inside};
ghost use Rattle.cv_parse_grammar.specs.Processes.{inputs as inputs_form};
ghost use Rattle.cv_parse_terms.specs.Gives.{Makes, read_in};
ghost use Rattle.cv_parse_declarations.specs.Files.{GivesFile};

use crate::blocks::maybe_proof;
use crate::decls;
use crate::processes::inputs;
use crate::signature::Heard;
use cv_parse_grammar::{Asked, Region, Role};
use cv_parse_notation::{Mark, Sign};
use cv_parse_terms::{NameUse, ReadError, Trail, expect, note};
use cv_syntax::Make;
use std::alloc::Global;

/// How deep brackets and syntax nodes may stand.
const DEPTH: u32 = 200;

/// The declaration of `bool`, before all names of a file.
const BUILT_IN: NameUse = NameUse {
    role: Role::Declares(Asked::AType),
    name: 0,
    left: 0,
};

/// What was read of a file, in the order of the text.
#[derive(Drop)]
pub struct Reading {
    /// The uses of names, with the declaration of `bool` before them.
    pub uses: Vec<NameUse>,
    /// What is declared, apart from its trees.
    pub heard: Vec<Heard>,
    /// The parts of the declarations' trees, one tree for each of what was heard.
    pub trees: Vec<Make>,
    /// The parts of the process, with plain reads as they are written.
    pub process: Vec<Make>,
    /// How many tokens are left where the proof block's first token stands, and where its last brace stands.
    pub script: Option<(usize, usize)>,
}

/// The word `process`, and the process.
#[tactic(auto, using(cv_parse_terms::proofs::Places::places))]
fn process(signs: &[Sign], at: usize, trail: &mut Trail, depth: u32) -> Result<usize, ReadError>
    requires at { at ≤ length signs.now }
    requires few { length signs.now < 2 ^ 32 }
    ensures makes { Makes postorder signs.now trail.old trail.new result
        (read_in depth (Process ▸ inside InProcess inputs_form) (drop at signs.now)) }
{
    let place = expect(signs, at, Mark::Process)?;
    note(
        signs,
        place,
        &mut trail.uses,
        Role::Enters(Region::InProcess),
    )?;
    let place = inputs(signs, place, trail, depth)?;
    note(signs, place, &mut trail.uses, Role::Leaves)?;
    Ok(place)
}

/// Reads a file by the grammar.
#[tactic(auto, using(cv_parse_terms::proofs::Places::places))]
pub fn read(alloc: Global, signs: &[Sign]) -> Result<Reading, ReadError>
    requires { length signs.now < 2 ^ 32 }
    ensures { GivesFile signs.now result }
{
    let mut trail = Trail::new(alloc);
    trail.uses.push(BUILT_IN)?;
    let mut heard = Vec::new(alloc);
    let place = decls(signs, 0, &mut trail, &mut heard, DEPTH)?;
    let (script, place) = maybe_proof(signs, place, &mut trail.uses, DEPTH)?;
    let Trail { uses, makes: trees } = trail;
    let mut rest = Trail {
        uses,
        makes: Vec::new(alloc),
    };
    let place = process(signs, place, &mut rest, DEPTH)?;
    if place < signs.len() {
        return Err(ReadError::Syntax(place as u32));
    }
    Ok(Reading {
        uses: rest.uses,
        heard,
        trees,
        process: rest.makes,
        script,
    })
}
