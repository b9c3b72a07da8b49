ghost use Rattle.std.specs.Prelude.{◌≡◌, false, ◌<◌, ◌≤◌, ◌^◌, length, drop};
ghost use Rattle.cv_parse_notation.specs.Form.{many};
ghost use Rattle.cv_parse_notation.specs.Spells.{next_is, starts};
ghost use Rattle.cv_parse_grammar.specs.Rules.{heads};
ghost use Rattle.cv_parse_grammar.specs.Declarations.{collision_decl as collision_form, declaration as declaration_form};
ghost use Rattle.cv_parse_terms.specs.Gives.{read_in};
ghost use Rattle.cv_parse_declarations.specs.signature.Declares.{Declares};
ghost use Rattle.cv_parse_declarations.specs.Sequences.{DeclareAll};
ghost use Rattle.cv_parse_declarations.specs.Choices.{ending, middle};

use crate::equivalences::equiv_decl;
use crate::signature::{DeclarationKind, Heard, collision_decl, declare};
use cv_parse_notation::{Mark, Sign};
use cv_parse_terms::{ReadError, Trail, is_at, is_unnamed_at};

/// Whether a collision begins at a place.
#[tactic(auto, using(crate::proofs::Begins::collision_begins))]
fn begins_collision(signs: &[Sign], at: usize) -> bool
    ensures { result ≡ next_is (starts heads collision_form) (drop at signs.now) }
{
    is_at(signs, at, Mark::Collision) || is_unnamed_at(signs, at)
}

/// A declaration of an equation, a collision, an equivalence or a query.
#[tactic(auto, using(crate::proofs::Choices::choices))]
fn last_decl(
    signs: &[Sign],
    at: usize,
    trail: &mut Trail,
    heard: &mut Vec<Heard>,
    depth: u32,
) -> Result<usize, ReadError>
    requires at { at ≤ length signs.now }
    requires few { length signs.now < 2 ^ 32 }
    ensures declares { Declares signs.now trail.old trail.new heard.old.items heard.new.items
        result (read_in depth ending (drop at signs.now)) }
{
    if is_at(signs, at, Mark::EquationWord) {
        return declare(DeclarationKind::Equation, signs, at, trail, heard, depth);
    }
    if begins_collision(signs, at) {
        return collision_decl(signs, at, trail, heard, depth);
    }
    if is_at(signs, at, Mark::Equiv) {
        return equiv_decl(signs, at, trail, heard, depth);
    }
    declare(DeclarationKind::Query, signs, at, trail, heard, depth)
}

/// A declaration of a type, of constants, of a function or of an event, or one of those behind them.
#[tactic(auto, using(crate::proofs::Choices::choices))]
fn next_decl(
    signs: &[Sign],
    at: usize,
    trail: &mut Trail,
    heard: &mut Vec<Heard>,
    depth: u32,
) -> Result<usize, ReadError>
    requires at { at ≤ length signs.now }
    requires few { length signs.now < 2 ^ 32 }
    ensures declares { Declares signs.now trail.old trail.new heard.old.items heard.new.items
        result (read_in depth middle (drop at signs.now)) }
{
    if is_at(signs, at, Mark::TypeWord) {
        return declare(DeclarationKind::TypeName, signs, at, trail, heard, depth);
    }
    if is_at(signs, at, Mark::ConstWord) {
        return declare(DeclarationKind::Constants, signs, at, trail, heard, depth);
    }
    if is_at(signs, at, Mark::Fun) {
        return declare(DeclarationKind::Function, signs, at, trail, heard, depth);
    }
    if is_at(signs, at, Mark::EventWord) {
        return declare(DeclarationKind::Event, signs, at, trail, heard, depth);
    }
    last_decl(signs, at, trail, heard, depth)
}

/// A declaration.
#[tactic(auto, using(crate::proofs::Choices::choices))]
fn decl(
    signs: &[Sign],
    at: usize,
    trail: &mut Trail,
    heard: &mut Vec<Heard>,
    depth: u32,
) -> Result<usize, ReadError>
    requires at { at ≤ length signs.now }
    requires few { length signs.now < 2 ^ 32 }
    ensures declares { Declares signs.now trail.old trail.new heard.old.items heard.new.items
        result (read_in depth declaration_form (drop at signs.now)) }
{
    if is_at(signs, at, Mark::Param) {
        return declare(DeclarationKind::Parameters, signs, at, trail, heard, depth);
    }
    if is_at(signs, at, Mark::Channel) {
        return declare(DeclarationKind::Channels, signs, at, trail, heard, depth);
    }
    if is_at(signs, at, Mark::Proba) {
        return declare(DeclarationKind::Probability, signs, at, trail, heard, depth);
    }
    next_decl(signs, at, trail, heard, depth)
}

/// Whether a declaration begins at a place.
#[tactic(auto, using(crate::proofs::Begins::declaration_begins))]
pub fn begins_decl(signs: &[Sign], at: usize) -> bool
    ensures { result ≡ next_is (starts heads declaration_form) (drop at signs.now) }
{
    is_at(signs, at, Mark::Param)
        || (is_at(signs, at, Mark::Channel)
            || (is_at(signs, at, Mark::Proba)
                || (is_at(signs, at, Mark::TypeWord)
                    || (is_at(signs, at, Mark::ConstWord)
                        || (is_at(signs, at, Mark::Fun)
                            || (is_at(signs, at, Mark::EventWord)
                                || (is_at(signs, at, Mark::EquationWord)
                                    || (begins_collision(signs, at)
                                        || (is_at(signs, at, Mark::Equiv)
                                            || is_at(signs, at, Mark::QueryWord))))))))))
}

/// Declarations, as many as there are.
#[tactic(auto, using(cv_parse_terms::proofs::Places::places))]
pub fn decls(
    signs: &[Sign],
    at: usize,
    trail: &mut Trail,
    heard: &mut Vec<Heard>,
    depth: u32,
) -> Result<usize, ReadError>
    requires at { at ≤ length signs.now }
    requires few { length signs.now < 2 ^ 32 }
    ensures declare { DeclareAll signs.now trail.old trail.new heard.old.items heard.new.items
        result (read_in depth (many false declaration_form) (drop at signs.now)) }
{
    let mut place = at;
    'decls: while begins_decl(signs, place) {
        place = decl(signs, place, trail, heard, depth)?;
    }
    Ok(place)
}
