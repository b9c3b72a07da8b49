ghost use Rattle.std.specs.Prelude.{◌≡◌, ◌++◌, ◌<◌, ◌≤◌, ◌^◌, ◌==◌, drop, length, reverse, IfErr, OnOk};
ghost use Rattle.std.specs.List.{list_any};
ghost use Rattle.cv_parse_terms.specs.Gives.{read_in};
ghost use Rattle.cv_parse_terms.specs.declared.lookahead.ReadError.TheVariants.{OutOfMemory};
ghost use Rattle.cv_parse_declarations.specs.signature.Declares.{Declares};
ghost use Rattle.cv_parse_declarations.specs.signature.Kinds.{class_in, form_of, heard_in, names_in, row_number, type_in};

use crate::signature::heard::Heard;
use cv_parse_notation::Sign;
use cv_parse_terms::{ReadError, Trail, enter_with_names, short, taken};
use cv_syntax::Class;

/// What is declared by one row of the table.
#[derive(Clone, Copy)]
pub enum DeclarationKind {
    Parameters,
    Channels,
    Probability,
    TypeName,
    Constants,
    Function,
    Event,
    Equation,
    Query,
}

/// The row that reads it.
fn row_of(kind: DeclarationKind) -> u16
    ensures { result ≡ row_number kind }
{
    match kind {
        DeclarationKind::Parameters => 157,
        DeclarationKind::Channels => 159,
        DeclarationKind::Probability => 160,
        DeclarationKind::TypeName => 168,
        DeclarationKind::Constants => 170,
        DeclarationKind::Function => 176,
        DeclarationKind::Event => 177,
        DeclarationKind::Equation => 152,
        DeclarationKind::Query => 214,
    }
}

/// Notes the declarations of names of one class.
fn hear_names(
    heard: &mut Vec<Heard>,
    names: &[u64],
    class: Class,
    sort: Option<u32>,
) -> Result<(), ReadError>
    ensures heard { OnOk result (heard.new.items
        ≡ heard.old.items ++ names_in class sort names.now) }
    ensures full { IfErr result (λ e. e ≡ OutOfMemory) }
{
    'names: for name in names {
        let id = short(*name)?;
        heard.push(Heard::Named(id, class, sort))?;
    }
    Ok(())
}

/// Whether a number is among others.
fn is_among(numbers: &[u64], number: u64) -> bool
    ensures { result ≡ list_any (λ x. x == number) numbers.now }
{
    numbers.iter().any(|x| *x == number)
}

/// The class of a type with these options.
fn type_class(options: &[u64]) -> Class
    ensures { result ≡ class_in options.now }
{
    Class::TypeName {
        fixed: is_among(options, 0),
        large: is_among(options, 1),
    }
}

/// Notes the declaration of a type, whose options stand behind its name.
fn hear_type(heard: &mut Vec<Heard>, names: &[u64]) -> Result<(), ReadError>
    ensures heard { OnOk result (heard.new.items ≡ heard.old.items ++ type_in names.now) }
    ensures full { IfErr result (λ e. e ≡ OutOfMemory) }
{
    let Some((name, options)) = names.split_first() else {
        return Ok(());
    };
    hear_names(heard, &[*name], type_class(options), None)
}

/// Notes what is declared, by the names that wait.
#[tactic(auto, using(crate::proofs::signature::Hearing::hearing))]
fn hear(
    heard: &mut Vec<Heard>,
    names: &mut Vec<u64>,
    kind: DeclarationKind,
) -> Result<(), ReadError>
    ensures heard { OnOk result (heard.new.items
        ≡ heard.old.items ++ heard_in kind (reverse names.old.items)) }
    ensures full { IfErr result (λ e. e ≡ OutOfMemory) }
{
    match kind {
        DeclarationKind::Parameters => hear_names(heard, names, Class::Param, None),
        DeclarationKind::Channels => hear_names(heard, names, Class::Channel, None),
        DeclarationKind::Probability => hear_names(heard, names, Class::Proba, None),
        DeclarationKind::Event => hear_names(heard, names, Class::Event, None),
        DeclarationKind::TypeName => hear_type(heard, names),
        DeclarationKind::Constants => {
            let sort = short(taken(names))?;
            hear_names(heard, names, Class::Fun { data_like: false }, Some(sort))
        }
        DeclarationKind::Function => {
            let data_like = taken(names) == 1;
            let sort = short(taken(names))?;
            hear_names(heard, names, Class::Fun { data_like }, Some(sort))
        }
        DeclarationKind::Equation => {
            heard.push(Heard::Equation)?;
            Ok(())
        }
        DeclarationKind::Query => {
            heard.push(Heard::Query)?;
            Ok(())
        }
    }
}

/// A declaration of a kind.
pub fn declare(
    kind: DeclarationKind,
    signs: &[Sign],
    at: usize,
    trail: &mut Trail,
    heard: &mut Vec<Heard>,
    depth: u32,
) -> Result<usize, ReadError>
    requires at { at ≤ length signs.now }
    requires few { length signs.now < 2 ^ 32 }
    ensures declares { Declares signs.now trail.old trail.new heard.old.items heard.new.items
        result (read_in depth (form_of kind) (drop at signs.now)) }
{
    let mut names = Vec::new(*trail.makes.allocator());
    let place = enter_with_names(row_of(kind), signs, at, trail, &mut names, depth)?;
    hear(heard, &mut names, kind)?;
    Ok(place)
}
