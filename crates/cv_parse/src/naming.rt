ghost use Rattle.std.specs.Prelude.{◌≡◌, ◌<◌, ◌^◌, ◌++◌, None, Some, IfErr, OnOk, length, slice_get};
ghost use Rattle.cv_syntax.specs.declared.decls.Decl.{Decl as DeclView};
ghost use Rattle.cv_parse_grammar.specs.Names.{name_fault as fault_of};
ghost use Rattle.cv_parse_terms.specs.Gives.{uses_of};
ghost use Rattle.cv_parse.specs.Building.{Misnames};
ghost use Rattle.cv_parse.specs.Games.{asked_by, declared_as, declared_before, declared_by};
ghost use Rattle.cv_parse.specs.Stages.{perhaps_use};

use crate::ParseError;
use cv_parse_grammar::{Asked, Role};
use cv_parse_names::{NameFault, name_fault};
use cv_parse_terms::NameUse;
use cv_syntax::{Class, Decl, Decls};
use std::alloc::{AllocError, Global};

/// What a name of a class is declared as.
fn asked(class: Class) -> Option<Asked>
    ensures { result ≡ asked_by class }
{
    match class {
        Class::Param => Some(Asked::AParam),
        Class::TypeName { .. } => Some(Asked::AType),
        Class::Channel => Some(Asked::AChannel),
        Class::Fun { .. } => Some(Asked::AFunction),
        Class::Event => Some(Asked::AnEvent),
        Class::Proba => Some(Asked::AProbability),
        Class::Equiv => Some(Asked::AnEquivalence),
        Class::Free => None,
    }
}

/// A use of a name that declares it before the text.
fn declared(asked: Option<Asked>, name: u32) -> Option<NameUse>
    ensures { perhaps_use result ≡ declared_as asked name }
{
    Some(NameUse {
        role: Role::Declares(asked?),
        name,
        left: 0,
    })
}

/// The use of a name that a declaration is.
fn use_by(decl: Decl) -> Option<NameUse>
    ensures { perhaps_use result ≡ declared_by decl }
{
    match decl {
        Decl::Name { id, class, .. } => declared(asked(class), id.0),
        Decl::Equiv { id, .. } => declared(Some(Asked::AnEquivalence), id.0),
        Decl::Equation(_) | Decl::Query(_) => None,
    }
}

/// The use of a name that the declaration at a place is.
fn use_at(decls: &Decls, k: u32) -> Option<NameUse>
    requires { k < length decls.now.list }
    ensures { (d : DeclView) → slice_get decls.now.list k ≡ Some d
        → perhaps_use result ≡ declared_by d }
{
    use_by(*decls.get(k)?)
}

/// Notes a use of a name, where there is one.
fn note_use(uses: &mut Vec<NameUse>, this: Option<NameUse>) -> Result<(), AllocError>
    ensures { OnOk result (uses_of uses.new.items ≡ uses_of uses.old.items ++ perhaps_use this) }
{
    if let Some(this) = this {
        uses.push(this)?;
    }
    Ok(())
}

/// Notes what is declared, as if it stood before the text.
pub fn note_declared(decls: &Decls, uses: &mut Vec<NameUse>) -> Result<(), AllocError>
    ensures { OnOk result (uses_of uses.new.items
        ≡ uses_of uses.old.items ++ declared_before decls.now.list) }
{
    'declared: for k in 0..decls.len() {
        note_use(uses, use_at(decls, k))?;
    }
    Ok(())
}

/// Checks the names of so many tokens.
pub fn check_names(alloc: Global, uses: &[NameUse], count: usize) -> Result<(), ParseError>
    requires few { count < 2 ^ 32 }
    ensures named { OnOk result (fault_of (uses_of uses.now) ≡ None) }
    ensures misnamed { IfErr result (λ e. Misnames count (uses_of uses.now) e) }
{
    match name_fault(alloc, uses)? {
        None => Ok(()),
        Some(NameFault::Twice(left)) => Err(ParseError::NameTwice(
            count.saturating_sub(left) as u32,
        )),
        Some(NameFault::Unknown(left)) => {
            Err(ParseError::NameUnknown(count.saturating_sub(left) as u32))
        }
    }
}
