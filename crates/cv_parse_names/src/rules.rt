ghost use Rattle.std.specs.Prelude.{◌≡◌};
ghost use Rattle.cv_parse_grammar.specs.Names.{same_asked};
ghost use Rattle.cv_parse_names.specs.Table.{may_bound, cell_known, declares_well, goes_on_as_call, goes_on_bare, is_since, known, name_obeys, stands_as_function, was_declared};

use crate::table::{Entry, Scope};
use cv_parse_grammar::{Asked, Region, Role};

/// Whether a name was declared as this.
fn is_declared_as(declared: Option<Asked>, asked: Asked) -> bool
    ensures { result ≡ was_declared asked declared }
{
    match declared {
        Some(other) => asked == other,
        None => false,
    }
}

/// Whether a name was bound in the part that is open.
fn is_own(entry: Entry, scope: Scope) -> bool
    ensures { result ≡ is_since scope.start entry.bound_at }
{
    match entry.bound_at {
        Some(at) => scope.start <= at,
        None => false,
    }
}

/// Whether arguments follow.
fn is_call(next: Option<Role>) -> bool
    ensures { result ≡ goes_on_as_call next }
{
    matches!(next, Some(Role::AsCall))
}

/// Whether nothing follows.
fn is_bare(next: Option<Role>) -> bool
    ensures { result ≡ goes_on_bare next }
{
    matches!(next, Some(Role::AsBare))
}

/// Whether a name may be declared here.
fn may_declare(entry: Entry, asked: Asked) -> bool
    ensures { result ≡ declares_well entry asked }
{
    entry.declared.is_none()
        && entry.bound_at.is_none()
        && (asked == Asked::AParam || !entry.as_bound)
}

/// Whether a name may be a bound of an equivalence.
fn is_bound_name(entry: Entry) -> bool
    ensures { result ≡ may_bound entry }
{
    entry.declared.is_none() || is_declared_as(entry.declared, Asked::AParam)
}

/// Whether a name is a function at its arguments, or alone.
fn stands_as_function(entry: Entry, next: Option<Role>) -> bool
    ensures { result ≡ stands_as_function entry next }
{
    (is_call(next) || is_bare(next)) && is_declared_as(entry.declared, Asked::AFunction)
}

/// Whether a name of a term is known.
fn is_known(entry: Entry, scope: Scope, next: Option<Role>) -> bool
    ensures { result ≡ known entry scope next }
{
    let is_function = is_declared_as(entry.declared, Asked::AFunction);
    match scope.region {
        Some(Region::InProcess) => {
            if is_call(next) {
                is_function
            } else {
                entry.variable_somewhere || (is_bare(next) && (is_function || entry.as_index))
            }
        }
        Some(Region::InEquivalence) => {
            if is_own(entry, scope) {
                !is_call(next)
            } else {
                stands_as_function(entry, next) || !entry.declared_somewhere
            }
        }
        Some(Region::InEquation | Region::InQuery) | None => {
            stands_as_function(entry, next) || (!is_call(next) && is_own(entry, scope))
        }
    }
}

/// Whether the variable of a `defined` cell is known.
fn is_known_cell(entry: Entry, scope: Scope) -> bool
    ensures { result ≡ cell_known entry scope }
{
    match scope.region {
        Some(Region::InProcess) => entry.variable_somewhere,
        Some(Region::InEquation | Region::InQuery | Region::InEquivalence) | None => {
            is_own(entry, scope) || !entry.declared_somewhere
        }
    }
}

/// Whether a use of a name obeys its rule, by what was read before, and by the use behind it.
pub fn obeys(entry: Entry, scope: Scope, role: Role, next: Option<Role>) -> bool
    ensures { result ≡ name_obeys entry scope role next }
{
    match role {
        Role::Declares(asked) => may_declare(entry, asked),
        Role::Asks(asked) => is_declared_as(entry.declared, asked),
        Role::BindsLocal | Role::BindsVariable | Role::BindsIndex => entry.declared.is_none(),
        Role::BindsBound | Role::AsksBound => is_bound_name(entry),
        Role::AsksIndex => entry.as_index,
        Role::Mentions => is_known(entry, scope, next),
        Role::MentionsCell => is_known_cell(entry, scope),
        Role::AsCall
        | Role::AsArray
        | Role::AsBare
        | Role::Unchecked
        | Role::Enters(_)
        | Role::Leaves
        | Role::Nothing => true,
    }
}
