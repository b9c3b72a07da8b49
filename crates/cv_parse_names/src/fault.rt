ghost use Rattle.std.specs.Prelude.{◌≡◌, ◌+◌, ◌<◌, IfOk, option_map, length, drop};
ghost use Rattle.cv_parse_grammar.specs.Names.{fault_of, name_fault as first_name_fault};
ghost use Rattle.cv_parse_terms.specs.Gives.{use_of, uses_of};
ghost use Rattle.cv_parse_names.specs.Table.{IsSurvey, next_of};
ghost use Rattle.cv_parse_names.specs.Faults.{fault_in};

use crate::rules::obeys;
use crate::table::{Entry, Scope, follow, note, survey};
use cv_parse_grammar::Role;
use cv_parse_terms::NameUse;
use std::alloc::{AllocError, Global};

/// A rule of names that a use breaks, and how many tokens are left where it stands.
#[derive(Clone, Copy)]
pub enum NameFault {
    /// The name has another use that keeps it from being declared or bound here.
    Twice(usize),
    /// The name is not known as what it is used for here.
    Unknown(usize),
}

/// What a use is that breaks its rule.
fn broken(this: NameUse) -> NameFault
    ensures { fault_in result ≡ fault_of (use_of this) }
{
    match this.role {
        Role::Declares(_)
        | Role::BindsLocal
        | Role::BindsVariable
        | Role::BindsIndex
        | Role::BindsBound => NameFault::Twice(this.left),
        Role::Asks(_)
        | Role::AsksBound
        | Role::AsksIndex
        | Role::Mentions
        | Role::AsCall
        | Role::AsArray
        | Role::AsBare
        | Role::MentionsCell
        | Role::Unchecked
        | Role::Enters(_)
        | Role::Leaves
        | Role::Nothing => NameFault::Unknown(this.left),
    }
}

/// What the use behind a place is for.
fn role_behind(uses: &[NameUse], at: usize) -> Option<Role>
    requires { at < length uses.now }
    ensures { result ≡ next_of (uses_of (drop (at + 1) uses.now)) }
{
    if at + 1 < uses.len() {
        return Some(uses[at + 1].role);
    }
    None
}

/// The first fault, by what all uses say of each name.
fn first_fault(mut table: Vec<Entry>, uses: &[NameUse]) -> Option<NameFault>
    requires { IsSurvey uses.now (length uses.now) table.items }
    ensures { option_map fault_in result ≡ first_name_fault (uses_of uses.now) }
{
    let mut scope = Scope {
        region: None,
        start: 0,
    };
    'uses: for at in 0..uses.len() {
        let this = uses[at];
        let name = this.name as usize;
        let entry = table[name];
        let next = role_behind(uses, at);
        if !obeys(entry, scope, this.role, next) {
            return Some(broken(this));
        }
        table[name] = note(entry, this.role, at);
        scope = follow(scope, this.role, at);
    }
    None
}

/// The fault of the first use of a name that breaks its rule, where there is one.
pub fn name_fault(alloc: Global, uses: &[NameUse]) -> Result<Option<NameFault>, AllocError>
    ensures { IfOk result (λ fault. option_map fault_in fault
        ≡ first_name_fault (uses_of uses.now)) }
{
    let table = survey(alloc, uses)?;
    Ok(first_fault(table, uses))
}
