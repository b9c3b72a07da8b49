ghost use Rattle.std.specs.Prelude.{◌≡◌, ◌+◌, ◌<◌, ◌≤◌, ◌^◌, ℕ, length, IfOk, OnOk};
ghost use Rattle.cv_parse_names.specs.Table.{entry_at, foreseen, noted as entry_noted, part_behind, unseen as unseen_entry, IsSurvey};

use cv_parse_grammar::{Asked, Region, Role};
use cv_parse_terms::NameUse;
use std::alloc::{AllocError, Global};

/// What is known of a name.
#[derive(Clone, Copy)]
pub struct Entry {
    /// A use declares it, read or not.
    pub declared_somewhere: bool,
    /// A use binds it as a variable of the process, read or not.
    pub variable_somewhere: bool,
    /// What the uses that were read declare it as.
    pub declared: Option<Asked>,
    /// The place of the last use that was read and binds it.
    pub bound_at: Option<usize>,
    /// A use that was read binds it as a bound of an equivalence.
    pub as_bound: bool,
    /// A use that was read binds it as an index.
    pub as_index: bool,
}

/// The part of the file that is open, and the place where its own names begin.
#[derive(Clone, Copy)]
pub struct Scope {
    pub region: Option<Region>,
    pub start: usize,
}

/// Nothing is known.
fn unseen() -> Entry
    ensures { result ≡ unseen_entry }
{
    Entry {
        declared_somewhere: false,
        variable_somewhere: false,
        declared: None,
        bound_at: None,
        as_bound: false,
        as_index: false,
    }
}

/// Puts down of a name what a use says wherever it stands.
fn foresee(mut entry: Entry, role: Role) -> Entry
    ensures { result ≡ foreseen entry role }
{
    match role {
        Role::Declares(_) => entry.declared_somewhere = true,
        Role::BindsVariable => entry.variable_somewhere = true,
        _ => {}
    }
    entry
}

/// Adds entries through that of a name.
fn reach(table: &mut Vec<Entry>, name: u32) -> Result<(), AllocError>
    ensures reached { OnOk result (name < length table.new.items) }
    ensures longer { OnOk result (length table.old.items ≤ length table.new.items) }
    ensures same { OnOk result ((x : ℕ) → entry_at table.new.items x ≡ entry_at table.old.items x) }
{
    let size = name as usize + 1;
    if table.len() < size {
        table.resize(size, unseen())?;
    }
    Ok(())
}

/// What the uses say of each name wherever they stand.
pub fn survey(alloc: Global, uses: &[NameUse]) -> Result<Vec<Entry>, AllocError>
    ensures { IfOk result (λ table. IsSurvey uses.now (length uses.now) table.items) }
{
    let mut table = Vec::new(alloc);
    'uses: for at in 0..uses.len() {
        let this = uses[at];
        reach(&mut table, this.name)?;
        let name = this.name as usize;
        table[name] = foresee(table[name], this.role);
    }
    Ok(table)
}

/// Puts down of a name what the use at a place does with it.
pub fn note(mut entry: Entry, role: Role, at: usize) -> Entry
    ensures { result ≡ entry_noted entry role at }
{
    match role {
        Role::Declares(asked) => entry.declared = Some(asked),
        Role::BindsLocal | Role::BindsVariable => entry.bound_at = Some(at),
        Role::BindsIndex => {
            entry.bound_at = Some(at);
            entry.as_index = true;
        }
        Role::BindsBound => entry.as_bound = true,
        _ => {}
    }
    entry
}

/// The part that is open behind the use at a place.
pub fn follow(scope: Scope, role: Role, at: usize) -> Scope
    requires { at + 1 < 2 ^ 64 }
    ensures { result ≡ part_behind scope role at }
{
    match role {
        Role::Enters(region) => Scope {
            region: Some(region),
            start: at + 1,
        },
        Role::Leaves => Scope {
            region: None,
            start: scope.start,
        },
        _ => scope,
    }
}
