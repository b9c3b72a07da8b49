ghost use Rattle.std.specs.Prelude.{◌≡◌, ◌+◌, ◌<◌, ◌^◌, OnOk};
ghost use Rattle.cv_scope_rules.specs.Tests.{same_replications};
ghost use Rattle.cv_scene.specs.Refusals.{is_of_type, stands_under};
ghost use Rattle.cv_match_terms.specs.uses.Tallies.{One, Other, Zero, drawn, nothing, plus, seen, tally, tally_in};

use std::alloc::{AllocError, Global};

/// How a game defines a variable.
#[derive(Drop)]
pub enum Definition {
    Nowhere,
    /// Once, by a `new` of a type below these replications.
    Drawn {
        sort: u32,
        replications: Vec<(u32, u32)>,
    },
    /// More than once, or by no `new`.
    Otherwise,
}

/// What is known of a variable.
#[derive(Drop)]
pub struct Entry {
    /// How many nodes read it or name it in a `defined` list.
    pub uses: u32,
    pub definition: Definition,
}

/// Nothing of a variable.
pub(crate) fn nothing() -> Entry
    ensures { result ≡ nothing }
{
    Entry {
        uses: 0,
        definition: Definition::Nowhere,
    }
}

/// Counts a use.
#[tactic(auto, using(crate::proofs::uses::Joining::joining))]
pub(crate) fn add_use(entry: &mut Entry)
    requires { entry.old.uses + 1 < 2 ^ 32 }
    ensures { tally_in entry.new ≡ plus (tally_in entry.old) (tally 1 Zero) }
{
    entry.uses += 1;
}

/// Notes a `new` of a type below replications.
#[tactic(auto, using(crate::proofs::uses::Joining::joining))]
pub(crate) fn add_new(
    alloc: Global,
    entry: &mut Entry,
    t: u32,
    passed: &[(u32, u32)],
) -> Result<(), AllocError>
    ensures { OnOk result (tally_in entry.new
        ≡ plus (tally_in entry.old) (tally 0 (One t passed.now))) }
{
    if let Definition::Nowhere = entry.definition {
        entry.definition = Definition::Drawn {
            sort: t,
            replications: Vec::from_slice(alloc, passed)?,
        };
        return Ok(());
    }
    entry.definition = Definition::Otherwise;
    Ok(())
}

/// Notes a definition that is no `new`.
#[tactic(auto, using(crate::proofs::uses::Joining::joining))]
pub(crate) fn add_other(entry: &mut Entry)
    ensures { tally_in entry.new ≡ plus (tally_in entry.old) (tally 0 Other) }
{
    entry.definition = Definition::Otherwise;
}

/// Whether two lists of replications are the same.
fn are_same(left: &[(u32, u32)], right: &[(u32, u32)]) -> bool
    ensures { result ≡ same_replications left.now right.now }
{
    left == right
}

impl Definition {
    /// Whether it is one, a `new` of a type.
    pub(crate) fn is_of_type(&self, t: u32) -> bool
        ensures { result ≡ is_of_type t (drawn (seen self.now)) }
    {
        match self {
            Definition::Drawn { sort, .. } => *sort == t,
            _ => false,
        }
    }

    /// Whether it is one, a `new` below these replications.
    pub(crate) fn is_below(&self, replications: &[(u32, u32)]) -> bool
        ensures { result ≡ stands_under replications.now (drawn (seen self.now)) }
    {
        match self {
            Definition::Drawn {
                replications: above,
                ..
            } => are_same(above.as_slice(), replications),
            _ => false,
        }
    }
}
