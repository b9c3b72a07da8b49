ghost use Rattle.std.specs.Prelude.{◌≡◌, ◌+◌, ◌<◌, min, if◌then◌else◌, ℕ, List, Some, length, option_map, OnOk};
ghost use Rattle.cv_pool.specs.KindTree.{KindTree};
ghost use Rattle.cv_directory.specs.Definitions.{most};
ghost use Rattle.cv_syntax_trees.specs.sites.Sites.{first_of};
ghost use Rattle.cv_directory.specs.Tables.{definition_in, definition_of, entry_at, nothing};

use crate::site::{Entry, Site};
use cv_syntax::NodeId;
use cv_syntax_trees::sites::Sort;
use std::alloc::{AllocError, Global};

/// Nothing of a name.
fn nothing() -> Entry
    ensures { result ≡ nothing }
{
    Entry {
        site: None,
        count: 0,
        other: None,
        index: None,
    }
}

/// Makes the table reach a name.
pub fn reach(entries: &mut Vec<Entry>, x: u32) -> Result<(), AllocError>
    ensures reached { OnOk result (x < length entries.new.items) }
    ensures same { OnOk result ((y : ℕ)
        → entry_at entries.new.items y ≡ entry_at entries.old.items y) }
{
    'names: while entries.len() <= x as usize {
        entries.push(nothing())?;
    }
    Ok(())
}

/// A number, unless there is one.
fn or_number(first: Option<u32>, n: u32) -> Option<u32>
    ensures { result ≡ first_of first (Some n) }
{
    match first {
        Some(m) => Some(m),
        None => Some(n),
    }
}

/// The place of a definition that is no `new` of a large type, unless there is one.
fn or_other(first: Option<u32>, is_other: bool, place: u32) -> Option<u32>
    ensures { result ≡ if is_other then first_of first (Some place) else first }
{
    if is_other {
        or_number(first, place)
    } else {
        first
    }
}

/// One more, up to the greatest number of 32 bits.
fn one_more(n: u32) -> u32
    ensures { result ≡ min (n + 1) most }
{
    if n < u32::MAX { n + 1 } else { n }
}

/// Notes the parameter of an index, unless there is one.
pub fn note_parameter(entry: &mut Entry, n: u32)
    ensures site { entry.new.site ≡ entry.old.site }
    ensures count { entry.new.count ≡ entry.old.count }
    ensures other { entry.new.other ≡ entry.old.other }
    ensures index { entry.new.index ≡ first_of entry.old.index (Some n) }
{
    entry.index = or_number(entry.index, n);
}

/// Notes a definition: the first one, one more, and the first that is no `new` of a large type.
pub fn note_definition(
    entry: &mut Entry,
    alloc: Global,
    path: &[(u32, u32)],
    place: u32,
    node: NodeId,
    is_other: bool,
    sort: Sort,
) -> Result<(), AllocError>
    ensures first { (trees : List KindTree) → OnOk result
        (option_map (definition_of trees) entry.new.site
        ≡ first_of (option_map (definition_of trees) entry.old.site)
        (Some (definition_in trees path.now place node sort))) }
    ensures count { OnOk result (entry.new.count ≡ min (entry.old.count + 1) most) }
    ensures other { OnOk result (entry.new.other
        ≡ if is_other then first_of entry.old.other (Some place) else entry.old.other) }
    ensures index { OnOk result (entry.new.index ≡ entry.old.index) }
{
    entry.count = one_more(entry.count);
    entry.other = or_other(entry.other, is_other, place);
    if entry.site.is_some() {
        return Ok(());
    }
    let replications = Vec::from_slice(alloc, path)?;
    entry.site = Some(Site {
        replications,
        sort,
        place,
        node,
    });
    Ok(())
}
