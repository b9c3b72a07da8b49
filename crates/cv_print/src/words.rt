ghost use Rattle.std.specs.Prelude.{◌≡◌, ◌++◌, [], OnOk, length};
ghost use Rattle.std.specs.Fmt.{decimal};
ghost use Rattle.cv_pool.specs.Nodes.{ChildBelow};
ghost use Rattle.cv_syntax.specs.PoolTrees.{tree_at};
ghost use Rattle.cv_print.specs.Terms.{name_text, binder_text, entry_text, entries_text};

use cv_syntax::{Head, NameId, Names, NodeId, Pool, read_node};
use std::alloc::AllocError;

/// Appends a number in decimal.
pub fn push_decimal(out: &mut Vec<u8>, n: u64) -> Result<(), AllocError>
    ensures { OnOk result (out.new.items ≡ out.old.items ++ decimal n) }
{
    let alloc = *out.allocator();
    let text = format!(in alloc; "{n}")?;
    out.extend_from_slice(text.as_bytes())
}

/// Appends a name. A number past the names has no text.
pub fn push_name(out: &mut Vec<u8>, names: &Names, x: u32) -> Result<(), AllocError>
    ensures { OnOk result (out.new.items ≡ out.old.items ++ name_text names.now x) }
{
    match names.get(NameId(x)) {
        Some(text) => out.extend_from_slice(text.as_bytes()),
        None => Ok(()),
    }
}

/// Appends two names with a mark between them.
pub(crate) fn push_binder(
    out: &mut Vec<u8>,
    names: &Names,
    mark: &[u8],
    x: u32,
    of: u32,
) -> Result<(), AllocError>
    ensures { OnOk result (out.new.items
        ≡ out.old.items ++ binder_text names.now mark.now x of) }
{
    push_name(out, names, x)?;
    out.extend_from_slice(mark)?;
    push_name(out, names, of)
}

/// Appends a name, or a binder with a mark between its names.
fn push_entry(out: &mut Vec<u8>, names: &Names, mark: &[u8], head: Head) -> Result<(), AllocError>
    ensures { OnOk result (out.new.items ≡ out.old.items ++ entry_text names.now mark.now head) }
{
    match head {
        Head::Name(x) => push_name(out, names, x),
        Head::Binder(x, of) => push_binder(out, names, mark, x, of),
        _ => Ok(()),
    }
}

/// Appends a list of names, or of binders with a mark between their names.
#[tactic(auto, using(crate::proofs::Readings::entry_laws))]
pub(crate) fn push_entries(
    out: &mut Vec<u8>,
    pool: &Pool,
    names: &Names,
    mark: &[u8],
    list: Option<NodeId>,
) -> Result<(), AllocError>
    requires { ChildBelow (length pool.now.trees) list }
    ensures { OnOk result (out.new.items
        ≡ out.old.items ++ entries_text names.now mark.now [] (tree_at pool.now.trees list)) }
{
    let mut before: &[u8] = b"";
    let mut at = list;
    'entries: while let Some(n) = at {
        let node = read_node(pool, n);
        out.extend_from_slice(before)?;
        push_entry(out, names, mark, node.head)?;
        before = b", ";
        at = node.second;
    }
    Ok(())
}
