ghost use Rattle.std.specs.Prelude.{◌≡◌, ◌≤◌, ◌++◌, length, map, take, OnOk};
ghost use Rattle.cv_syntax_trees.specs.Tree.{chain, lone, names};
ghost use Rattle.cv_syntax_trees.specs.declared.head.Head.TheVariants.{Leaf};
ghost use Rattle.cv_parse_grammar.specs.Filled.{read_at};
ghost use Rattle.cv_parse_names.specs.indices.Backward.{backward};
ghost use Rattle.cv_parse_names.specs.indices.Contexts.{written};
ghost use Rattle.cv_parse_names.specs.indices.Current.{numbers_of};

use crate::indices::context::{Context, Place};
use crate::indices::current::Current;
use crate::indices::reads::index_count;
use cv_syntax::{Head, Make};
use std::alloc::AllocError;
use std::collections::HashMap;

/// Writes what stands in the game for a part of the text, from the last part to the first.
pub fn write_part(
    parts: &mut Vec<Make>,
    sites: &HashMap<u32, usize>,
    current: &Current,
    context: Context,
    make: Make,
) -> Result<(), AllocError>
    requires { context.level ≤ length current.now }
    ensures { OnOk result (parts.new.items
        ≡ parts.old.items ++ written (numbers_of sites.now) (take context.level current.now)
        context.place make) }
{
    match (context.place, make) {
        (Place::Dropped, _) => Ok(()),
        (Place::Indices, Make::Nothing) => write_names(parts, current.first(context.level)),
        (_, Make::Over(Head::Leaf(name))) => {
            let count = index_count(sites, current, context.level, name);
            write_read(parts, name, current.first(count))
        }
        _ => {
            parts.push(make)?;
            Ok(())
        }
    }
}

/// Writes a read at these indices.
#[tactic(auto, unfolding(crate::specs::indices::Backward::backward), using(crate::proofs::indices::Rows::writes))]
fn write_read(parts: &mut Vec<Make>, name: u32, indices: &[u32]) -> Result<(), AllocError>
    ensures { OnOk result (parts.new.items
        ≡ parts.old.items ++ backward (read_at name indices.now)) }
{
    if indices.is_empty() {
        return write_leaf(parts, name);
    }
    parts.push(Make::Over(Head::Read(name)))?;
    parts.push(Make::Nothing)?;
    write_indices(parts, indices)
}

/// Writes a list of indices.
fn write_indices(parts: &mut Vec<Make>, indices: &[u32]) -> Result<(), AllocError>
    ensures { OnOk result (parts.new.items
        ≡ parts.old.items ++ backward (chain (map (λ i. lone (Leaf i)) indices.now))) }
{
    'cells: for _ in indices {
        parts.push(Make::Over(Head::Cons))?;
    }
    parts.push(Make::Nothing)?;
    let mut at = indices.len();
    'leaves: while at > 0 {
        at -= 1;
        write_leaf(parts, indices[at])?;
    }
    Ok(())
}

/// Writes a name that has no indices.
#[tactic(auto, unfolding(crate::specs::indices::Backward::backward), using(crate::proofs::indices::Rows::writes))]
fn write_leaf(parts: &mut Vec<Make>, name: u32) -> Result<(), AllocError>
    ensures { OnOk result (parts.new.items ≡ parts.old.items ++ backward (lone (Leaf name))) }
{
    parts.push(Make::Over(Head::Leaf(name)))?;
    parts.push(Make::Nothing)?;
    parts.push(Make::Nothing)?;
    Ok(())
}

/// Writes a list of names.
fn write_names(parts: &mut Vec<Make>, indices: &[u32]) -> Result<(), AllocError>
    ensures { OnOk result (parts.new.items ≡ parts.old.items ++ backward (names indices.now)) }
{
    'names: for name in indices {
        parts.push(Make::Over(Head::Name(*name)))?;
    }
    parts.push(Make::Nothing)?;
    'ends: for _ in indices {
        parts.push(Make::Nothing)?;
    }
    Ok(())
}
