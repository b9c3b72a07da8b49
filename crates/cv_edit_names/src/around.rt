ghost use Rattle.std.specs.Prelude.{◌≡◌, ◌<◌, ◌++◌, ◌∷◌, [], IfOk, length};
ghost use Rattle.cv_pool.specs.Nodes.{ChildBelow};
ghost use Rattle.cv_syntax_trees.specs.Tree.{same_tree};
ghost use Rattle.cv_syntax.specs.PoolTrees.{tree_at};
ghost use Rattle.cv_scope_rules.specs.Context.{cell_of};
ghost use Rattle.cv_edit_names.specs.Cells as cells;
ghost use Rattle.cv_edit_names.specs.Kept.{AreLive, around_in, looked_in, naming_in};
ghost use Rattle.cv_edit_names.specs.Splitting as specs;
ghost use Rattle.cv_edit_names.specs.Splitting.{names_known};

use crate::naming::{Naming, name_at};
use cv_match::reads::is_cell;
use cv_path::is_definition;
use cv_syntax::{NodeId, Opened, Pool, same};
use std::alloc::{AllocError, Global};

/// A cell that a list looks for, and the name that it has there.
#[derive(Clone, Copy)]
pub(crate) struct Looked {
    pub(crate) cell: Option<NodeId>,
    pub(crate) name: u32,
}

/// The replications above, the cells that lists around look for, the last one first, and the replications above the
/// definition of the variable above, with its name.
#[derive(Clone, Copy)]
pub(crate) struct Around<'a> {
    pub(crate) replications: &'a [(u32, u32)],
    pub(crate) looked_for: &'a [Looked],
    pub(crate) site: &'a [(u32, u32)],
    pub(crate) name: Option<u32>,
}

/// Whether a term is the cell of a variable at the indices of replications.
fn is_cell_at(pool: &Pool, x: u32, replications: &[(u32, u32)], term: Option<NodeId>) -> bool
    requires { ChildBelow (length pool.now.trees) term }
    ensures { result
        ≡ same_tree (cell_of replications.now x) (tree_at pool.now.trees term) }
{
    is_cell(pool, replications, x, term)
}

/// The name of a cell among these.
pub(crate) fn name_looked_for(
    pool: &Pool,
    looked_for: &[Looked],
    term: Option<NodeId>,
) -> Option<u32>
    requires looked { AreLive (length pool.now.trees) looked_for.now }
    requires live { ChildBelow (length pool.now.trees) term }
    ensures { result ≡ cells.name_of (looked_in pool.now.trees looked_for.now)
        (tree_at pool.now.trees term) }
{
    'looked: for looked in looked_for {
        if same(pool, looked.cell, term) {
            return Some(looked.name);
        }
    }
    None
}

/// The name of the variable's definition above, where a term is the cell of that.
fn name_above(pool: &Pool, x: u32, around: &Around, term: Option<NodeId>) -> Option<u32>
    requires { ChildBelow (length pool.now.trees) term }
    ensures { result ≡ cells.name_of (around_in pool.now.trees x around.now).defined
        (tree_at pool.now.trees term) }
{
    let Some(name) = around.name else {
        return None;
    };
    if is_cell_at(pool, x, around.site, term) {
        return Some(name);
    }
    None
}

/// The name of a cell that is looked for, or that of the variable's definition above.
pub(crate) fn name_known(pool: &Pool, x: u32, around: &Around, term: Option<NodeId>) -> Option<u32>
    requires looked { AreLive (length pool.now.trees) around.now.looked_for.now }
    requires live { ChildBelow (length pool.now.trees) term }
    ensures { result ≡ cells.name_of (names_known (around_in pool.now.trees x around.now))
        (tree_at pool.now.trees term) }
{
    match name_looked_for(pool, around.looked_for, term) {
        Some(name) => Some(name),
        None => name_above(pool, x, around, term),
    }
}

/// What is around behind a node at a place, which may be a definition.
pub(crate) fn behind<'a>(
    pool: &Pool,
    naming: &Naming,
    around: &Around<'a>,
    place: u32,
    node: Opened,
) -> Around<'a>
    requires { ChildBelow (length pool.now.trees) node.first }
    ensures around { around_in pool.now.trees naming.now.variable result
        ≡ specs.behind (naming_in naming.now) place node.head (tree_at pool.now.trees node.first)
        (around_in pool.now.trees naming.now.variable around.now) }
    ensures looked { result.looked_for.now ≡ around.now.looked_for.now }
{
    if is_definition(pool, node, naming.variable) {
        return Around {
            replications: around.replications,
            looked_for: around.looked_for,
            site: around.replications,
            name: Some(name_at(naming, place)),
        };
    }
    Around {
        replications: around.replications,
        looked_for: around.looked_for,
        site: around.site,
        name: around.name,
    }
}

/// Cells that are looked for, with one more before them.
pub(crate) fn looking_for(
    alloc: Global,
    looked_for: &[Looked],
    cell: Option<NodeId>,
    name: u32,
) -> Result<Vec<Looked>, AllocError>
    ensures { IfOk result (λ more. more.items
        ≡ record { cell = cell; name = name } ∷ looked_for.now) }
{
    let mut more = Vec::new(alloc);
    more.push(Looked { cell, name })?;
    more.extend_from_slice(looked_for)?;
    Ok(more)
}

/// Replications with one more below them.
pub(crate) fn with_replication(
    alloc: Global,
    replications: &[(u32, u32)],
    index: u32,
    parameter: u32,
) -> Result<Vec<(u32, u32)>, AllocError>
    ensures { IfOk result (λ more. more.items
        ≡ replications.now ++ (index, parameter) ∷ []) }
{
    let mut more = Vec::new(alloc);
    more.extend_from_slice(replications)?;
    more.push((index, parameter))?;
    Ok(more)
}
