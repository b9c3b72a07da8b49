ghost use Rattle.std.specs.Prelude.{◌≡◌, ◌<◌, All, length, option_and_then, slice_get, IfErr, OnOk, IsSome, None, Some};
ghost use Rattle.cv_pool.specs.Nodes.{ChildBelow};
ghost use Rattle.cv_syntax.specs.Classes.{equiv_in};
ghost use Rattle.cv_syntax.specs.Declarations.{declarations};
ghost use Rattle.cv_syntax.specs.PoolTrees.{tree_at};
ghost use Rattle.cv_directory.specs.Live.{IsLive};
ghost use Rattle.cv_group.specs.Tables.{equiv_of, sides_fault, symbols_in};
ghost use Rattle.cv_group.specs.Refusals.{IsRefusalAt, IsRefusalOf};
ghost use Rattle.cv_group_rules.specs.Faults.{equivalences_in, first_group_fault, group_fault};
ghost use Rattle.cv_group_rules.specs.Symbols.{symbols_of};

use crate::bodies::Around;
use crate::fault::{EquivFault, GroupFault};
use crate::reads::are_read;
use crate::shapes::{bodies_are_terms, have_one_index, shapes_agree};
use crate::sides::side_is_bound;
use crate::symbols::symbols_of;
use cv_syntax::children::{first_of, second_of};
use cv_syntax::{Decl, Decls, NameId, NodeId, Pool, Work, read_node};
use std::alloc::Global;

/// Whether the sides of an equivalence keep the rules.
fn check_sides(
    alloc: Global,
    pool: &Pool,
    around: &mut Around,
    left: Option<NodeId>,
    right: Option<NodeId>,
) -> Result<(), GroupFault>
    requires left { ChildBelow (length pool.now.trees) left }
    requires right { ChildBelow (length pool.now.trees) right }
    ensures none { OnOk result (sides_fault (symbols_in around.old.symbols)
        (tree_at pool.now.trees left) (tree_at pool.now.trees right) ≡ None) }
    ensures fault { IfErr result (IsRefusalOf (sides_fault (symbols_in around.old.symbols)
        (tree_at pool.now.trees left) (tree_at pool.now.trees right))) }
    ensures symbols { around.new.symbols ≡ around.old.symbols }
{
    if !bodies_are_terms(pool, second_of(pool, left)) {
        return Err(GroupFault::LeftNotTerm);
    }
    if !have_one_index(pool, right) {
        return Err(GroupFault::TwoIndices);
    }
    if !shapes_agree(alloc, pool, left, right)? {
        return Err(GroupFault::ShapeDiffers);
    }
    if !side_is_bound(alloc, pool, around, left)? {
        return Err(GroupFault::FreeName);
    }
    if !side_is_bound(alloc, pool, around, right)? {
        return Err(GroupFault::FreeName);
    }
    if !are_read(alloc, pool, first_of(pool, left), second_of(pool, left))? {
        return Err(GroupFault::Unread);
    }
    Ok(())
}

/// Whether an equivalence keeps the rules, around which stands what its file declares.
fn check_tree(
    alloc: Global,
    pool: &Pool,
    around: &mut Around,
    tree: NodeId,
) -> Result<(), GroupFault>
    requires { tree.0 < length pool.now.trees }
    ensures none { OnOk result (group_fault (symbols_in around.old.symbols)
        (tree_at pool.now.trees (Some tree)) ≡ None) }
    ensures fault { IfErr result (IsRefusalOf (group_fault (symbols_in around.old.symbols)
        (tree_at pool.now.trees (Some tree)))) }
    ensures symbols { around.new.symbols ≡ around.old.symbols }
{
    let sides = read_node(pool, tree);
    check_sides(alloc, pool, around, sides.first, sides.second)
}

/// Whether the equivalence of this name is accepted, or the first rule that it breaks.
pub fn check(alloc: Global, work: &Work, equiv: NameId) -> Result<(), GroupFault>
    requires declared { All (IsLive (length work.now.pool.trees)) work.now.decls.list }
    requires there { IsSome (equiv_in work.now.decls.list equiv.0) }
    ensures none { OnOk result (group_fault
        (symbols_of (declarations work.now.pool.trees work.now.decls.list))
        (tree_at work.now.pool.trees (equiv_in work.now.decls.list equiv.0)) ≡ None) }
    ensures fault { IfErr result (IsRefusalOf (group_fault
        (symbols_of (declarations work.now.pool.trees work.now.decls.list))
        (tree_at work.now.pool.trees (equiv_in work.now.decls.list equiv.0)))) }
{
    let symbols = symbols_of(alloc, &work.pool, &work.decls)?;
    let mut around = Around::new(alloc, symbols);
    match work.decls.equiv(equiv) {
        Some(tree) => check_tree(alloc, &work.pool, &mut around, tree),
        None => Ok(()),
    }
}

/// The equivalence at a place in a list of declarations, counted from 0, where one stands there.
fn equiv_at(decls: &Decls, k: u32) -> Option<NodeId>
    ensures { result ≡ option_and_then equiv_of (slice_get decls.now.list k) }
{
    match decls.get(k)? {
        Decl::Equiv { tree, .. } => Some(*tree),
        Decl::Name { .. } | Decl::Equation(_) | Decl::Query(_) => None,
    }
}

/// Whether each equivalence of a file is accepted, or the first that is not. A collision is an equivalence.
pub fn check_all(alloc: Global, work: &Work) -> Result<(), EquivFault>
    requires { All (IsLive (length work.now.pool.trees)) work.now.decls.list }
    ensures none { OnOk result (first_group_fault
        (symbols_of (declarations work.now.pool.trees work.now.decls.list))
        (equivalences_in (declarations work.now.pool.trees work.now.decls.list)) ≡ None) }
    ensures fault { IfErr result (λ e. IsRefusalAt (first_group_fault
        (symbols_of (declarations work.now.pool.trees work.now.decls.list))
        (equivalences_in (declarations work.now.pool.trees work.now.decls.list))) e.equiv e.fault) }
{
    let symbols = symbols_of(alloc, &work.pool, &work.decls)?;
    let mut around = Around::new(alloc, symbols);
    let mut equiv = 0;
    'decls: for k in 0..work.decls.len() {
        let Some(tree) = equiv_at(&work.decls, k) else {
            continue;
        };
        equiv += 1;
        if let Err(fault) = check_tree(alloc, &work.pool, &mut around, tree) {
            return Err(EquivFault { equiv, fault });
        }
    }
    Ok(())
}
