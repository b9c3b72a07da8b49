ghost use Rattle.std.specs.Prelude.{◌≡◌, ◌<◌, ◌||◌, ℕ, All, IfOk, Some, length};
ghost use Rattle.cv_pool.specs.Nodes.{ChildBelow};
ghost use Rattle.cv_syntax_trees.specs.Tree.{Node};
ghost use Rattle.cv_syntax.specs.NameSets.{is_in};
ghost use Rattle.cv_syntax.specs.PoolTrees.{tree_at};
ghost use Rattle.cv_directory.specs.Live.{IsLive};
ghost use Rattle.cv_scope_rules.specs.Made.{is_bound, is_own_at, is_own_of};
ghost use Rattle.cv_scene_view.specs.Kept.{scene_of};
ghost use Rattle.cv_costs.specs.names.Naming as naming;

use cv_syntax::children::{read_child, second_of};
use cv_syntax::{Head, NodeId, Opened, Pool, Work, query_at, read_node};
use std::alloc::{AllocError, Global};
use std::collections::HashSet;

/// Adds the variables of a list of binders.
fn add_bound(
    pool: &Pool,
    names: &mut HashSet<u32>,
    binders: Option<NodeId>,
) -> Result<(), AllocError>
    requires { ChildBelow (length pool.now.trees) binders }
    ensures { IfOk result (λ u. (y : ℕ) → is_in names.new y
        ≡ (is_bound (tree_at pool.now.trees binders) y || is_in names.old y)) }
{
    let mut at = binders;
    'binders: while let Some(n) = at {
        let cell = read_node(pool, n);
        let Head::Binder(x, _) = cell.head else {
            return Ok(());
        };
        names.insert(x)?;
        at = cell.second;
    }
    Ok(())
}

/// Adds the index variables of branches.
fn add_own(
    pool: &Pool,
    names: &mut HashSet<u32>,
    branches: Option<NodeId>,
) -> Result<(), AllocError>
    requires { ChildBelow (length pool.now.trees) branches }
    ensures { IfOk result (λ u. (y : ℕ) → is_in names.new y
        ≡ (is_own_of (tree_at pool.now.trees branches) y || is_in names.old y)) }
{
    let mut at = branches;
    'branches: while let Some(n) = at {
        let link = read_node(pool, n);
        let Some(branch) = read_child(pool, link.first) else {
            return Ok(());
        };
        let Head::Branch = branch.head else {
            return Ok(());
        };
        add_bound(pool, names, branch.first)?;
        at = link.second;
    }
    Ok(())
}

/// The index variables of a construct.
pub fn own_names(alloc: Global, pool: &Pool, construct: Opened) -> Result<HashSet<u32>, AllocError>
    requires { ChildBelow (length pool.now.trees) construct.first }
    ensures { IfOk result (λ names. is_in names ≡ is_own_at (Node construct.head
        (tree_at pool.now.trees construct.first) (tree_at pool.now.trees construct.second))) }
{
    let mut names = HashSet::new(alloc);
    match construct.head {
        Head::Find(_) => {
            add_own(pool, &mut names, construct.first)?;
            Ok(names)
        }
        _ => Ok(names),
    }
}

/// Whether one of these names is bound by a list of binders.
fn binds_one(pool: &Pool, names: &HashSet<u32>, binders: Option<NodeId>) -> bool
    requires { ChildBelow (length pool.now.trees) binders }
    ensures { result ≡ naming.binds_one (is_in names.now) (tree_at pool.now.trees binders) }
{
    let mut at = binders;
    'binders: while let Some(n) = at {
        let cell = read_node(pool, n);
        let Head::Binder(x, _) = cell.head else {
            return false;
        };
        if names.contains(&x) {
            return true;
        }
        at = cell.second;
    }
    false
}

/// Whether a node reads one of these variables or is a site of one.
pub fn names_one(pool: &Pool, names: &HashSet<u32>, node: Opened) -> bool
    requires { ChildBelow (length pool.now.trees) node.first }
    ensures { result ≡ naming.names_one (is_in names.now) node.head
        (tree_at pool.now.trees node.first) }
{
    match node.head {
        Head::Leaf(x) => names.contains(&x),
        Head::Read(x) => names.contains(&x),
        Head::New(x, _) => names.contains(&x),
        Head::Let(x, _) => names.contains(&x),
        Head::Key(x) => names.contains(&x),
        Head::Call(x, _) => names.contains(&x),
        Head::In(_) => binds_one(pool, names, second_of(pool, node.first)),
        Head::Branch => binds_one(pool, names, node.first),
        _ => false,
    }
}

/// Whether a query asks for the secrecy of one of these variables.
fn asks_for_one(pool: &Pool, names: &HashSet<u32>, query: NodeId) -> bool
    requires { query.0 < length pool.now.trees }
    ensures { result ≡ naming.asks_for_one (is_in names.now)
        (tree_at pool.now.trees (Some query)) }
{
    match read_node(pool, query).head {
        Head::Secret(y) => names.contains(&y),
        Head::SecretOnce(y) => names.contains(&y),
        _ => false,
    }
}

/// Whether a query of the file asks for the secrecy of one of these variables.
pub fn is_one_queried(work: &Work, game: NodeId, names: &HashSet<u32>) -> bool
    requires { All (IsLive (length work.now.pool.trees)) work.now.decls.list }
    ensures { result ≡ naming.is_one_queried (scene_of work.now.pool work.now.decls game)
        (is_in names.now) }
{
    'decls: for k in 0..work.decls.len() {
        let Some(query) = query_at(&work.decls, k) else {
            continue;
        };
        if asks_for_one(&work.pool, names, query) {
            return true;
        }
    }
    false
}
