ghost use Rattle.std.specs.Prelude.{◌≡◌, ◌<◌, ◌^◌, ◌||◌, All, IfOk, OnOk, Some, length};
ghost use Rattle.std.specs.List.{list_any};
ghost use Rattle.cv_pool.specs.Nodes.{ChildBelow};
ghost use Rattle.cv_syntax_trees.specs.declared.head.Head.TheVariants.{Cons};
ghost use Rattle.cv_syntax_trees.specs.Tree.{Tree, same_tree, size};
ghost use Rattle.cv_syntax.specs.PoolTrees.{tree_at};
ghost use Rattle.cv_scope.specs.Held.{names_held};
ghost use Rattle.cv_scope_rules.specs.Context.{Context, cells_of, known_at, replications_below, second_context};
ghost use Rattle.cv_scope_rules.specs.Rules as rules;
ghost use Rattle.cv_scope_rules.specs.Tests as tests;
ghost use Rattle.cv_directory.specs.Live.{IsLive};
ghost use Rattle.cv_scene_view.specs.Kept.{scene_of};
ghost use Rattle.cv_derive_reasons.specs.sizes.Sizes.{AreSizes};
ghost use Rattle.cv_costs.specs.names.Reach as specs;
ghost use Rattle.cv_rule_fresh.specs.Looks.{Sees, entered_cells, reads_here};

use crate::cells::is_cell;
use cv_derive_reasons::cells::{defines, front};
use cv_derive_reasons::sizes::{Sizes, place_in};
use cv_directory::Directory;
use cv_path::Lies;
use cv_scene_view::{has_place, replications_at};
use cv_scope::NameKinds;
use cv_scope_rules::Position;
use cv_syntax::{Head, NodeId, Opened, Pool, Work, read_node, same};
use std::alloc::{AllocError, Global};

/// Whether a cell is known on the way to a place, and whether it is that of an index of the branch around.
#[derive(Clone, Copy)]
pub(crate) struct Seen {
    pub(crate) defined: bool,
    pub(crate) own: bool,
}

/// Whether a cell is known, or that of an index of the branch around.
fn is_seen(seen: Seen) -> bool
    ensures { result ≡ (seen.defined || seen.own) }
{
    seen.defined || seen.own
}

/// Whether a cell is that of a variable of a list of binders below replications.
fn is_bound(
    pool: &Pool,
    cell: Option<NodeId>,
    binders: Option<NodeId>,
    replications: &[(u32, u32)],
) -> bool
    requires cell { ChildBelow (length pool.now.trees) cell }
    requires binders { ChildBelow (length pool.now.trees) binders }
    ensures { result ≡ list_any (same_tree (tree_at pool.now.trees cell))
        (cells_of replications.now (tree_at pool.now.trees binders)) }
{
    let mut at = binders;
    'binders: while let Some(n) = at {
        let node = read_node(pool, n);
        let Head::Binder(x, _) = node.head else {
            return false;
        };
        if is_cell(pool, cell, x, replications) {
            return true;
        }
        at = node.second;
    }
    false
}

/// Whether a cell is known besides at the second child of a node below replications.
fn is_entered(
    pool: &Pool,
    cell: Option<NodeId>,
    position: Position,
    seen: Seen,
    node: Opened,
    replications: &[(u32, u32)],
) -> bool
    requires cell { ChildBelow (length pool.now.trees) cell }
    requires first { ChildBelow (length pool.now.trees) node.first }
    ensures { (Γ : Context) → Γ.replications ≡ replications.now
        → Sees (tree_at pool.now.trees cell) Γ seen
        → result ≡ list_any (same_tree (tree_at pool.now.trees cell))
        (entered_cells position node.head (tree_at pool.now.trees node.first) Γ) }
{
    let none = front(replications, 0);
    match node.head {
        Head::Cons => match position {
            Position::Guards => defines(pool, cell, position, None, node, replications, none, None),
            Position::Guarded => seen.own,
            Position::Cells => same(pool, cell, node.first),
            _ => false,
        },
        _ => defines(pool, cell, position, None, node, replications, none, None),
    }
}

/// Whether a cell is that of an index of the branch around the rest of a list.
fn is_own_behind(position: Position, seen: Seen) -> bool
    ensures { (cell item : Tree) (Γ : Context) → Sees cell Γ seen
        → result ≡ list_any (same_tree cell) (second_context position Cons item Γ).own }
{
    match position {
        Position::Guarded => false,
        _ => seen.own,
    }
}

/// Whether a cell is that of an index of the branch around the second child of a node below replications.
fn is_own(
    pool: &Pool,
    cell: Option<NodeId>,
    position: Position,
    seen: Seen,
    node: Opened,
    replications: &[(u32, u32)],
) -> bool
    requires cell { ChildBelow (length pool.now.trees) cell }
    requires first { ChildBelow (length pool.now.trees) node.first }
    ensures { (Γ : Context) → Γ.replications ≡ replications.now
        → Sees (tree_at pool.now.trees cell) Γ seen
        → result ≡ list_any (same_tree (tree_at pool.now.trees cell))
        (second_context position node.head (tree_at pool.now.trees node.first) Γ).own }
{
    match node.head {
        Head::Branch => is_seen(Seen {
            defined: seen.own,
            own: is_bound(pool, cell, node.first, replications),
        }),
        Head::Cons => is_own_behind(position, seen),
        _ => seen.own,
    }
}

/// What is seen of a cell at the second child of a node below replications.
fn entered(
    pool: &Pool,
    cell: Option<NodeId>,
    position: Position,
    seen: Seen,
    node: Opened,
    replications: &[(u32, u32)],
) -> Seen
    requires cell { ChildBelow (length pool.now.trees) cell }
    requires first { ChildBelow (length pool.now.trees) node.first }
    ensures { (Γ : Context) → Γ.replications ≡ replications.now
        → Sees (tree_at pool.now.trees cell) Γ seen → Sees (tree_at pool.now.trees cell)
        (second_context position node.head (tree_at pool.now.trees node.first) Γ) result }
{
    let entered = is_entered(pool, cell, position, seen, node, replications);
    Seen {
        defined: is_seen(Seen {
            defined: seen.defined,
            own: entered,
        }),
        own: is_own(pool, cell, position, seen, node, replications),
    }
}

/// Notes the index of a replication with its parameter.
fn pass(passed: &mut Vec<(u32, u32)>, head: Head) -> Result<(), AllocError>
    ensures { OnOk result (passed.new.items ≡ replications_below head passed.old.items) }
{
    match head {
        Head::Repl(i, n) => {
            passed.push((i, n))?;
            Ok(())
        }
        _ => Ok(()),
    }
}

/// Whether a cell is known at a place that a game has.
#[tactic(auto, using(cv_path::proofs::Going::going))]
fn is_known(
    alloc: Global,
    pool: &Pool,
    sizes: &Sizes,
    game: NodeId,
    place: u32,
    cell: Option<NodeId>,
) -> Result<bool, AllocError>
    requires live { game.0 < length pool.now.trees }
    requires fits { size (tree_at pool.now.trees (Some game)) < 2 ^ 32 }
    requires sizes { AreSizes pool.now.trees sizes.now }
    requires cell { ChildBelow (length pool.now.trees) cell }
    ensures { (Γ : Context) → known_at (tree_at pool.now.trees (Some game)) place ≡ Some Γ
        → IfOk result (λ known. known ≡ tests.is_in_reach Γ (tree_at pool.now.trees cell)) }
{
    let mut passed = Vec::new(alloc);
    let mut position = Position::Anywhere;
    let mut seen = Seen {
        defined: false,
        own: false,
    };
    let mut at = Some(game);
    let mut left = place;
    'down: while let Some(n) = at {
        let node = read_node(pool, n);
        match place_in(pool, sizes, node, left) {
            Lies::Here => return Ok(is_seen(seen)),
            Lies::Within(rest) => {
                position = position.first(node.head);
                at = node.first;
                left = rest;
            }
            Lies::Behind(rest) => {
                seen = entered(pool, cell, position, seen, node, passed.as_slice());
                pass(&mut passed, node.head)?;
                position = position.second(node.head);
                at = node.second;
                left = rest;
            }
        }
    }
    Ok(false)
}

/// Whether a name is the index of one of these replications.
fn is_index(replications: &[(u32, u32)], x: u32) -> bool
    ensures { result ≡ rules.is_index replications.now x }
{
    replications.iter().any(|r| r.0 == x)
}

/// Whether what a node reads is in scope at a place that a game has, below these replications.
fn is_read(
    alloc: Global,
    pool: &Pool,
    sizes: &Sizes,
    names: &NameKinds,
    game: NodeId,
    place: u32,
    replications: &[(u32, u32)],
    n: NodeId,
) -> Result<bool, AllocError>
    requires live { game.0 < length pool.now.trees }
    requires fits { size (tree_at pool.now.trees (Some game)) < 2 ^ 32 }
    requires sizes { AreSizes pool.now.trees sizes.now }
    requires node { n.0 < length pool.now.trees }
    ensures { (Γ : Context) → known_at (tree_at pool.now.trees (Some game)) place ≡ Some Γ
        → Γ.replications ≡ replications.now → IfOk result (λ is_read. is_read
        ≡ reads_here (names_held names.now) Γ (tree_at pool.now.trees (Some n))) }
{
    match read_node(pool, n).head {
        Head::Leaf(x) => {
            if is_index(replications, x) || names.is_constant(x) {
                return Ok(true);
            }
            is_known(alloc, pool, sizes, game, place, Some(n))
        }
        Head::Read(_) => is_known(alloc, pool, sizes, game, place, Some(n)),
        _ => Ok(true),
    }
}

/// Whether a term is in scope at a place that a game has, below these replications.
fn is_in_scope(
    alloc: Global,
    pool: &Pool,
    sizes: &Sizes,
    names: &NameKinds,
    game: NodeId,
    place: u32,
    replications: &[(u32, u32)],
    term: Option<NodeId>,
) -> Result<bool, AllocError>
    requires live { game.0 < length pool.now.trees }
    requires fits { size (tree_at pool.now.trees (Some game)) < 2 ^ 32 }
    requires sizes { AreSizes pool.now.trees sizes.now }
    requires term { ChildBelow (length pool.now.trees) term }
    ensures { (Γ : Context) → known_at (tree_at pool.now.trees (Some game)) place ≡ Some Γ
        → Γ.replications ≡ replications.now → IfOk result (λ is_scoped. is_scoped
        ≡ specs.is_in_scope (names_held names.now) Γ (tree_at pool.now.trees term)) }
{
    let mut at = term;
    'chain: while let Some(n) = at {
        if !is_read(alloc, pool, sizes, names, game, place, replications, n)? {
            return Ok(false);
        }
        let node = read_node(pool, n);
        if !is_in_scope(
            alloc,
            pool,
            sizes,
            names,
            game,
            place,
            replications,
            node.first,
        )? {
            return Ok(false);
        }
        at = node.second;
    }
    Ok(true)
}

/// Whether a term is in scope before the construct at a place of a game.
pub(crate) fn is_in_scope_at(
    alloc: Global,
    work: &Work,
    game: NodeId,
    place: u32,
    term: Option<NodeId>,
) -> Result<bool, AllocError>
    requires live { game.0 < length work.now.pool.trees }
    requires fits { size (tree_at work.now.pool.trees (Some game)) < 2 ^ 32 }
    requires declared { All (IsLive (length work.now.pool.trees)) work.now.decls.list }
    requires term { ChildBelow (length work.now.pool.trees) term }
    ensures { IfOk result (λ is_scoped. is_scoped ≡ specs.is_in_scope_at
        (scene_of work.now.pool work.now.decls game) place (tree_at work.now.pool.trees term)) }
{
    if !has_place(work, game, place) {
        return Ok(false);
    }
    let pool = &work.pool;
    let replications = replications_at(alloc, work, game, place)?;
    let directory = Directory::of(alloc, pool, &work.decls, game)?;
    let names = NameKinds::of(alloc, pool, &work.decls, game, directory)?;
    let sizes = Sizes::of(pool, game);
    is_in_scope(
        alloc,
        pool,
        &sizes,
        &names,
        game,
        place,
        replications.as_slice(),
        term,
    )
}
