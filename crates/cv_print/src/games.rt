// Processes, line by line.
ghost use Rattle.std.specs.Prelude.{◌≡◌, ◌++◌, ◌+◌, ◌*◌, ◌^◌, ◌<◌, [], OnOk, IfOk, Some, length, is_none, codes, replicate};
ghost use Rattle.std.specs.Fmt.{decimal};
ghost use Rattle.cv_pool.specs.Nodes.{ChildBelow};
ghost use Rattle.cv_syntax.specs.PoolTrees.{tree_at};
ghost use Rattle.cv_syntax_trees.specs.Children.{is_empty};
ghost use Rattle.cv_print.specs.Numbers.{above};
ghost use Rattle.cv_print.specs.Terms.{binder_text, term_text};
ghost use Rattle.cv_print.specs.Games.{line, game_text, process_text, bodies_text, branches_text, branch_text, indices_text, cells_text};

use crate::lines::{open_node, push_cells, push_indent, push_indices, push_line};
use crate::steps::push_step;
use crate::terms::push_child;
use crate::words::{push_binder, push_decimal};
use cv_syntax::{Head, Names, NodeId, Opened, Pool};
use std::alloc::{AllocError, Global};

/// The text of a game. It fails for want of memory alone.
pub fn game_text(
    alloc: Global,
    pool: &Pool,
    names: &Names,
    root: NodeId,
) -> Result<Vec<u8>, AllocError>
    requires { root.0 < length pool.now.trees }
    ensures { IfOk result (λ v. v.items
        ≡ game_text names.now (tree_at pool.now.trees (Some root))) }
{
    let mut out = Vec::new(alloc);
    push_game(&mut out, pool, names, root)?;
    Ok(out)
}

/// Appends the text of a game. It fails for want of memory alone.
pub fn push_game(
    out: &mut Vec<u8>,
    pool: &Pool,
    names: &Names,
    root: NodeId,
) -> Result<(), AllocError>
    requires { root.0 < length pool.now.trees }
    ensures { OnOk result (out.new.items
        ≡ out.old.items ++ game_text names.now (tree_at pool.now.trees (Some root))) }
{
    push_process(out, pool, names, 0, root)
}

/// Appends a process. Down its continuations goes a loop.
#[cycle(processes)]
#[tactic(auto, using(crate::proofs::Readings::process_laws))]
fn push_process(
    out: &mut Vec<u8>,
    pool: &Pool,
    names: &Names,
    level: usize,
    root: NodeId,
) -> Result<(), AllocError>
    requires room { level + root.0 < 2 ^ 33 }
    requires live { root.0 < length pool.now.trees }
    ensures { OnOk result (out.new.items
        ≡ out.old.items ++ process_text names.now level (tree_at pool.now.trees (Some root))) }
{
    let mut at = Some(root);
    'steps: while let Some(n) = at {
        let node = open_node(pool, n);
        match node.head {
            Head::Par => return push_parallel(out, pool, names, level, node),
            Head::Repl(i, most) => return push_copies(
                out,
                pool,
                names,
                level,
                i,
                most,
                node.second,
            ),
            Head::If => return push_test(out, pool, names, level, node),
            Head::Find(label) => return push_find(out, pool, names, level, label, node),
            _ => push_step(out, pool, names, level, node)?,
        }
        at = node.second;
    }
    Ok(())
}

/// Appends a process one level deeper, where there is one.
#[cycle(processes)]
#[tactic(auto, using(crate::proofs::Readings::process_laws))]
fn push_body(
    out: &mut Vec<u8>,
    pool: &Pool,
    names: &Names,
    level: usize,
    body: Option<NodeId>,
) -> Result<(), AllocError>
    requires room { level + above body < 2 ^ 33 }
    requires live { ChildBelow (length pool.now.trees) body }
    ensures { OnOk result (out.new.items
        ≡ out.old.items ++ process_text names.now (level + 1) (tree_at pool.now.trees body)) }
{
    match body {
        Some(n) => push_process(out, pool, names, level + 1, n),
        None => Ok(()),
    }
}

/// Appends a parallel composition.
#[cycle(processes)]
#[tactic(auto, using(crate::proofs::Readings::step_laws))]
fn push_parallel(
    out: &mut Vec<u8>,
    pool: &Pool,
    names: &Names,
    level: usize,
    node: Opened,
) -> Result<(), AllocError>
    requires room_first { level + above node.first < 2 ^ 33 }
    requires room_second { level + above node.second < 2 ^ 33 }
    requires first { ChildBelow (length pool.now.trees) node.first }
    requires second { ChildBelow (length pool.now.trees) node.second }
    ensures { OnOk result (out.new.items
        ≡ out.old.items ++ (line level (codes "(")
        ++ process_text names.now (level + 1) (tree_at pool.now.trees node.first)
        ++ line level (codes "|")
        ++ process_text names.now (level + 1) (tree_at pool.now.trees node.second)
        ++ line level (codes ")"))) }
{
    push_line(out, level, b"(")?;
    push_body(out, pool, names, level, node.first)?;
    push_line(out, level, b"|")?;
    push_body(out, pool, names, level, node.second)?;
    push_line(out, level, b")")
}

/// Appends a replication of at most `most` copies.
#[cycle(processes)]
#[tactic(auto, using(crate::proofs::Readings::step_laws))]
fn push_copies(
    out: &mut Vec<u8>,
    pool: &Pool,
    names: &Names,
    level: usize,
    i: u32,
    most: u32,
    body: Option<NodeId>,
) -> Result<(), AllocError>
    requires room { level + above body < 2 ^ 33 }
    requires live { ChildBelow (length pool.now.trees) body }
    ensures { OnOk result (out.new.items
        ≡ out.old.items ++ (line level (codes "!" ++ binder_text names.now (codes " <= ") i most)
        ++ process_text names.now (level + 1) (tree_at pool.now.trees body))) }
{
    push_indent(out, level)?;
    out.extend_from_slice(b"!")?;
    push_binder(out, names, b" <= ", i, most)?;
    out.extend_from_slice(b"\n")?;
    push_body(out, pool, names, level, body)
}

/// Appends a test with its bodies.
#[cycle(processes)]
#[tactic(auto, using(crate::proofs::Readings::step_laws))]
fn push_test(
    out: &mut Vec<u8>,
    pool: &Pool,
    names: &Names,
    level: usize,
    node: Opened,
) -> Result<(), AllocError>
    requires room { level + above node.second < 2 ^ 33 }
    requires first { ChildBelow (length pool.now.trees) node.first }
    requires second { ChildBelow (length pool.now.trees) node.second }
    ensures { OnOk result (out.new.items
        ≡ out.old.items
        ++ (line level
        (codes "if " ++ term_text names.now (tree_at pool.now.trees node.first) ++ codes " then")
        ++ bodies_text names.now level [] (tree_at pool.now.trees node.second))) }
{
    push_indent(out, level)?;
    out.extend_from_slice(b"if ")?;
    push_child(out, pool, names, node.first)?;
    out.extend_from_slice(b" then\n")?;
    push_bodies(out, pool, names, level, node.second)
}

/// Appends the bodies of a test, with a line `else` between them.
#[cycle(processes)]
#[tactic(auto, using(crate::proofs::Readings::process_laws))]
fn push_bodies(
    out: &mut Vec<u8>,
    pool: &Pool,
    names: &Names,
    level: usize,
    bodies: Option<NodeId>,
) -> Result<(), AllocError>
    requires room { level + above bodies < 2 ^ 33 }
    requires live { ChildBelow (length pool.now.trees) bodies }
    ensures { OnOk result (out.new.items
        ≡ out.old.items ++ bodies_text names.now level [] (tree_at pool.now.trees bodies)) }
{
    let mut later = false;
    let mut at = bodies;
    'bodies: while let Some(n) = at {
        let node = open_node(pool, n);
        if later {
            push_line(out, level, b"else")?;
        }
        push_body(out, pool, names, level, node.first)?;
        later = true;
        at = node.second;
    }
    Ok(())
}

/// Appends a search with its branches.
#[cycle(processes)]
#[tactic(auto, using(crate::proofs::Readings::step_laws))]
fn push_find(
    out: &mut Vec<u8>,
    pool: &Pool,
    names: &Names,
    level: usize,
    label: u64,
    node: Opened,
) -> Result<(), AllocError>
    requires room_first { level + above node.first < 2 ^ 33 }
    requires room_second { level + above node.second < 2 ^ 33 }
    requires first { ChildBelow (length pool.now.trees) node.first }
    requires second { ChildBelow (length pool.now.trees) node.second }
    ensures { OnOk result (out.new.items
        ≡ out.old.items
        ++ (branches_text names.now level (codes "find @" ++ decimal label)
        (tree_at pool.now.trees node.first)
        ++ line level (codes "else")
        ++ process_text names.now (level + 1) (tree_at pool.now.trees node.second))) }
{
    let alloc = *out.allocator();
    let mut word = Vec::from_slice(alloc, b"find @")?;
    push_decimal(&mut word, label)?;
    push_branches(out, pool, names, level, &word, node.first)?;
    push_line(out, level, b"else")?;
    push_body(out, pool, names, level, node.second)
}

/// Appends branches. The first begins with a given word, each further one with `orfind`.
#[cycle(processes)]
#[tactic(auto, using(crate::proofs::Readings::process_laws))]
fn push_branches(
    out: &mut Vec<u8>,
    pool: &Pool,
    names: &Names,
    level: usize,
    word: &[u8],
    branches: Option<NodeId>,
) -> Result<(), AllocError>
    requires room { level + above branches < 2 ^ 33 }
    requires live { ChildBelow (length pool.now.trees) branches }
    ensures { OnOk result (out.new.items
        ≡ out.old.items ++ branches_text names.now level word.now (tree_at pool.now.trees branches)) }
{
    let mut begin = word;
    let mut at = branches;
    'branches: while let Some(n) = at {
        let node = open_node(pool, n);
        push_branch(out, pool, names, level, begin, node.first)?;
        begin = b"orfind";
        at = node.second;
    }
    Ok(())
}

/// Appends a branch. Where one of its parts is missing it has no text.
#[cycle(processes)]
#[tactic(auto, using(crate::proofs::Readings::process_laws))]
fn push_branch(
    out: &mut Vec<u8>,
    pool: &Pool,
    names: &Names,
    level: usize,
    word: &[u8],
    branch: Option<NodeId>,
) -> Result<(), AllocError>
    requires room { level + above branch < 2 ^ 33 }
    requires live { ChildBelow (length pool.now.trees) branch }
    ensures { OnOk result (out.new.items
        ≡ out.old.items ++ branch_text names.now level word.now (tree_at pool.now.trees branch)) }
{
    let Some(n) = branch else { return Ok(()) };
    let top = open_node(pool, n);
    let Some(n) = top.second else { return Ok(()) };
    let middle = open_node(pool, n);
    let Some(n) = middle.second else {
        return Ok(())
    };
    let last = open_node(pool, n);
    push_start(out, pool, names, level, word, top.first)?;
    push_condition(out, pool, names, middle.first, last.first)?;
    push_body(out, pool, names, level, last.second)
}

/// Appends the line of a branch up to its condition.
#[tactic(auto, using(crate::proofs::Readings::step_laws))]
fn push_start(
    out: &mut Vec<u8>,
    pool: &Pool,
    names: &Names,
    level: usize,
    word: &[u8],
    indices: Option<NodeId>,
) -> Result<(), AllocError>
    requires room { level < 2 ^ 40 }
    requires live { ChildBelow (length pool.now.trees) indices }
    requires shown { is_none indices ≡ is_empty (tree_at pool.now.trees indices) }
    ensures { OnOk result (out.new.items ≡ out.old.items
        ++ (replicate (2 * level) 32 ++ word.now
        ++ indices_text names.now (tree_at pool.now.trees indices))) }
{
    push_indent(out, level)?;
    out.extend_from_slice(word)?;
    push_indices(out, pool, names, indices)
}

/// Appends the rest of the line of a branch.
#[tactic(auto, using(crate::proofs::Readings::step_laws))]
fn push_condition(
    out: &mut Vec<u8>,
    pool: &Pool,
    names: &Names,
    cells: Option<NodeId>,
    term: Option<NodeId>,
) -> Result<(), AllocError>
    requires cells { ChildBelow (length pool.now.trees) cells }
    requires term { ChildBelow (length pool.now.trees) term }
    requires shown { is_none cells ≡ is_empty (tree_at pool.now.trees cells) }
    ensures { OnOk result (out.new.items ≡ out.old.items
        ++ (codes " suchthat " ++ cells_text names.now (tree_at pool.now.trees cells)
        ++ term_text names.now (tree_at pool.now.trees term) ++ codes " then\n")) }
{
    out.extend_from_slice(b" suchthat ")?;
    push_cells(out, pool, names, cells)?;
    push_child(out, pool, names, term)?;
    out.extend_from_slice(b" then\n")
}
