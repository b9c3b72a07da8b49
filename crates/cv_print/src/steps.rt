// The lines of constructs whose continuation stays at their level.
ghost use Rattle.std.specs.Prelude.{◌≡◌, ◌++◌, ◌^◌, ◌<◌, OnOk, length, is_none, codes};
ghost use Rattle.cv_pool.specs.Nodes.{ChildBelow};
ghost use Rattle.cv_syntax.specs.PoolTrees.{tree_at};
ghost use Rattle.cv_syntax_trees.specs.Children.{is_empty};
ghost use Rattle.cv_print.specs.Terms.{binder_text};
ghost use Rattle.cv_print.specs.Games.{line, step_text};

use crate::lines::{children, push_arguments, push_channel, push_indent, push_line};
use crate::terms::{push_child, push_terms};
use crate::words::{push_binder, push_entries, push_name};
use cv_syntax::{Head, Names, NodeId, Opened, Pool};
use std::alloc::AllocError;

/// Appends the line of a construct; none, if its continuation doesn't stay at its level.
#[tactic(auto, using(crate::proofs::Readings::step_laws))]
pub(crate) fn push_step(
    out: &mut Vec<u8>,
    pool: &Pool,
    names: &Names,
    level: usize,
    node: Opened,
) -> Result<(), AllocError>
    requires room { level < 2 ^ 40 }
    requires live { ChildBelow (length pool.now.trees) node.first }
    requires shown { is_none node.first ≡ is_empty (tree_at pool.now.trees node.first) }
    ensures { OnOk result (out.new.items
        ≡ out.old.items ++ step_text names.now level node.head (tree_at pool.now.trees node.first)) }
{
    match node.head {
        Head::Stop => push_line(out, level, b"0"),
        Head::Yield => push_line(out, level, b"yield"),
        Head::In(c) => push_input(out, pool, names, level, c, node.first),
        Head::Out(c) => push_output(out, pool, names, level, c, node.first),
        Head::Event(e) => push_event(out, pool, names, level, e, node.first),
        Head::New(x, of) => push_new(out, names, level, x, of),
        Head::Let(x, of) => {
            push_indent(out, level)?;
            out.extend_from_slice(b"let ")?;
            push_binder(out, names, b": ", x, of)?;
            out.extend_from_slice(b" = ")?;
            push_child(out, pool, names, node.first)?;
            out.extend_from_slice(b" in\n")
        }
        _ => Ok(()),
    }
}

/// Appends the line of an input.
#[tactic(auto, using(crate::proofs::Readings::step_laws))]
fn push_input(
    out: &mut Vec<u8>,
    pool: &Pool,
    names: &Names,
    level: usize,
    channel: u32,
    parts: Option<NodeId>,
) -> Result<(), AllocError>
    requires room { level < 2 ^ 40 }
    requires live { ChildBelow (length pool.now.trees) parts }
    ensures { OnOk result (out.new.items
        ≡ out.old.items ++ step_text names.now level (Head.In channel) (tree_at pool.now.trees parts)) }
{
    let (indices, binders) = children(pool, parts);
    push_indent(out, level)?;
    out.extend_from_slice(b"in(")?;
    push_channel(out, pool, names, channel, indices)?;
    out.extend_from_slice(b", (")?;
    push_entries(out, pool, names, b": ", binders)?;
    out.extend_from_slice(b"));\n")
}

/// Appends the line of an output.
#[tactic(auto, using(crate::proofs::Readings::step_laws))]
fn push_output(
    out: &mut Vec<u8>,
    pool: &Pool,
    names: &Names,
    level: usize,
    channel: u32,
    parts: Option<NodeId>,
) -> Result<(), AllocError>
    requires room { level < 2 ^ 40 }
    requires live { ChildBelow (length pool.now.trees) parts }
    ensures { OnOk result (out.new.items
        ≡ out.old.items ++ step_text names.now level (Head.Out channel) (tree_at pool.now.trees parts)) }
{
    let (indices, terms) = children(pool, parts);
    push_indent(out, level)?;
    out.extend_from_slice(b"out(")?;
    push_channel(out, pool, names, channel, indices)?;
    out.extend_from_slice(b", (")?;
    push_terms(out, pool, names, terms)?;
    out.extend_from_slice(b"));\n")
}

/// Appends the line of an event.
#[tactic(auto, using(crate::proofs::Readings::step_laws))]
fn push_event(
    out: &mut Vec<u8>,
    pool: &Pool,
    names: &Names,
    level: usize,
    event: u32,
    terms: Option<NodeId>,
) -> Result<(), AllocError>
    requires room { level < 2 ^ 40 }
    requires live { ChildBelow (length pool.now.trees) terms }
    requires shown { is_none terms ≡ is_empty (tree_at pool.now.trees terms) }
    ensures { OnOk result (out.new.items
        ≡ out.old.items ++ step_text names.now level (Head.Event event) (tree_at pool.now.trees terms)) }
{
    push_indent(out, level)?;
    out.extend_from_slice(b"event ")?;
    push_name(out, names, event)?;
    push_arguments(out, pool, names, terms)?;
    out.extend_from_slice(b";\n")
}

/// Appends the line of a restriction.
#[tactic(auto, using(crate::proofs::Readings::step_laws))]
fn push_new(
    out: &mut Vec<u8>,
    names: &Names,
    level: usize,
    x: u32,
    of: u32,
) -> Result<(), AllocError>
    requires { level < 2 ^ 40 }
    ensures { OnOk result (out.new.items
        ≡ out.old.items
        ++ line level (codes "new " ++ binder_text names.now (codes ": ") x of ++ codes ";")) }
{
    push_indent(out, level)?;
    out.extend_from_slice(b"new ")?;
    push_binder(out, names, b": ", x, of)?;
    out.extend_from_slice(b";\n")
}
