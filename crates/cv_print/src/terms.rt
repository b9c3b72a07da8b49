ghost use Rattle.std.specs.Prelude.{◌≡◌, ◌<◌, ◌++◌, [], OnOk, IfOk, length, Some, codes};
ghost use Rattle.cv_pool.specs.Nodes.{ChildBelow};
ghost use Rattle.cv_syntax.specs.PoolTrees.{tree_at};
ghost use Rattle.cv_print.specs.Terms.{term_text, terms_text};

use crate::words::push_name;
use cv_syntax::{Head, Names, NodeId, Opened, Pool, read_node};
use std::alloc::{AllocError, Global};

/// The text of a term. It fails for want of memory alone.
pub fn term_text(
    alloc: Global,
    pool: &Pool,
    names: &Names,
    term: NodeId,
) -> Result<Vec<u8>, AllocError>
    requires { term.0 < length pool.now.trees }
    ensures { IfOk result (λ v. v.items
        ≡ term_text names.now (tree_at pool.now.trees (Some term))) }
{
    let mut out = Vec::new(alloc);
    push_term(&mut out, pool, names, term)?;
    Ok(out)
}

/// Appends the text of a term. It fails for want of memory alone.
#[cycle(terms)]
#[tactic(auto, using(crate::proofs::Readings::term_laws))]
pub fn push_term(
    out: &mut Vec<u8>,
    pool: &Pool,
    names: &Names,
    term: NodeId,
) -> Result<(), AllocError>
    requires { term.0 < length pool.now.trees }
    ensures { OnOk result (out.new.items
        ≡ out.old.items ++ term_text names.now (tree_at pool.now.trees (Some term))) }
{
    let node = read_node(pool, term);
    match node.head {
        Head::Leaf(x) => push_name(out, names, x),
        Head::Primed(x) => {
            push_name(out, names, x)?;
            out.extend_from_slice(b"'")
        }
        Head::Read(x) => {
            push_name(out, names, x)?;
            out.extend_from_slice(b"[")?;
            push_terms(out, pool, names, node.first)?;
            out.extend_from_slice(b"]")
        }
        Head::Apply(f) => {
            push_name(out, names, f)?;
            out.extend_from_slice(b"(")?;
            push_terms(out, pool, names, node.first)?;
            out.extend_from_slice(b")")
        }
        Head::Eq => push_joined(out, pool, names, node, b" = "),
        Head::And => push_joined(out, pool, names, node, b" && "),
        Head::Or => push_joined(out, pool, names, node, b" || "),
        Head::Not => {
            out.extend_from_slice(b"not(")?;
            push_child(out, pool, names, node.first)?;
            out.extend_from_slice(b")")
        }
        Head::Yes => out.extend_from_slice(b"true"),
        Head::No => out.extend_from_slice(b"false"),
        _ => Ok(()),
    }
}

/// Appends two terms with a mark between them, in parentheses.
#[cycle(terms)]
fn push_joined(
    out: &mut Vec<u8>,
    pool: &Pool,
    names: &Names,
    node: Opened,
    mark: &[u8],
) -> Result<(), AllocError>
    requires first { ChildBelow (length pool.now.trees) node.first }
    requires second { ChildBelow (length pool.now.trees) node.second }
    ensures { OnOk result (out.new.items
        ≡ out.old.items ++ (codes "(" ++ term_text names.now (tree_at pool.now.trees node.first)
        ++ mark.now ++ term_text names.now (tree_at pool.now.trees node.second) ++ codes ")")) }
{
    out.extend_from_slice(b"(")?;
    push_child(out, pool, names, node.first)?;
    out.extend_from_slice(mark)?;
    push_child(out, pool, names, node.second)?;
    out.extend_from_slice(b")")
}

/// Appends a term, where there is one.
#[cycle(terms)]
#[tactic(auto, using(crate::proofs::Readings::term_laws))]
pub(crate) fn push_child(
    out: &mut Vec<u8>,
    pool: &Pool,
    names: &Names,
    term: Option<NodeId>,
) -> Result<(), AllocError>
    requires { ChildBelow (length pool.now.trees) term }
    ensures { OnOk result (out.new.items
        ≡ out.old.items ++ term_text names.now (tree_at pool.now.trees term)) }
{
    match term {
        Some(n) => push_term(out, pool, names, n),
        None => Ok(()),
    }
}

/// Appends a list of terms.
#[cycle(terms)]
#[tactic(auto, using(crate::proofs::Readings::term_laws))]
pub fn push_terms(
    out: &mut Vec<u8>,
    pool: &Pool,
    names: &Names,
    list: Option<NodeId>,
) -> Result<(), AllocError>
    requires { ChildBelow (length pool.now.trees) list }
    ensures { OnOk result (out.new.items
        ≡ out.old.items ++ terms_text names.now [] (tree_at pool.now.trees list)) }
{
    let mut before: &[u8] = b"";
    let mut at = list;
    'terms: while let Some(n) = at {
        let node = read_node(pool, n);
        out.extend_from_slice(before)?;
        push_child(out, pool, names, node.first)?;
        before = b", ";
        at = node.second;
    }
    Ok(())
}
