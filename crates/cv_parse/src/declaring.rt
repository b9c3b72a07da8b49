ghost use Rattle.std.specs.Prelude.{◌≡◌, ◌+◌, ◌<◌, ◌≤◌, ◌^◌, ◌++◌, length, flat_map, OnOk};
ghost use Rattle.std.specs.List.{AllByRecursion};
ghost use Rattle.cv_parse_grammar.specs.Identities.{AreDistinct};
ghost use Rattle.cv_parse.specs.Declaring.{IsNameable, all_decls, decl_of as declaration_of, names_by, names_of, or_first as first_of};

use cv_parse_declarations::signature::Heard;
use cv_syntax::{Decl, Decls, NameId, NodeId};
use std::alloc::AllocError;

/// A tree that is there.
fn or_first(root: Option<NodeId>) -> NodeId
    ensures { result ≡ first_of root }
{
    root.unwrap_or(NodeId(0))
}

/// What is declared, of which this was heard, with the tree at a node.
fn decl_of(heard: Heard, root: Option<NodeId>) -> Decl
    ensures { result ≡ declaration_of heard root }
{
    match heard {
        Heard::Named(id, class, sort) => Decl::Name {
            id: NameId(id),
            class,
            args: root,
            result: sort.map(NameId),
        },
        Heard::Equation => Decl::Equation(or_first(root)),
        Heard::Equiv(id) => Decl::Equiv {
            id: NameId(id),
            tree: or_first(root),
        },
        Heard::Query => Decl::Query(or_first(root)),
    }
}

/// Declares all that was heard, one by one, each with its tree.
pub fn declare_all(
    decls: &mut Decls,
    heard: &[Heard],
    roots: &[Option<NodeId>],
) -> Result<(), AllocError>
    requires few { length decls.old.list + length heard.now < 2 ^ 32 }
    requires rooted { length heard.now ≤ length roots.now }
    requires named { AllByRecursion IsNameable heard.now }
    requires distinct { AreDistinct
        (flat_map names_of decls.old.list ++ flat_map names_by heard.now) }
    ensures list { OnOk result (decls.new.list ≡ decls.old.list ++ all_decls heard.now roots.now) }
    ensures own { decls.new.own ≡ decls.old.own }
{
    'heard: for k in 0..heard.len() {
        decls.add(decl_of(heard[k], roots[k]))?;
    }
    Ok(())
}
