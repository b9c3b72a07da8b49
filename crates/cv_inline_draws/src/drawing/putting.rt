ghost use Rattle.std.specs.Prelude.{◌≡◌, OnOk};
ghost use Rattle.cv_meaning.specs.contexts.Roles as roles;
ghost use Rattle.cv_inline_sites.specs.listing.Listed.{role_in};
ghost use Rattle.cv_inline.specs.terms.Drawings.{drawn_in};
ghost use Rattle.cv_inline_draws.specs.drawing.Tables.{nothing, with_label, with_name};

use cv_inline::terms::{Drawing, Index};
use cv_inline_sites::listing::Role;
use std::alloc::{AllocError, Global};
use std::collections::HashMap;

/// A table without names.
pub(crate) fn empty(alloc: Global) -> Drawing
    ensures { drawn_in result ≡ nothing }
{
    Drawing {
        key: 0,
        variables: HashMap::new(alloc),
        labels: HashMap::new(alloc),
        indices: HashMap::new(alloc),
    }
}

/// Puts the name that is drawn for a name of a site into the table.
fn put_variable(drawing: &mut Drawing, site: u32, x: u32, name: u32) -> Result<(), AllocError>
    ensures { OnOk result (drawn_in drawing.new
        ≡ with_name (roles.Variable site x) name (drawn_in drawing.old)) }
{
    drawing.variables.insert((site, x), name)?;
    Ok(())
}

/// Puts the name that is drawn for an index of a find into the table.
fn put_index(drawing: &mut Drawing, index: Index, name: u32) -> Result<(), AllocError>
    ensures { OnOk result (drawn_in drawing.new ≡ with_name (roles.Index index.site index.place
        index.other index.branch index.replication) name (drawn_in drawing.old)) }
{
    drawing.indices.insert(index, name)?;
    Ok(())
}

/// Puts the name that is drawn for a thing into the table.
pub(crate) fn put_name(drawing: &mut Drawing, role: Role, name: u32) -> Result<(), AllocError>
    ensures { OnOk result (drawn_in drawing.new
        ≡ with_name (role_in role) name (drawn_in drawing.old)) }
{
    match role {
        Role::Key => {
            drawing.key = name;
            Ok(())
        }
        Role::Variable { site, name: x } => put_variable(drawing, site, x, name),
        Role::OfFind(index) => put_index(drawing, index, name),
    }
}

/// Puts the label that is drawn for a find into the table.
pub(crate) fn put_label(
    drawing: &mut Drawing,
    find: (u32, u32),
    label: u64,
) -> Result<(), AllocError>
    ensures { OnOk result (drawn_in drawing.new ≡ with_label find label (drawn_in drawing.old)) }
{
    drawing.labels.insert(find, label)?;
    Ok(())
}
