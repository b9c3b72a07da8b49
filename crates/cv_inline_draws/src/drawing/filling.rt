ghost use Rattle.std.specs.Prelude.{◌≡◌, IfOk, OnOk, map, min};
ghost use Rattle.cv_inline.specs.Draws.{drawn_by};
ghost use Rattle.cv_inline_sites.specs.listing.Listed.{draw_in};
ghost use Rattle.cv_inline.specs.terms.Drawings.{drawn_in};
ghost use Rattle.cv_inline_draws.specs.drawing.Tables.{with_labels, with_names};

use crate::drawing::putting::{empty, put_label, put_name};
use cv_inline::terms::Drawing;
use cv_inline_sites::listing::Draw;
use std::alloc::{AllocError, Global};

fn least(a: usize, b: usize) -> usize
    ensures { result ≡ min a b }
{
    if a < b { a } else { b }
}

/// Puts the names of draws into the table. The first of a thing is put last, so that it stays.
fn put_names(drawing: &mut Drawing, draws: &[Draw], names: &[u32]) -> Result<(), AllocError>
    ensures { OnOk result (drawn_in drawing.new
        ≡ with_names draws.now names.now (drawn_in drawing.old)) }
{
    let mut left = least(draws.len(), names.len());
    'draws: while left > 0 {
        left -= 1;
        put_name(drawing, draws[left].role, names[left])?;
    }
    Ok(())
}

/// Puts the labels of finds into the table, the first last.
fn put_labels(drawing: &mut Drawing, finds: &[(u32, u32)], labels: &[u64]) -> Result<(), AllocError>
    ensures { OnOk result (drawn_in drawing.new
        ≡ with_labels finds.now labels.now (drawn_in drawing.old)) }
{
    let mut left = least(finds.len(), labels.len());
    'finds: while left > 0 {
        left -= 1;
        put_label(drawing, finds[left], labels[left])?;
    }
    Ok(())
}

/// The table of draws with their names, and of finds with their labels. Where one thing stands twice, the first is meant.
pub(crate) fn drawing_of(
    alloc: Global,
    draws: &[Draw],
    names: &[u32],
    finds: &[(u32, u32)],
    labels: &[u64],
) -> Result<Drawing, AllocError>
    ensures { IfOk result (λ drawing. drawn_in drawing
        ≡ drawn_by (map draw_in draws.now) names.now finds.now labels.now) }
{
    let mut drawing = empty(alloc);
    put_names(&mut drawing, draws, names)?;
    put_labels(&mut drawing, finds, labels)?;
    Ok(drawing)
}
