ghost use Rattle.std.specs.Prelude.{◌≡◌, ◌++◌, OnOk, length};
ghost use Rattle.cv_syntax.specs.Postorder.{postorder};
ghost use Rattle.cv_step_writer.specs.Derivations.{AreLinesBelow, IsLineBelow, derivation, line_tree};

use crate::lines::Line;
use crate::parts::items::push_term;
use crate::parts::reasons::push_reason;
use cv_syntax::parts::{close_list, push_tree};
use cv_syntax::{Head, Make, Pool};
use std::alloc::AllocError;

/// Makes a line.
#[tactic(auto, unfolding(cv_syntax::specs::Postorder::postorder), using(crate::proofs::Making::making))]
fn push_line(makes: &mut Vec<Make>, pool: &Pool, line: &Line) -> Result<(), AllocError>
    requires { IsLineBelow (length pool.now.trees) line.now }
    ensures { OnOk result (makes.new.items
        ≡ makes.old.items ++ postorder (line_tree pool.now.trees line.now)) }
{
    match line {
        Line::Holds { term, by } => {
            push_term(makes, pool, *term)?;
            push_reason(makes, pool, by)?;
            makes.push(Make::Over(Head::Line))?;
            Ok(())
        }
        Line::Equal { left, right, by } => {
            push_term(makes, pool, *left)?;
            push_term(makes, pool, *right)?;
            makes.push(Make::Over(Head::Eq))?;
            push_reason(makes, pool, by)?;
            makes.push(Make::Over(Head::Line))?;
            Ok(())
        }
        Line::Defined { cell, by } => {
            push_term(makes, pool, *cell)?;
            push_reason(makes, pool, by)?;
            makes.push(Make::Over(Head::Defined))?;
            Ok(())
        }
        Line::Cases {
            condition,
            first,
            second,
            conclusion,
        } => {
            push_term(makes, pool, *condition)?;
            push_tree(makes, pool, *first)?;
            push_tree(makes, pool, *second)?;
            push_term(makes, pool, *conclusion)?;
            makes.push(Make::Over(Head::Cons))?;
            makes.push(Make::Over(Head::Cons))?;
            makes.push(Make::Over(Head::Cases))?;
            Ok(())
        }
    }
}

/// Makes a derivation.
#[tactic(auto, using(crate::proofs::Making::making))]
pub(crate) fn push_lines(
    makes: &mut Vec<Make>,
    pool: &Pool,
    lines: &[Line],
) -> Result<(), AllocError>
    requires { AreLinesBelow (length pool.now.trees) lines.now }
    ensures { OnOk result (makes.new.items
        ≡ makes.old.items ++ postorder (derivation pool.now.trees lines.now)) }
{
    'items: for k in 0..lines.len() {
        push_line(makes, pool, &lines[k])?;
    }
    close_list(makes, lines.len())
}
