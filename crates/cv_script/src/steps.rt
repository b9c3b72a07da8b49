ghost use Rattle.std.specs.Prelude.{◌≡◌, ◌<◌, ◌++◌, OnOk, IfOk, Some, length};
ghost use Rattle.cv_syntax.specs.PoolTrees.{tree_at};
ghost use Rattle.cv_script.specs.Text as text;

use crate::rows::{STEP, script_rows};
use cv_print_tables::push_phrase;
use cv_syntax::{Names, NodeId, Pool};
use std::alloc::{AllocError, Global};

/// A derivation: the node of its first line, or of none, stands for a list of lines.
#[derive(Clone, Copy, Debug, PartialEq, Eq)]
pub struct Derivation(pub Option<NodeId>);

/// A certificate: why a query holds in a game.
#[derive(Clone, Copy, Debug, PartialEq, Eq)]
pub struct Certificate(pub NodeId);

/// A step of a proof.
#[derive(Clone, Copy, Debug, PartialEq, Eq)]
pub struct Step(pub NodeId);

/// How many levels of derivations a text has at most.
const LEVELS: u32 = 200;

/// The text of a step, without the semicolon behind it. It fails for want of memory alone.
pub fn step_text(
    alloc: Global,
    pool: &Pool,
    names: &Names,
    step: Step,
) -> Result<Vec<u8>, AllocError>
    requires { step.0.0 < length pool.now.trees }
    ensures { IfOk result (λ v. v.items
        ≡ text.step_text names.now (tree_at pool.now.trees (Some step.0))) }
{
    let mut out = Vec::new(alloc);
    push_step(&mut out, pool, names, step)?;
    Ok(out)
}

/// Appends the text of a step. It fails for want of memory alone.
#[tactic(auto, unfolding(crate::specs::Text::step_text))]
pub fn push_step(
    out: &mut Vec<u8>,
    pool: &Pool,
    names: &Names,
    step: Step,
) -> Result<(), AllocError>
    requires { step.0.0 < length pool.now.trees }
    ensures { OnOk result (out.new.items
        ≡ out.old.items ++ text.step_text names.now (tree_at pool.now.trees (Some step.0))) }
{
    push_phrase(
        out,
        pool,
        names,
        &script_rows(),
        STEP as usize,
        Some(step.0),
        LEVELS,
    )
}
