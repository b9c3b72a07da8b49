ghost use Rattle.std.specs.Prelude.{◌≡◌, IfErr, None, OnOk, Some};
ghost use Rattle.cv_syntax.specs.limits.Limits.{limit_fault};

use crate::BuildError;

/// The most syntax nodes of a game.
const MOST_NODES: u32 = 50_000;

/// The most syntax nodes on a path of a game.
const MOST_DEPTH: u32 = 200;

/// How many syntax nodes a tree has, and how many its longest path.
#[derive(Clone, Copy, Debug, PartialEq, Eq)]
pub struct Extent {
    pub nodes: u32,
    pub depth: u32,
}

/// Whether a game of this size is within the limits.
pub fn check_limits(extent: Extent) -> Result<(), BuildError>
    ensures within { OnOk result (limit_fault extent.nodes extent.depth ≡ None) }
    ensures over { IfErr result (λ e. limit_fault extent.nodes extent.depth ≡ Some e) }
{
    if extent.nodes > MOST_NODES {
        return Err(BuildError::Nodes {
            count: extent.nodes,
        });
    }
    if extent.depth > MOST_DEPTH {
        return Err(BuildError::Depth {
            depth: extent.depth,
        });
    }
    Ok(())
}
