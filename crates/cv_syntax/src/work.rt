ghost use Rattle.std.specs.Prelude.{◌≡◌, []};

use crate::decls::Decls;
use cv_pool::names::Names;
use cv_pool::{NodeId, Pool};
use std::alloc::Global;

/// What most calls work on: nodes, names and declarations.
#[derive(Drop)]
pub struct Work {
    pub pool: Pool,
    pub names: Names,
    pub decls: Decls,
}

impl Work {
    /// Nothing, with room for so many nodes.
    pub fn new(alloc: Global, limit: u32) -> Work
        ensures pool { result.pool ≡ record { trees = []; limit = limit; spare = 0 } }
        ensures names { result.names ≡ [] }
        ensures decls { result.decls ≡ record { list = []; own = 0 } }
    {
        Work {
            pool: Pool::new(alloc, limit),
            names: Names::new(alloc),
            decls: Decls::new(alloc),
        }
    }
}

/// A game, by the node of its process.
#[derive(Clone, Copy, Debug, PartialEq, Eq)]
pub struct Game {
    pub root: NodeId,
}

/// What a file holds: a game, and the range of the tokens of its proof.
#[derive(Clone, Copy, Debug, PartialEq, Eq)]
pub struct File {
    pub game: Game,
    pub script: Option<(u32, u32)>,
}

/// Why a game is not built.
#[derive(Clone, Copy, Debug, PartialEq, Eq)]
pub enum BuildError {
    /// The pool has no room for so many nodes more.
    Full { need: u32 },
    /// The game would have so many syntax nodes.
    Nodes { count: u32 },
    /// The game would be so deep.
    Depth { depth: u32 },
    OutOfMemory,
}
