ghost use Rattle.std.specs.Prelude.{◌≡◌, ◌<◌, ◌≤◌, List, length};
ghost use Rattle.cv_pool.specs.KindTree.{KindTree};
ghost use Rattle.cv_pool.specs.Nodes.{ChildBelow};
ghost use Rattle.cv_syntax.specs.PoolTrees.{tree_at};
ghost use Rattle.cv_directory.specs.Tables.{entries_in};
ghost use Rattle.cv_scene.specs.Sights.{variable_of};
ghost use Rattle.cv_derive_reasons.specs.cells.Only.{only_place, replications_by};

use arrayvec::ArrayVec;
use cv_directory::Directory;
use cv_syntax::children::read_child;
use cv_syntax::{Head, NodeId, Pool};

/// The variable of a cell.
pub fn variable(pool: &Pool, cell: Option<NodeId>) -> Option<u32>
    requires { ChildBelow (length pool.now.trees) cell }
    ensures { result ≡ variable_of (tree_at pool.now.trees cell) }
{
    let node = read_child(pool, cell)?;
    match node.head {
        Head::Leaf(x) => Some(x),
        Head::Read(x) => Some(x),
        _ => None,
    }
}

/// The place of the only definition of a variable: nothing where there is none, or a second one.
pub fn only_definition(directory: &Directory, x: u32) -> Option<u32>
    ensures { (trees : List KindTree) → result ≡ only_place (entries_in trees directory.now) x }
{
    if directory.count(x) != 1 {
        return None;
    }
    directory.place(x)
}

/// The replications above the first definition of a variable, where there are at most eight.
pub fn replications_of(directory: &Directory, x: u32) -> ArrayVec<(u32, u32), 8>
    ensures { (trees : List KindTree)
        → length (replications_by ((entries_in trees directory.now).first x)) ≤ 8
        → result.items ≡ replications_by ((entries_in trees directory.now).first x) }
{
    let mut found = ArrayVec::new();
    'indices: for k in 0..8 {
        let Some(replication) = directory.replication(x, k) else {
            return found;
        };
        found.push(replication);
    }
    found
}
