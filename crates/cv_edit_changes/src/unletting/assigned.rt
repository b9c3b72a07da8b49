ghost use Rattle.std.specs.Prelude.{◌≡◌, ◌≤◌, ◌<◌, ◌^◌, IfSome, Some, length};
ghost use Rattle.cv_pool.specs.Nodes.{ChildBelow};
ghost use Rattle.cv_syntax_trees.specs.Tree.{size};
ghost use Rattle.cv_syntax.specs.PoolTrees.{tree_at};
ghost use Rattle.cv_steps.specs.Unletting as unletting;
ghost use Rattle.cv_edit_changes.specs.unletting.Assigned.{IsAssigned, IsRead};

use cv_derive_reasons::cells::only_definition;
use cv_directory::Directory;
use cv_path::at;
use cv_syntax::{Head, NodeId, Pool, read_node};

/// The term of a `let`.
#[derive(Clone, Copy, Debug)]
pub struct Assigned {
    pub term: Option<NodeId>,
}

/// What the only definition of a variable assigns, where it is a `let`.
pub fn only_assignment(pool: &Pool, game: NodeId, directory: &Directory, x: u32) -> Option<Assigned>
    requires live { game.0 < length pool.now.trees }
    requires fits { size (tree_at pool.now.trees (Some game)) < 2 ^ 32 }
    requires read { IsRead pool.now.trees (tree_at pool.now.trees (Some game)) directory.now }
    ensures assigned { IsAssigned pool.now.trees directory.now x result
        (unletting.only_assignment (tree_at pool.now.trees (Some game)) x) }
    ensures live { IfSome result (λ a. ChildBelow (length pool.now.trees) a.term) }
    ensures small { IfSome result (λ a. size (tree_at pool.now.trees a.term)
        ≤ size (tree_at pool.now.trees (Some game))) }
{
    let place = only_definition(directory, x)?;
    let found = at(pool, game, place)?;
    let node = read_node(pool, found);
    match node.head {
        Head::Let(_, _) => Some(Assigned { term: node.first }),
        _ => None,
    }
}
