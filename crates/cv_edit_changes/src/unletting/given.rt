ghost use Rattle.std.specs.Prelude.{◌≡◌, ◌<◌, IfSome, length, option_map};
ghost use Rattle.cv_pool.specs.Nodes.{ChildBelow};
ghost use Rattle.cv_syntax.specs.PoolTrees.{tree_at};
ghost use Rattle.cv_scene.specs.lines.Given as given;
ghost use Rattle.cv_edit_changes.specs.unletting.Assigned.{names_above};

use cv_directory::Directory;
use cv_syntax::{Head, NodeId, Pool, read_node};

/// A term that is given for an index.
#[derive(Clone, Copy)]
pub(crate) struct Put {
    pub(crate) term: Option<NodeId>,
}

/// The term that is given for a name, where it is the index of a replication above the definition of a variable.
fn term_for(
    pool: &Pool,
    directory: &Directory,
    x: u32,
    terms: Option<NodeId>,
    name: u32,
) -> Option<Put>
    requires { ChildBelow (length pool.now.trees) terms }
    ensures tree { option_map (λ g. tree_at pool.now.trees g.term) result
        ≡ given.term_for (names_above pool.now.trees directory.now x) (tree_at pool.now.trees terms) name }
    ensures live { IfSome result (λ g. ChildBelow (length pool.now.trees) g.term) }
{
    let mut k: usize = 0;
    let mut at = terms;
    'terms: while let Some(n) = at {
        let Some(replication) = directory.replication(x, k) else {
            return None;
        };
        let node = read_node(pool, n);
        if replication.0 == name {
            return Some(Put { term: node.first });
        }
        k += 1;
        at = node.second;
    }
    None
}

/// The term that is given for a node, where it is the index of a replication above the definition of a variable.
pub(crate) fn given_for(
    pool: &Pool,
    directory: &Directory,
    x: u32,
    terms: Option<NodeId>,
    head: Head,
) -> Option<Put>
    requires { ChildBelow (length pool.now.trees) terms }
    ensures tree { option_map (λ g. tree_at pool.now.trees g.term) result
        ≡ given.given_for (names_above pool.now.trees directory.now x) (tree_at pool.now.trees terms) head }
    ensures live { IfSome result (λ g. ChildBelow (length pool.now.trees) g.term) }
{
    match head {
        Head::Leaf(name) => term_for(pool, directory, x, terms, name),
        _ => None,
    }
}
