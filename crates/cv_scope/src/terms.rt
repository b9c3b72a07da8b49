ghost use Rattle.std.specs.Prelude.{◌≡◌, ◌<◌, length};
ghost use Rattle.cv_pool.specs.Nodes.{ChildBelow};
ghost use Rattle.cv_syntax.specs.PoolTrees.{tree_at};
ghost use Rattle.cv_scope_rules.specs.Rules.{carries as are_carried, is_index as is_index_of};
ghost use Rattle.cv_scope.specs.Seen.{current as current_of};
ghost use Rattle.cv_scope_rules.specs.Rules.{is_name as is_name_of};

use cv_syntax::children::is_leaf;
use cv_syntax::{Head, NodeId, Pool, read_node};

/// Whether a name is the index of one of these replications.
pub fn is_index(replications: &[(u32, u32)], x: u32) -> bool
    ensures { result ≡ is_index_of replications.now x }
{
    replications.iter().any(|r| r.0 == x)
}

/// How many indices a list of terms has, where they are the first of the current ones.
#[tactic(auto, using(crate::proofs::Comparing::term_laws))]
pub fn current(pool: &Pool, replications: &[(u32, u32)], list: Option<NodeId>) -> Option<usize>
    requires { ChildBelow (length pool.now.trees) list }
    ensures { result ≡ current_of replications.now (tree_at pool.now.trees list) }
{
    let mut count = 0;
    let mut at = list;
    'list: while let Some(k) = at {
        let cell = read_node(pool, k);
        let replication = replications.get(count)?;
        if !matches!(cell.head, Head::Cons) || !is_leaf(pool, replication.0, cell.first) {
            return None;
        }
        count += 1;
        at = cell.second;
    }
    Some(count)
}

/// Whether a list of names has exactly the current indices.
#[tactic(auto, using(crate::proofs::Comparing::term_laws))]
pub fn carries(pool: &Pool, replications: &[(u32, u32)], list: Option<NodeId>) -> bool
    requires { ChildBelow (length pool.now.trees) list }
    ensures { result ≡ are_carried replications.now (tree_at pool.now.trees list) }
{
    let mut count = 0;
    let mut at = list;
    'list: while let Some(k) = at {
        let name = read_node(pool, k);
        let Some(replication) = replications.get(count) else {
            return false;
        };
        if !is_name(name.head, replication.0) {
            return false;
        }
        count += 1;
        at = name.second;
    }
    count == replications.len()
}

/// Whether a head is this name.
fn is_name(head: Head, x: u32) -> bool
    ensures { result ≡ is_name_of x head }
{
    match head {
        Head::Name(y) => x == y,
        _ => false,
    }
}
