ghost use Rattle.std.specs.Prelude.{◌≡◌, ◌+◌, ◌*◌, ◌<◌, ◌≤◌, ◌^◌, ◌++◌, ◌==◌, ℕ, List, All, IfOk, length, nat_eq};
ghost use Rattle.std.specs.List.{list_any};
ghost use Rattle.std.specs.HashSet.{contains};
ghost use Rattle.cv_pool.specs.Nodes.{ChildBelow};
ghost use Rattle.cv_syntax.specs.PoolTrees.{tree_at};
ghost use Rattle.cv_inline.specs.Draws.{labels_from, labels_in, least_free};
ghost use Rattle.cv_inline_draws.specs.names.Labels.{label_of};
ghost use Rattle.cv_inline_draws.specs.names.Texts.{is_listed};

use cv_syntax::{Head, NodeId, Pool, read_node};
use std::alloc::{AllocError, Global};
use std::collections::HashSet;

/// Adds the label of a node, if it has one.
fn add_label(labels: &mut Vec<u64>, head: Head) -> Result<(), AllocError>
    ensures { IfOk result (λ _. labels.new.items ≡ labels.old.items ++ label_of head) }
{
    if let Head::Find(label) = head {
        labels.push(label)?;
    }
    Ok(())
}

/// Adds the labels of a tree.
fn add_labels(pool: &Pool, labels: &mut Vec<u64>, tree: Option<NodeId>) -> Result<(), AllocError>
    requires { ChildBelow (length pool.now.trees) tree }
    ensures { IfOk result (λ _.
        labels.new.items ≡ labels.old.items ++ labels_in (tree_at pool.now.trees tree)) }
{
    let mut at = tree;
    'nodes: while let Some(n) = at {
        let node = read_node(pool, n);
        add_label(labels, node.head)?;
        add_labels(pool, labels, node.first)?;
        at = node.second;
    }
    Ok(())
}

/// The labels of a game, in the order of its text.
pub fn labels_in(alloc: Global, pool: &Pool, game: Option<NodeId>) -> Result<Vec<u64>, AllocError>
    requires { ChildBelow (length pool.now.trees) game }
    ensures { IfOk result (λ labels. labels.items ≡ labels_in (tree_at pool.now.trees game)) }
{
    let mut labels = Vec::new(alloc);
    add_labels(pool, &mut labels, game)?;
    Ok(labels)
}

/// The set of labels of a list.
fn set_of(alloc: Global, labels: &[u64]) -> Result<HashSet<u64>, AllocError>
    ensures { IfOk result (λ set. (l : ℕ) → contains nat_eq set l ≡ is_listed labels.now l) }
{
    let mut set = HashSet::new(alloc);
    for label in labels {
        set.insert(*label)?;
    }
    Ok(set)
}

/// The least label from one on that isn't in the set, which has so many.
fn free_label(taken: &HashSet<u64>, tries: usize, from: u64) -> u64
    requires { from + tries < 2 ^ 64 }
    ensures label { result ≡ least_free (contains nat_eq taken.now) tries from }
    ensures few { result ≤ from + tries }
{
    let mut label = from;
    'tries: for _ in 0..tries {
        if !taken.contains(&label) {
            return label;
        }
        label += 1;
    }
    label
}

/// So many labels, the least ones that are none of these.
pub fn draw_labels(alloc: Global, taken: &[u64], count: usize) -> Result<Vec<u64>, AllocError>
    requires { length taken.now + count < 2 ^ 32 }
    ensures { (finds : List (ℕ × ℕ)) → length finds ≡ count
        → IfOk result (λ labels. labels.items ≡ labels_from taken.now 1 finds) }
{
    let set = set_of(alloc, taken)?;
    let mut labels = Vec::new(alloc);
    let mut from = 1;
    'draws: for _ in 0..count {
        let label = free_label(&set, taken.len(), from);
        labels.push(label)?;
        from = label + 1;
    }
    Ok(labels)
}
