ghost use Rattle.std.specs.Prelude.{◌≡◌, ◌+◌, ◌<◌, ◌≤◌, ◌^◌, All, length, IfErr, IfOk, OnErr, OnOk};
ghost use Rattle.cv_pool.specs.Nodes.{ChildBelow};
ghost use Rattle.cv_pool.specs.PoolView.{Grows};
ghost use Rattle.cv_syntax.specs.Postorder.{postorder};
ghost use Rattle.cv_syntax_trees.specs.Tree.{Tree};
ghost use Rattle.cv_syntax.specs.PoolTrees.{tree_at};
ghost use Rattle.cv_script.specs.reader.Scripts.{items, trees_of};
ghost use Rattle.cv_syntax.specs.limits.Limits.{nodes_of};
ghost use Rattle.cv_script.specs.reader.Stages.{Crowds};

use crate::Step;
use crate::reader::ScriptError;
use cv_syntax::{BuildError, Make, NodeId, Pool, plant, read_node};
use std::alloc::{AllocError, Global};

/// How many parts of a tree are too many to be counted.
const TOO_MANY: u64 = 4_294_967_296;

/// The nodes of a list's items. An item that is no node is want of memory.
fn steps_of(alloc: Global, pool: &Pool, list: Option<NodeId>) -> Result<Vec<Step>, AllocError>
    requires { ChildBelow (length pool.now.trees) list }
    ensures trees { IfOk result (λ v. trees_of pool.now.trees v.items
        ≡ items (tree_at pool.now.trees list)) }
    ensures live { IfOk result (λ v. All (λ s. s.0.0 < length pool.now.trees) v.items) }
{
    let mut steps = Vec::new(alloc);
    let mut at = list;
    'items: while let Some(n) = at {
        let node = read_node(pool, n);
        let Some(item) = node.first else {
            return Err(AllocError);
        };
        steps.push(Step(item))?;
        at = node.second;
    }
    Ok(steps)
}

/// Makes the list of a script in the pool, and answers the nodes of its items. Parts that are too many to be
/// counted are want of memory.
pub fn plant_steps(alloc: Global, pool: &mut Pool, makes: &[Make]) -> Result<Vec<Step>, ScriptError>
    ensures steps { (t : Tree) → makes.now ≡ postorder t
        → IfOk result (λ v. trees_of pool.new.trees v.items ≡ items t) }
    ensures live { IfOk result (λ v. All (λ s. s.0.0 < length pool.new.trees) v.items) }
    ensures room { (t : Tree) → makes.now ≡ postorder t
        → OnOk result (length pool.old.trees + nodes_of t ≤ pool.old.limit) }
    ensures crowds { (t : Tree) → makes.now ≡ postorder t
        → IfErr result (λ e. Crowds pool.old.limit (length pool.old.trees) (nodes_of t) e) }
    ensures few { (t : Tree) → makes.now ≡ postorder t
        → OnOk result (length pool.new.trees ≤ length pool.old.trees + nodes_of t) }
    ensures grows { Grows pool.old pool.new }
    ensures kept { OnErr result (pool.new.trees ≡ pool.old.trees) }
{
    if makes.len() as u64 >= TOO_MANY {
        return Err(ScriptError::Build(BuildError::OutOfMemory));
    }
    let before = pool.mark();
    let mut roots = plant(alloc, pool, makes)?;
    if let Some(root) = roots.pop() {
        if let Ok(steps) = steps_of(alloc, pool, root) {
            return Ok(steps);
        }
    }
    pool.release(before);
    Err(ScriptError::Build(BuildError::OutOfMemory))
}
