ghost use Rattle.std.specs.Prelude.{◌≡◌, ◌++◌, IfOk, length};
ghost use Rattle.cv_pool.specs.Nodes.{ChildBelow};
ghost use Rattle.cv_syntax.specs.PoolTrees.{tree_at};
ghost use Rattle.cv_meaning.specs.Candidates.{below};
ghost use Rattle.cv_inline_draws.specs.taken_names.Taken.{names_at, names_in, taken_names};

use cv_syntax::{Head, NodeId, Pool, read_node};
use std::alloc::{AllocError, Global};

/// The names of a file that has so many.
fn file_names(alloc: Global, own: u32) -> Result<Vec<u32>, AllocError>
    ensures { IfOk result (λ names. names.items ≡ below own) }
{
    let mut names = Vec::new(alloc);
    for name in 0..own {
        names.push(name)?;
    }
    Ok(names)
}

/// Adds the name of a node's variable or index, if it has one.
fn add_name(names: &mut Vec<u32>, head: Head) -> Result<(), AllocError>
    ensures { IfOk result (λ _. names.new.items ≡ names.old.items ++ names_at head) }
{
    match head {
        Head::Repl(x, _)
        | Head::New(x, _)
        | Head::Let(x, _)
        | Head::Binder(x, _)
        | Head::Call(x, _)
        | Head::Name(x)
        | Head::Leaf(x)
        | Head::Read(x)
        | Head::Key(x) => names.push(x)?,
        _ => (),
    }
    Ok(())
}

/// Adds the names of a tree.
fn add_names(pool: &Pool, names: &mut Vec<u32>, tree: Option<NodeId>) -> Result<(), AllocError>
    requires { ChildBelow (length pool.now.trees) tree }
    ensures { IfOk result (λ _.
        names.new.items ≡ names.old.items ++ names_in (tree_at pool.now.trees tree)) }
{
    let mut at = tree;
    'nodes: while let Some(n) = at {
        let node = read_node(pool, n);
        add_name(names, node.head)?;
        add_names(pool, names, node.first)?;
        at = node.second;
    }
    Ok(())
}

/// The names of a file, which are the first ones, and then those of a game in the order of its text. A name
/// stands there as often as in the text.
pub fn taken_names(
    alloc: Global,
    pool: &Pool,
    own: u32,
    game: Option<NodeId>,
) -> Result<Vec<u32>, AllocError>
    requires { ChildBelow (length pool.now.trees) game }
    ensures { IfOk result (λ names. names.items ≡ taken_names own (tree_at pool.now.trees game)) }
{
    let mut names = file_names(alloc, own)?;
    add_names(pool, &mut names, game)?;
    Ok(names)
}
