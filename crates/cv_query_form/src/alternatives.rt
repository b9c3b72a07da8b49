ghost use Rattle.std.specs.Prelude.{◌≡◌, ◌≤◌, length, min};
ghost use Rattle.cv_pool.specs.Nodes.{ChildBelow};
ghost use Rattle.cv_syntax.specs.PoolTrees.{tree_at};
ghost use Rattle.cv_query_form.specs.Held as specs;
ghost use Rattle.cv_query_form.specs.Tests as test;

use cv_syntax::{Head, NodeId, Pool, read_node};

/// The most alternatives that a right side may have.
const MOST: u32 = 64;

/// Whether a node of a right side has two parts, and is no atom.
pub fn has_parts(head: Head) -> bool
    ensures { result ≡ specs.has_parts head }
{
    matches!(head, Head::Cons | Head::SomeOf)
}

/// How many alternatives stand apart from the second part's.
fn apart_after(head: Head, apart: u32, first: u32) -> u32
    requires apart { apart ≤ 64 }
    requires first { first ≤ 4160 }
    ensures { result ≡ specs.apart_after head apart first }
{
    match head {
        Head::SomeOf => apart + first,
        _ => apart,
    }
}

/// How many alternatives each of the second part's stands for.
fn each_after(head: Head, each: u32, first: u32) -> u32
    ensures { result ≡ specs.each_after head each first }
{
    match head {
        Head::SomeOf => each,
        _ => first,
    }
}

/// How many alternatives a right side has, or one more than it may where there are too many. Lists none.
fn count(pool: &Pool, right: Option<NodeId>) -> u32
    requires { ChildBelow (length pool.now.trees) right }
    ensures { result ≡ min (test.count_of (tree_at pool.now.trees right)) 65 }
{
    let mut apart = 0;
    let mut each = 1;
    let mut at = right;
    'parts: while let Some(k) = at {
        let node = read_node(pool, k);
        if !has_parts(node.head) {
            return apart + each;
        }
        let first = each * count(pool, node.first);
        apart = apart_after(node.head, apart, first);
        each = each_after(node.head, each, first);
        if apart + each > MOST {
            return MOST + 1;
        }
        at = node.second;
    }
    apart + each
}

/// Whether a right side has no more alternatives than it may.
pub fn has_few_alternatives(pool: &Pool, right: Option<NodeId>) -> bool
    requires { ChildBelow (length pool.now.trees) right }
    ensures { result ≡ test.has_few_alternatives (tree_at pool.now.trees right) }
{
    count(pool, right) <= MOST
}
