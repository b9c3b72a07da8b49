ghost use Rattle.std.specs.Prelude.{◌≡◌, ◌||◌, IfOk, OnOk, length};
ghost use Rattle.cv_pool.specs.Nodes.{ChildBelow};
ghost use Rattle.cv_syntax_trees.specs.Head.{same_head};
ghost use Rattle.cv_syntax.specs.PoolTrees.{tree_at};
ghost use Rattle.cv_syntax_trees.specs.declared.head.Head as heading;
ghost use Rattle.cv_meaning.specs.contexts.Groups.{function_of, functions_of};
ghost use Rattle.cv_match_terms.specs.heads.Beginnings as heads;
ghost use Rattle.cv_match_terms.specs.heads.Beginnings.{AreHeadsOf, begins, may_begin};

use cv_syntax::children::second_of;
use cv_syntax::{Code, Head, NodeId, Pool, read_node};
use std::alloc::{AllocError, Global};

/// What the bodies of functions begin with, for a test before any body is compared with a term.
#[derive(Drop)]
pub struct Heads {
    codes: Vec<Code>,
    /// Some body is a name or nothing.
    any: bool,
}

/// Whether two heads are one.
pub fn is_head(head: Head, other: Head) -> bool
    ensures { result ≡ same_head head other }
{
    head.code() == other.code()
}

/// Whether a list has a code.
fn has_code(codes: &[Code], code: Code) -> bool
    ensures { result ≡ heads.has_code code codes.now }
{
    for other in codes {
        if *other == code {
            return true;
        }
    }
    false
}

/// The code of a body's node, unless the body is a name or nothing.
#[tactic(auto, using(crate::proofs::heads::Beginnings::beginnings))]
fn code_of(pool: &Pool, body: Option<NodeId>) -> Option<Code>
    requires { ChildBelow (length pool.now.trees) body }
    ensures { result ≡ heads.code_of (tree_at pool.now.trees body) }
{
    let head = read_node(pool, body?).head;
    match head {
        Head::Leaf(_) => None,
        _ => Some(head.code()),
    }
}

impl Heads {
    /// Notes what the body of a function begins with.
    fn note(&mut self, pool: &Pool, f: Option<NodeId>) -> Result<(), AllocError>
        requires { ChildBelow (length pool.now.trees) f }
        ensures { OnOk result ((k : heading.Head) → may_begin self.new k
            ≡ (may_begin self.old k || begins k (function_of (tree_at pool.now.trees f)))) }
    {
        match code_of(pool, second_of(pool, f)) {
            Some(code) => {
                self.codes.push(code)?;
                Ok(())
            }
            None => {
                self.any = true;
                Ok(())
            }
        }
    }

    /// What the bodies of a list of functions begin with.
    pub fn of(alloc: Global, pool: &Pool, functions: Option<NodeId>) -> Result<Heads, AllocError>
        requires { ChildBelow (length pool.now.trees) functions }
        ensures { IfOk result
            (AreHeadsOf (functions_of (tree_at pool.now.trees functions))) }
    {
        let mut heads = Heads {
            codes: Vec::new(alloc),
            any: false,
        };
        let mut at = functions;
        'functions: while let Some(n) = at {
            let node = read_node(pool, n);
            heads.note(pool, node.first)?;
            at = node.second;
        }
        Ok(heads)
    }

    /// Whether a term with a head may be an instance of one of the functions.
    pub fn may_begin(&self, head: Head) -> bool
        ensures { result ≡ may_begin self.now head }
    {
        self.any || has_code(self.codes.as_slice(), head.code())
    }
}
