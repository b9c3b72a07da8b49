ghost use Rattle.std.specs.Prelude.{◌≡◌, ◌<◌, length, IfOk, OnOk};
ghost use Rattle.cv_pool.specs.Nodes.{ChildBelow};
ghost use Rattle.cv_syntax_trees.specs.Tree.{first as first_child, second};
ghost use Rattle.cv_syntax.specs.PoolTrees.{tree_at};
ghost use Rattle.cv_scope_rules.specs.declared.typing.precedence.Precedence.TheVariants.{First};
ghost use Rattle.cv_scope_rules.specs.typing.Parts.{bound_at as bound, own_sort, sort_by_bound, with_taken};
ghost use Rattle.cv_typing.specs.Tables.{above_of, locals_of, with_body, with_function, with_functions, with_here};
ghost use Rattle.cv_scope_rules.specs.typing.Wants.{bound as with_bound};

use crate::above::bind_all;
use cv_scope_rules::typing::Precedence;
use cv_syntax::children::{first_of, second_of};
use cv_syntax::{Head, NodeId, Pool, read_node};
use cv_syntax_trees::sites::Sort;
use std::alloc::{AllocError, Global};
use std::collections::HashMap;

/// The bound of a function, and the sorts of the names that it binds.
#[derive(Drop)]
pub struct Own {
    bound: u32,
    sorts: HashMap<u32, Sort>,
}

/// What the functions of a side bind, one by one.
#[derive(Drop)]
pub struct Locals {
    functions: Vec<Own>,
}

/// The bound of a function, by the node over what it takes.
fn bound_at(pool: &Pool, taken: Option<NodeId>) -> u32
    requires { ChildBelow (length pool.now.trees) taken }
    ensures { result ≡ bound (tree_at pool.now.trees taken) }
{
    let Some(k) = taken else {
        return 0;
    };
    match read_node(pool, k).head {
        Head::Bound(_, n) => n,
        Head::Single(f) => f,
        _ => 0,
    }
}

/// Notes a name, unless it is there.
fn note(sorts: &mut HashMap<u32, Sort>, x: u32, sort: Sort) -> Result<(), AllocError>
    ensures { OnOk result (above_of sorts.new ≡ with_bound First (above_of sorts.old) x sort) }
{
    if !sorts.contains_key(&x) {
        sorts.insert(x, sort)?;
    }
    Ok(())
}

/// Notes the name that `new` or `let` defines.
fn note_here(sorts: &mut HashMap<u32, Sort>, head: Head) -> Result<(), AllocError>
    ensures { OnOk result (above_of sorts.new ≡ with_here (above_of sorts.old) head) }
{
    match head {
        Head::New(x, t) => note(sorts, x, Sort::OfType(t)),
        Head::Let(x, t) => note(sorts, x, Sort::OfType(t)),
        _ => Ok(()),
    }
}

/// Notes the names that `new` and `let` define in a body.
fn note_body(
    pool: &Pool,
    sorts: &mut HashMap<u32, Sort>,
    body: Option<NodeId>,
) -> Result<(), AllocError>
    requires { ChildBelow (length pool.now.trees) body }
    ensures { OnOk result (above_of sorts.new
        ≡ with_body (above_of sorts.old) (tree_at pool.now.trees body)) }
{
    let mut at = body;
    'body: while let Some(k) = at {
        let node = read_node(pool, k);
        note_here(sorts, node.head)?;
        note_body(pool, sorts, node.first)?;
        at = node.second;
    }
    Ok(())
}

/// Binds what a function takes: the variables that are chosen for it and its arguments, by the node over both.
pub fn bind_taken(
    alloc: Global,
    pool: &Pool,
    above: &mut HashMap<u32, Sort>,
    taken: Option<NodeId>,
) -> Result<(), AllocError>
    requires { ChildBelow (length pool.now.trees) taken }
    ensures { OnOk result (above_of above.new
        ≡ with_taken (above_of above.old) (tree_at pool.now.trees taken)) }
{
    let mut bound = Vec::new(alloc);
    bind_all(
        pool,
        above,
        &mut bound,
        Precedence::Newest,
        false,
        first_of(pool, taken),
    )?;
    bind_all(
        pool,
        above,
        &mut bound,
        Precedence::Newest,
        false,
        second_of(pool, taken),
    )?;
    Ok(())
}

/// The sorts of the names that a function binds.
pub fn own_names(
    alloc: Global,
    pool: &Pool,
    function: Option<NodeId>,
) -> Result<HashMap<u32, Sort>, AllocError>
    requires { ChildBelow (length pool.now.trees) function }
    ensures { IfOk result (λ m. above_of m
        ≡ λ x. own_sort x (first_child (tree_at pool.now.trees function))
        (second (tree_at pool.now.trees function))) }
{
    let mut sorts = HashMap::new(alloc);
    bind_taken(alloc, pool, &mut sorts, first_of(pool, function))?;
    note_body(pool, &mut sorts, second_of(pool, function))?;
    Ok(sorts)
}

impl Locals {
    /// The names of the functions of a list.
    pub fn of(alloc: Global, pool: &Pool, functions: Option<NodeId>) -> Result<Locals, AllocError>
        requires { ChildBelow (length pool.now.trees) functions }
        ensures { IfOk result (λ l. locals_of l
            ≡ sort_by_bound (tree_at pool.now.trees functions)) }
    {
        let mut locals = Locals {
            functions: Vec::new(alloc),
        };
        locals.note_functions(alloc, pool, functions)?;
        Ok(locals)
    }

    /// The sort of a name of the functions with a bound: of the first of these that binds it.
    pub fn sort(&self, bound: u32, x: u32) -> Option<Sort>
        ensures { result ≡ locals_of self.now bound x }
    {
        'functions: for function in self.functions.as_slice() {
            if function.bound == bound {
                if let Some(sort) = function.sorts.get(&x) {
                    return Some(*sort);
                }
            }
        }
        None
    }

    /// Notes the names of a function.
    fn note_function(
        &mut self,
        alloc: Global,
        pool: &Pool,
        function: Option<NodeId>,
    ) -> Result<(), AllocError>
        requires { ChildBelow (length pool.now.trees) function }
        ensures { OnOk result (locals_of self.new
            ≡ with_function (locals_of self.old) (tree_at pool.now.trees function)) }
    {
        let bound = bound_at(pool, first_of(pool, function));
        let sorts = own_names(alloc, pool, function)?;
        self.functions.push(Own { bound, sorts })?;
        Ok(())
    }

    /// Notes the names of the functions of a list.
    fn note_functions(
        &mut self,
        alloc: Global,
        pool: &Pool,
        list: Option<NodeId>,
    ) -> Result<(), AllocError>
        requires { ChildBelow (length pool.now.trees) list }
        ensures { OnOk result (locals_of self.new
            ≡ with_functions (locals_of self.old) (tree_at pool.now.trees list)) }
    {
        let mut at = list;
        'list: while let Some(k) = at {
            let node = read_node(pool, k);
            self.note_function(alloc, pool, node.first)?;
            at = node.second;
        }
        Ok(())
    }
}
