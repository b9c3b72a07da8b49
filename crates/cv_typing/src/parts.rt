ghost use Rattle.std.specs.Prelude.{◌≡◌, ◌<◌, ◌+◌, ◌^◌, ◌∷◌, [], drop, length, IfOk, Some};
ghost use Rattle.cv_pool.specs.Nodes.{ChildBelow};
ghost use Rattle.cv_syntax.specs.Declarations.{declarations, declared};
ghost use Rattle.cv_syntax.specs.PoolTrees.{tree_at};
ghost use Rattle.cv_typing.specs.Lookups.{HasLiveArguments, signature_in};
ghost use Rattle.cv_directory.specs.Live.{IsLive};
ghost use Rattle.cv_scope_rules.specs.typing.Parts.{body_parts, declaration_parts, equation_part, equivalence_parts, first_result, local_names, names_of, query_part, results, side_arrays};
ghost use Rattle.cv_scope_rules.specs.typing.Refusals.{IsChecked, parts_size};
ghost use Rattle.cv_typing.specs.Tables.{above_of, arrays_of};

use crate::above::bind_all;
use crate::arrays::Arrays;
use crate::locals::{Locals, bind_taken};
use crate::terms::sort_of_term;
use crate::walk::walk;
use cv_scope_rules::typing::{Form, Precedence, TypeFault, Want};
use cv_syntax::children::{first_of, second_of};
use cv_syntax::{Decl, Decls, NodeId, Pool, read_node};
use cv_syntax_trees::sites::Sort;
use std::alloc::{AllocError, Global};
use std::collections::HashMap;

/// The variables of an equation or a query.
fn bind_locals(
    alloc: Global,
    pool: &Pool,
    binders: Option<NodeId>,
) -> Result<HashMap<u32, Sort>, AllocError>
    requires { ChildBelow (length pool.now.trees) binders }
    ensures { IfOk result (λ m. above_of m ≡ local_names (tree_at pool.now.trees binders)) }
{
    let mut above = HashMap::new(alloc);
    let mut bound = Vec::new(alloc);
    bind_all(
        pool,
        &mut above,
        &mut bound,
        Precedence::First,
        false,
        binders,
    )?;
    Ok(above)
}

/// The names of the key and of a function, by the node over what it takes.
fn bind_function(
    alloc: Global,
    pool: &Pool,
    key: Option<NodeId>,
    taken: Option<NodeId>,
) -> Result<HashMap<u32, Sort>, AllocError>
    requires key { ChildBelow (length pool.now.trees) key }
    requires taken { ChildBelow (length pool.now.trees) taken }
    ensures { IfOk result (λ m. above_of m
        ≡ names_of (tree_at pool.now.trees key) (tree_at pool.now.trees taken)) }
{
    let mut above = HashMap::new(alloc);
    let mut bound = Vec::new(alloc);
    bind_all(pool, &mut above, &mut bound, Precedence::Newest, false, key)?;
    bind_taken(alloc, pool, &mut above, taken)?;
    Ok(above)
}

/// Checks an equation.
fn check_equation(
    alloc: Global,
    pool: &Pool,
    decls: &Decls,
    from: u32,
    tree: NodeId,
) -> Result<u32, TypeFault>
    requires live { tree.0 < length pool.now.trees }
    requires arguments { HasLiveArguments (length pool.now.trees) decls.now.list }
    requires fits { from + parts_size (equation_part (tree_at pool.now.trees (Some tree)) ∷ [])
        < 2 ^ 32 }
    ensures { IsChecked (declarations pool.now.trees decls.now.list) from
        (equation_part (tree_at pool.now.trees (Some tree)) ∷ []) result }
{
    let node = read_node(pool, tree);
    let mut above = bind_locals(alloc, pool, node.first)?;
    let arrays = Arrays::OfNothing;
    let want = Want::Of(Sort::OfType(0));
    walk(
        alloc,
        pool,
        decls,
        &arrays,
        &mut above,
        want,
        from,
        node.second,
    )
}

/// Checks a query.
fn check_query(
    alloc: Global,
    pool: &Pool,
    decls: &Decls,
    from: u32,
    tree: NodeId,
) -> Result<u32, TypeFault>
    requires live { tree.0 < length pool.now.trees }
    requires arguments { HasLiveArguments (length pool.now.trees) decls.now.list }
    requires fits { from + parts_size (query_part (tree_at pool.now.trees (Some tree)) ∷ [])
        < 2 ^ 32 }
    ensures { IsChecked (declarations pool.now.trees decls.now.list) from
        (query_part (tree_at pool.now.trees (Some tree)) ∷ []) result }
{
    let node = read_node(pool, tree);
    let mut above = bind_locals(alloc, pool, node.first)?;
    let arrays = Arrays::OfNothing;
    let want = Want::Correspondence;
    walk(
        alloc,
        pool,
        decls,
        &arrays,
        &mut above,
        want,
        from,
        Some(tree),
    )
}

/// The arrays of a side of an equivalence.
fn arrays_of_side(alloc: Global, pool: &Pool, group: Option<NodeId>) -> Result<Arrays, AllocError>
    requires { ChildBelow (length pool.now.trees) group }
    ensures { IfOk result (λ r. arrays_of r ≡ side_arrays (tree_at pool.now.trees group)) }
{
    let locals = Locals::of(alloc, pool, second_of(pool, group))?;
    Ok(Arrays::OfSide(locals, HashMap::new(alloc)))
}

/// The sort that the result of a function is to have, by its place.
fn result_at(sorts: &[Option<Sort>], k: usize) -> Option<Sort>
    ensures { result ≡ first_result (drop k sorts.now) }
{
    match sorts.get(k) {
        Some(sort) => *sort,
        None => None,
    }
}

/// The sorts of the results of functions, where they are terms.
fn results_of(
    alloc: Global,
    pool: &Pool,
    decls: &Decls,
    arrays: &Arrays,
    key: Option<NodeId>,
    functions: Option<NodeId>,
) -> Result<Vec<Option<Sort>>, AllocError>
    requires key { ChildBelow (length pool.now.trees) key }
    requires functions { ChildBelow (length pool.now.trees) functions }
    ensures { IfOk result (λ v. v.items
        ≡ results (signature_in pool.now.trees decls.now.list arrays.now)
        (tree_at pool.now.trees key) (tree_at pool.now.trees functions)) }
{
    let mut sorts = Vec::new(alloc);
    let mut at = functions;
    'list: while let Some(k) = at {
        let node = read_node(pool, k);
        let above = bind_function(alloc, pool, key, first_of(pool, node.first))?;
        let body = second_of(pool, node.first);
        sorts.push(sort_of_term(pool, decls, arrays, &above, body))?;
        at = node.second;
    }
    Ok(sorts)
}

/// Checks the bodies of functions, whose results are to have these sorts.
fn check_bodies(
    alloc: Global,
    pool: &Pool,
    decls: &Decls,
    arrays: &mut Arrays,
    sorts: &[Option<Sort>],
    from: u32,
    key: Option<NodeId>,
    functions: Option<NodeId>,
) -> Result<u32, TypeFault>
    requires key { ChildBelow (length pool.now.trees) key }
    requires functions { ChildBelow (length pool.now.trees) functions }
    requires arguments { HasLiveArguments (length pool.now.trees) decls.now.list }
    requires fits { from + parts_size
        (body_parts (arrays_of arrays.old) (tree_at pool.now.trees key) sorts.now
        (tree_at pool.now.trees functions)) < 2 ^ 32 }
    ensures { IsChecked (declarations pool.now.trees decls.now.list) from
        (body_parts (arrays_of arrays.old) (tree_at pool.now.trees key) sorts.now
        (tree_at pool.now.trees functions)) result }
{
    let mut place = from;
    let mut n = 0;
    let mut at = functions;
    'list: while let Some(k) = at {
        let node = read_node(pool, k);
        let mut above = bind_function(alloc, pool, key, first_of(pool, node.first))?;
        arrays.enter(alloc, pool, node.first)?;
        let want = Want::Run(Form::InBody(result_at(sorts, n)));
        let body = second_of(pool, node.first);
        place = walk(alloc, pool, decls, arrays, &mut above, want, place, body)?;
        n += 1;
        at = node.second;
    }
    Ok(place)
}

/// Checks an equivalence: on the right the results have the sorts that those on the left have.
fn check_equivalence(
    alloc: Global,
    pool: &Pool,
    decls: &Decls,
    from: u32,
    tree: NodeId,
) -> Result<u32, TypeFault>
    requires live { tree.0 < length pool.now.trees }
    requires arguments { HasLiveArguments (length pool.now.trees) decls.now.list }
    requires fits { from + parts_size
        (equivalence_parts (declarations pool.now.trees decls.now.list)
        (tree_at pool.now.trees (Some tree))) < 2 ^ 32 }
    ensures { IsChecked (declarations pool.now.trees decls.now.list) from
        (equivalence_parts (declarations pool.now.trees decls.now.list)
        (tree_at pool.now.trees (Some tree))) result }
{
    let node = read_node(pool, tree);
    let key = first_of(pool, node.first);
    let functions = second_of(pool, node.first);
    let mut left = arrays_of_side(alloc, pool, node.first)?;
    let mut right = arrays_of_side(alloc, pool, node.second)?;
    let none = Vec::new(alloc);
    let sorts = results_of(alloc, pool, decls, &left, key, functions)?;
    let middle = check_bodies(
        alloc,
        pool,
        decls,
        &mut left,
        none.as_slice(),
        from,
        key,
        functions,
    )?;
    let other_key = first_of(pool, node.second);
    let others = second_of(pool, node.second);
    check_bodies(
        alloc,
        pool,
        decls,
        &mut right,
        sorts.as_slice(),
        middle,
        other_key,
        others,
    )
}

/// Checks the terms of a declaration.
pub fn check_declaration(
    alloc: Global,
    pool: &Pool,
    decls: &Decls,
    from: u32,
    decl: Decl,
) -> Result<u32, TypeFault>
    requires live { IsLive (length pool.now.trees) decl }
    requires arguments { HasLiveArguments (length pool.now.trees) decls.now.list }
    requires fits { from + parts_size
        (declaration_parts (declarations pool.now.trees decls.now.list)
        (declared pool.now.trees decl)) < 2 ^ 32 }
    ensures { IsChecked (declarations pool.now.trees decls.now.list) from
        (declaration_parts (declarations pool.now.trees decls.now.list)
        (declared pool.now.trees decl)) result }
{
    match decl {
        Decl::Name { .. } => Ok(from),
        Decl::Equation(tree) => check_equation(alloc, pool, decls, from, tree),
        Decl::Equiv { tree, .. } => check_equivalence(alloc, pool, decls, from, tree),
        Decl::Query(tree) => check_query(alloc, pool, decls, from, tree),
    }
}
