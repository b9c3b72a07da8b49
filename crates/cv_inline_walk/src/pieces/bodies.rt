ghost use Rattle.std.specs.Prelude.{◌≡◌, ◌∷◌, All, IfOk, length, map};
ghost use Rattle.cv_syntax_trees.specs.declared.head.Head.TheVariants as head;
ghost use Rattle.cv_syntax.specs.Postorder.{joined};
ghost use Rattle.cv_meaning.specs.contexts.Inlined.{Own};
ghost use Rattle.cv_inline.specs.terms.Drawings.{drawn_in};
ghost use Rattle.cv_inline_sites.specs.listing.Callings.{IsLiveCalling};
ghost use Rattle.cv_inline_sites.specs.listing.Subtrees.{IsNodeAt, IsWithin};
ghost use Rattle.cv_inline_walk.specs.pieces.Calls.{body_in, branch_in, find_in};
ghost use Rattle.cv_inline_walk.specs.pieces.Choices.{IsChoice, onto};
ghost use Rattle.cv_inline_sites.specs.pairs.Scopes.{scope_at};
ghost use Rattle.cv_inline_walk.specs.pieces.Pieces.{Adds};

use crate::pieces::choices::{Choice, choices};
use crate::pieces::kinds::{
    add_front, add_result, add_term, end_branch, end_if, end_list, nothing, put,
};
use crate::pieces::piece::Piece;
use cv_inline::terms::{Caller, Calling, Drawing, Entry, Standing};
use cv_inline_sites::listing::{Parent, Subtree, node_at};
use cv_inline_sites::pairs::{branch_scope, with_name};
use cv_syntax::{Head, Pool};
use std::alloc::{AllocError, Global};

/// Adds the body under a name that is bound, and the node that binds it.
#[cycle(body)]
fn bound_body(
    alloc: Global,
    pool: &Pool,
    drawn: &Drawing,
    callings: &[Calling],
    caller: &Caller,
    scope: &[Entry],
    name: u32,
    root: Subtree,
    head: Head,
    pieces: &mut Vec<Piece>,
) -> Result<(), AllocError>
    requires callings { All (IsLiveCalling pool.now.trees) callings.now }
    requires root { IsWithin pool.now.trees root }
    ensures { IfOk result (λ _. Adds pool.now.trees (drawn_in drawn.now) callings.now caller.now
        pieces.old.items pieces.new.items (λ k ts. joined head (body_in pool.now.trees
        (drawn_in drawn.now) callings.now caller.now ((name, Own) ∷ scope_at caller.now scope.now)
        root k ∷ ts))) }
{
    let inner = with_name(alloc, scope, name, Standing::Own)?;
    let below = inner.as_slice();
    body(alloc, pool, drawn, callings, caller, below, root, pieces)?;
    put(pieces, head)
}

/// Adds an `if`; without two bodies it is a result.
#[cycle(body)]
fn if_body(
    alloc: Global,
    pool: &Pool,
    drawn: &Drawing,
    callings: &[Calling],
    caller: &Caller,
    scope: &[Entry],
    root: Subtree,
    node: Parent,
    pieces: &mut Vec<Piece>,
) -> Result<(), AllocError>
    requires callings { All (IsLiveCalling pool.now.trees) callings.now }
    requires root { IsWithin pool.now.trees root }
    requires node { IsNodeAt pool.now.trees root node }
    requires head { node.head ≡ head.If }
    ensures { IfOk result (λ _. Adds pool.now.trees (drawn_in drawn.now) callings.now caller.now
        pieces.old.items pieces.new.items (λ k ts. body_in pool.now.trees (drawn_in drawn.now)
        callings.now caller.now (scope_at caller.now scope.now) root k ∷ ts)) }
{
    let Some(then) = node_at(pool, node.second) else {
        return add_result(alloc, scope, root.root, pieces);
    };
    let Some(other) = node_at(pool, then.second) else {
        return add_result(alloc, scope, root.root, pieces);
    };
    add_term(alloc, scope, node.first.root, pieces)?;
    body(
        alloc, pool, drawn, callings, caller, scope, then.first, pieces,
    )?;
    let second = other.first;
    body(alloc, pool, drawn, callings, caller, scope, second, pieces)?;
    end_if(pieces)
}

/// Adds the branch of a find at a place for a branch of the text and the calls of a site.
#[cycle(body)]
fn branch(
    alloc: Global,
    pool: &Pool,
    drawn: &Drawing,
    callings: &[Calling],
    caller: &Caller,
    scope: &[Entry],
    place: u32,
    list: Subtree,
    choice: Choice,
    pieces: &mut Vec<Piece>,
) -> Result<(), AllocError>
    requires callings { All (IsLiveCalling pool.now.trees) callings.now }
    requires list { IsWithin pool.now.trees list }
    requires choice { IsChoice pool.now.trees callings.now list.place list.root choice }
    ensures { IfOk result (λ _. Adds pool.now.trees (drawn_in drawn.now) callings.now caller.now
        pieces.old.items pieces.new.items (λ k ts. branch_in pool.now.trees (drawn_in drawn.now)
        callings.now caller.now (scope_at caller.now scope.now) place k choice ∷ ts)) }
{
    let other = &callings[choice.other].caller;
    let inner = branch_scope(alloc, drawn, caller, scope, place, other, choice.pair)?;
    let within = inner.as_slice();
    add_front(alloc, within, place, choice, pieces)?;
    let root = Subtree {
        place: choice.pair.place,
        root: choice.pair.body,
    };
    body(alloc, pool, drawn, callings, caller, within, root, pieces)?;
    end_branch(pieces)
}

/// Adds branches of a find at a place.
#[cycle(body)]
fn branches(
    alloc: Global,
    pool: &Pool,
    drawn: &Drawing,
    callings: &[Calling],
    caller: &Caller,
    scope: &[Entry],
    place: u32,
    list: Subtree,
    choices: &[Choice],
    pieces: &mut Vec<Piece>,
) -> Result<(), AllocError>
    requires callings { All (IsLiveCalling pool.now.trees) callings.now }
    requires list { IsWithin pool.now.trees list }
    requires choices { All (IsChoice pool.now.trees callings.now list.place list.root)
        choices.now }
    ensures { IfOk result (λ _. Adds pool.now.trees (drawn_in drawn.now) callings.now caller.now
        pieces.old.items pieces.new.items (λ k ts. onto (map (branch_in pool.now.trees
        (drawn_in drawn.now) callings.now caller.now (scope_at caller.now scope.now) place k)
        choices.now) ts)) }
{
    'branches: for choice in choices {
        branch(
            alloc, pool, drawn, callings, caller, scope, place, list, *choice, pieces,
        )?;
    }
    Ok(())
}

/// Adds a find at a place; without branches its other body alone.
#[cycle(body)]
fn find_body(
    alloc: Global,
    pool: &Pool,
    drawn: &Drawing,
    callings: &[Calling],
    caller: &Caller,
    scope: &[Entry],
    place: u32,
    list: Subtree,
    otherwise: Subtree,
    pieces: &mut Vec<Piece>,
) -> Result<(), AllocError>
    requires callings { All (IsLiveCalling pool.now.trees) callings.now }
    requires list { IsWithin pool.now.trees list }
    requires otherwise { IsWithin pool.now.trees otherwise }
    ensures { IfOk result (λ _. Adds pool.now.trees (drawn_in drawn.now) callings.now caller.now
        pieces.old.items pieces.new.items (λ k ts. find_in pool.now.trees (drawn_in drawn.now)
        callings.now caller.now (scope_at caller.now scope.now) place list otherwise k ∷ ts)) }
{
    let found = choices(alloc, pool, callings, list.place, list.root)?;
    if found.is_empty() {
        return body(
            alloc, pool, drawn, callings, caller, scope, otherwise, pieces,
        );
    }
    let choices = found.as_slice();
    branches(
        alloc, pool, drawn, callings, caller, scope, place, list, choices, pieces,
    )?;
    end_list(pieces, found.len())?;
    body(
        alloc, pool, drawn, callings, caller, scope, otherwise, pieces,
    )?;
    put(pieces, Head::Find(drawn.label(caller.number, place)))
}

/// Adds a right body.
#[cycle(body)]
pub(crate) fn body(
    alloc: Global,
    pool: &Pool,
    drawn: &Drawing,
    callings: &[Calling],
    caller: &Caller,
    scope: &[Entry],
    root: Subtree,
    pieces: &mut Vec<Piece>,
) -> Result<(), AllocError>
    requires callings { All (IsLiveCalling pool.now.trees) callings.now }
    requires root { IsWithin pool.now.trees root }
    ensures { IfOk result (λ _. Adds pool.now.trees (drawn_in drawn.now) callings.now caller.now
        pieces.old.items pieces.new.items (λ k ts. body_in pool.now.trees (drawn_in drawn.now)
        callings.now caller.now (scope_at caller.now scope.now) root k ∷ ts)) }
{
    let Some(node) = node_at(pool, root) else {
        return add_result(alloc, scope, root.root, pieces);
    };
    let inner = node.second;
    match node.head {
        Head::New(z, t) => {
            nothing(pieces)?;
            let head = Head::New(drawn.variable(caller.number, z), t);
            bound_body(
                alloc, pool, drawn, callings, caller, scope, z, inner, head, pieces,
            )
        }
        Head::Let(z, t) => {
            add_term(alloc, scope, node.first.root, pieces)?;
            let head = Head::Let(drawn.variable(caller.number, z), t);
            bound_body(
                alloc, pool, drawn, callings, caller, scope, z, inner, head, pieces,
            )
        }
        Head::If => if_body(
            alloc, pool, drawn, callings, caller, scope, root, node, pieces,
        ),
        Head::Find(_) => find_body(
            alloc, pool, drawn, callings, caller, scope, root.place, node.first, inner, pieces,
        ),
        _ => add_result(alloc, scope, root.root, pieces),
    }
}
