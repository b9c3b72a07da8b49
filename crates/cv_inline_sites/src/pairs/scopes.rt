ghost use Rattle.std.specs.Prelude.{◌≡◌, ◌∷◌, ◌<◌, ◌^◌, List, IfOk, length};
ghost use Rattle.cv_pool.specs.KindTree.{KindTree};
ghost use Rattle.cv_syntax_trees.specs.Tree.{Tree};
ghost use Rattle.cv_meaning.specs.contexts.Inlined.{index_terms, with_call_of};
ghost use Rattle.cv_inline.specs.terms.Callers.{caller_in};
ghost use Rattle.cv_inline.specs.terms.Drawings.{drawn_in};
ghost use Rattle.cv_inline.specs.terms.Scopes.{scope_in, standing_in};
ghost use Rattle.cv_inline_sites.specs.pairs.Scopes.{scope_at};

use crate::pairs::indices::drawn_indices;
use crate::pairs::pairs::Pair;
use cv_inline::terms::{Caller, Drawing, Entry, Standing};
use std::alloc::{AllocError, Global};

/// What a name stands for, once more.
fn same_standing(alloc: Global, standing: &Standing) -> Result<Standing, AllocError>
    ensures { (here : Tree) → IfOk result (λ copy. standing_in here copy
        ≡ standing_in here standing.now) }
{
    match standing {
        Standing::TheKey => Ok(Standing::TheKey),
        Standing::Own => Ok(Standing::Own),
        Standing::CallOf { site, indices } => {
            let mut tuple = Vec::new(alloc);
            tuple.extend_from_slice(indices.as_slice())?;
            Ok(Standing::CallOf {
                site: *site,
                indices: tuple,
            })
        }
    }
}

/// A copy of a scope.
pub fn copy_of(alloc: Global, scope: &[Entry]) -> Result<Vec<Entry>, AllocError>
    ensures { (here : Tree) → IfOk result (λ copy. scope_in here copy.items
        ≡ scope_in here scope.now) }
{
    let mut copy = Vec::new(alloc);
    'entries: for k in 0..scope.len() {
        let entry = &scope[k];
        let standing = same_standing(alloc, &entry.standing)?;
        copy.push(Entry {
            name: entry.name,
            standing,
        })?;
    }
    Ok(copy)
}

/// A copy of a scope with one more name, the newest.
#[tactic(auto, using(cv_inline::proofs::terms::Scoping::scope_push))]
pub fn with_name(
    alloc: Global,
    scope: &[Entry],
    name: u32,
    standing: Standing,
) -> Result<Vec<Entry>, AllocError>
    ensures { (here : Tree) → IfOk result (λ more. scope_in here more.items
        ≡ (name, standing_in here standing) ∷ scope_in here scope.now) }
{
    let mut more = copy_of(alloc, scope)?;
    more.push(Entry { name, standing })?;
    Ok(more)
}

/// The scope of the branch for the calls of another site, where its index stands for such a call.
pub fn branch_scope(
    alloc: Global,
    drawn: &Drawing,
    caller: &Caller,
    scope: &[Entry],
    place: u32,
    other: &Caller,
    pair: Pair,
) -> Result<Vec<Entry>, AllocError>
    requires { length other.now.replications.items < 2 ^ 32 }
    ensures { IfOk result (λ inner. (trees : List KindTree) → scope_at caller.now inner.items
        ≡ with_call_of (scope_at caller.now scope.now) pair.index
        (index_terms caller.now.replications.items)
        ((drawn_in drawn.now).index caller.now.number place other.now.number pair.number)
        (caller_in trees other.now)) }
{
    let indices = drawn_indices(
        alloc,
        drawn,
        caller.number,
        place,
        other.number,
        pair.number,
        other.replications.as_slice(),
    )?;
    let call = Standing::CallOf {
        site: other.number,
        indices,
    };
    with_name(alloc, scope, pair.index, call)
}
