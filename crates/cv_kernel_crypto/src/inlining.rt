ghost use Rattle.std.specs.Prelude.{◌≡◌, ◌<◌, ◌^◌, ℕ, All, IfOk, List, OnOk, Some, length, take};
ghost use Rattle.cv_syntax_trees.specs.Declarations.{Declaration};
ghost use Rattle.cv_syntax_trees.specs.Tree.{Tree, size};
ghost use Rattle.cv_syntax.specs.PoolTrees.{tree_at};
ghost use Rattle.cv_meaning.specs.contexts.Groups.{Right, side_group};
ghost use Rattle.cv_scene.specs.Reductions.{Reduction};
ghost use Rattle.cv_match_laws.specs.answers.Answers.{file_scene};
ghost use Rattle.cv_match_laws.specs.answers.Drawn.{callings, draws, finds};
ghost use Rattle.cv_inline_draws.specs.callings.RightFunctions.{HasRightFunctions};
ghost use Rattle.cv_inline_draws.specs.callings.Sites.{HasListedKeys};
ghost use Rattle.cv_inline_draws.specs.names.Fresh.{IsDrawnFor};
ghost use Rattle.cv_steps_laws.specs.crypto.reductions.Tables.{labels};
ghost use Rattle.cv_inline.specs.terms.Drawings.{drawn_in};
ghost use Rattle.cv_inline_sites.specs.listing.Callings.{callings_in};
ghost use Rattle.cv_inline_measure.specs.Settings.{AreLiveSites};
ghost use Rattle.cv_steps_laws.specs.crypto.Steps.{first_answer, reduction_of};
ghost use Rattle.cv_kernel_crypto.specs.Stages.{AreTakenNames, HasContext, IsInlining};

use crate::contexts::functions_of;
use crate::instances::Instances;
use crate::naming::FIRST_ANSWER;
use cv_inline::terms::{Calling, Drawing};
use cv_inline_draws::callings::callings_of;
use cv_inline_draws::drawing::draw;
use cv_steps_laws::crypto::reductions::steps_of_files_have_drawn_tables;
use cv_syntax::children::{first_of, read_child, room_left, second_of};
use cv_syntax::{Head, Names, NodeId, Pool};
use std::alloc::{AllocError, Global};

/// What a next game is made from, beside its context: the sites by number, the drawn names, and the name and the type of the
/// right key.
#[derive(Drop)]
pub(crate) struct Inlining {
    pub(crate) callings: Vec<Calling>,
    pub(crate) drawing: Drawing,
    pub(crate) right_key: (u32, u32),
}

/// The name and the type of the key of an equivalence's right side.
fn right_key_of(pool: &Pool, equivalence: NodeId) -> (u32, u32)
    requires { equivalence.0 < length pool.now.trees }
    ensures { result ≡ (side_group Right (tree_at pool.now.trees (Some equivalence))).key }
{
    let side = second_of(pool, Some(equivalence));
    let Some(node) = read_child(pool, first_of(pool, side)) else {
        return (0, 0);
    };
    match node.head {
        Head::Binder(x, t) => (x, t),
        _ => (0, 0),
    }
}

/// The sites of a context by number. A context with more nodes than there are names below the answers is told as want of
/// memory.
fn callings_for(
    alloc: Global,
    pool: &Pool,
    found: &Instances,
    context: NodeId,
) -> Result<Vec<Calling>, AllocError>
    requires tree { found.now.tree.0 < length pool.now.trees }
    requires short { size (tree_at pool.now.trees (Some found.now.tree)) < 2 ^ 32 }
    requires right { HasRightFunctions (tree_at pool.now.trees (Some found.now.tree)) }
    requires few { length found.now.sites.items < first_answer }
    requires context { context.0 < length pool.now.trees }
    requires keys { HasListedKeys (tree_at pool.now.trees (Some context)) }
    ensures callings { (r : Reduction) (game : NodeId) →
        HasContext pool.now.trees r game context found.now →
        IfOk result (λ cs. callings_in pool.now.trees cs.items ≡ callings r) }
    ensures live { IfOk result (λ cs. AreLiveSites pool.now.trees cs.items) }
    ensures fits { OnOk result (size (tree_at pool.now.trees (Some context)) < 2 ^ 32) }
{
    if room_left(pool, Some(context), FIRST_ANSWER).is_none() {
        return Err(AllocError);
    }
    let functions = functions_of(alloc, found.sites.as_slice())?;
    callings_of(alloc, pool, found.tree, functions.as_slice(), context)
}

/// What the next game of a context is made from, with names that are drawn for it. A table that then has more names than there
/// are below the answers is told as want of memory.
pub(crate) fn inlining_for(
    alloc: Global,
    pool: &Pool,
    names: &mut Names,
    game: NodeId,
    found: &Instances,
    context: NodeId,
    taken: &[u32],
) -> Result<Inlining, AllocError>
    requires game { game.0 < length pool.now.trees }
    requires tree { found.now.tree.0 < length pool.now.trees }
    requires short { size (tree_at pool.now.trees (Some found.now.tree)) < 2 ^ 32 }
    requires right { HasRightFunctions (tree_at pool.now.trees (Some found.now.tree)) }
    requires few { length found.now.sites.items < first_answer }
    requires context { context.0 < length pool.now.trees }
    requires keys { HasListedKeys (tree_at pool.now.trees (Some context)) }
    requires taken { All (λ x. x < length names.old) taken.now }
    ensures inlining { (ds : List Declaration) (own : ℕ) (t e : Tree) (x : ℕ) →
        HasContext pool.now.trees (reduction_of (file_scene ds own t) e x) game context found.now →
        AreTakenNames names.old own t taken.now →
        IfOk result (IsInlining pool.now.trees (reduction_of (file_scene ds own t) e x)) }
    ensures drawn { (r : Reduction) → HasContext pool.now.trees r game context found.now →
        IfOk result (λ i. IsDrawnFor names.old names.new taken.now (draws r) (finds r) (labels r)
        (drawn_in i.drawing)) }
    ensures live { IfOk result (λ i. AreLiveSites pool.now.trees i.callings.items) }
    ensures fits { OnOk result (size (tree_at pool.now.trees (Some context)) < 2 ^ 32) }
    ensures kept { take (length names.old) names.new ≡ names.old }
{
    let callings = callings_for(alloc, pool, found, context)?;
    let right_key = right_key_of(pool, found.tree);
    let drawing = draw(
        alloc,
        pool,
        names,
        taken,
        Some(game),
        right_key.0,
        callings.as_slice(),
    )?;
    if names.len() > FIRST_ANSWER {
        return Err(AllocError);
    }
    steps_of_files_have_drawn_tables();
    Ok(Inlining {
        callings,
        drawing,
        right_key,
    })
}
