ghost use Rattle.std.specs.Prelude.{◌≡◌, ◌∷◌, ◌<◌, ◌^◌, ℕ, [], IfOk, length, map};
ghost use Rattle.cv_pool.specs.Nodes.{ChildBelow};
ghost use Rattle.cv_syntax_trees.specs.Tree.{size};
ghost use Rattle.cv_syntax.specs.PoolTrees.{tree_at};
ghost use Rattle.cv_meaning.specs.contexts.Groups.{Group};
ghost use Rattle.cv_inline_laws.specs.extents.Extents as extents;
ghost use Rattle.cv_inline_laws.specs.extents.Extents.{Extent, of_game, with_answers};
ghost use Rattle.cv_inline_measure.specs.Counts.{IsTold};
ghost use Rattle.cv_syntax.specs.limits.Limits.{told};
ghost use Rattle.cv_inline_measure.specs.Games as games;
ghost use Rattle.cv_inline_measure.specs.Games.{answers_in, call_of_game, with_call};
ghost use Rattle.cv_inline_measure.specs.Settings.{IsLiveSetting, calls_of, live_in, measure_of};

use crate::added::Added;
use crate::calls::call_extent;
use crate::measuring::Measure;
use crate::setting::Setting;
use crate::trees::extent_below;
use cv_syntax::children::second_of;
use cv_syntax::{Head, NodeId, Opened, read_node};
use std::alloc::{AllocError, Global};

/// An answer of a statement, with what its results have over all copies.
#[derive(Clone, Copy)]
pub(crate) struct Answer {
    name: u32,
    results: u32,
}

/// What stands for a child of a node: nothing, the child with results for answers, the child as it stands, or its next
/// game.
#[derive(Clone, Copy)]
enum Kind {
    Nothing,
    Results,
    Same,
    Game,
}

/// What stands for the first child of a node.
fn first_child(head: Head) -> Kind
    ensures { result ≡ games.first_child head }
{
    match head {
        Head::Key(_) => Kind::Nothing,
        Head::Let(_, _) => Kind::Results,
        Head::If => Kind::Results,
        Head::Event(_) => Kind::Results,
        Head::Out(_) => Kind::Results,
        Head::In(_) => Kind::Same,
        Head::Branch => Kind::Same,
        Head::Leaf(_) => Kind::Same,
        Head::Read(_) => Kind::Same,
        _ => Kind::Game,
    }
}

/// What stands for the second child of a node.
fn second_child(head: Head) -> Kind
    ensures { result ≡ games.second_child head }
{
    match head {
        Head::Leaf(_) => Kind::Same,
        Head::Read(_) => Kind::Same,
        _ => Kind::Game,
    }
}

/// What the results of an answer have, or else a count.
fn answer_or(count: u32, answers: &[Answer], x: u32) -> u32
    ensures { (n : ℕ) → count ≡ told n →
        result ≡ told (extents.answer_or n (answers_in answers.now) x) }
{
    'answers: for answer in answers {
        if answer.name == x {
            return answer.results;
        }
    }
    count
}

/// The answers behind a call, which adds so much in each copy.
fn answers_behind(
    alloc: Global,
    measure: Measure,
    copies: u32,
    answers: &[Answer],
    x: u32,
    call: Added,
) -> Result<Vec<Answer>, AllocError>
    ensures { IfOk result (λ more. answers_in more.items
        ≡ with_call measure copies (answers_in answers.now) x call) }
{
    let mut more = Vec::new(alloc);
    more.push(Answer {
        name: x,
        results: measure.along(call.results, copies),
    })?;
    'answers: for answer in answers {
        more.push(Answer {
            name: answer.name,
            results: measure.along(call.places, answer.results),
        })?;
    }
    Ok(more)
}

/// What all copies of a term have, with results for answers.
fn with_answers(setting: &Setting, copies: u32, answers: &[Answer], term: Option<NodeId>) -> u32
    requires live { ChildBelow (live_in setting.now) term }
    requires fits { size (tree_at setting.now.pool.now.trees term) < 2 ^ 32 }
    ensures { result ≡ told (with_answers (measure_of setting.now) copies (answers_in answers.now)
        (tree_at setting.now.pool.now.trees term)) }
{
    let measure = setting.measure;
    let Some(n) = term else {
        return measure.along(0, copies);
    };
    let node = read_node(setting.pool, n);
    match node.head {
        Head::Leaf(x) => answer_or(copies_of(setting, copies, term), answers, x),
        Head::Read(x) => answer_or(copies_of(setting, copies, term), answers, x),
        _ => {
            let first = with_answers(setting, copies, answers, node.first);
            let second = with_answers(setting, copies, answers, node.second);
            measure.over_node(copies, node.head.weight(), first, second)
        }
    }
}

/// What all copies of a tree of the pool have.
fn copies_of(setting: &Setting, copies: u32, part: Option<NodeId>) -> u32
    requires live { ChildBelow (live_in setting.now) part }
    requires fits { size (tree_at setting.now.pool.now.trees part) < 2 ^ 32 }
    ensures { result ≡ told (extents.copies_of (measure_of setting.now) copies
        (tree_at setting.now.pool.now.trees part)) }
{
    let one = extent_below(setting.pool, setting.measure, part);
    setting.measure.along(one, copies)
}

/// What the copies of a child of a node have in the next game.
#[cycle(game)]
fn below(
    alloc: Global,
    setting: &Setting,
    copies: u32,
    answers: &[Answer],
    kind: Kind,
    part: Option<NodeId>,
) -> Result<u32, AllocError>
    requires setting { IsLiveSetting setting.now }
    requires live { ChildBelow (live_in setting.now) part }
    requires fits { size (tree_at setting.now.pool.now.trees part) < 2 ^ 32 }
    ensures { IfOk result (λ n. (x : ℕ) (g : Group) → g.key.0 ≡ setting.now.right_key →
        n ≡ told (games.of_child (measure_of setting.now) (calls_of setting.now x g) copies
        (answers_in answers.now) kind (tree_at setting.now.pool.now.trees part))) }
{
    match kind {
        Kind::Nothing => Ok(setting.measure.along(0, copies)),
        Kind::Results => Ok(with_answers(setting, copies, answers, part)),
        Kind::Same => Ok(copies_of(setting, copies, part)),
        Kind::Game => game(alloc, setting, copies, &[], part),
    }
}

/// What a call has with what stands behind it, over the copies.
#[cycle(game)]
fn call(
    alloc: Global,
    setting: &Setting,
    copies: u32,
    answers: &[Answer],
    x: u32,
    number: u32,
    node: Opened,
) -> Result<u32, AllocError>
    requires setting { IsLiveSetting setting.now }
    requires first { ChildBelow (live_in setting.now) node.first }
    requires second { ChildBelow (live_in setting.now) node.second }
    requires first_fits { size (tree_at setting.now.pool.now.trees node.first) < 2 ^ 32 }
    requires second_fits { size (tree_at setting.now.pool.now.trees node.second) < 2 ^ 32 }
    ensures { IfOk result (λ n. (k : ℕ) (g : Group) → g.key.0 ≡ setting.now.right_key →
        n ≡ told (call_of_game (measure_of setting.now) (calls_of setting.now k g) copies
        (answers_in answers.now) x number (tree_at setting.now.pool.now.trees node.first)
        (tree_at setting.now.pool.now.trees node.second))) }
{
    let measure = setting.measure;
    let arguments = second_of(setting.pool, node.first);
    let call = call_extent(alloc, setting, number, arguments)?;
    let behind = answers_behind(alloc, measure, copies, answers, x, call)?;
    let places = measure.along(call.places, copies);
    let rest = game(alloc, setting, places, behind.as_slice(), node.second)?;
    Ok(measure.join(measure.along(call.own, copies), rest))
}

/// What all copies of a part of the context have in the next game, where these are the answers of the calls of the
/// statement.
#[cycle(game)]
pub(crate) fn game(
    alloc: Global,
    setting: &Setting,
    copies: u32,
    answers: &[Answer],
    part: Option<NodeId>,
) -> Result<u32, AllocError>
    requires setting { IsLiveSetting setting.now }
    requires live { ChildBelow (live_in setting.now) part }
    requires fits { size (tree_at setting.now.pool.now.trees part) < 2 ^ 32 }
    ensures { IfOk result (λ n. (x : ℕ) (g : Group) → g.key.0 ≡ setting.now.right_key →
        n ≡ told (of_game (measure_of setting.now) (calls_of setting.now x g) copies
        (answers_in answers.now) (tree_at setting.now.pool.now.trees part))) }
{
    let Some(n) = part else {
        return Ok(setting.measure.along(0, copies));
    };
    let node = read_node(setting.pool, n);
    match node.head {
        Head::Call(x, number) => call(alloc, setting, copies, answers, x, number, node),
        _ => {
            let before = first_child(node.head);
            let after = second_child(node.head);
            let first = below(alloc, setting, copies, answers, before, node.first)?;
            let second = below(alloc, setting, copies, &[], after, node.second)?;
            Ok(
                setting
                    .measure
                    .over_node(copies, node.head.weight(), first, second),
            )
        }
    }
}
