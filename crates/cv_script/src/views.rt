// Steps by their items: what no other crate reads off a step's nodes.
ghost use Rattle.std.specs.Prelude.{◌≡◌, ◌<◌, IfSome, Some, length, option_map};
ghost use Rattle.cv_pool.specs.Nodes.{ChildBelow};
ghost use Rattle.cv_syntax_trees.specs.declared.head.Head.TheVariants.{ArrayRenameStep, BirthdayStep, CodefStep, CryptoStep, FreshStep, GuessStep, LetStep, MergeStep, MoveStep, NewStep, PickStep, PruneStep, RenameStep, RewriteStep, SplitStep, SuccessStep, UnletStep, UnnewStep};
ghost use Rattle.cv_syntax_trees.specs.Tree.{Empty, Node};
ghost use Rattle.cv_syntax.specs.PoolTrees.{tree_at};
ghost use Rattle.cv_script.specs.Views.{AreLive, adds_in, name_in, number_in, part_in, items_of_view, tree_in, items_of_step};

use crate::steps::Step;
use cv_syntax::children::{first_of, is_empty, second_of};
use cv_syntax::{Head, NameId, NodeId, Pool, read_node};

/// What a `prune` keeps: a side of an `if`, or a branch of a `find`.
#[derive(Clone, Copy)]
pub enum Part {
    Then,
    Else,
    Branch(u64),
}

/// A step by its items, in the order of its text. An empty list has no node; so have a derivation without
/// lines and a certificate without parts.
#[derive(Clone, Copy)]
pub enum StepView {
    Rename {
        x: NameId,
        to: NameId,
    },
    Rewrite {
        place: u64,
        term: NodeId,
        by: Option<NodeId>,
    },
    Prune {
        place: u64,
        part: Part,
        by: Option<NodeId>,
    },
    Pick {
        place: u64,
        terms: Option<NodeId>,
        at_body: Option<NodeId>,
        at_find: Option<NodeId>,
    },
    Merge {
        place: u64,
    },
    Split {
        place: u64,
        cond: NodeId,
    },
    Let {
        place: u64,
        x: NameId,
        ty: NameId,
        term: NodeId,
    },
    Unlet {
        x: NameId,
    },
    New {
        place: u64,
        x: NameId,
        ty: NameId,
    },
    Unnew {
        x: NameId,
    },
    Move {
        place: u64,
    },
    /// The step `SArename`.
    ArrayRename {
        x: NameId,
        to: Option<NodeId>,
    },
    /// To add cell `to` where cell `from` is asked for, or to drop it. The variable of `to` is adjacent to that of `from`, or
    /// stands above it.
    Codef {
        place: u64,
        add: bool,
        to: NodeId,
        from: NodeId,
        above: bool,
    },
    Birthday {
        x: NameId,
        at: Option<NodeId>,
    },
    Guess {
        x: NameId,
        at: Option<NodeId>,
    },
    Fresh {
        place: u64,
    },
    Crypto {
        equiv: NameId,
        x: NameId,
    },
    Success {
        query: u64,
        by: Option<NodeId>,
    },
    Simplify,
}

/// The name that a tree is.
#[tactic(auto, using(crate::proofs::Items::item_laws))]
fn name(pool: &Pool, tree: Option<NodeId>) -> Option<NameId>
    requires { ChildBelow (length pool.now.trees) tree }
    ensures { option_map (λ x. x.0) result ≡ name_in (tree_at pool.now.trees tree) }
{
    match read_node(pool, tree?).head {
        Head::Name(x) => Some(NameId(x)),
        _ => None,
    }
}

/// The node of a tree, where it isn't empty.
#[tactic(auto, using(crate::proofs::Items::item_laws))]
fn node_of(pool: &Pool, tree: Option<NodeId>) -> Option<NodeId>
    requires { ChildBelow (length pool.now.trees) tree }
    ensures tree { option_map (λ n. tree_at pool.now.trees (Some n)) result
        ≡ tree_in (tree_at pool.now.trees tree) }
    ensures live { ChildBelow (length pool.now.trees) result }
{
    if is_empty(pool, tree) { None } else { tree }
}

/// The number that a tree is.
#[tactic(auto, using(crate::proofs::Items::item_laws))]
fn number(pool: &Pool, tree: Option<NodeId>) -> Option<u64>
    requires { ChildBelow (length pool.now.trees) tree }
    ensures { result ≡ number_in (tree_at pool.now.trees tree) }
{
    match read_node(pool, tree?).head {
        Head::Number(value) => Some(value),
        _ => None,
    }
}

/// The part of a `prune` that a tree is.
#[tactic(auto, using(crate::proofs::Items::item_laws))]
fn kept_part(pool: &Pool, tree: Option<NodeId>) -> Option<Part>
    requires { ChildBelow (length pool.now.trees) tree }
    ensures { result ≡ part_in (tree_at pool.now.trees tree) }
{
    match read_node(pool, tree?).head {
        Head::ThenPart => Some(Part::Then),
        Head::ElsePart => Some(Part::Else),
        Head::Number(value) => Some(Part::Branch(value)),
        _ => None,
    }
}

/// Whether the part of a `codef` that a tree is adds.
#[tactic(auto, using(crate::proofs::Items::item_laws))]
fn adds(pool: &Pool, tree: Option<NodeId>) -> Option<bool>
    requires { ChildBelow (length pool.now.trees) tree }
    ensures { result ≡ adds_in (tree_at pool.now.trees tree) }
{
    match read_node(pool, tree?).head {
        Head::AddPart => Some(true),
        Head::DropPart => Some(false),
        _ => None,
    }
}

/// A step `rename` by its items.
#[tactic(auto, using(crate::proofs::Items::item_laws))]
fn rename(pool: &Pool, first: Option<NodeId>, second: Option<NodeId>) -> Option<StepView>
    requires first { ChildBelow (length pool.now.trees) first }
    requires second { ChildBelow (length pool.now.trees) second }
    ensures items { option_map (items_of_view pool.now.trees) result
        ≡ items_of_step (Node RenameStep (tree_at pool.now.trees first) (tree_at pool.now.trees second)) }
    ensures live { IfSome result (AreLive (length pool.now.trees)) }
{
    Some(StepView::Rename {
        x: name(pool, first)?,
        to: name(pool, second)?,
    })
}

/// A step `rewrite` by its items.
#[tactic(auto, using(crate::proofs::Items::item_laws))]
fn rewrite(pool: &Pool, first: Option<NodeId>, second: Option<NodeId>) -> Option<StepView>
    requires first { ChildBelow (length pool.now.trees) first }
    requires second { ChildBelow (length pool.now.trees) second }
    ensures items { option_map (items_of_view pool.now.trees) result
        ≡ items_of_step (Node RewriteStep (tree_at pool.now.trees first) (tree_at pool.now.trees second)) }
    ensures live { IfSome result (AreLive (length pool.now.trees)) }
{
    Some(StepView::Rewrite {
        place: number(pool, first)?,
        term: node_of(pool, first_of(pool, second))?,
        by: second_of(pool, second),
    })
}

/// A step `prune` by its items.
#[tactic(auto, using(crate::proofs::Items::item_laws))]
fn prune(pool: &Pool, first: Option<NodeId>, second: Option<NodeId>) -> Option<StepView>
    requires first { ChildBelow (length pool.now.trees) first }
    requires second { ChildBelow (length pool.now.trees) second }
    ensures items { option_map (items_of_view pool.now.trees) result
        ≡ items_of_step (Node PruneStep (tree_at pool.now.trees first) (tree_at pool.now.trees second)) }
    ensures live { IfSome result (AreLive (length pool.now.trees)) }
{
    Some(StepView::Prune {
        place: number(pool, first)?,
        part: kept_part(pool, first_of(pool, second))?,
        by: second_of(pool, second),
    })
}

/// A step `pick` by its items.
#[tactic(auto, using(crate::proofs::Items::item_laws))]
fn pick(pool: &Pool, first: Option<NodeId>, second: Option<NodeId>) -> Option<StepView>
    requires first { ChildBelow (length pool.now.trees) first }
    requires second { ChildBelow (length pool.now.trees) second }
    ensures items { option_map (items_of_view pool.now.trees) result
        ≡ items_of_step (Node PickStep (tree_at pool.now.trees first) (tree_at pool.now.trees second)) }
    ensures live { IfSome result (AreLive (length pool.now.trees)) }
{
    let rest = second_of(pool, second);
    Some(StepView::Pick {
        place: number(pool, first)?,
        terms: first_of(pool, second),
        at_body: first_of(pool, rest),
        at_find: second_of(pool, rest),
    })
}

/// A step `merge` by its items.
#[tactic(auto, using(crate::proofs::Items::item_laws))]
fn merge(pool: &Pool, first: Option<NodeId>) -> Option<StepView>
    requires first { ChildBelow (length pool.now.trees) first }
    ensures items { option_map (items_of_view pool.now.trees) result
        ≡ items_of_step (Node MergeStep (tree_at pool.now.trees first) Empty) }
    ensures live { IfSome result (AreLive (length pool.now.trees)) }
{
    Some(StepView::Merge {
        place: number(pool, first)?,
    })
}

/// A step `split` by its items.
#[tactic(auto, using(crate::proofs::Items::item_laws))]
fn split(pool: &Pool, first: Option<NodeId>, second: Option<NodeId>) -> Option<StepView>
    requires first { ChildBelow (length pool.now.trees) first }
    requires second { ChildBelow (length pool.now.trees) second }
    ensures items { option_map (items_of_view pool.now.trees) result
        ≡ items_of_step (Node SplitStep (tree_at pool.now.trees first) (tree_at pool.now.trees second)) }
    ensures live { IfSome result (AreLive (length pool.now.trees)) }
{
    Some(StepView::Split {
        place: number(pool, first)?,
        cond: node_of(pool, second)?,
    })
}

/// A step `let` by its items.
#[tactic(auto, using(crate::proofs::Items::item_laws))]
fn assign(pool: &Pool, first: Option<NodeId>, second: Option<NodeId>) -> Option<StepView>
    requires first { ChildBelow (length pool.now.trees) first }
    requires second { ChildBelow (length pool.now.trees) second }
    ensures items { option_map (items_of_view pool.now.trees) result
        ≡ items_of_step (Node LetStep (tree_at pool.now.trees first) (tree_at pool.now.trees second)) }
    ensures live { IfSome result (AreLive (length pool.now.trees)) }
{
    let rest = second_of(pool, second);
    Some(StepView::Let {
        place: number(pool, first)?,
        x: name(pool, first_of(pool, second))?,
        ty: name(pool, first_of(pool, rest))?,
        term: node_of(pool, second_of(pool, rest))?,
    })
}

/// A step `unlet` by its items.
#[tactic(auto, using(crate::proofs::Items::item_laws))]
fn unlet(pool: &Pool, first: Option<NodeId>) -> Option<StepView>
    requires first { ChildBelow (length pool.now.trees) first }
    ensures items { option_map (items_of_view pool.now.trees) result
        ≡ items_of_step (Node UnletStep (tree_at pool.now.trees first) Empty) }
    ensures live { IfSome result (AreLive (length pool.now.trees)) }
{
    Some(StepView::Unlet {
        x: name(pool, first)?,
    })
}

/// A step `new` by its items.
#[tactic(auto, using(crate::proofs::Items::item_laws))]
fn create(pool: &Pool, first: Option<NodeId>, second: Option<NodeId>) -> Option<StepView>
    requires first { ChildBelow (length pool.now.trees) first }
    requires second { ChildBelow (length pool.now.trees) second }
    ensures items { option_map (items_of_view pool.now.trees) result
        ≡ items_of_step (Node NewStep (tree_at pool.now.trees first) (tree_at pool.now.trees second)) }
    ensures live { IfSome result (AreLive (length pool.now.trees)) }
{
    Some(StepView::New {
        place: number(pool, first)?,
        x: name(pool, first_of(pool, second))?,
        ty: name(pool, second_of(pool, second))?,
    })
}

/// A step `unnew` by its items.
#[tactic(auto, using(crate::proofs::Items::item_laws))]
fn unnew(pool: &Pool, first: Option<NodeId>) -> Option<StepView>
    requires first { ChildBelow (length pool.now.trees) first }
    ensures items { option_map (items_of_view pool.now.trees) result
        ≡ items_of_step (Node UnnewStep (tree_at pool.now.trees first) Empty) }
    ensures live { IfSome result (AreLive (length pool.now.trees)) }
{
    Some(StepView::Unnew {
        x: name(pool, first)?,
    })
}

/// A step `move` by its items.
#[tactic(auto, using(crate::proofs::Items::item_laws))]
fn move_down(pool: &Pool, first: Option<NodeId>) -> Option<StepView>
    requires first { ChildBelow (length pool.now.trees) first }
    ensures items { option_map (items_of_view pool.now.trees) result
        ≡ items_of_step (Node MoveStep (tree_at pool.now.trees first) Empty) }
    ensures live { IfSome result (AreLive (length pool.now.trees)) }
{
    Some(StepView::Move {
        place: number(pool, first)?,
    })
}

/// A step `SArename` by its items.
#[tactic(auto, using(crate::proofs::Items::item_laws))]
fn array_rename(pool: &Pool, first: Option<NodeId>, second: Option<NodeId>) -> Option<StepView>
    requires first { ChildBelow (length pool.now.trees) first }
    requires second { ChildBelow (length pool.now.trees) second }
    ensures items { option_map (items_of_view pool.now.trees) result
        ≡ items_of_step (Node ArrayRenameStep (tree_at pool.now.trees first) (tree_at pool.now.trees second)) }
    ensures live { IfSome result (AreLive (length pool.now.trees)) }
{
    Some(StepView::ArrayRename {
        x: name(pool, first)?,
        to: second,
    })
}

/// A step `codef` by its items.
#[tactic(auto, using(crate::proofs::Items::item_laws))]
fn codef(pool: &Pool, first: Option<NodeId>, second: Option<NodeId>) -> Option<StepView>
    requires first { ChildBelow (length pool.now.trees) first }
    requires second { ChildBelow (length pool.now.trees) second }
    ensures items { option_map (items_of_view pool.now.trees) result
        ≡ items_of_step (Node CodefStep (tree_at pool.now.trees first) (tree_at pool.now.trees second)) }
    ensures live { IfSome result (AreLive (length pool.now.trees)) }
{
    let rest = second_of(pool, second);
    let last = second_of(pool, rest);
    Some(StepView::Codef {
        place: number(pool, first)?,
        add: adds(pool, first_of(pool, second))?,
        to: node_of(pool, first_of(pool, rest))?,
        from: node_of(pool, first_of(pool, last))?,
        above: !is_empty(pool, second_of(pool, last)),
    })
}

/// A step `birthday` by its items.
#[tactic(auto, using(crate::proofs::Items::item_laws))]
fn birthday(pool: &Pool, first: Option<NodeId>, second: Option<NodeId>) -> Option<StepView>
    requires first { ChildBelow (length pool.now.trees) first }
    requires second { ChildBelow (length pool.now.trees) second }
    ensures items { option_map (items_of_view pool.now.trees) result
        ≡ items_of_step (Node BirthdayStep (tree_at pool.now.trees first) (tree_at pool.now.trees second)) }
    ensures live { IfSome result (AreLive (length pool.now.trees)) }
{
    Some(StepView::Birthday {
        x: name(pool, first)?,
        at: second,
    })
}

/// A step `guess` by its items.
#[tactic(auto, using(crate::proofs::Items::item_laws))]
fn guess(pool: &Pool, first: Option<NodeId>, second: Option<NodeId>) -> Option<StepView>
    requires first { ChildBelow (length pool.now.trees) first }
    requires second { ChildBelow (length pool.now.trees) second }
    ensures items { option_map (items_of_view pool.now.trees) result
        ≡ items_of_step (Node GuessStep (tree_at pool.now.trees first) (tree_at pool.now.trees second)) }
    ensures live { IfSome result (AreLive (length pool.now.trees)) }
{
    Some(StepView::Guess {
        x: name(pool, first)?,
        at: second,
    })
}

/// A step `fresh` by its items.
#[tactic(auto, using(crate::proofs::Items::item_laws))]
fn fresh(pool: &Pool, first: Option<NodeId>) -> Option<StepView>
    requires first { ChildBelow (length pool.now.trees) first }
    ensures items { option_map (items_of_view pool.now.trees) result
        ≡ items_of_step (Node FreshStep (tree_at pool.now.trees first) Empty) }
    ensures live { IfSome result (AreLive (length pool.now.trees)) }
{
    Some(StepView::Fresh {
        place: number(pool, first)?,
    })
}

/// A step `crypto` by its items.
#[tactic(auto, using(crate::proofs::Items::item_laws))]
fn crypto(pool: &Pool, first: Option<NodeId>, second: Option<NodeId>) -> Option<StepView>
    requires first { ChildBelow (length pool.now.trees) first }
    requires second { ChildBelow (length pool.now.trees) second }
    ensures items { option_map (items_of_view pool.now.trees) result
        ≡ items_of_step (Node CryptoStep (tree_at pool.now.trees first) (tree_at pool.now.trees second)) }
    ensures live { IfSome result (AreLive (length pool.now.trees)) }
{
    Some(StepView::Crypto {
        equiv: name(pool, first)?,
        x: name(pool, second)?,
    })
}

/// A step `success` by its items.
#[tactic(auto, using(crate::proofs::Items::item_laws))]
fn success(pool: &Pool, first: Option<NodeId>, second: Option<NodeId>) -> Option<StepView>
    requires first { ChildBelow (length pool.now.trees) first }
    requires second { ChildBelow (length pool.now.trees) second }
    ensures items { option_map (items_of_view pool.now.trees) result
        ≡ items_of_step (Node SuccessStep (tree_at pool.now.trees first) (tree_at pool.now.trees second)) }
    ensures live { IfSome result (AreLive (length pool.now.trees)) }
{
    Some(StepView::Success {
        query: number(pool, first)?,
        by: second,
    })
}

/// A step by its items. None comes where a tree is no step, or where an item isn't what its place asks for.
#[tactic(auto, using(crate::proofs::Items::item_laws))]
pub fn view(pool: &Pool, step: Step) -> Option<StepView>
    requires { step.0.0 < length pool.now.trees }
    ensures items { option_map (items_of_view pool.now.trees) result
        ≡ items_of_step (tree_at pool.now.trees (Some step.0)) }
    ensures live { IfSome result (AreLive (length pool.now.trees)) }
{
    let node = read_node(pool, step.0);
    let (first, second) = (node.first, node.second);
    match node.head {
        Head::RenameStep => rename(pool, first, second),
        Head::RewriteStep => rewrite(pool, first, second),
        Head::PruneStep => prune(pool, first, second),
        Head::PickStep => pick(pool, first, second),
        Head::MergeStep => merge(pool, first),
        Head::SplitStep => split(pool, first, second),
        Head::LetStep => assign(pool, first, second),
        Head::UnletStep => unlet(pool, first),
        Head::NewStep => create(pool, first, second),
        Head::UnnewStep => unnew(pool, first),
        Head::MoveStep => move_down(pool, first),
        Head::ArrayRenameStep => array_rename(pool, first, second),
        Head::CodefStep => codef(pool, first, second),
        Head::BirthdayStep => birthday(pool, first, second),
        Head::GuessStep => guess(pool, first, second),
        Head::FreshStep => fresh(pool, first),
        Head::CryptoStep => crypto(pool, first, second),
        Head::SuccessStep => success(pool, first, second),
        Head::SimplifyStep => Some(StepView::Simplify),
        _ => None,
    }
}
