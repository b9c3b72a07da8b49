ghost use Rattle.std.specs.Prelude.{◌≡◌, ◌<◌, length};
ghost use Rattle.cv_pool.specs.Nodes.{ChildBelow};
ghost use Rattle.cv_syntax.specs.PoolTrees.{tree_at};
ghost use Rattle.cv_scope_rules.specs.Phrases as grammar;
ghost use Rattle.cv_scene_view.specs.phrases.Phrases.{items_of, others_of, parts_of, phrase_of};

use cv_syntax::{Head, NodeId, Pool, read_node};

/// What stands at a place of a game.
#[derive(Clone, Copy, Debug, PartialEq, Eq)]
pub enum Phrase {
    Nil,
    /// An input process.
    Inputs,
    /// An output process.
    Body,
    /// The two bodies of an `if`.
    Then,
    Else,
    Branches,
    /// A branch.
    Arm,
    /// The list, the condition and the body of a branch.
    Guards,
    /// The condition and the body of a branch.
    Guarded,
    /// The written indices of an input with its binders.
    Pattern,
    /// The written indices of an output with its terms.
    Message,
    Indices,
    Binders,
    /// A `defined` list.
    Cells,
    OneCell,
    Terms,
    Term,
}

/// What the children of a node are in an input process.
fn parts_of_inputs(head: Head) -> Option<(Phrase, Phrase)>
    ensures { parts_of result ≡ grammar.parts grammar.Inputs head }
{
    match head {
        Head::Stop => Some((Phrase::Nil, Phrase::Nil)),
        Head::Par => Some((Phrase::Inputs, Phrase::Inputs)),
        Head::Repl(_, _) => Some((Phrase::Nil, Phrase::Inputs)),
        Head::In(_) => Some((Phrase::Pattern, Phrase::Body)),
        _ => None,
    }
}

/// What the children of a node are in an output process.
fn parts_of_body(head: Head) -> Option<(Phrase, Phrase)>
    ensures { parts_of result ≡ grammar.parts grammar.Body head }
{
    match head {
        Head::Yield => Some((Phrase::Nil, Phrase::Nil)),
        Head::Out(_) => Some((Phrase::Message, Phrase::Inputs)),
        Head::New(_, _) => Some((Phrase::Nil, Phrase::Body)),
        Head::Let(_, _) => Some((Phrase::Term, Phrase::Body)),
        Head::Event(_) => Some((Phrase::Terms, Phrase::Body)),
        Head::If => Some((Phrase::Term, Phrase::Then)),
        Head::Find(_) => Some((Phrase::Branches, Phrase::Body)),
        _ => None,
    }
}

/// What the children of a node are in a term.
fn parts_of_term(head: Head) -> Option<(Phrase, Phrase)>
    ensures { parts_of result ≡ grammar.parts grammar.Term head }
{
    match head {
        Head::Leaf(_) => Some((Phrase::Nil, Phrase::Nil)),
        Head::Read(_) => Some((Phrase::Terms, Phrase::Nil)),
        Head::Apply(_) => Some((Phrase::Terms, Phrase::Nil)),
        Head::Eq => Some((Phrase::Term, Phrase::Term)),
        Head::And => Some((Phrase::Term, Phrase::Term)),
        Head::Or => Some((Phrase::Term, Phrase::Term)),
        Head::Not => Some((Phrase::Term, Phrase::Nil)),
        Head::Yes => Some((Phrase::Nil, Phrase::Nil)),
        Head::No => Some((Phrase::Nil, Phrase::Nil)),
        _ => None,
    }
}

/// What the children of a cell of a `defined` list are.
fn parts_of_cell(head: Head) -> Option<(Phrase, Phrase)>
    ensures { parts_of result ≡ grammar.parts grammar.OneCell head }
{
    match head {
        Head::Leaf(_) => Some((Phrase::Nil, Phrase::Nil)),
        Head::Read(_) => Some((Phrase::Terms, Phrase::Nil)),
        _ => None,
    }
}

/// What the item and the rest of a list are, where a phrase is one.
fn parts_of_list(phrase: Phrase) -> Option<(Phrase, Phrase)>
    ensures { parts_of result ≡ items_of (phrase_of phrase) }
{
    match phrase {
        Phrase::Then => Some((Phrase::Body, Phrase::Else)),
        Phrase::Else => Some((Phrase::Body, Phrase::Nil)),
        Phrase::Branches => Some((Phrase::Arm, Phrase::Branches)),
        Phrase::Guards => Some((Phrase::Cells, Phrase::Guarded)),
        Phrase::Guarded => Some((Phrase::Term, Phrase::Body)),
        Phrase::Pattern => Some((Phrase::Indices, Phrase::Binders)),
        Phrase::Message => Some((Phrase::Indices, Phrase::Terms)),
        Phrase::Cells => Some((Phrase::OneCell, Phrase::Cells)),
        Phrase::Terms => Some((Phrase::Term, Phrase::Terms)),
        _ => None,
    }
}

/// What the children of a node are in a list of another kind.
fn parts_of_others(phrase: Phrase, head: Head) -> Option<(Phrase, Phrase)>
    ensures { parts_of result ≡ others_of (phrase_of phrase) head }
{
    match phrase {
        Phrase::Arm => match head {
            Head::Branch => Some((Phrase::Binders, Phrase::Guards)),
            _ => None,
        },
        Phrase::Indices => match head {
            Head::Name(_) => Some((Phrase::Nil, Phrase::Indices)),
            _ => None,
        },
        Phrase::Binders => match head {
            Head::Binder(_, _) => Some((Phrase::Nil, Phrase::Binders)),
            _ => None,
        },
        _ => None,
    }
}

/// What the two children of a node are.
#[tactic(auto, using(crate::proofs::phrases::Grammar::phrases_are))]
pub fn parts(phrase: Phrase, head: Head) -> Option<(Phrase, Phrase)>
    ensures { parts_of result ≡ grammar.parts (phrase_of phrase) head }
{
    match phrase {
        Phrase::Inputs => parts_of_inputs(head),
        Phrase::Body => parts_of_body(head),
        Phrase::Term => parts_of_term(head),
        Phrase::OneCell => parts_of_cell(head),
        _ => match head {
            Head::Cons => parts_of_list(phrase),
            _ => parts_of_others(phrase, head),
        },
    }
}

/// Whether a list may end here.
fn may_end(phrase: Phrase) -> bool
    ensures { result ≡ grammar.may_end (phrase_of phrase) }
{
    match phrase {
        Phrase::Nil => true,
        Phrase::Branches => true,
        Phrase::Indices => true,
        Phrase::Binders => true,
        Phrase::Cells => true,
        Phrase::Terms => true,
        _ => false,
    }
}

/// Whether a tree is a phrase, and so is each tree in it.
pub fn is_phrase(pool: &Pool, phrase: Phrase, tree: Option<NodeId>) -> bool
    requires { ChildBelow (length pool.now.trees) tree }
    ensures { result ≡ grammar.is_phrase (phrase_of phrase) (tree_at pool.now.trees tree) }
{
    let mut expected = phrase;
    let mut at = tree;
    'tree: while let Some(k) = at {
        let node = read_node(pool, k);
        let Some((first, second)) = parts(expected, node.head) else {
            return false;
        };
        if !is_phrase(pool, first, node.first) {
            return false;
        }
        expected = second;
        at = node.second;
    }
    may_end(expected)
}
