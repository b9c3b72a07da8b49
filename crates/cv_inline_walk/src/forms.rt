ghost use Rattle.std.specs.Prelude.{◌≡◌};
ghost use Rattle.cv_meaning.specs.contexts.Groups.{Group};
ghost use Rattle.cv_inline.specs.NextGame.{game_name};
ghost use Rattle.cv_inline_walk.specs.Forms as forms;
ghost use Rattle.cv_inline_walk.specs.Steps.{HasRightKey, calls_of};

use crate::step::Step;
use cv_syntax::Head;

/// What the next game has for the first child of a node: nothing, the term with results in place of answers, the child as
/// it stands, or its next game.
#[derive(Clone, Copy)]
pub(crate) enum First {
    Nothing,
    Results,
    Same,
    Game,
}

/// What the next game has for a node: the pieces of a call, for the variable that takes its answer and its number; the
/// name, which may be the key's, over the same children; or a node over the next game of the second child.
#[derive(Clone, Copy)]
pub(crate) enum Form {
    Call(u32, u32),
    Name,
    Over(First),
}

/// What the next game has for a node with a head.
pub(crate) fn form_of(head: Head) -> Form
    ensures { result ≡ forms.form_of head }
{
    match head {
        Head::Call(x, l) => Form::Call(x, l),
        Head::Leaf(_) => Form::Name,
        Head::Read(_) => Form::Name,
        Head::Key(_) => Form::Over(First::Nothing),
        Head::Let(_, _) => Form::Over(First::Results),
        Head::If => Form::Over(First::Results),
        Head::Event(_) => Form::Over(First::Results),
        Head::Out(_) => Form::Over(First::Results),
        Head::In(_) => Form::Over(First::Same),
        Head::Branch => Form::Over(First::Same),
        _ => Form::Over(First::Game),
    }
}

/// A name as it stands in the next game: the drawn key for the variable of the key.
fn name_in(step: &Step, x: u32) -> u32
    ensures { (g : Group) → result ≡ game_name (calls_of step.now g) x }
{
    if x == step.key { step.drawn.key } else { x }
}

/// The head of a node in the next game.
pub(crate) fn head_in(step: &Step, head: Head) -> Head
    ensures { (g : Group) → HasRightKey step.now g →
        result ≡ forms.head_in (calls_of step.now g) head }
{
    match head {
        Head::Key(_) => Head::New(step.drawn.key, step.right_key.1),
        Head::Leaf(x) => Head::Leaf(name_in(step, x)),
        Head::Read(x) => Head::Read(name_in(step, x)),
        _ => head,
    }
}
