// Terms of a closure in words.
use cv_closure::{Closure, TermId};
use cv_explain_source::Page;
use cv_syntax::{Head, Work};

/// The most pieces of a term that are shown.
const MOST_PIECES: usize = 400;

/// A piece of a term that is still to be shown.
#[derive(Clone, Copy)]
enum Piece {
    Term(TermId),
    Word(&'static str),
}

/// Puts the arguments of a term with a mark between them, the last of which comes first.
fn put_arguments(page: &mut Page, left: &mut Vec<Piece>, arguments: &[TermId], mark: &'static str) {
    for k in 0..arguments.len() {
        if k > 0 {
            page.push(left, Piece::Word(mark));
        }
        page.push(left, Piece::Term(arguments[arguments.len() - 1 - k]));
    }
}

/// What stands before the arguments of a term.
fn front_of(head: Head) -> &'static str {
    match head {
        Head::Read(_) => "[",
        Head::Apply(_) | Head::Eq | Head::And | Head::Or => "(",
        Head::Not => "not(",
        Head::Yes => "true",
        Head::No => "false",
        Head::Primed(_) => "'",
        _ => "",
    }
}

/// What stands between the arguments of a term.
fn mark_of(head: Head) -> &'static str {
    match head {
        Head::Eq => " = ",
        Head::And => " && ",
        Head::Or => " || ",
        _ => ", ",
    }
}

/// What stands behind the arguments of a term.
fn back_of(head: Head) -> &'static str {
    match head {
        Head::Read(_) => "]",
        Head::Apply(_) | Head::Eq | Head::And | Head::Or | Head::Not => ")",
        _ => "",
    }
}

/// Says the first words of a term, and puts the rest.
fn say_head(page: &mut Page, left: &mut Vec<Piece>, work: &Work, closure: &Closure, t: TermId) {
    let Some(head) = closure.terms().head(t) else {
        return;
    };
    if let Head::Leaf(x) | Head::Primed(x) | Head::Read(x) | Head::Apply(x) = head {
        page.name("", &work.names, x);
    }
    page.say(front_of(head));
    page.push(left, Piece::Word(back_of(head)));
    put_arguments(page, left, closure.terms().arguments(t), mark_of(head));
}

/// Says a term of a closure behind words.
pub fn say_closed(page: &mut Page, words: &str, work: &Work, closure: &Closure, t: TermId) {
    page.say(words);
    let mut left = Vec::new(page.alloc());
    page.push(&mut left, Piece::Term(t));
    for _ in 0..MOST_PIECES {
        match left.pop() {
            Some(Piece::Term(t)) => say_head(page, &mut left, work, closure, t),
            Some(Piece::Word(word)) => page.say(word),
            None => return,
        }
    }
    page.say(" ..");
}
