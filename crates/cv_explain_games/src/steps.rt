// Steps that are refused: what their conditions ask for.
use crate::games::Listing;
use cv_explain_source::{Page, entry_of};
use cv_grounds::open;
use cv_script::{Step, push_step};
use cv_syntax::{Head, Pool, Work};

/// The most bytes of a step that are shown.
const MOST_BYTES: usize = 200;

/// What it is that a step's condition asks for and isn't met, by the step's word and the condition's number.
const CONDITIONS: &str =
    "split 1: at the place stands no output process: a yield, an output, an event, a new, a let, a test or a find
let 1: at the place stands no output process: a yield, an output, an event, a new, a let, a test or a find
new 1: at the place stands no output process: a yield, an output, an event, a new, a let, a test or a find
split 2: the term is not of type bool
let 2: the variable isn't new: file or game have its name
new 2: the variable isn't new: file or game have its name
unnew 1: the variable has no definition, or one that is no `new`
unnew 2: a term or a `defined` list names the variable here, or a query asks for its secrecy
unlet 1: the variable hasn't one definition alone that is a `let`
unlet 2: a `defined` list names the variable, or a query asks for its secrecy
move 1: at the place stands no `new` and no `let`
move 2: behind the definition stands no `new`, `let`, `event`, `if` or `find`
move 3: the construct behind the definition names the variable here, outside of its bodies
rename 1: the variable has no definition
rename 2: the other name isn't new: file or game have it
rename 3: a query asks for the secrecy of the variable
SArename 1: the variable hasn't two definitions or more, or there aren't as many new names, each listed once
SArename 2: a query asks for the secrecy of the variable
SArename 3: this branch has cells of the variable with different index terms in its `defined` list
codef 1: at the place stands no branch whose `defined` list has the second cell
codef 2: the variables of the two cells are not two with one definition each that stand as near as the step asks
codef 3: to be added, the first cell stands in the list already; or to be dropped, it isn't there
rewrite 1: at the place stands no term with a value of a type, or it stands in a `defined` list or in an index
rewrite 2: the new term hasn't the type of the old one
rewrite 3: a line of the derivation isn't right; the number behind `at` is that of the line, from 1
prune 2: a line of the derivation isn't right; the number behind `at` is that of the line, from 1
pick 2: a line of the derivation isn't right; the number behind `at` is that of the line, from 1
pick 4: a line of the derivation isn't right; the number behind `at` is that of the line, from 1
rewrite 4: the derivation doesn't end with the equation of the old term with the new one
prune 1: at the place stands no test, or no `find` with such a branch
prune 3: the derivation doesn't end with `false`
merge 1: at the place stands no `if` and no `find`
merge 2: this body differs from the first one
merge 3: an index variable of the `find` is named here
pick 1: at the place stands no `find` with one branch and as many indices as terms, or a term is no index below the parameter of its variable, in scope there
pick 3: the first derivation doesn't end with the equations of the index variables with the terms, in order
pick 5: the second derivation doesn't end with the cells and then the condition, with the terms for the indices
pick 6: an index variable is named here otherwise than by reads at the current indices inside the branch, or a query asks for its secrecy
birthday 1: at the place stands no equality of which both sides read the variable, or it stands in a `defined` list or in an index
birthday 2: this definition of the variable is no `new` of a large type, or it has none
guess 2: this definition of the variable is no `new` of a large type, or it has none
guess 1: at the place stands no equality with a side that reads the variable, or it stands in a `defined` list or in an index
guess 3: the variable is read here too, not by those equalities alone
guess 4: a query asks for the secrecy of the variable
fresh 1: at the place stands no equality with a side that reads a variable at the current indices
fresh 2: the last definition of the variable above, in the same body, is no `new` of a large type
fresh 3: the other side isn't in scope before that `new`
crypto 0: the file has no such equivalence or collision, or neither file nor game has the name of the key
crypto 1: the key hasn't one definition alone, a `new` of the key's type, or a query names it
crypto 2: the key is read here, in no instance of a function of the equivalence
crypto 3: the key is read here, in the condition of a `find`
crypto 4: a coin of this instance is chosen elsewhere than under its replications, or is used elsewhere
crypto 5: the key is read here in what stands for an argument of an instance
success 1: there is no such query, or a step before closed it
success 2: the certificate hasn't the form that the query and the game ask for: an entry for each place of the left event and none more, each with a route for each right event and term; or it is one of the other kind of queries
success 3: a line of a derivation of the entry of this place isn't right
success 4: a derivation of the entry of this place doesn't end with what it is to end with
success 5: the pairs aren't those that are needed, or a line of the pair at this place isn't right, or it doesn't end with what it may end with
success 6: a variable behind `distinct` has a definition that is no `new` of a large type, or has none, or is named twice
success 7: this definition or read is against each of the two forms in which a variable is secret: only `new` and never read, or only copies of such a variable that are never read";

/// How a condition begins that a line of a step's own derivation doesn't meet.
const LINE: &str = "a line of the derivation";

/// What every step asks for first.
const FIRST: &str =
    "a place that the step names isn't one of the game, or its places aren't in order; or a name of it is not there, or a term of it isn't typed at its place";

/// What every step asks for last.
const LAST: &str =
    "the game that the step leads to isn't one: it breaks the grammar, the rules of types or those of array scope";

/// Says behind words what a condition of a step asks for and isn't met, by the step's word; whether it is a line of a derivation, so that the
/// number behind `at` is that of the line.
pub fn say_condition(page: &mut Page, words: &str, word: &[u8], condition: u32) -> bool {
    page.number(words, u64::from(condition));
    page.say(": ");
    let mut key = Page::new(page.alloc());
    key.add(word);
    key.number(" ", u64::from(condition));
    let other = if condition == 0 { FIRST } else { LAST };
    let found = entry_of(CONDITIONS, key.bytes()).unwrap_or(other.as_bytes());
    page.add(found);
    page.say("\n");
    found.starts_with(LINE.as_bytes())
}

/// The text of a step.
fn text_of(page: &mut Page, work: &Work, step: Step) -> Vec<u8> {
    let mut text = Vec::new(page.alloc());
    if step.0.0 < work.pool.live() {
        let done = push_step(&mut text, &work.pool, &work.names, step);
        page.note(done);
    }
    text
}

/// Says a step, or as much of it as is shown.
fn say_step(page: &mut Page, text: &[u8]) {
    match text.get(..MOST_BYTES) {
        Some(front) => {
            page.add(front);
            page.say(" ..");
        }
        None => page.add(text),
    }
}

/// The place that a step names first, where it names one.
fn own_place(pool: &Pool, step: Step) -> Option<u32> {
    let node = open(pool, step.0)?;
    let first = open(pool, node.first?)?;
    match (node.head, first.head) {
        (Head::SuccessStep, _) => None,
        (_, Head::Number(place)) => u32::try_from(place).ok(),
        _ => None,
    }
}

/// Says what stands at the place that a step names.
fn say_own_place(page: &mut Page, work: &Work, listing: &Listing, step: Step) {
    if let Some(place) = own_place(&work.pool, step) {
        if listing.node(place).is_some() {
            listing.say_place(page, "  the step is ", work, place);
            page.say("\n");
        }
    }
}

/// Says that a step of a number is refused: which condition isn't met, and at which place of the game.
pub fn say_refused(
    page: &mut Page,
    work: &Work,
    listing: &Listing,
    step: Step,
    refused: (u32, u32, u64),
) {
    let (number, condition, place) = refused;
    let text = text_of(page, work, step);
    let end = text.iter().position(|b| *b == b' ').unwrap_or(text.len());
    let word = text.get(..end).unwrap_or(&text);
    page.number("step ", u64::from(number));
    page.say(" is refused: ");
    say_step(page, &text);
    if say_condition(page, "\n  condition ", word, condition) {
        page.number("  line ", place);
        page.say("\n");
    } else if place == 0 {
        say_own_place(page, work, listing, step);
    } else {
        let there = u32::try_from(place).unwrap_or(u32::MAX);
        listing.say_place(page, "  ", work, there);
        page.say("\n");
    }
}
