// Faults of lexis, grammar and names.
use crate::oracle::{first_tokens, put_token};
use cv_explain_source::{Page, Source, Text, entry_of};
use cv_lex::{LexError, Tokens, tokens};
use cv_oracles::read_source;
use cv_parse::{ParseError, file};
use cv_syntax::Work;
use std::alloc::{AllocError, Global};

/// The most tokens before a place of which it is asked what could stand there.
const MOST_ASKED: u32 = 10_000;

/// How many nodes there are while it is asked.
const ROOM: u32 = 1_000_000;

/// A name, a number, the symbols and the reserved words of a file.
const TERMINALS: &str =
    "x 0 ( ) [ ] { } , ; : . | ! @ = <> <= => ==> -> && || proof process param channel proba type
fixed large bounded const fun data compos event equation forall collision new equiv query
secret secret1 inj let in if then else find orfind suchthat yield out defined not true
false bool cases";

/// The symbols and the reserved words that oracle files have besides.
const TERMINALS_OF_ORACLES: &str = "oracles foreach do end return := <-";

/// What the first token of a name declares, by the word before it.
const DECLARED: &str = "param: a parameter
channel: a channel
proba: a probability
type: a type
const: a constant
fun: a function
event: an event
equiv: an equivalence
collision: an equivalence
new: a variable
let: a variable
!: an index
foreach: an index";

/// What the place of a name asks for, by the word before it.
const WANTED: &str = ":: a type
R: a type
event: an event
<=: a parameter";

/// What the place of a name behind a bracket asks for, by the word before the bracket.
const WANTED_INSIDE: &str = "in: a channel
out: a channel
<=: a probability
=>: a probability";

/// What the place of a name asks for in a declaration, by the first word of this.
const WANTED_DECLARED: &str = "fun: a type
const: a type
event: a type";

/// Says what a byte is with which no token begins.
fn say_byte(said: &mut Page, source: Source, byte: u32) {
    let there = source.bytes.get(byte as usize).copied().unwrap_or(0);
    said.number("char: no token begins with the byte ", u64::from(there));
    if there > 32 && there < 127 {
        said.say(", `");
        said.show(&[there]);
        said.say("`");
    }
    said.say("; a comment is `(* .. *)`");
}

/// Says what is wrong with bytes that have no tokens.
pub fn say_lexis(page: &mut Page, source: Source, fault: LexError) {
    let mut said = Page::new(page.alloc());
    let byte = match fault {
        LexError::Char(byte) => {
            say_byte(&mut said, source, byte);
            byte
        }
        LexError::CommentOpen(byte) => {
            said.say("comment: the comment that begins here has no end `*)`; comments nest");
            byte
        }
        LexError::NumberWide(byte) => {
            said.say("number: the number is greater than 18446744073709551615");
            byte
        }
        LexError::OutOfMemory => return,
    };
    source.point(page, byte as usize, &said);
}

/// The token through which no file goes, where these are the tokens of none.
fn dead_token(alloc: Global, tokens: &Tokens) -> Option<u32> {
    if tokens.len() >= 200_000_000 {
        return Some(0);
    }
    let mut work = Work::new(alloc, ROOM);
    match file(alloc, &mut work, tokens) {
        Err(ParseError::Syntax(k) | ParseError::Nesting(k)) => Some(k),
        _ => None,
    }
}

/// Whether a file may begin with tokens, whatever stands behind them.
fn may_begin(said: &mut Page, tokens: Tokens, token: u32) -> bool {
    let read = read_source(said.alloc(), tokens);
    let Some(source) = said.got(read) else {
        return false;
    };
    match dead_token(said.alloc(), &source.tokens) {
        Some(k) => source.number(k) > token,
        None => true,
    }
}

/// The first tokens of a file, with a word behind them.
fn with_word(
    alloc: Global,
    tokens: &Tokens,
    count: u32,
    words: &Tokens,
    k: u32,
) -> Result<Tokens, AllocError> {
    let mut out = first_tokens(alloc, tokens, count)?;
    put_token(&mut out, words, k, 0)?;
    Ok(out)
}

/// Whether a file may go on with a word in the place of a token.
fn may_follow(said: &mut Page, text: &Text, token: u32, words: &Tokens, k: u32) -> bool {
    let asked = with_word(said.alloc(), text.tokens(), token, words, k);
    match said.got(asked) {
        Some(tokens) => may_begin(said, tokens, token),
        None => false,
    }
}

/// Says one of the words that may stand in a place.
fn say_word(said: &mut Page, words: &Tokens, k: u32) {
    if k < words.len() {
        match words.text(k) {
            "x" => said.say("a name"),
            "0" => said.say("a number"),
            word => said.quoted(word),
        }
    }
}

/// Says behind a mark which of some words could stand in the place of a token, and gives the mark of the next one.
fn say_possible_of(
    said: &mut Page,
    text: &Text,
    token: u32,
    words: &Tokens,
    mark: &'static str,
) -> &'static str {
    let mut mark = mark;
    for k in 0..words.len().saturating_sub(1) {
        if may_follow(said, text, token, words, k) {
            said.say(mark);
            say_word(said, words, k);
            mark = ", ";
        }
    }
    mark
}

/// Says what could stand in the place of a token. A name stands for itself in each file, and so does a number.
fn say_possible(said: &mut Page, text: &Text, token: u32) {
    let (Ok(words), Ok(more)) = (
        tokens(said.alloc(), TERMINALS.as_bytes()),
        tokens(said.alloc(), TERMINALS_OF_ORACLES.as_bytes()),
    ) else {
        return;
    };
    let mark = say_possible_of(said, text, token, &words, "; here could stand ");
    if token == 0 || text.is(0, "oracles") {
        let _mark = say_possible_of(said, text, token, &more, mark);
    }
}

/// Says that a token can't stand where it does.
fn say_syntax(said: &mut Page, text: &Text, token: u32) {
    said.say("syntax: ");
    if text.word(token).is_empty() {
        said.say("the file can't end here");
    } else {
        said.quoted(text.word(token));
        said.say(" can't stand here");
    }
    if token <= MOST_ASKED {
        say_possible(said, text, token);
    }
}

/// The first word of the declaration in which a token stands.
fn declaration_at(text: &Text, token: u32) -> &str {
    let mut first = "";
    for k in 0..token {
        if k == 0 || text.is(k - 1, ".") {
            first = text.word(k);
        }
    }
    first
}

/// Says what the place of a name asks for, by the tokens before it.
fn say_wanted(said: &mut Page, text: &Text, token: u32) {
    let before = text.word(token.saturating_sub(1));
    let near = if before == "(" {
        let outside = text.word(token.saturating_sub(2));
        entry_of(WANTED_INSIDE, outside.as_bytes())
    } else {
        entry_of(WANTED, before.as_bytes())
    };
    match entry_of(WANTED_DECLARED, declaration_at(text, token).as_bytes()).or(near) {
        Some(words) => said.add(words),
        None => said.say("a function, a constant, a variable or an index"),
    }
}

/// Says that a name is declared or bound twice.
fn say_twice(said: &mut Page, text: &Text, token: u32) {
    said.say("name twice: ");
    said.quoted(text.word(token));
    said.say(" is declared or bound here, but the name is taken");
}

/// Says that a name isn't known as what its place asks.
fn say_unknown(said: &mut Page, text: &Text, token: u32) {
    said.say("name unknown: ");
    said.quoted(text.word(token));
    said.say(" isn't known here as ");
    say_wanted(said, text, token);
}

/// Says where a name stands first, and as what, where that is before a token; whether it is.
fn say_first(said: &mut Page, source: Source, text: &Text, token: u32) -> bool {
    match text.find(0, text.word(token)) {
        Some(first) if first < token => {
            source.place(said, "; it stands first at ", text, first);
            said.say(", as ");
            let before = text.word(first.saturating_sub(1));
            said.add(entry_of(DECLARED, before.as_bytes()).unwrap_or(b"a name"));
            true
        }
        _ => false,
    }
}

/// Says what is wrong with tokens that are no file.
pub fn say_grammar(page: &mut Page, source: Source, text: &Text, fault: ParseError) {
    let mut said = Page::new(page.alloc());
    let token = match fault {
        ParseError::Syntax(token) => {
            say_syntax(&mut said, text, token);
            token
        }
        ParseError::Nesting(token) => {
            said.say("nesting: more than 200 brackets and syntax nodes are open here");
            token
        }
        ParseError::NameTwice(token) => {
            say_twice(&mut said, text, token);
            let _stands = say_first(&mut said, source, text, token);
            token
        }
        ParseError::NameUnknown(token) => {
            say_unknown(&mut said, text, token);
            if !say_first(&mut said, source, text, token) {
                said.say("; a name is declared before it is used, and this one isn't");
            }
            token
        }
        ParseError::Build(_) => return,
    };
    source.point(page, text.offset(token), &said);
}

/// Says that a proof block is no script through a token: in which of its steps.
pub fn say_script(page: &mut Page, source: Source, text: &Text, token: u32) {
    let start = text.find(0, "proof").unwrap_or(token);
    let depth = text.depth(start).saturating_add(1);
    let mut step = 1_u64;
    for k in start..token {
        if text.is(k, ";") && text.depth(k) == depth {
            step = step.saturating_add(1);
        }
    }
    let mut said = Page::new(page.alloc());
    said.say("script: ");
    said.quoted(text.word(token));
    said.number(" can't stand here, in step ", step);
    said.say(" of the proof block, or more than 200 brackets and syntax nodes are open");
    source.point(page, text.offset(token), &said);
}
