// The text of a game with the places of its constructs.
use cv_explain_source::{Page, is_term, nodes_of, size_of};
use cv_grounds::open;
use cv_print::game_text;
use cv_syntax::{Game, Head, NodeId, Opened, Work};
use std::alloc::AllocError;

/// A line of a text: the place of its construct, where it has one, its first byte, and its end.
#[derive(Clone, Copy)]
struct Line {
    place: Option<u32>,
    start: usize,
    end: usize,
}

/// A game with its nodes in preorder, its text, and the lines of this.
#[derive(Drop)]
pub struct Listing {
    nodes: Vec<(u32, NodeId, Opened)>,
    text: Vec<u8>,
    lines: Vec<Line>,
}

/// Whether a construct of a game has a line of its own.
fn has_line(head: Head) -> bool {
    matches!(
        head,
        Head::Stop
            | Head::Yield
            | Head::Par
            | Head::Repl(_, _)
            | Head::In(_)
            | Head::Out(_)
            | Head::New(_, _)
            | Head::Let(_, _)
            | Head::Event(_)
            | Head::If
            | Head::Branch
    )
}

/// The places of constructs, in the order of their lines. The line of a first branch is that of its `find`.
fn places_of(page: &mut Page, nodes: &[(u32, NodeId, Opened)]) -> Vec<u32> {
    let mut places = Vec::new(page.alloc());
    let mut last = u32::MAX;
    for (number, _n, node) in nodes {
        if let Head::Find(_) = node.head {
            last = *number;
        } else if has_line(node.head) {
            let is_first = last.saturating_add(1) == *number;
            page.push(&mut places, if is_first { last } else { *number });
            last = u32::MAX;
        }
    }
    places
}

/// A line without the blanks before it.
fn trimmed(line: &[u8]) -> &[u8] {
    let mut rest = line;
    for _ in 0..line.len() {
        match rest.strip_prefix(b" ") {
            Some(more) => rest = more,
            None => return rest,
        }
    }
    rest
}

/// Whether a line has no construct: a mark between two processes, or an end.
fn is_mark(line: &[u8]) -> bool {
    let words = trimmed(line);
    words.starts_with(b"|") || words.starts_with(b")") || words.starts_with(b"else")
}

/// The lines of a text, with the places of those that have one.
fn lines_of(page: &mut Page, text: &[u8], places: &[u32]) -> Vec<Line> {
    let mut lines = Vec::new(page.alloc());
    let mut start = 0;
    let mut next = 0_usize;
    for end in 0..text.len() {
        if text[end] == b'\n' {
            let is_mark = is_mark(text.get(start..end).unwrap_or(text));
            let place = if is_mark {
                None
            } else {
                places.get(next).copied()
            };
            page.push(&mut lines, Line { place, start, end });
            start = end + 1;
            if !is_mark {
                next = next.saturating_add(1);
            }
        }
    }
    lines
}

/// The lines of a game.
pub fn listing_of(page: &mut Page, work: &Work, game: Game) -> Listing {
    let nodes = nodes_of(page, &work.pool, &[game.root]);
    let text = if game.root.0 < work.pool.live() {
        game_text(page.alloc(), &work.pool, &work.names, game.root)
    } else {
        Err(AllocError)
    };
    let text = page.took(text);
    let places = places_of(page, &nodes);
    Listing {
        nodes,
        lines: lines_of(page, &text, &places),
        text,
    }
}

impl Listing {
    /// The nodes of the game in preorder, with their places; a node that isn't counted has that of the next one.
    pub fn nodes(&self) -> &[(u32, NodeId, Opened)] {
        &self.nodes
    }

    /// Writes the game with the places at the left.
    pub fn write(&self, page: &mut Page) {
        for line in &self.lines {
            match line.place {
                Some(number) => page.column(u64::from(number)),
                None => page.say("      "),
            }
            page.say("  ");
            page.add(self.text_of(*line));
            page.say("\n");
        }
    }

    /// The text of a line.
    fn text_of(&self, line: Line) -> &[u8] {
        self.text.get(line.start..line.end).unwrap_or(&self.text)
    }

    /// The line in which a place stands: the last one of a construct with no greater place.
    fn line_of(&self, place: u32) -> &[u8] {
        let mut found = Line {
            place: None,
            start: 0,
            end: 0,
        };
        for line in &self.lines {
            match line.place {
                Some(number) if number <= place => found = *line,
                _ => {}
            }
        }
        trimmed(self.text_of(found))
    }

    /// The node at a place.
    pub fn node(&self, place: u32) -> Option<(NodeId, Opened)> {
        for (number, n, node) in &self.nodes {
            if *number == place && node.head.weight() == 1 {
                return Some((*n, *node));
            }
        }
        None
    }

    /// Says a place behind words: its number, the line in which it stands, and its term.
    pub fn say_place(&self, page: &mut Page, words: &str, work: &Work, place: u32) {
        page.say(words);
        page.number("at ", u64::from(place));
        if let Some((n, node)) = self.node(place) {
            if is_term(node.head) {
                page.say(", ");
                page.quote_term(work, n);
                page.say(", in");
            }
        }
        page.say(" `");
        page.add(self.line_of(place));
        page.say("`");
    }
}
