// Text that is written piece by piece.
use cv_grounds::open;
use cv_print::{push_decimal, push_name, push_term, push_terms};
use cv_syntax::{Names, NodeId, Work};
use std::alloc::{AllocError, Global};

/// Text, and whether memory ran out while it was written: what came behind that is missing then.
#[derive(Drop)]
pub struct Page {
    bytes: Vec<u8>,
    is_cut: bool,
}

impl Page {
    /// No text.
    pub fn new(alloc: Global) -> Page {
        Page {
            bytes: Vec::new(alloc),
            is_cut: false,
        }
    }

    /// What gives memory.
    pub fn alloc(&self) -> Global {
        *self.bytes.allocator()
    }

    /// The text.
    pub fn bytes(&self) -> &[u8] {
        &self.bytes
    }

    /// Notes whether something could be written.
    pub fn note(&mut self, done: Result<(), AllocError>) {
        if done.is_err() {
            self.is_cut = true;
        }
    }

    /// A list that was made, or the empty one where memory ran out, which is noted.
    pub fn took<T: Drop>(&mut self, made: Result<Vec<T>, AllocError>) -> Vec<T> {
        match made {
            Ok(list) => list,
            Err(_) => {
                self.is_cut = true;
                Vec::new(self.alloc())
            }
        }
    }

    /// What was made, where memory didn't run out, which is noted.
    pub fn got<T: Drop>(&mut self, made: Result<T, AllocError>) -> Option<T> {
        match made {
            Ok(it) => Some(it),
            Err(_) => {
                self.is_cut = true;
                None
            }
        }
    }

    /// Appends an item to a list.
    pub fn push<T: Drop>(&mut self, list: &mut Vec<T>, item: T) {
        if list.push(item).is_err() {
            self.is_cut = true;
        }
    }

    /// Appends bytes.
    pub fn add(&mut self, text: &[u8]) {
        let done = self.bytes.extend_from_slice(text);
        self.note(done);
    }

    /// Appends what stands on another page.
    pub fn join(&mut self, other: &Page) {
        self.add(&other.bytes);
        if other.is_cut {
            self.is_cut = true;
        }
    }

    /// Appends words.
    pub fn say(&mut self, words: &str) {
        self.add(words.as_bytes());
    }

    /// Appends words with a number behind them.
    pub fn number(&mut self, words: &str, number: u64) {
        self.say(words);
        self.count(number);
    }

    /// Appends bytes, of which those that can't be shown are shown as `?`, and a blank for each tab and line end.
    pub fn show(&mut self, bytes: &[u8]) {
        for byte in bytes {
            let shown = match *byte {
                b'\t' | b'\n' | b'\r' => b' ',
                32..=126 => *byte,
                _ => b'?',
            };
            if self.bytes.push(shown).is_err() {
                self.is_cut = true;
            }
        }
    }

    /// Appends bytes in the same way, with one blank for a row of blanks and line ends.
    pub fn show_joined(&mut self, bytes: &[u8]) {
        let mut is_blank = false;
        for byte in bytes {
            let was_blank = is_blank;
            is_blank = matches!(*byte, b' ' | b'\t' | b'\n' | b'\r');
            if !is_blank || !was_blank {
                self.show(&[*byte]);
            }
        }
    }

    /// Appends a number in decimal.
    pub fn count(&mut self, number: u64) {
        let done = push_decimal(&mut self.bytes, number);
        self.note(done);
    }

    /// Appends a number in decimal, with blanks before it up to six columns.
    pub fn column(&mut self, number: u64) {
        let mut room = 100_000;
        for _ in 0..5 {
            if number < room {
                self.say(" ");
            }
            room /= 10;
        }
        self.count(number);
    }

    /// Appends words with a name behind them.
    pub fn name(&mut self, words: &str, names: &Names, x: u32) {
        self.say(words);
        let done = push_name(&mut self.bytes, names, x);
        self.note(done);
    }

    /// Appends words with a name in quotes behind them.
    pub fn quote(&mut self, words: &str, names: &Names, x: u32) {
        self.say(words);
        self.name("`", names, x);
        self.say("`");
    }

    /// Appends a word in quotes.
    pub fn quoted(&mut self, word: &str) {
        self.say("`");
        self.say(word);
        self.say("`");
    }

    /// Appends a term.
    pub fn term(&mut self, work: &Work, n: NodeId) {
        if n.0 < work.pool.live() {
            let done = push_term(&mut self.bytes, &work.pool, &work.names, n);
            self.note(done);
        }
    }

    /// Appends a term in quotes.
    pub fn quote_term(&mut self, work: &Work, n: NodeId) {
        self.say("`");
        self.term(work, n);
        self.say("`");
    }

    /// Appends words with an event and its arguments behind them.
    pub fn event(&mut self, words: &str, work: &Work, event: u32, arguments: Option<NodeId>) {
        self.name(words, &work.names, event);
        match arguments {
            Some(n) if n.0 < work.pool.live() && open(&work.pool, n).is_some() => {
                self.say("(");
                let done = push_terms(&mut self.bytes, &work.pool, &work.names, arguments);
                self.note(done);
                self.say(")");
            }
            _ => {}
        }
    }

    /// The text with long lines folded at blanks, what comes behind the fold four columns deeper; nothing where memory ran out before.
    pub fn folded(&self, alloc: Global, width: usize) -> Result<Vec<u8>, AllocError> {
        if self.is_cut {
            return Err(AllocError);
        }
        let mut out = Vec::new(alloc);
        for line in self.bytes.split(|b| *b == b'\n') {
            fold_line(&mut out, line, width)?;
        }
        let _last = out.pop();
        Ok(out)
    }
}

/// What a table of lines `KEY: WORDS` has for a key.
pub fn entry_of<'a>(table: &'a str, key: &[u8]) -> Option<&'a [u8]> {
    for line in table.as_bytes().split(|b| *b == b'\n') {
        if let Some(rest) = line.strip_prefix(key) {
            if let Some(words) = rest.strip_prefix(b": ") {
                return Some(words);
            }
        }
    }
    None
}

/// How many blanks and digits a line begins with.
fn indent_of(line: &[u8]) -> usize {
    let text = line
        .iter()
        .position(|b| *b != b' ' && (*b < b'0' || *b > b'9'));
    text.unwrap_or(0)
}

/// Where a line that is too long is folded: behind the last blank that still fits, at least one byte behind a start; 0 where there is none.
fn fold_at(line: &[u8], width: usize, start: usize) -> usize {
    let mut fold = 0;
    for k in start..width.min(line.len()) {
        if line.get(k) == Some(&b' ') {
            fold = k.saturating_add(1);
        }
    }
    fold
}

/// Appends a line, folded where it is longer than the width.
fn fold_line(out: &mut Vec<u8>, line: &[u8], width: usize) -> Result<(), AllocError> {
    let indent = indent_of(line).saturating_add(4).min(width / 2);
    let mut rest = line;
    let mut start = indent;
    let mut room = width;
    for _ in 0..line.len() {
        if rest.len() <= room {
            break;
        }
        let fold = fold_at(rest, room.saturating_add(1), start);
        let cut = if fold == 0 { room } else { fold };
        let (Some(front), Some(behind)) = (rest.get(..cut), rest.get(cut..)) else {
            break;
        };
        out.extend_from_slice(front)?;
        if fold > 0 {
            let _blank = out.pop();
        }
        out.push(b'\n')?;
        for _ in 0..indent {
            out.push(b' ')?;
        }
        rest = behind;
        start = 1;
        room = width.saturating_sub(indent);
    }
    out.extend_from_slice(rest)?;
    out.push(b'\n')?;
    Ok(())
}
