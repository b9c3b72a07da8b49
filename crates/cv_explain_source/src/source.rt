// A file as its reader sees it: its name and its bytes.
ghost use Rattle.std.specs.Prelude.{◌≡◌, ◌<◌, ◌≤◌, length, take};
ghost use Rattle.cv_lex.specs.View.{token_at};
ghost use Rattle.cv_explain_source.specs.Spots.{column_behind, line_behind};

use crate::page::Page;
use crate::spots::{Spot, caret_line, line_at, spot_of};
use crate::tokens::Text;

/// The most columns of a line of the file that are shown.
const MOST_COLUMNS: usize = 90;

/// A file by its name and its bytes.
#[derive(Clone, Copy)]
pub struct Source<'a> {
    pub name: &'a str,
    pub bytes: &'a [u8],
}

/// Where a token of a file stands.
pub fn spot_at(bytes: &[u8], text: &Text, token: u32) -> Spot
    requires token { token < length text.now.tokens }
    requires within { (token_at text.now.tokens token).offset ≤ length bytes.now }
    ensures line { result.line
        ≡ line_behind (take (token_at text.now.tokens token).offset bytes.now) }
    ensures column { result.column
        ≡ column_behind (take (token_at text.now.tokens token).offset bytes.now) }
{
    spot_of(bytes, text.offset(token))
}

impl<'a> Source<'a> {
    /// Says where a byte stands, what is to be said of it, and shows its line with a mark below it.
    pub fn point(&self, page: &mut Page, byte: usize, said: &Page) {
        let spot = spot_of(self.bytes, byte.min(self.bytes.len()));
        page.say(self.name);
        page.number(":", spot.line as u64);
        page.number(":", spot.column as u64);
        page.say(": ");
        page.join(said);
        page.say("\n");
        let line = line_at(self.bytes, spot.start);
        let hidden = spot.column.saturating_sub(MOST_COLUMNS);
        let shown = line.get(hidden..).unwrap_or(line);
        page.column(spot.line as u64);
        page.say(" | ");
        page.show(shown.get(..MOST_COLUMNS).unwrap_or(shown));
        page.say("\n       | ");
        let alloc = page.alloc();
        let mark = page.took(caret_line(alloc, spot.column.saturating_sub(hidden)));
        page.add(&mark);
        page.say("\n");
    }

    /// The line of a token.
    pub fn line(&self, text: &Text, token: u32) -> u64 {
        let byte = text.offset(token).min(self.bytes.len());
        spot_of(self.bytes, byte).line as u64
    }

    /// Says words, and behind them the line and the column of a token, as `12:3`.
    pub fn place(&self, page: &mut Page, words: &str, text: &Text, token: u32) {
        let byte = text.offset(token).min(self.bytes.len());
        let spot = spot_of(self.bytes, byte);
        page.number(words, spot.line as u64);
        page.number(":", spot.column as u64);
    }
}
