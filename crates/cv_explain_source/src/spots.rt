ghost use Rattle.std.specs.Prelude.{◌≡◌, ◌-◌, ◌≤◌, ◌++◌, ◌∷◌, [], IfOk, length, replicate, take};
ghost use Rattle.cv_explain_source.specs.Spots.{column_behind, line_behind};

use std::alloc::{AllocError, Global};

/// Where a byte stands: its line and its column, both counted from 1, and the byte with which its line begins.
#[derive(Clone, Copy)]
pub struct Spot {
    pub line: usize,
    pub column: usize,
    pub start: usize,
}

/// Where a byte of a text stands, or the end of the text.
pub fn spot_of(bytes: &[u8], byte: usize) -> Spot
    requires within { byte ≤ length bytes.now }
    ensures line { result.line ≡ line_behind (take byte bytes.now) }
    ensures column { result.column ≡ column_behind (take byte bytes.now) }
{
    let before = &bytes[..byte];
    let mut line = 1;
    let mut column = 1;
    'bytes: for k in 0..before.len() {
        if before[k] == b'\n' {
            line += 1;
            column = 1;
        } else {
            column += 1;
        }
    }
    Spot {
        line,
        column,
        start: byte.saturating_sub(column.saturating_sub(1)),
    }
}

/// The line that begins with a byte, without its end.
pub fn line_at(bytes: &[u8], start: usize) -> &[u8] {
    let rest = match bytes.get(start..) {
        Some(rest) => rest,
        None => &[],
    };
    match rest.iter().position(|b| *b == b'\n') {
        Some(len) => &rest[..len],
        None => rest,
    }
}

/// A mark below a column.
pub fn caret_line(alloc: Global, column: usize) -> Result<Vec<u8>, AllocError>
    ensures { IfOk result (λ v. v.items ≡ replicate (column - 1) 32 ++ 94 ∷ []) }
{
    let mut line = Vec::new(alloc);
    'blanks: for _ in 0..column.saturating_sub(1) {
        line.push(b' ')?;
    }
    line.push(b'^')?;
    Ok(line)
}
