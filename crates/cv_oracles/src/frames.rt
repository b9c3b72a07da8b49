// What is open in a process.

ghost use Rattle.std.specs.Prelude.{◌≡◌, ◌≤◌, length, reverse, take};
ghost use Rattle.cv_oracles.specs.Frames.{from_first, is_sought as is_one};

use std::alloc::{AllocError, Global};
use std::marker::Model;

/// What opens something.
#[derive(Clone, Copy)]
pub enum Opening {
    Parenthesis,
    If,
    Find,
}

/// Something that is open, with the number of the oracle's name in whose definition it stands.
#[derive(Clone, Copy)]
pub struct Frame {
    pub opening: Opening,
    pub oracle: u32,
}

/// What is looked for among what is open.
#[derive(Clone, Copy)]
pub enum Sought {
    Parenthesis,
    /// An `if` or a `find`.
    Test,
    Find,
}

fn is_sought(sought: Sought, frame: Frame) -> bool
    ensures { result ≡ is_one sought frame }
{
    match sought {
        Sought::Parenthesis => matches!(frame.opening, Opening::Parenthesis),
        Sought::Test => !matches!(frame.opening, Opening::Parenthesis),
        Sought::Find => matches!(frame.opening, Opening::Find),
    }
}

// How many stay open where all is closed within the last one that is sought.
fn left(frames: &[Frame], sought: Sought) -> usize
    ensures frames { reverse (take result frames.now)
        ≡ from_first (is_one sought) (reverse frames.now) }
    ensures few { result ≤ length frames.now }
{
    let mut count = frames.len();
    'frames: while count > 0 {
        if is_sought(sought, frames[count - 1]) {
            return count;
        }
        count -= 1;
    }
    count
}

/// What is open, the innermost first.
#[derive(Drop)]
pub struct Frames {
    items: Vec<Frame>,
}

impl Model for Frames {
    ghost use Rattle.std.specs.Prelude.{List, reverse};
    ghost use Rattle.cv_oracles.specs.declared.frames.Frame.{Frame};

    ghost Value = { List Frame };

    ghost view = { λ s. reverse s.items.items };
}

impl Frames {
    ghost use Rattle.std.specs.Prelude.{OnOk, [], ◌∷◌};
    ghost use Rattle.cv_oracles.specs.Frames.{behind_first, innermost};

    pub fn new(alloc: Global) -> Frames
        ensures { result ≡ [] }
    {
        Frames {
            items: Vec::new(alloc),
        }
    }

    /// Opens something.
    pub fn push(&mut self, frame: Frame) -> Result<(), AllocError>
        ensures { OnOk result (self.new ≡ frame ∷ self.old) }
    {
        self.items.push(frame)?;
        Ok(())
    }

    /// Closes all within the innermost one that is sought.
    pub fn close_within(&mut self, sought: Sought)
        ensures { self.new ≡ from_first (is_one sought) self.old }
    {
        let count = left(self.items.as_slice(), sought);
        self.items.truncate(count);
    }

    /// Closes the innermost one.
    pub fn pop(&mut self)
        ensures { self.new ≡ behind_first self.old }
    {
        let _ = self.items.pop();
    }

    /// The oracle of the innermost one, or another.
    pub fn oracle(&self, other: u32) -> u32
        ensures { result ≡ innermost self.now other }
    {
        match self.items.last() {
            Some(frame) => frame.oracle,
            None => other,
        }
    }
}
