// How far a process is read.

ghost use Rattle.std.specs.Prelude.{◌≡◌, IfOk, OnOk};
ghost use Rattle.cv_oracles.specs.Readings.{behind, defines as is_oracle, noted, opening_of as opening_by};
ghost use Rattle.cv_oracles.specs.Steps.{step as step_of};

use crate::form::{Form, Mode};
use crate::frames::{Frame, Frames, Opening, Sought};
use crate::region::is_name;
use crate::step::step;
use cv_lex::TokenKind;
use std::alloc::{AllocError, Global};

/// What is awaited, the number of the name of the oracle that is defined, and what is open.
#[derive(Drop)]
pub struct Reading {
    pub mode: Mode,
    pub oracle: u32,
    pub frames: Frames,
}

// What a text opens in an output process.
fn opening_of(text: &str) -> Option<Opening>
    ensures { result ≡ opening_by text.now }
{
    if text == "(" {
        Some(Opening::Parenthesis)
    } else if text == "if" {
        Some(Opening::If)
    } else if text == "find" {
        Some(Opening::Find)
    } else {
        None
    }
}

impl Reading {
    ghost use Rattle.cv_oracles.specs.Readings.{at_start, closed, entered, opened};

    /// At the start of a process, behind the token with this number.
    pub fn new(alloc: Global, word: u32) -> Reading
        ensures { result ≡ at_start word }
    {
        Reading {
            mode: Mode::Input,
            oracle: word,
            frames: Frames::new(alloc),
        }
    }

    /// Whether an identifier is the name of an oracle that is defined there.
    pub fn defines(&self, kind: TokenKind, text: &str) -> bool
        ensures { result ≡ is_oracle self.now kind text.now }
    {
        matches!(self.mode, Mode::Input) && is_name(kind, text)
    }

    // At an input process.
    fn enter(&mut self, kind: TokenKind, text: &str, k: u32) -> Result<(), AllocError>
        ensures { OnOk result (self.new ≡ entered self.old kind text.now k) }
    {
        if text == "(" {
            let oracle = self.oracle;
            self.frames.push(Frame {
                opening: Opening::Parenthesis,
                oracle,
            })
        } else {
            if is_name(kind, text) {
                self.oracle = k;
            }
            Ok(())
        }
    }

    // At an output process.
    fn open_by(&mut self, text: &str) -> Result<(), AllocError>
        ensures { OnOk result (self.new ≡ opened self.old text.now) }
    {
        let oracle = self.oracle;
        match opening_of(text) {
            Some(opening) => self.frames.push(Frame { opening, oracle }),
            None => Ok(()),
        }
    }

    // Behind a process.
    fn close(&mut self, text: &str)
        ensures { self.new ≡ closed self.old text.now }
    {
        if text == ")" {
            self.frames.close_within(Sought::Parenthesis);
            self.frames.pop();
        } else if text == "else" {
            self.frames.close_within(Sought::Test);
            self.oracle = self.frames.oracle(self.oracle);
            self.frames.pop();
        } else if text == "orfind" {
            self.frames.close_within(Sought::Find);
            self.oracle = self.frames.oracle(self.oracle);
        }
    }

    // Notes what a token opens, closes or defines.
    fn note(&mut self, kind: TokenKind, text: &str, k: u32) -> Result<(), AllocError>
        ensures { OnOk result (self.new ≡ noted self.old kind text.now k) }
    {
        match self.mode {
            Mode::Input => self.enter(kind, text, k),
            Mode::Output => self.open_by(text),
            Mode::Behind => {
                self.close(text);
                Ok(())
            }
            _ => Ok(()),
        }
    }

    /// Goes behind a token, and says what is written for it.
    pub fn advance(
        &mut self,
        kind: TokenKind,
        text: &str,
        next: &str,
        k: u32,
    ) -> Result<Form, AllocError>
        ensures form { IfOk result (λ form.
            form ≡ (step_of self.old.mode kind text.now next.now).0) }
        ensures reading { OnOk result (self.new ≡ behind self.old kind text.now next.now k) }
    {
        let (form, mode) = step(self.mode, kind, text, next);
        self.note(kind, text, k)?;
        self.mode = mode;
        Ok(form)
    }
}
