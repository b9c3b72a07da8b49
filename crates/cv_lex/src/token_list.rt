// A list of tokens, and the end token behind them. The tokens' texts lie one behind another in one buffer.

ghost use Rattle.std.specs.Prelude.{◌≡◌, ◌<◌, length, OnOk, OnErr, [], ◌∷◌};
ghost use Rattle.cv_lex.specs.Lexis.{Token, end_token, IsToken};

use crate::TokenKind;
use std::alloc::{AllocError, Global};
use std::marker::Model;

// One token: its text is the part of the buffer from `start` to `end`.
#[derive(Clone, Copy)]
pub struct Entry {
    kind: TokenKind,
    offset: u32,
    start: usize,
    end: usize,
}

/// A list of tokens, ended by one end token.
#[derive(Drop)]
pub struct Tokens {
    buffer: String,
    entries: Vec<Entry>,
    end: u32,
}

impl Model for Tokens {
    ghost use Rattle.std.specs.Prelude.{List, [], ◌∷◌, ◌++◌, string_bytes};
    ghost use Rattle.cv_lex.specs.Lexis.{Token, end_token};
    ghost use Rattle.cv_lex.specs.View.{tokens_in, IsWhole};

    ghost Value = { List Token };

    ghost view = { λ s. tokens_in (string_bytes s.buffer) s.entries.items ++ end_token s.end ∷ [] };

    ghost invariant = { λ s. IsWhole (string_bytes s.buffer) s.entries.items };
}

impl Tokens {
    ghost use Rattle.cv_lex.specs.View.{token_at, with_token, AreTokens};

    /// The end token alone. Takes no memory.
    pub fn new(alloc: Global, end: u32) -> Tokens
        ensures { result ≡ end_token end ∷ [] }
    {
        Tokens {
            buffer: String::new(alloc),
            entries: Vec::new(alloc),
            end,
        }
    }

    /// Puts a token directly before the end token. Its offset may be any number. Fails only where memory runs out.
    pub fn push(&mut self, kind: TokenKind, text: &str, offset: u32) -> Result<(), AllocError>
        requires token { IsToken kind text.now }
        requires room { length self.old < 4294967295 }
        ensures ok { OnOk result (self.new
            ≡ with_token self.old (record { kind = kind; text = text.now; offset = offset })) }
        ensures err { OnErr result (self.new ≡ self.old) }
    {
        let start = self.buffer.len();
        self.buffer.push_str(text)?;
        let end = self.buffer.len();
        self.entries.push(Entry {
            kind,
            offset,
            start,
            end,
        })?;
        Ok(())
    }

    /// How many tokens there are, the end token among them.
    pub fn len(&self) -> u32
        ensures value { result ≡ length self.now }
        ensures tokens { AreTokens self.now }
    {
        self.entries.len() as u32 + 1
    }

    /// The kind of a token; tokens are counted from 0.
    pub fn kind(&self, k: u32) -> TokenKind
        requires { k < length self.now }
        ensures { result ≡ (token_at self.now k).kind }
    {
        let k = k as usize;
        if k < self.entries.len() {
            self.entries[k].kind
        } else {
            TokenKind::End
        }
    }

    /// The bytes of a token as they stand in its text; empty for the end token.
    pub fn text(&self, k: u32) -> &str
        requires { k < length self.now }
        ensures { result.now ≡ (token_at self.now k).text }
    {
        let k = k as usize;
        if k < self.entries.len() {
            let entry = self.entries[k];
            &self.buffer.as_str()[entry.start..entry.end]
        } else {
            ""
        }
    }

    /// The byte of the text at which a token begins.
    pub fn offset(&self, k: u32) -> u32
        requires { k < length self.now }
        ensures { result ≡ (token_at self.now k).offset }
    {
        let k = k as usize;
        if k < self.entries.len() {
            self.entries[k].offset
        } else {
            self.end
        }
    }
}
