// Tokens with the brackets around them. What stands behind the last token is an empty word.
use cv_lex::Tokens;
use std::alloc::{AllocError, Global};

/// The tokens of a text, each with how many brackets are open before it.
#[derive(Drop)]
pub struct Text {
    tokens: Tokens,
    depths: Vec<u32>,
}

impl Text {
    ghost use Rattle.std.specs.Prelude.{◌≡◌, ◌<◌, length};
    ghost use Rattle.cv_lex.specs.View.{token_at};

    /// Of tokens.
    pub fn of(alloc: Global, tokens: Tokens) -> Result<Text, AllocError> {
        let mut depths = Vec::new(alloc);
        let mut depth = 0_u32;
        for k in 0..tokens.len() {
            depths.push(depth)?;
            match tokens.text(k) {
                "(" | "[" | "{" => depth = depth.saturating_add(1),
                ")" | "]" | "}" => depth = depth.saturating_sub(1),
                _ => {}
            }
        }
        Ok(Text { tokens, depths })
    }

    /// The tokens themselves.
    pub fn tokens(&self) -> &Tokens {
        &self.tokens
    }

    /// How many tokens there are, the end token among them.
    pub fn len(&self) -> u32
        ensures { result ≡ length self.now.tokens }
    {
        self.tokens.len()
    }

    /// The text of a token.
    pub fn word(&self, k: u32) -> &str
        ensures { k < length self.now.tokens → result.now ≡ (token_at self.now.tokens k).text }
    {
        if k < self.tokens.len() {
            self.tokens.text(k)
        } else {
            ""
        }
    }

    /// Whether a token has this text.
    pub fn is(&self, k: u32, word: &str) -> bool {
        self.word(k) == word
    }

    /// How many brackets are open before a token; none behind the last one.
    pub fn depth(&self, k: u32) -> u32 {
        self.depths.get(k as usize).copied().unwrap_or(0)
    }

    /// The byte with which a token begins; 0 for those behind the last one.
    pub fn offset(&self, k: u32) -> usize
        ensures { k < length self.now.tokens → result ≡ (token_at self.now.tokens k).offset }
    {
        if k < self.tokens.len() {
            self.tokens.offset(k) as usize
        } else {
            0
        }
    }

    /// The first token from one on that has a text.
    pub fn find(&self, from: u32, word: &str) -> Option<u32> {
        for k in from..self.len() {
            if self.is(k, word) {
                return Some(k);
            }
        }
        None
    }

    /// The token of a number, from 1, of those that have one of two texts.
    pub fn find_nth(&self, words: (&str, &str), number: u32) -> Option<u32> {
        let mut left = number;
        for k in 0..self.len() {
            if self.is(k, words.0) || self.is(k, words.1) {
                left = left.saturating_sub(1);
                if left == 0 {
                    return Some(k);
                }
            }
        }
        None
    }
}
