// The parts of a file, token by token.

ghost use Rattle.std.specs.Prelude.{◌≡◌, ◌+◌, ◌≤◌, ◌<◌, ◌^◌};
ghost use Rattle.cv_alone.specs.Parts.{begins_query as begins_one, block_behind as block_after, part_at as part_of, part_behind as part_after};
ghost use Rattle.cv_alone.specs.Sizes.{depth_of};

/// A part of a file.
#[derive(Clone, Copy)]
pub enum Part {
    Outside,
    Query,
    /// A proof block of which so many braces are open; none is before its first one.
    Block(u32),
}

// The part to which a token belongs, by the one that is open before it.
fn part_at(part: Part, text: &str) -> Part
    ensures value { result ≡ part_of part text.now }
    ensures depth { depth_of result ≡ depth_of part }
{
    if !matches!(part, Part::Outside) {
        part
    } else if text == "query" {
        Part::Query
    } else if text == "proof" {
        Part::Block(0)
    } else {
        Part::Outside
    }
}

// The part behind a closing brace of a block, where so many were open before it.
fn block_behind(depth: u32) -> Part
    ensures value { result ≡ block_after depth }
    ensures depth { depth_of result ≤ depth }
{
    if depth == 1 {
        Part::Outside
    } else {
        Part::Block(depth.saturating_sub(1))
    }
}

// The part that is open behind a token of one.
fn part_behind(part: Part, text: &str) -> Part
    requires { depth_of part + 1 < 2 ^ 32 }
    ensures value { result ≡ part_after part text.now }
    ensures depth { depth_of result ≤ depth_of part + 1 }
{
    match part {
        Part::Block(depth) if text == "{" => Part::Block(depth + 1),
        Part::Block(depth) if text == "}" => block_behind(depth),
        Part::Query if text == "." => Part::Outside,
        _ => part,
    }
}

// Whether a query begins at a token.
fn begins_query(part: Part, text: &str) -> bool
    ensures { result ≡ begins_one part text.now }
{
    matches!(part, Part::Outside) && text == "query"
}

/// How far a file is read: the part, and how many queries have begun.
#[derive(Clone, Copy)]
pub struct Reading {
    pub part: Part,
    pub queries: u32,
}

impl Reading {
    ghost use Rattle.cv_alone.specs.Parts.{at_start, at_token, behind_token, is_left_out as is_out};

    /// Before the first token.
    pub fn start() -> Reading
        ensures { result ≡ at_start }
    {
        Reading {
            part: Part::Outside,
            queries: 0,
        }
    }

    /// At the next token.
    pub fn at(self, text: &str) -> Reading
        requires { self.queries + 1 < 2 ^ 32 }
        ensures { result ≡ at_token self text.now }
    {
        let queries = if begins_query(self.part, text) {
            self.queries + 1
        } else {
            self.queries
        };
        Reading {
            part: part_at(self.part, text),
            queries,
        }
    }

    /// Behind the token at which it is.
    pub fn behind(self, text: &str) -> Reading
        requires { depth_of self.part + 1 < 2 ^ 32 }
        ensures { result ≡ behind_token self text.now }
    {
        Reading {
            part: part_behind(self.part, text),
            queries: self.queries,
        }
    }

    /// Whether the token at which it is is left out for the query with a number.
    pub fn is_left_out(self, number: u32) -> bool
        ensures { result ≡ is_out number self }
    {
        match self.part {
            Part::Outside => false,
            Part::Query => self.queries != number,
            Part::Block(_) => true,
        }
    }
}
