// What is written for a token of a process.

/// What is written for a token.
#[derive(Clone, Copy)]
pub enum Form {
    Itself,
    /// What no file has there.
    Refused,
    Nothing,
    /// `!`
    Bang,
    /// `in(O,`
    Receives,
    /// `);`
    Begins,
    /// `yield`
    Yields,
    /// `out(O,`
    Sends,
    /// `out(O, ())`
    SendsNothing,
    /// `new x:`
    Draws,
    /// `let x`
    Binds,
    /// `=`
    Equals,
    /// `in`
    Into,
    /// `))`
    Ends,
}

/// What is awaited in a process.
#[derive(Clone, Copy)]
pub enum Mode {
    /// An input process.
    Input,
    /// The index behind `foreach`.
    Index,
    /// The `<=` behind it.
    Below,
    /// The parameter behind that.
    Bound,
    /// The word `do`.
    Do,
    /// The parenthesis behind the name of an oracle.
    Head,
    /// Its variables, up to the parenthesis that closes them.
    Variables,
    /// The `:=` behind that.
    Defines,
    /// An output process.
    Output,
    /// The `<-` behind a variable that is drawn.
    Arrow,
    /// The `R` behind it.
    Random,
    /// What stands up to `;`.
    Line,
    /// The `:` behind a variable that is bound.
    Colon,
    /// The type of the variable.
    OfType,
    /// The `<-` behind the type.
    Gets,
    /// The term behind it, up to `;`.
    Term,
    /// A test, up to `then`.
    Test,
    /// What is returned; so many parentheses are open.
    Payload(u32),
    /// What stands behind a process.
    Behind,
}
