// The numbers of tokens that refusals tell, in the source that was read.

ghost use Rattle.std.specs.Prelude.{◌≡◌};
ghost use Rattle.cv_oracles.specs.Translations.{number_by};
ghost use Rattle.cv_accept.specs.Numbers.{parse_told as parse_told_by, told as told_by};

use crate::error::FileError;
use cv_oracles::Source;
use cv_parse::ParseError;

fn parse_told(source: &Source, fault: ParseError) -> ParseError
    ensures { result
        ≡ parse_told_by (number_by source.now.numbered source.now.tokens) fault }
{
    match fault {
        ParseError::Syntax(k) => ParseError::Syntax(source.number(k)),
        ParseError::Nesting(k) => ParseError::Nesting(source.number(k)),
        ParseError::NameTwice(k) => ParseError::NameTwice(source.number(k)),
        ParseError::NameUnknown(k) => ParseError::NameUnknown(source.number(k)),
        ParseError::Build(fault) => ParseError::Build(fault),
    }
}

/// The same fault, with the number of its token in the source.
pub fn told(source: &Source, fault: FileError) -> FileError
    ensures { result ≡ told_by (number_by source.now.numbered source.now.tokens) fault }
{
    match fault {
        FileError::Parse(fault) => FileError::Parse(parse_told(source, fault)),
        FileError::Script(k) => FileError::Script(source.number(k)),
        other => other,
    }
}
