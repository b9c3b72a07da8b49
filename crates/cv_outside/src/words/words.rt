ghost use Rattle.std.specs.Prelude.{◌≡◌, ◌&&◌, IfOk, None, Some, codes, if◌then◌else◌, map, nat_le, option_and_then, option_map, string_bytes};
ghost use Rattle.std.specs.Fmt.{decimal};
ghost use Rattle.std.specs.Str.{bytes_eq};
ghost use Rattle.clap.specs.Words.{first_of, found_of, rows_of, subcommand_rows_of};
ghost use Rattle.cv_outside.specs.words.Clap.{taken};
ghost use Rattle.cv_outside.specs.words.Words.{asked_by, asked_of, command_read, file_in, games_asked, is_set as set, library_in, moves_in, number_in as number_of, prove_asked, query_in, sample_asked};

use crate::words::app::cv_command;
use clap::ArgMatches;
use clap::error::ErrorKind;
use std::alloc::{AllocError, Global};

/// How many moves a proof has where the words don't say.
const USUAL_MOVES: u32 = 32;

/// How many moves the words may say.
const MOST_MOVES: u32 = 1000;

/// The last number that the words may give a query.
const MOST_QUERIES: u32 = 1_000_000;

/// The number of the last sample.
const MOST_SAMPLES: u32 = 32;

/// What words ask for.
#[derive(Clone, Copy, Debug, PartialEq, Eq)]
pub enum Request<'a> {
    /// A proof of a file's queries, or of the one with this number alone, in at most so many moves, with or without further ones.
    Prove {
        file: &'a str,
        moves: u32,
        more: bool,
        library: Option<&'a str>,
        query: Option<u32>,
    },
    /// The games of a file's proof block, without verdicts.
    Games {
        file: &'a str,
        library: Option<&'a str>,
    },
    /// The text of the sample of a number, or a proof of its queries.
    Sample {
        number: u32,
        prove: bool,
    },
}

/// Whether a text is what is written for a number.
fn is_written(alloc: Global, number: u32, text: &str) -> Result<bool, AllocError>
    ensures { IfOk result (λ b. b ≡ bytes_eq (decimal number) text.now) }
{
    let written = format!(in alloc; "{number}")?;
    Ok(written.as_str() == text)
}

/// A number that is written so, where it lies in a range.
fn in_range(number: u32, written: bool, least: u32, most: u32) -> Option<u32>
    ensures { result
        ≡ (if written && (nat_le least number && nat_le number most) then Some number else None) }
{
    if written && least <= number && number <= most {
        Some(number)
    } else {
        None
    }
}

/// The number of a range that a text writes, without sign or leading zero.
fn number_in(alloc: Global, text: &str, least: u32, most: u32) -> Result<Option<u32>, AllocError>
    ensures { IfOk result (λ n. n ≡ number_of least most text.now) }
{
    let Ok(number) = text.parse::<u32>() else {
        return Ok(None);
    };
    let written = is_written(alloc, number, text)?;
    Ok(in_range(number, written, least, most))
}

/// What the words give for an argument.
#[tactic(auto, using(crate::proofs::words::Rows::rows))]
fn given<'a>(matches: &ArgMatches<'a>, id: &str) -> Option<&'a str>
    ensures { option_map (λ s. s.now) result
        ≡ first_of id.now (rows_of (found_of matches.now)) }
{
    matches.get_str(id)
}

/// The name of a file, where it isn't empty.
fn file<'a>(matches: &ArgMatches<'a>) -> Option<&'a str>
    ensures { option_map (λ s. s.now) result
        ≡ file_in (first_of (codes "file") (rows_of (found_of matches.now))) }
{
    match given(matches, "file") {
        Some(name) if !name.is_empty() => Some(name),
        _ => None,
    }
}

/// The name of a library, where it isn't empty, or none.
fn library<'a>(matches: &ArgMatches<'a>) -> Option<Option<&'a str>>
    ensures { option_map (λ l. option_map (λ s. s.now) l) result
        ≡ library_in (first_of (codes "lib") (rows_of (found_of matches.now))) }
{
    match given(matches, "lib") {
        Some(name) if name.is_empty() => None,
        named => Some(named),
    }
}

/// How many moves a proof may have.
fn moves(alloc: Global, matches: &ArgMatches<'_>) -> Result<Option<u32>, AllocError>
    ensures { IfOk result (λ n. n
        ≡ moves_in (first_of (codes "moves") (rows_of (found_of matches.now)))) }
{
    match given(matches, "moves") {
        Some(text) => number_in(alloc, text, 0, MOST_MOVES),
        None => Ok(Some(USUAL_MOVES)),
    }
}

/// The number of the query that is asked alone, or none.
fn query(alloc: Global, matches: &ArgMatches<'_>) -> Result<Option<Option<u32>>, AllocError>
    ensures { IfOk result (λ k. k
        ≡ query_in (first_of (codes "query") (rows_of (found_of matches.now)))) }
{
    let Some(text) = given(matches, "query") else {
        return Ok(Some(None));
    };
    match number_in(alloc, text, 1, MOST_QUERIES)? {
        Some(number) => Ok(Some(Some(number))),
        None => Ok(None),
    }
}

/// Whether a flag is given.
fn is_set(matches: &ArgMatches<'_>, id: &str) -> bool
    ensures { result ≡ set (first_of id.now (rows_of (found_of matches.now))) }
{
    match given(matches, id) {
        Some(text) => text == "true",
        None => false,
    }
}

/// What `prove` asks for.
fn prove_request<'a>(
    alloc: Global,
    matches: &ArgMatches<'a>,
) -> Result<Option<Request<'a>>, AllocError>
    ensures { IfOk result (λ r. option_map asked_of r
        ≡ prove_asked (first_of (codes "file") (rows_of (found_of matches.now)))
        (first_of (codes "moves") (rows_of (found_of matches.now)))
        (first_of (codes "more") (rows_of (found_of matches.now)))
        (first_of (codes "lib") (rows_of (found_of matches.now)))
        (first_of (codes "query") (rows_of (found_of matches.now)))) }
{
    let Some(file) = file(matches) else {
        return Ok(None);
    };
    let Some(moves) = moves(alloc, matches)? else {
        return Ok(None);
    };
    let Some(library) = library(matches) else {
        return Ok(None);
    };
    let Some(query) = query(alloc, matches)? else {
        return Ok(None);
    };
    Ok(Some(Request::Prove {
        file,
        moves,
        more: is_set(matches, "more"),
        library,
        query,
    }))
}

/// What `games` asks for.
fn games_request<'a>(matches: &ArgMatches<'a>) -> Option<Request<'a>>
    ensures { option_map asked_of result
        ≡ games_asked (first_of (codes "file") (rows_of (found_of matches.now)))
        (first_of (codes "lib") (rows_of (found_of matches.now))) }
{
    let file = file(matches)?;
    match library(matches) {
        Some(library) => Some(Request::Games { file, library }),
        None => None,
    }
}

/// What `sample` asks for.
fn sample_request<'a>(
    alloc: Global,
    matches: &ArgMatches<'a>,
) -> Result<Option<Request<'a>>, AllocError>
    ensures { IfOk result (λ r. option_map asked_of r
        ≡ sample_asked (first_of (codes "number") (rows_of (found_of matches.now)))
        (first_of (codes "prove") (rows_of (found_of matches.now)))) }
{
    let Some(text) = given(matches, "number") else {
        return Ok(None);
    };
    match number_in(alloc, text, 1, MOST_SAMPLES)? {
        Some(number) => Ok(Some(Request::Sample {
            number,
            prove: is_set(matches, "prove"),
        })),
        None => Ok(None),
    }
}

/// What a subcommand asks for.
fn subcommand_request<'a>(
    alloc: Global,
    name: &str,
    matches: &ArgMatches<'a>,
) -> Result<Option<Request<'a>>, AllocError>
    ensures { IfOk result (λ r. option_map asked_of r
        ≡ asked_by name.now (rows_of (found_of matches.now))) }
{
    match name {
        "prove" => prove_request(alloc, matches),
        "games" => Ok(games_request(matches)),
        _ => sample_request(alloc, matches),
    }
}

/// What `clap` finds in the words, where it takes them.
fn matched<'a>(alloc: Global, words: &'a [String]) -> Result<Option<ArgMatches<'a>>, AllocError>
    ensures { IfOk result (λ m. option_and_then subcommand_rows_of m
        ≡ taken (map string_bytes words.now)) }
{
    match cv_command(alloc)?.try_get_matches_from(words) {
        Ok(matches) => Ok(Some(matches)),
        Err(error) if error.kind() == ErrorKind::OutOfMemory => Err(AllocError),
        Err(_) => Ok(None),
    }
}

/// The subcommand that was found, with what stands behind it.
fn subcommand<'m, 'a>(matches: &'m ArgMatches<'a>) -> Option<(&'a str, &'m ArgMatches<'a>)>
    ensures { option_map (λ p. (p.0.now, rows_of (found_of p.1.now))) result
        ≡ subcommand_rows_of matches.now }
{
    matches.subcommand()
}

/// What the words of a command ask for, of which the first is the program's name.
#[tactic(auto, unfolding(crate::specs::words::Words::command_read))]
pub fn command<'a>(alloc: Global, words: &'a [String]) -> Result<Option<Request<'a>>, AllocError>
    ensures { IfOk result (λ r. option_map asked_of r
        ≡ command_read (map string_bytes words.now)) }
{
    let Some(matches) = matched(alloc, words)? else {
        return Ok(None);
    };
    match subcommand(&matches) {
        Some((name, inner)) => subcommand_request(alloc, name, inner),
        None => Ok(None),
    }
}
