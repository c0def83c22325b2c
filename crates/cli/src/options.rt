//! Options of a command line, and the numbers that they give.

ghost use Rattle.std.specs.Prelude.{◌≡◌, ◌≢◌, ◌++◌, false, ℕ, List, IfOk, MatchOption, codes, map};
ghost use Rattle.clap.specs.Words.{app_of, rule_of, fault_of, found_of, matches_of, rows_of, FailsBy};
ghost use Rattle.clap.specs.declared.builder.command.Command.TheViews.{out-Command};
ghost use Rattle.cli.specs.CommandLine.{is_dashed};
ghost use Rattle.cli.specs.FileWords.{BeginsWith};
ghost use Rattle.cli.specs.Options.{number, number_in, IsNumberIn};

use case_forms::OutOfMemory;
use clap::builder::ValueParser;
use clap::error::ErrorKind;
use clap::{Arg, ArgAction, ArgMatches, Command, Error};
use std::alloc::{AllocError, Global};

/// Whether a text begins with a dash.
pub(crate) fn is_dashed(text: &str) -> bool
    ensures { result ≡ is_dashed text.now }
{
    text.as_bytes().first() == Some(&b'-')
}

/// The value of an option that comes first, and the words after it.
pub(crate) fn take_option<'w, 'r>(
    words: &'r [&'w str],
    option: &str,
) -> Option<(&'w str, &'r [&'w str])>
    ensures { MatchOption result
        ((value : List ℕ) (behind : List (List ℕ))
        → ¬ BeginsWith option.now value behind (map (λ word. word.now) words.entry.now))
        (λ found. BeginsWith option.now found.0.now (map (λ word. word.now) found.1.now)
        (map (λ word. word.now) words.entry.now)) }
{
    let [first, rest @ ..] = words else {
        return None;
    };
    if let Some(value) = joined_value(first, option) {
        return Some((value, rest));
    }
    let [value, rest @ ..] = rest else {
        return None;
    };
    if *first != option || is_dashed(value) {
        return None;
    }
    Some((value, rest))
}

// What follows an option and an equals sign in one word.
fn joined_value<'w>(word: &'w str, option: &str) -> Option<&'w str>
    ensures { MatchOption result
        ((value : List ℕ) → word.entry.now ≢ option.now ++ codes "=" ++ value)
        (λ value. word.entry.now ≡ option.now ++ codes "=" ++ value.now) }
{
    word.strip_prefix(option)?.strip_prefix("=")
}

/// The number of this range that a text spells. None: it spells none.
pub(crate) fn number_in(
    alloc: Global,
    text: &str,
    least: u64,
    most: u64,
) -> Result<Option<u64>, OutOfMemory>
    ensures { IfOk result (λ found. MatchOption found
        ((n : ℕ) → ¬ IsNumberIn least most text.now n) (IsNumberIn least most text.now)) }
{
    // After a dash, `clap` would look for an option.
    if is_dashed(text) {
        return Ok(None);
    }
    match parse(alloc, &[text], least, most) {
        Ok(matches) => Ok(matches.get_one("number")),
        Err(error) => match error.kind() {
            ErrorKind::OutOfMemory => Err(AllocError),
            _ => Ok(None),
        },
    }
}

// The words as `clap` reads them: one number of this range.
fn parse<'a>(
    alloc: Global,
    words: &'a [&'a str],
    least: u64,
    most: u64,
) -> Result<ArgMatches<'a>, Error>
    ensures ok { IfOk result (λ matches. rows_of (found_of matches)
        ≡ matches_of (number_in least most) (map (λ word. word.now) words.now)) }
    ensures exact { FailsBy (fault_of (number_in least most) (map (λ word. word.now) words.now)) result }
{
    let command = make_command(alloc, least, most)?;
    command.try_get_matches_from(words)
}

// What `clap` reads: a number of this range.
fn make_command<'a>(alloc: Global, least: u64, most: u64) -> Result<Command<'a>, AllocError>
    ensures { IfOk result (λ command. app_of command ≡ number_in least most) }
{
    let number = make_number(alloc, least, most);
    let top = Command::new(alloc, "number").no_binary_name(true);
    let whole = top.arg(number)?;
    Ok(whole)
}

// The number as an argument.
fn make_number<'a>(alloc: Global, least: u64, most: u64) -> Arg<'a>
    ensures rule { rule_of result ≡ number least most }
    ensures local { result.global ≡ false }
{
    Arg::new(alloc, "number")
        .required(true)
        .action(ArgAction::Set)
        .value_parser(ValueParser::unsigned(least, most))
}
