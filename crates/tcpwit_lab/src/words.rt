//! What the words after the program's name request.

use crate::search_words::{expiries_of, ways_of};
use case_forms::Judged;
use drawing::Range;
use help::{Program, Topic, topic_of};
use judging::{GREATEST_SLACK, Settings, Slack, is_stricter};
use std::env::{Env, FillError};
use why::Origin;
use witness_search::{SearchOptions, USUAL_BUDGET};

/// What the words request.
#[derive(Clone, Copy)]
pub(crate) enum Request<'w> {
    /// To print this help, or the version.
    Help(Topic<'w>),
    /// A command.
    Command(Asked<'w>),
    /// Nothing that the program does.
    Unknown,
}

/// What is done with the text, or the texts, of standard input.
#[derive(Clone, Copy)]
pub(crate) enum Asked<'w> {
    Find(SearchOptions),
    /// Where the segments of the case come from.
    Explain(Origin, Form),
    Show,
    Draw(Range),
    Judge(Judging<'w>, Form),
    /// To judge many texts, each ended by a line `end`.
    JudgeMany(Judging<'w>),
    Remark(Form),
}

/// How an answer is written.
#[derive(Clone, Copy)]
pub(crate) enum Form {
    /// As lines for readers.
    Lines,
    /// As one JSON object.
    Json,
}

impl Asked<'_> {
    /// How the answer is written.
    pub(crate) fn form(&self) -> Form {
        match self {
            Asked::Explain(_, form) | Asked::Judge(_, form) | Asked::Remark(form) => *form,
            Asked::JudgeMany(_) => Form::Json,
            Asked::Find(_) | Asked::Show | Asked::Draw(_) => Form::Lines,
        }
    }
}

/// What the words after `judge` ask for.
#[derive(Clone, Copy)]
pub(crate) struct Judging<'w> {
    /// The weakest level whose yes is a success.
    pub least: Judged,
    /// The file in which the case of the last level is kept. None: it isn't kept.
    pub case: Option<&'w str>,
    /// How the trace is judged. The first level is `least` or a stricter one.
    pub settings: Settings,
}

/// What the words request.
pub(crate) fn request_of<'w>(words: &[&'w str]) -> Request<'w> {
    match topic_of(Program::TcpwitLab, words) {
        Some(topic) => Request::Help(topic),
        None => match asked_by(words) {
            Some(asked) => Request::Command(asked),
            None => Request::Unknown,
        },
    }
}

// The command that the words are. None: they are none.
fn asked_by<'w>(words: &[&'w str]) -> Option<Asked<'w>> {
    let [subcommand, options @ ..] = words else {
        return None;
    };
    match (*subcommand, options) {
        ("find", _) => Some(Asked::Find(find_options(options)?)),
        ("judge", _) => judge_asked(options),
        ("draw", _) => Some(Asked::Draw(range_of(options)?)),
        ("explain", _) => Some(Asked::Explain(origin_of(options)?, form_of(options))),
        ("show", []) => Some(Asked::Show),
        ("remark", _) if are_options(options, &[JSON]) => Some(Asked::Remark(form_of(options))),
        _ => None,
    }
}

// The options without a value.
const JSON: &str = "--json";

const SIMULATED: &str = "--simulated";

const MANY: &str = "--many";

// How `--json` or its absence lets an answer be written.
fn form_of(options: &[&str]) -> Form {
    match value_of(options, JSON) {
        Some(_) => Form::Json,
        None => Form::Lines,
    }
}

/// How the answer is written if memory runs out before the process's words are read. No memory is needed to find the
/// word `--json`.
pub(crate) fn unread_form<E: Env>(env: &E) -> Form {
    let mut word = [0; 6];
    for place in 0..usize::MAX {
        match env.arg(place, &mut word) {
            Ok(length) if word.get(..length) == Some(JSON.as_bytes()) => return Form::Json,
            Ok(_) | Err(FillError::TooLong) => {}
            Err(FillError::NotPresent) => break,
        }
    }
    Form::Lines
}

// Where `--simulated` or its absence says that the segments come from. None: other words.
fn origin_of(options: &[&str]) -> Option<Origin> {
    if !are_options(options, &[SIMULATED, JSON]) {
        return None;
    }
    match value_of(options, SIMULATED) {
        Some(_) => Some(Origin::Simulated),
        None => Some(Origin::Captured),
    }
}

// What `--budget N`, `--ways WAYS` and `--expiries HOSTS` ask of a search. None: other words.
fn find_options(options: &[&str]) -> Option<SearchOptions> {
    if !are_options(options, &["--budget", "--ways", "--expiries"]) {
        return None;
    }
    search_options(options)
}

// What the words of a search ask of it. None: a value that is badly written.
fn search_options(options: &[&str]) -> Option<SearchOptions> {
    Some(SearchOptions {
        budget: budget_of(value_of(options, "--budget"))?,
        expiries: expiries_of(value_of(options, "--expiries"))?,
        ways: ways_of(value_of(options, "--ways"))?,
    })
}

// What the options of `judge` ask for. `--many` wants `--json` and no `--case`. None: other words.
fn judge_asked<'w>(options: &[&'w str]) -> Option<Asked<'w>> {
    let judging = judging_of(options)?;
    match (value_of(options, MANY), form_of(options), judging.case) {
        (None, form, _) => Some(Asked::Judge(judging, form)),
        (Some(_), Form::Json, None) => Some(Asked::JudgeMany(judging)),
        (Some(_), _, _) => None,
    }
}

// What `--least LEVEL`, `--from LEVEL`, `--slack SLACK`, `--case FILE` and the options of a search ask for, in any
// order and each at most once; `--json` and `--many` may be among them. LEVEL is `full`, `recovery` or `none`. Without
// `--from`, the first level is that of `--least`. FILE isn't empty. None: other words, or a first level that is laxer.
fn judging_of<'w>(options: &[&'w str]) -> Option<Judging<'w>> {
    let names = [
        "--least",
        "--from",
        "--slack",
        "--case",
        "--budget",
        "--ways",
        "--expiries",
        JSON,
        MANY,
    ];
    if !are_options(options, &names) {
        return None;
    }
    let least = level_of(value_of(options, "--least"), Judged::Full)?;
    let from = level_of(value_of(options, "--from"), least)?;
    if is_stricter(least, from) {
        return None;
    }
    let settings = Settings {
        from,
        slack: slack_of(value_of(options, "--slack"))?,
        search: search_options(options)?,
    };
    match value_of(options, "--case") {
        Some("") => None,
        case => Some(Judging {
            least,
            case,
            settings,
        }),
    }
}

// The level that a value names, or the usual one if there is no value. None: another word.
fn level_of(value: Option<&str>, usual: Judged) -> Option<Judged> {
    match value {
        None => Some(usual),
        Some("full") => Some(Judged::Full),
        Some("recovery") => Some(Judged::Recovery),
        Some("none") => Some(Judged::NoControl),
        Some(_) => None,
    }
}

// The lines that `--from N`, `--to M` or both ask for, in either order. None: other words, an option twice, a number
// that is badly written, or M below N.
fn range_of(options: &[&str]) -> Option<Range> {
    if !are_options(options, &["--from", "--to"]) {
        return None;
    }
    let range = Range {
        from: line_number(value_of(options, "--from"))?,
        to: line_number(value_of(options, "--to"))?,
    };
    match (range.from, range.to) {
        (Some(from), Some(to)) if to < from => None,
        _ => Some(range),
    }
}

// The number of a line, in digits alone without a leading zero, if one is given. None: no such number.
fn line_number(value: Option<&str>) -> Option<Option<u64>> {
    match value {
        None => Some(None),
        Some("0") => None,
        Some(digits) => Some(Some(number_of(digits)?)),
    }
}

// The budget that the value of `--budget` gives; the usual one if there is no value. None: it isn't a number in digits
// alone, has a leading zero and isn't 0, or is above 2^64 - 1.
fn budget_of(value: Option<&str>) -> Option<u64> {
    match value {
        None => Some(USUAL_BUDGET),
        Some(digits) => count_of(digits),
    }
}

// The slack that the value of `--slack` gives: `any`, or a number of microseconds that a header can have. None: another
// word.
fn slack_of(value: Option<&str>) -> Option<Slack> {
    match value {
        None => Some(Slack::Usual),
        Some("any") => Some(Slack::Any),
        Some(digits) => match count_of(digits)? {
            slack if slack <= GREATEST_SLACK => Some(Slack::Given(slack)),
            _ => None,
        },
    }
}

// A number in digits alone, 0 or without a leading zero.
fn count_of(digits: &str) -> Option<u64> {
    match digits {
        "0" => Some(0),
        digits => number_of(digits),
    }
}

// A number in digits alone, without a leading zero.
fn number_of(digits: &str) -> Option<u64> {
    if digits.starts_with("+") || digits.starts_with("0") {
        return None;
    }
    digits.parse::<u64>().ok()
}

// Whether these words are options with these names, in any order and each at most once. Each but `--json`, `--many` and
// `--simulated` has a value: the next word, which doesn't begin with `-`, or what follows `=` in the same word.
fn are_options(words: &[&str], names: &[&str]) -> bool {
    let mut at: usize = 0;
    for _ in words {
        let Some((name, _, next)) = option_at(words, at) else {
            break;
        };
        let after = words.get(next..).unwrap_or(&[]);
        if !names.iter().any(|known| *known == name) || value_of(after, name).is_some() {
            return false;
        }
        at = next;
    }
    at == words.len()
}

// The value of the option with this name, if the words have it; empty for an option without a value.
fn value_of<'w>(words: &[&'w str], name: &str) -> Option<&'w str> {
    let mut at: usize = 0;
    for _ in words {
        let (found, value, next) = option_at(words, at)?;
        if found == name {
            return Some(value);
        }
        at = next;
    }
    None
}

// Whether an option has no value.
fn is_flag(name: &str) -> bool {
    name == JSON || name == SIMULATED || name == MANY
}

// The name and the value of the option at a place, and the place after both. None: no word is there, or it has no
// value.
fn option_at<'w>(words: &[&'w str], at: usize) -> Option<(&'w str, &'w str, usize)> {
    match words.get(at..)? {
        [] => None,
        [flag, ..] if is_flag(flag) => Some((*flag, "", at.saturating_add(1))),
        [first, rest @ ..] => match (first.split_once('='), rest) {
            (Some((name, _)), _) if is_flag(name) => None,
            (Some((name, value)), _) => Some((name, value, at.saturating_add(1))),
            (None, [value, ..]) if !value.starts_with("-") => {
                Some((*first, *value, at.saturating_add(2)))
            }
            (None, _) => None,
        },
    }
}
