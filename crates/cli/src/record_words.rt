//! The options of a recording, and the plan that they request.

ghost use Rattle.std.specs.Prelude.{◌≡◌, ◌∷◌, ℕ, List, IfOk, MatchOption, codes, map};
ghost use Rattle.two_hosts.specs.declared.plan.Plan.{Plan};
ghost use Rattle.cli.specs.FileWords.{BeginsWith};
ghost use Rattle.cli.specs.RecordReading.{AsksPlan, settings_of, with_number, with_setting};
ghost use Rattle.cli.specs.RecordWords.{dashed, least, most, AsksRecord, TellEach};
ghost use Rattle.cli.specs.declared.record_words.Setting.{Setting};

use crate::options::{number_in, take_option};
use case_forms::{OutOfMemory, Version};
use std::alloc::Global;
use two_hosts::Plan;

/// An option of a recording.
#[derive(Clone, Copy)]
pub(crate) enum Setting {
    /// How many rounds there are.
    Rounds,
    /// One in this many segments of each host is lost.
    Lose,
    /// The version of the texts.
    Format,
}

/// The number that an option gives.
#[derive(Clone, Copy)]
pub(crate) enum Given {
    /// The option isn't in the words.
    Never,
    /// It is there once, with this number.
    Once(u16),
    /// It is there again.
    Again,
}

/// What the options give.
#[derive(Clone, Copy)]
pub(crate) struct Settings {
    rounds: Given,
    lose: Given,
    format: Given,
}

/// The plan of the recording that options request. None: they request none.
pub(crate) fn plan_in(alloc: Global, options: &[&str]) -> Result<Option<Plan>, OutOfMemory>
    ensures { IfOk result (λ asked. MatchOption asked
        ((plan : Plan) → ¬ AsksRecord (codes "record" ∷ map (λ word. word.now) options.now) plan)
        (AsksRecord (codes "record" ∷ map (λ word. word.now) options.now))) }
{
    match settings_in(alloc, options)? {
        Some(settings) => Ok(settings.plan()),
        None => Ok(None),
    }
}

// What options give. None: a word is no option, or its number isn't one that the option accepts.
fn settings_in(alloc: Global, words: &[&str]) -> Result<Option<Settings>, OutOfMemory>
    ensures { IfOk result (λ given. MatchOption given
        ((options : List (Setting × ℕ)) → ¬ TellEach options (map (λ word. word.now) words.now))
        (λ settings. (options : List (Setting × ℕ)) × TellEach options (map (λ word. word.now) words.now)
        × (settings ≡ settings_of options))) }
{
    let mut settings = Settings {
        rounds: Given::Never,
        lose: Given::Never,
        format: Given::Never,
    };
    let mut at = 0;
    while at < words.len() {
        let Some((setting, value, rest)) = first_setting(&words[at..]) else {
            return Ok(None);
        };
        let Some(number) = number_in(alloc, value, least(setting), most(setting))? else {
            return Ok(None);
        };
        settings = settings.with(setting, number as u16);
        at = words.len() - rest.len();
    }
    Ok(Some(settings))
}

// The option that comes first, its value, and the words after it.
fn first_setting<'w, 'r>(words: &'r [&'w str]) -> Option<(Setting, &'w str, &'r [&'w str])>
    ensures { MatchOption result
        ((setting : Setting) (value : List ℕ) (behind : List (List ℕ))
        → ¬ BeginsWith (dashed setting) value behind (map (λ word. word.now) words.entry.now))
        (λ found. BeginsWith (dashed found.0) found.1.now (map (λ word. word.now) found.2.now)
        (map (λ word. word.now) words.entry.now)) }
{
    if let Some((value, rest)) = take_option(words, "--rounds") {
        return Some((Setting::Rounds, value, rest));
    }
    if let Some((value, rest)) = take_option(words, "--lose") {
        return Some((Setting::Lose, value, rest));
    }
    let (value, rest) = take_option(words, "--format")?;
    Some((Setting::Format, value, rest))
}

// The least number that an option accepts.
fn least(setting: Setting) -> u64
    ensures { result ≡ least setting }
{
    match setting {
        Setting::Rounds | Setting::Format => 1,
        Setting::Lose => 0,
    }
}

// The greatest number that an option accepts.
fn most(setting: Setting) -> u64
    ensures { result ≡ most setting }
{
    match setting {
        Setting::Rounds | Setting::Lose => 1_000,
        Setting::Format => 2,
    }
}

impl Given {
    // With one more number.
    fn with(self, number: u16) -> Given
        ensures { result ≡ with_number number self }
    {
        match self {
            Given::Never => Given::Once(number),
            Given::Once(_) | Given::Again => Given::Again,
        }
    }
}

impl Settings {
    // With the number of one more option.
    fn with(self, setting: Setting, number: u16) -> Settings
        ensures { result ≡ with_setting setting number self }
    {
        match setting {
            Setting::Rounds => Settings {
                rounds: self.rounds.with(number),
                ..self
            },
            Setting::Lose => Settings {
                lose: self.lose.with(number),
                ..self
            },
            Setting::Format => Settings {
                format: self.format.with(number),
                ..self
            },
        }
    }

    // The plan that they request. None: an option is missing or given again, or every segment would be lost.
    fn plan(self) -> Option<Plan>
        ensures { MatchOption result ((plan : Plan) → ¬ AsksPlan self plan) (AsksPlan self) }
    {
        let (Given::Once(rounds), Given::Once(lose)) = (self.rounds, self.lose) else {
            return None;
        };
        if lose == 1 {
            return None;
        }
        let version = match self.format {
            Given::Never | Given::Once(1) => Version::One,
            Given::Once(2) => Version::Two,
            Given::Once(_) | Given::Again => return None,
        };
        Some(Plan {
            rounds,
            lose: u32::from(lose),
            version,
        })
    }
}
