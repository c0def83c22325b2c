//! The command line for a case in two files.

ghost use Rattle.std.specs.Prelude.{◌≡◌, ◌∷◌, ◌↔◌, ℕ, List, IfOk, MatchOption, codes, map, option_map, string_bytes};
ghost use Rattle.cli.specs.FileWords.{has_nul, AreBoth, AreNamed, AsksFiles};

use crate::options::take_option;
use crate::request::{Request, request_of};
use case_forms::OutOfMemory;
use std::alloc::Global;

// The option of the trace's file.
const TRACE: &str = "--trace";

// The option of the witness's file.
const WITNESS: &str = "--witness";

/// The names of the trace's file and of the witness's, if the words are `check` and both options, each once and in
/// either order. None: they are other words, or a name has a NUL, like a word that wasn't UTF-8 (`given_words`). An
/// option and its name are two words, of which the name doesn't begin with a dash, or one word with a `=` between. The
/// error is that memory ran out.
pub fn file_names(alloc: Global, words: &[&str]) -> Result<Option<(String, String)>, OutOfMemory>
    ensures { IfOk result (λ named. (trace witness : List ℕ) →
        option_map {U = List ℕ × List ℕ} (λ names. (string_bytes names.0, string_bytes names.1)) named
        ≡ Some (trace, witness)
        ↔ AsksFiles (map (λ word. word.now) words.now) trace witness) }
{
    let Request::Files(trace, witness) = request_of(alloc, words)? else {
        return Ok(None);
    };
    let trace = String::from_str(alloc, trace)?;
    let witness = String::from_str(alloc, witness)?;
    Ok(Some((trace, witness)))
}

/// The names that the options after `check` give to the trace's file and to the witness's.
pub(crate) fn files_in<'w>(options: &[&'w str]) -> Option<(&'w str, &'w str)>
    ensures { MatchOption result
        ((trace witness : List ℕ) → ¬ AsksFiles (codes "check" ∷ map (λ word. word.now) options.now) trace witness)
        (λ names. AsksFiles (codes "check" ∷ map (λ word. word.now) options.now) names.0.now names.1.now) }
{
    let (trace, witness) = named_files(options)?;
    if has_nul(trace) || has_nul(witness) {
        return None;
    }
    Some((trace, witness))
}

// Whether a name has a NUL.
fn has_nul(name: &str) -> bool
    ensures { result ≡ has_nul name.now }
{
    name.as_bytes().contains(&0)
}

// The two names as they are in the options.
fn named_files<'w>(options: &[&'w str]) -> Option<(&'w str, &'w str)>
    ensures { MatchOption result
        ((trace witness : List ℕ) → ¬ AreNamed (codes "check" ∷ map (λ word. word.now) options.now) trace witness)
        (λ names. AreNamed (codes "check" ∷ map (λ word. word.now) options.now) names.0.now names.1.now) }
{
    if let Some(names) = both(options, TRACE, WITNESS) {
        return Some(names);
    }
    let (witness, trace) = both(options, WITNESS, TRACE)?;
    Some((trace, witness))
}

// The values of two options, if the words are these in this order and nothing else.
fn both<'w>(words: &[&'w str], first: &str, second: &str) -> Option<(&'w str, &'w str)>
    ensures { MatchOption result
        ((one two : List ℕ) → ¬ AreBoth first.now one second.now two (map (λ word. word.now) words.now))
        (λ values. AreBoth first.now values.0.now second.now values.1.now (map (λ word. word.now) words.now)) }
{
    let (one, rest) = take_option(words, first)?;
    let (two, rest) = take_option(rest, second)?;
    rest.is_empty().then_some((one, two))
}
