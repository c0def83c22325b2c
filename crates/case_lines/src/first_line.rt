//! The first line of a trace, which names the version.

ghost use Rattle.std.specs.Prelude.{◌≡◌, [], ◌∷◌};
ghost use Rattle.bstr.specs.Text.{lines_of};
ghost use Rattle.line_fields.specs.Spelling.{joined};
ghost use Rattle.case_lines.specs.FirstLine.{first_words, begins_trace, version_named};

use bstr::ByteSlice;
use case_forms::Version;
use line_fields::{is_text, without_line_end};

/// The first line, which names the version of the text.
pub fn first_text(version: Version) -> &'static str
    ensures { result.now ≡ joined (first_words version) }
{
    match version {
        Version::One => "trace 1",
        Version::Two => "trace 2",
        Version::Three => "trace 3",
        Version::Four | Version::FourHalf => "trace 4",
        Version::Five | Version::FiveHalf => "trace 5",
        Version::Six | Version::SixHalf => "trace 6",
    }
}

// Whether a line, given with its end, is exactly the first line of a trace of this version, ended with LF or CR LF.
fn begins_trace(version: Version, raw: &[u8]) -> bool
    ensures { result ≡ begins_trace version raw.now }
{
    let (text, ended) = without_line_end(raw);
    ended && is_text(text, first_text(version))
}

/// The version that a first line names, given with its end, which it must have; version 1 if it names none.
pub(crate) fn version_of_line(raw: &[u8]) -> Version
    ensures { result ≡ version_named (raw.now ∷ []) }
{
    match raw {
        raw if begins_trace(Version::Two, raw) => Version::Two,
        raw if begins_trace(Version::Three, raw) => Version::Three,
        raw if begins_trace(Version::Four, raw) => Version::Four,
        raw if begins_trace(Version::Five, raw) => Version::Five,
        raw if begins_trace(Version::Six, raw) => Version::Six,
        _ => Version::One,
    }
}

/// The version in the first line of a text, if this line has an end; version 1 if it names none. A trace of version 4
/// to 6 counts as one of two hosts here, since only its line 8 says how many were recorded.
pub fn version_named(text: &[u8]) -> Version
    ensures { result ≡ version_named (lines_of text.now) }
{
    match text.lines_with_terminator().next() {
        Some(raw) => version_of_line(raw),
        None => Version::One,
    }
}
