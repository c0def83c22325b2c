//! The first line of a witness, and the numbers of the lines of its steps.

ghost use Rattle.std.specs.Prelude.{◌≡◌, ◌<◌, ◌+◌, ◌^◌};
ghost use Rattle.line_fields.specs.FirstLine.{first_text};

use case_forms::Version;

/// The text of a witness's first line, which names the version.
pub fn first_text(version: Version) -> &'static str
    ensures { result.now ≡ first_text version }
{
    match version {
        Version::One => "witness 1",
        Version::Two => "witness 2",
        Version::Three => "witness 3",
        Version::Four | Version::FourHalf => "witness 4",
        Version::Five | Version::FiveHalf => "witness 5",
        Version::Six | Version::SixHalf => "witness 6",
    }
}

/// The number of the line of a witness's first step.
pub const FIRST_STEP: u64 = 2;

/// The number of the line of the step after this many others.
#[inline(always)]
pub fn step_line(place: u64) -> u64
    requires { place + 2 < 2 ^ 64 }
    ensures { result ≡ place + 2 }
{
    place + FIRST_STEP
}
