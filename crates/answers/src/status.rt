//! The exit status of an answer to a case.

ghost use Rattle.std.specs.Prelude.{◌≡◌, if◌then◌else◌};
ghost use Rattle.answers.specs.Output.{status_of};

use checker::CaseFault;
use verdict::Verdict;

/// The status if a text is refused.
pub const REFUSED: u8 = 2;
/// The status if memory ran out.
pub const MEMORY: u8 = 4;
/// The status if a read or a write failed.
pub const DEVICE: u8 = 5;

/// 0 for yes, 1 for no.
pub fn exit_status(is_yes: bool) -> u8
    ensures { result ≡ (if is_yes then 0 else 1) }
{
    if is_yes { 0 } else { 1 }
}

/// The status of a case's answer: 0 for a yes, 1 for a no, else one of the constants.
pub fn status_of(answer: &Result<Verdict, CaseFault>) -> u8
    ensures { result ≡ status_of answer.now }
{
    match answer {
        Ok(Verdict::Yes { .. }) => exit_status(true),
        Ok(Verdict::No { .. }) => exit_status(false),
        Err(CaseFault::Trace(_) | CaseFault::Witness(_)) => REFUSED,
        Err(CaseFault::Read) => DEVICE,
        Err(CaseFault::OutOfMemory) => MEMORY,
    }
}
