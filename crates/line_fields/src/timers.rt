//! The names of timers.

ghost use Rattle.std.specs.Prelude.{◌≡◌};
ghost use Rattle.line_fields.specs.Reading.{Gives};
ghost use Rattle.line_fields.specs.Choice.{kind_field};
ghost use Rattle.line_fields.specs.Timers.{timer_name, timers_of};

use crate::fault::{FaultKind, TextFault};
use crate::fields::Fields;
use case_forms::{Timer, Version};

/// The name of a timer.
pub fn timer_name(timer: Timer) -> &'static str
    ensures { result.now ≡ timer_name timer }
{
    match timer {
        Timer::Rto => "rto",
        Timer::Persist => "persist",
        Timer::Msl2 => "2msl",
        Timer::Giveup => "giveup",
        Timer::Pto => "pto",
    }
}

/// The next field, the name of a timer in a text of this version. The error is Field if it is missing or is no such
/// name.
pub fn timer(version: Version, fields: &mut Fields) -> Result<Timer, TextFault>
    ensures { Gives (λ timer. (timer, fields.new)) result (kind_field timer_name (timers_of version) fields.old) }
{
    let name = fields.next()?;
    if name.is("rto") {
        Ok(Timer::Rto)
    } else if name.is("persist") {
        Ok(Timer::Persist)
    } else if name.is("2msl") {
        Ok(Timer::Msl2)
    } else if name.is("giveup") {
        Ok(Timer::Giveup)
    } else if version.says_sender() && name.is("pto") {
        Ok(Timer::Pto)
    } else {
        Err(name.fault(FaultKind::Field))
    }
}
