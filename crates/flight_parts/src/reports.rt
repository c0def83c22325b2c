//! What a peer's blocks report as received.

ghost use Rattle.std.specs.Prelude.{◌≡◌, OnOk};
ghost use Rattle.spec_flights.specs.Delivered.{read_reports, report_of, with_reports, without_reports};
ghost use Rattle.spec_flights.specs.Stretches.{no_positions};

use crate::sides::are_selective;
use case_forms::OutOfMemory;
use spec_duties::{Block, Blocks};
use spec_flights::{Reports, Sides, Stretch};
use streams::Ranges;

/// No positions.
pub fn no_positions() -> Stretch
    ensures { result ≡ no_positions }
{
    Stretch { from: 0, upto: 0 }
}

fn report_of(block: Option<Block>) -> Stretch
    ensures { result ≡ report_of block }
{
    match block {
        Some(block) => Stretch {
            from: block.from,
            upto: block.upto,
        },
        None => no_positions(),
    }
}

/// What an endpoint reads of the blocks of a segment.
pub fn read_reports(sides: Sides, blocks: &Blocks) -> Reports
    ensures { result ≡ read_reports sides blocks.now }
{
    if are_selective(sides) {
        Reports {
            first: report_of(blocks.first),
            second: report_of(blocks.second),
            third: report_of(blocks.third),
            fourth: report_of(blocks.fourth),
        }
    } else {
        Reports {
            first: no_positions(),
            second: no_positions(),
            third: no_positions(),
            fourth: no_positions(),
        }
    }
}

/// Adds what is reported to a set.
pub fn add_reports(held: &mut Ranges, r: &Reports) -> Result<(), OutOfMemory>
    ensures { OnOk result (held.new ≡ with_reports held.old r.now) }
{
    held.add(r.first.from, r.first.upto)?;
    held.add(r.second.from, r.second.upto)?;
    held.add(r.third.from, r.third.upto)?;
    held.add(r.fourth.from, r.fourth.upto)?;
    Ok(())
}

/// Removes what is reported from a set.
pub fn remove_reports(held: &mut Ranges, r: &Reports) -> Result<(), OutOfMemory>
    ensures { OnOk result (held.new ≡ without_reports held.old r.now) }
{
    held.remove(r.first.from, r.first.upto)?;
    held.remove(r.second.from, r.second.upto)?;
    held.remove(r.third.from, r.third.upto)?;
    held.remove(r.fourth.from, r.fourth.upto)?;
    Ok(())
}
