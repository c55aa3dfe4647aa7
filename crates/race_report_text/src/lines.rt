//! The line of each race, and the line with their count.

ghost use Rattle.std.specs.Prelude.{◌≡◌, ◌++◌, IfOk, OnOk, length};
ghost use Rattle.std.specs.List.{flat_map};
ghost use Rattle.race_report_text.specs.Lines.{race_line, count_line, text_of_report};

use race_report_places::{Race, Report};
use run_recorder_text::put::{number, put};
use run_recorder_text::{loc, op};
use std::alloc::Global;
use upc_text::OutOfMemory;

fn race_text(text: &mut Vec<u8>, race: &Race) -> Result<(), OutOfMemory>
    ensures { OnOk result (text.new.items ≡ text.old.items ++ race_line race.now) }
{
    put(text, "race ")?;
    loc(text, &race.loc)?;
    put(text, " ")?;
    op(text, &race.first)?;
    put(text, " ")?;
    op(text, &race.second)?;
    put(text, "\n")
}

fn races_text(text: &mut Vec<u8>, races: &[Race]) -> Result<(), OutOfMemory>
    ensures { OnOk result (text.new.items ≡ text.old.items ++ flat_map race_line races.now) }
{
    for race in races {
        race_text(text, race)?;
    }
    Ok(())
}

fn count_text(text: &mut Vec<u8>, count: usize) -> Result<(), OutOfMemory>
    ensures { OnOk result (text.new.items ≡ text.old.items ++ count_line count) }
{
    put(text, "races ")?;
    number(text, count)?;
    put(text, "\n")
}

/// The text of a report: a line for each race, and one with their count.
pub fn report_text(alloc: Global, report: &Report) -> Result<Vec<u8>, OutOfMemory>
    ensures { IfOk result (λ text. text.items ≡ text_of_report report.now) }
{
    let mut text = Vec::new(alloc);
    races_text(&mut text, report.races.as_slice())?;
    count_text(&mut text, report.races.len())?;
    Ok(text)
}
