// The sheet call: a sheet is judged, then come rule 14 and the report. And what tsav-sheet prints of a sheet.
#![tactic(auto)]

ghost use Rattle.std.specs.Prelude.{◌≡◌};
ghost use Rattle.refusal.specs.Outcome.{stated_number};
ghost use Rattle.text_answer.specs.Lent.{Done};
ghost use Rattle.text_answer.specs.Printing.{printout, Printed};
ghost use Rattle.judgement.specs.Judgement.{judgement};
ghost use Rattle.sheet_call.specs.Call.{answer_to, sheet_call};
ghost use Rattle.sheet_call.specs.Demand.{Demand3, PrintedWhole};

use figures::NumberedFigures;
use ledger::Ledger;
use refusal::{Place, Refusal, Rule};
use report::LONGEST_REPORT;
use sizes::BLOCKS;

// A sheet of any bytes, and a lent report of any length: nothing is written of it before every rule passes.
#[tactic(auto, using(sheet_answer::proofs::Judgements::turned, crate::proofs::Rules::few, crate::proofs::Accuracy::promised))]
pub fn sheet_call(sheet: &[u8], report: &mut [u8]) -> Result<usize, Refusal>
    ensures answer { ◌≡◌ {A = Done} (record { outcome = stated_number result; room = report.new }) (sheet_call sheet.now report.old) }
    ensures demand3 { Demand3 sheet.now (stated_number result) report.new }
    ensures printed_whole { PrintedWhole sheet.now (stated_number result) report.new }
{
    let mut ledger = Ledger::new();
    let mut rows = [NumberedFigures::default(); BLOCKS];
    let t = judgement::judge(sheet, &mut ledger, &mut rows)?;
    let length = report::length_for(t.count);
    if report.len() < length {
        return Err(Refusal(Rule::RoomTooShort, Place::Nowhere));
    }
    report::write_report(&rows[..t.count], &[t.sum, t.ro, t.buffer], report);
    Ok(length)
}

// What tsav-sheet prints of a sheet of any bytes, from the room's start on: the report, or the line of the refusal. It gives how many
// bytes that is. There is room for every report, so that 14 never comes.
// Kept: two lines in each of four calls, as `text_answer::print_answer` says.
pub fn print_sheet(sheet: &[u8], room: &mut [u8; LONGEST_REPORT]) -> usize
    ensures { Printed (printout (answer_to (judgement sheet.now))) result room.old room.new }
{
    let answer = sheet_call(sheet, room);
    text_answer::print_answer(answer, room)
}
