// tsav-sheet: reads a sheet from standard input and writes its report, or the line of its refusal. A read or a write that fails is
// said on standard error; a sheet that could not be read gets neither a report nor a refusal.
#![tactic(auto)]

ghost use Rattle.std.specs.Prelude.{◌≡◌};
ghost use Rattle.judgement.specs.Judgement.{judgement};
ghost use Rattle.text_answer.specs.Printing.{printout};
ghost use Rattle.sheet_call.specs.Call.{answer_to};
ghost use Rattle.stdio.specs.Answered.{Prints};

use report::LONGEST_REPORT;
use sheet_length::SHEET_ROOM;
use std::io;
use std::io::{Read, Write};
use stdio::Failure;

// Has the sheet answered, or says what kept it from its answer.
// Kept: in each program, as the two sentences differ; which of them is told is `Failure::sentence`'s. No contract speaks of the system's streams.
fn main(rt: HostRuntime) {
    if let Err(failure) = answer(&mut rt.stdin(), &mut io::writer(&rt)) {
        let _ = rt.eprintln(failure.sentence(
            "tsav-sheet: the sheet cannot be read",
            "tsav-sheet: the report cannot be written",
        ));
    }
}

// Of a sheet of any bytes and any length, its report or the line of its refusal.
// Kept: in each program, as the rooms, the call and its text differ; what they share is `stdio::answer`.
fn answer<R: Read, W: Write>(input: &mut R, output: &mut W) -> Result<(), Failure>
    ensures { Prints (λ s. printout (answer_to (judgement s))) (R.remaining input.old) (W.contents output.old) (W.contents output.new) result }
{
    let mut sheet = [0u8; SHEET_ROOM];
    let mut report = [0u8; LONGEST_REPORT];
    stdio::answer(
        input,
        output,
        &mut sheet,
        |sheet: &[u8]| -> &[u8]
            ensures { result.now ≡ printout (answer_to (judgement sheet.now)) }
        {
            let length = sheet_call::print_sheet(sheet, &mut report);
            &report[..length]
        },
    )
}
