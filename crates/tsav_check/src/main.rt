// tsav-check: reads a sheet from standard input and writes the listing of its lines whose needs are unmet, or the line of its refusal. A read
// or a write that fails is said on standard error; a sheet that could not be read gets neither.
#![tactic(auto)]

ghost use Rattle.std.specs.Prelude.{◌≡◌};
ghost use Rattle.judgement.specs.Judgement.{judgement};
ghost use Rattle.text_answer.specs.Printing.{printout};
ghost use Rattle.check_call.specs.Call.{listing_to};
ghost use Rattle.stdio.specs.Answered.{Prints};

use needs::LONGEST_LISTING;
use sheet_length::SHEET_ROOM;
use std::io;
use std::io::{Read, Write};
use stdio::Failure;

// Has the sheet answered, or says what kept it from its answer.
// Kept: in each program, as the two sentences differ; which of them is told is `Failure::sentence`'s. No contract speaks of the system's streams.
fn main(rt: HostRuntime) {
    if let Err(failure) = answer(&mut rt.stdin(), &mut io::writer(&rt)) {
        let _ = rt.eprintln(failure.sentence(
            "tsav-check: the sheet cannot be read",
            "tsav-check: the listing cannot be written",
        ));
    }
}

// Of a sheet of any bytes and any length, the listing or the line of its refusal.
// Kept: in each program, as the rooms, the call and its text differ; what they share is `stdio::answer`.
fn answer<R: Read, W: Write>(input: &mut R, output: &mut W) -> Result<(), Failure>
    ensures { Prints (λ s. printout (listing_to (judgement s))) (R.remaining input.old) (W.contents output.old) (W.contents output.new) result }
{
    let mut sheet = [0u8; SHEET_ROOM];
    let mut listing = [0u8; LONGEST_LISTING];
    stdio::answer(
        input,
        output,
        &mut sheet,
        |sheet: &[u8]| -> &[u8]
            ensures { result.now ≡ printout (listing_to (judgement sheet.now)) }
        {
            let length = check_call::print_check(sheet, &mut listing);
            &listing[..length]
        },
    )
}
