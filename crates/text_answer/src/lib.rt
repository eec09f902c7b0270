// A call that leaves a text in lent room: what it answers, and what a program prints of it, the text or the line of the refusal.
#![tactic(auto)]

ghost use Rattle.std.specs.Prelude.{◌≡◌, ◌-◌, ◌≤◌, ◌<◌, length};
ghost use Rattle.refusal.specs.Outcome.{rule_number};
ghost use Rattle.report_line.specs.Line.{line_bytes, report_line_bytes, row_in};
ghost use Rattle.text_answer.specs.Printing.{refusal_row, Shown, ShownByNumber};

use refusal::{Place, Refusal};
use report_line::{REPORT_LINE_BYTES, Row};

// What is printed after a call has answered by its text's length or by a refusal: the text that it left, or in front of the room the line of the
// refusal. It gives how many bytes that is.
// Kept: each of four calls and then this, two lines. A function over the call would be these two lines, with a clause of what a call leaves.
pub fn print_answer(answer: Result<usize, Refusal>, room: &mut [u8]) -> usize
    requires { report_line_bytes ≤ length room.old }
    ensures { Shown answer result room.old room.new }
{
    let by_number = answer.map_err(
        |refusal: Refusal|
            ensures { (result.0 ≡ rule_number refusal.0) × (result.1 ≡ refusal.1) }
        { (refusal.0.number(), refusal.1) },
    );
    print_answer_by_number(by_number, room)
}

// The same of an answer that tells its refusal by any number, a caller's own too.
pub fn print_answer_by_number(answer: Result<usize, (u64, Place)>, room: &mut [u8]) -> usize
    requires { report_line_bytes ≤ length room.old }
    ensures { ShownByNumber answer result room.old room.new }
{
    match answer {
        Ok(n) => n,
        Err((number, place)) => {
            write_refusal_by_number(&mut room[0..REPORT_LINE_BYTES], number, place);
            REPORT_LINE_BYTES
        }
    }
}

// The line of a refusal, in a stretch that is longer than a line without its place: the place has the columns that are left beside the rest of the line.
pub fn write_refusal(out: &mut [u8], refusal: Refusal)
    requires { line_bytes 0 < length out.old }
    ensures { out.new ≡ row_in (length out.old - line_bytes 0) (refusal_row (rule_number refusal.0) refusal.1) }
{
    let Refusal(rule, place) = refusal;
    write_refusal_by_number(out, rule.number(), place);
}

// The same of a refusal by any number, of which the line has the last two digits.
pub fn write_refusal_by_number(out: &mut [u8], number: u64, place: Place)
    requires { line_bytes 0 < length out.old }
    ensures { out.new ≡ row_in (length out.old - line_bytes 0) (refusal_row number place) }
{
    let at: [u64; 2] = place.into();
    let row = Row {
        code: *b"REF",
        block: number,
        item: 0,
        number: at[1],
    };
    row.write_in(out);
}
