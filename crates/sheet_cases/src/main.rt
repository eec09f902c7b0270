// Runs the sheet call on stored cases. Standard input has, for each case, a header of 12 bytes, the sheet's length and the room lent
// in five digits each, and then the sheet; the file stdout beside src/ has what an independent calculation answers. The room is filled
// with '#' before the call, and written whole after it.
#![tactic(auto)]

ghost use Rattle.std.specs.Prelude.{◌<◌};

use refusal::Refusal;
use report::LONGEST_REPORT;
use report_line::{REPORT_LINE_BYTES, Row};
use sheet_length::SHEET_ROOM;
use std::io::Read;

// The bytes of a case's header.
const HEADER: usize = 12;

// Room for the longest report and more.
const REPORT_ROOM: usize = LONGEST_REPORT + 93;

// More cases than this would be cut off, and the comparison would show it.
const MOST_CASES: usize = 1000;

// What a case's header says.
#[derive(Clone, Copy)]
struct Header {
    length: usize,
    lent: usize,
}

// Runs case after case.
fn main(rt: HostRuntime) {
    let mut input = rt.stdin();
    for _ in 0..MOST_CASES {
        let Some(h) = next_case(&mut input) else {
            return;
        };
        one(&rt, &mut input, h);
    }
}

// The header of the next case; none at the end of the input.
fn next_case<R: Read>(input: &mut R) -> Option<Header> {
    let mut text = [0u8; HEADER];
    input.read_exact(&mut text).ok()?;
    Some(Header {
        length: number(&text[0..5]),
        lent: number(&text[6..11]),
    })
}

// The number that digits spell.
fn number(digits: &[u8]) -> usize {
    digits.iter().fold(0, |n: usize, &b| n.wrapping_mul(10).wrapping_add(digit(b)))
}

// A digit. A byte that is none counts by its remainder by 10, so that five columns are never more than 99,999.
fn digit(b: u8) -> usize
    ensures { result < 10 }
{
    usize::from(b.saturating_sub(b'0')) % 10
}

// One case, where the program has room for its sheet and for the report.
fn one<R: Read>(rt: &impl Print, input: &mut R, h: Header) {
    let mut sheet = [0u8; SHEET_ROOM];
    let mut room = [b'#'; REPORT_ROOM];
    if h.length <= SHEET_ROOM && h.lent <= REPORT_ROOM {
        run(rt, input, &mut sheet[0..h.length], &mut room[0..h.lent]);
    }
}

// Reads the sheet, calls, and writes answer and room.
fn run<R: Read>(rt: &impl Print, input: &mut R, sheet: &mut [u8], room: &mut [u8]) {
    if input.read_exact(sheet).is_err() {
        return;
    }
    let answer = sheet_call::sheet_call(sheet, room);
    print_answer(rt, answer);
    show(rt, room);
    show(rt, b"\n");
}

// The answer in the form of a report line: ACC and the length, or REF, the number, the kind of the place and the place.
fn print_answer(rt: &impl Print, answer: Result<usize, Refusal>) {
    let row = match answer {
        Ok(length) => Row {
            code: *b"ACC",
            block: 0,
            item: 0,
            number: cast::word(length),
        },
        Err(Refusal(rule, place)) => {
            let [kind, number]: [u64; 2] = place.into();
            Row {
                code: *b"REF",
                block: rule.number(),
                item: kind,
                number,
            }
        }
    };
    let mut text = [0u8; REPORT_LINE_BYTES];
    row.write(&mut text);
    show(rt, &text);
}

// A text.
fn show(rt: &impl Print, text: &[u8]) {
    let _ = rt.write_all(text);
}
