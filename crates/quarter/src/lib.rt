// The quarter's sheets together: an input is taken chunk by chunk, each sheet is answered as soon as it is closed, and the end of the input brings
// the summary, or what turns the input away. And the call on an input that is whole in memory.
#![tactic(auto)]

ghost use Rattle.std.specs.Prelude.{◌≡◌, List, [], ◌++◌, ℕ, ◌≤◌, length, drop};
ghost use Rattle.refusal.specs.Outcome.{stated_number};
ghost use Rattle.text_answer.specs.Lent.{Done};
ghost use Rattle.quarter.specs.Steps.{After, Reachable, ReachableInSomeRoom, Taken, Finished};
ghost use Rattle.quarter.specs.Call.{quarter_call, SummarySays};

use quarter_stream::OpenSheet;
use quarter_text::{LINE_BYTES, MOST_SHEETS};
use refusal::{Place, Refusal, Rule};
use sheet_length::SHEET_ROOM;
use std::ops::ControlFlow;
use summary::{SUMMARY_ITEMS, Summary};

// A line for each sheet, and the summary.
pub const OUTPUT_ROOM: usize = LINE_BYTES * (MOST_SHEETS + SUMMARY_ITEMS);

// What is known of an input so far: the sheet that is not closed yet, or none once a byte stood after the last closing line that an input may have;
// how many sheets were answered; and the summary.
// Kept: the room and the output are no fields of it: owned, their bytes would move with it; lent, each signature would have a lifetime.
#[derive(Clone, Copy)]
pub struct Quarter {
    pub held: Option<OpenSheet>,
    pub sheets: usize,
    pub summary: Summary,
}

// An input of any bytes, and lent room of any length: its text, whichever way it ends. It is worked out apart, so that nothing is written where the
// room is too short for it.
pub fn quarter_call(input: &[u8], room: &mut [u8]) -> Result<usize, Refusal>
    ensures answer { ◌≡◌ {A = Done} (record { outcome = stated_number result; room = room.new }) (quarter_call input.now room.old) }
    ensures summary_says { SummarySays input.now (stated_number result) room.new }
{
    let mut sheet = [0u8; SHEET_ROOM];
    let mut out = [0u8; OUTPUT_ROOM];
    let q = take_chunk(&mut sheet, &mut out, start(), input);
    let length = finish(&mut out, q);
    if room.len() < length {
        return Err(Refusal(Rule::RoomTooShort, Place::Nowhere));
    }
    copy_text(&out[..length], room);
    Ok(length)
}

// A text copied into the front of the room, two bytes at a time: a copy whose length isn't known beforehand, and a loop of one byte, would be a call
// of memcpy, which the archive for C does without.
fn copy_text(text: &[u8], room: &mut [u8])
    requires { length text.now ≤ length room.old }
    ensures { room.new ≡ text.now ++ drop (length text.now) room.old }
{
    for i in 0..text.len() / 2 {
        room[2 * i] = text[2 * i];
        room[2 * i + 1] = text[2 * i + 1];
    }
    if text.len() % 2 == 1 {
        let last = text.len() - 1;
        room[last] = text[last];
    }
}

// Before any byte, in rooms of the lengths that the steps are lent.
pub fn start() -> Quarter
    ensures { (room out : List ℕ) → length room ≡ SHEET_ROOM → length out ≡ OUTPUT_ROOM → After [] room out result }
{
    Quarter {
        held: Some(quarter_stream::new_sheet()),
        sheets: 0,
        summary: summary::no_sheets(),
    }
}

// The bytes of a chunk more, sheet after sheet. Nothing more is done once there are too many sheets.
pub fn take_chunk(
    room: &mut [u8; SHEET_ROOM],
    out: &mut [u8; OUTPUT_ROOM],
    q: Quarter,
    chunk: &[u8],
) -> Quarter
    requires { Reachable room.old out.old q }
    ensures { Taken room.old out.old q chunk.now room.new out.new result }
{
    let Some(mut held) = q.held else {
        return q;
    };
    let mut sheets = q.sheets;
    let mut summary = q.summary;
    let mut at = 0usize;
    while at < chunk.len() {
        if sheets == MOST_SHEETS {
            return Quarter {
                held: None,
                sheets,
                summary,
            };
        }
        match quarter_stream::scan(room, held, chunk, at) {
            ControlFlow::Continue(h) => {
                return Quarter {
                    held: Some(h),
                    sheets,
                    summary,
                };
            }
            ControlFlow::Break(closed) => {
                let from = LINE_BYTES * sheets;
                sheets += 1;
                summary = quarter_text::answer_sheet(
                    &room[..closed.length],
                    &mut out[from..from + LINE_BYTES],
                    sheets,
                    summary,
                );
                held = quarter_stream::new_sheet();
                at = closed.next;
            }
        }
    }
    Quarter {
        held: Some(held),
        sheets,
        summary,
    }
}

// After the last byte: the summary, or what turns the input away. It gives how many bytes there are to print.
pub fn finish(out: &mut [u8; OUTPUT_ROOM], q: Quarter) -> usize
    requires { ReachableInSomeRoom out.old q }
    ensures { Finished out.old q result out.new }
{
    let sheets = q.sheets;
    let from = LINE_BYTES * sheets;
    let line = from + LINE_BYTES;
    let Some(held) = q.held else {
        text_answer::write_refusal(
            &mut out[from..line],
            Refusal(Rule::TooManySheets, Place::Sheet(sheets + 1)),
        );
        return line;
    };
    if held.length != 0 {
        text_answer::write_refusal(
            &mut out[from..line],
            Refusal(Rule::SheetNotClosed, Place::Sheet(sheets + 1)),
        );
        return line;
    }
    let items = summary::items(q.summary);
    let end = from + LINE_BYTES * SUMMARY_ITEMS;
    report::write_items(&mut out[from..end], LINE_BYTES, *b"SUM", 0, &items);
    end
}
