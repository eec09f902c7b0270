// The quarter, request #114: an input of several sheets, cut where each of them ends, at its closing line of 39 minus signs. The bytes of the sheet
// that is not closed yet lie in a room that the caller lends; those past the room are dropped, so that a room of one byte more than the longest sheet
// shows that a sheet is too long.
#![tactic(auto)]

ghost use Rattle.std.specs.Prelude.{◌≡◌, ◌≤◌, length};
ghost use Rattle.quarter_stream.specs.Steps.{minus_signs, counted, Within, NewSheet, Put, Stepped, ScannedTo};

use std::ops::ControlFlow;

// A minus sign.
const MINUS: u8 = b'-';

// The minus signs of a closing line.
const MINUSES: usize = 39;

// What is known of a sheet that is not closed yet: how many of its bytes the room holds, how many of these stand before the line that has begun,
// and how many minus signs that line is; none where it is something else.
#[derive(Clone, Copy)]
pub struct OpenSheet {
    pub length: usize,
    pub begun: usize,
    pub minuses: Option<usize>,
}

// A sheet that a chunk closes: how many of its bytes the room holds, and at which place of the chunk the next sheet begins.
#[derive(Clone, Copy)]
pub struct Closed {
    pub length: usize,
    pub next: usize,
}

// Nothing of a sheet yet.
pub fn new_sheet() -> OpenSheet
    ensures { NewSheet result }
{
    OpenSheet {
        length: 0,
        begun: 0,
        minuses: Some(0),
    }
}

// The bytes of a chunk from a place on, up to the first closing line: the sheet goes on after all of them, or it is closed.
// Kept: the place beside the chunk, as `next` counts from the chunk's front too; a part of it would be counted from there and added back.
pub fn scan(
    room: &mut [u8],
    held: OpenSheet,
    chunk: &[u8],
    from: usize,
) -> ControlFlow<Closed, OpenSheet>
    requires within { Within (length room.old) held }
    requires from_in_bounds { from ≤ length chunk.now }
    ensures { ScannedTo room.old held chunk.now from result room.new }
{
    let mut h = held;
    for i in from..chunk.len() {
        match next_byte(room, h, chunk[i]) {
            ControlFlow::Break(n) => {
                return ControlFlow::Break(Closed {
                    length: n,
                    next: i + 1,
                });
            }
            ControlFlow::Continue(k) => h = k,
        }
    }
    ControlFlow::Continue(h)
}

// A byte of the stream: the sheet goes on, or it is closed and the room holds so many bytes of it.
fn next_byte(room: &mut [u8], held: OpenSheet, b: u8) -> ControlFlow<usize, OpenSheet>
    requires { Within (length room.old) held }
    ensures { Stepped room.old held b result room.new }
{
    if b == b'\n' {
        if held.minuses == Some(MINUSES) {
            return ControlFlow::Break(held.begun);
        }
        let length = put_byte(room, held.length, b);
        return ControlFlow::Continue(OpenSheet {
            length,
            begun: length,
            minuses: Some(0),
        });
    }
    let length = put_byte(room, held.length, b);
    ControlFlow::Continue(OpenSheet {
        length,
        begun: held.begun,
        minuses: count(held.minuses, b),
    })
}

// A byte put after the bytes that the room holds, where there is a place for it.
fn put_byte(room: &mut [u8], at: usize, b: u8) -> usize
    requires { at ≤ length room.old }
    ensures { Put room.old at b result room.new }
{
    if at < room.len() {
        room[at] = b;
        return at + 1;
    }
    at
}

// The minus signs of a line that has a byte more. The byte is asked first: nearly none is a minus sign, and then what stood before doesn't count.
fn count(minuses: Option<usize>, b: u8) -> Option<usize>
    ensures { minus_signs result ≡ counted (minus_signs minuses) b }
{
    if b != MINUS {
        return None;
    }
    match minuses {
        Some(m) if m < MINUSES => Some(m + 1),
        _ => None,
    }
}
