// tsav-quarter: reads the quarter's sheets from standard input and writes a line for each and the summary, or what turns the input away. A read or a
// write that fails is said on standard error; an input that could not be read to its end gets no line.
#![tactic(auto)]

ghost use Rattle.tsav_quarter.specs.Input.{TakenAll};
ghost use Rattle.tsav_quarter.specs.Output.{PrintsQuarter};

use quarter::{OUTPUT_ROOM, Quarter};
use sheet_length::SHEET_ROOM;
use std::io;
use std::io::{Read, Write};
use stdio::Failure;

// How many bytes are read at a time.
const CHUNK: usize = 4096;

// Has the sheets answered, or says what kept them from their answer.
// Kept: in each program, as the two sentences differ; which of them is told is `Failure::sentence`'s. No contract speaks of the system's streams.
fn main(rt: HostRuntime) {
    if let Err(failure) = answer(&mut rt.stdin(), &mut io::writer(&rt)) {
        let _ = rt.eprintln(failure.sentence(
            "tsav-quarter: the sheets cannot be read",
            "tsav-quarter: the lines cannot be written",
        ));
    }
}

// Of an input of any bytes and any length, its lines, whose summary says what it has to.
fn answer<R: Read, W: Write>(input: &mut R, output: &mut W) -> Result<(), Failure>
    ensures { PrintsQuarter (R.remaining input.old) (W.contents output.old) (W.contents output.new) result }
{
    let mut room = [0u8; SHEET_ROOM];
    let mut out = [0u8; OUTPUT_ROOM];
    let q = take_input(input, &mut room, &mut out)?;
    let n = quarter::finish(&mut out, q);
    stdio::write_front(output, &out, n)
}

// Takes the input a chunk at a time: to its end, or until it has too many sheets, whatever follows. One that does not end within as many reads as a
// machine can count cannot be read.
fn take_input<R: Read>(
    input: &mut R,
    room: &mut [u8; SHEET_ROOM],
    out: &mut [u8; OUTPUT_ROOM],
) -> Result<Quarter, Failure>
    ensures { TakenAll (R.remaining input.old) room.new out.new result }
{
    let mut chunk = [0u8; CHUNK];
    let mut q = quarter::start();
    for _ in 0..u64::MAX {
        let n = stdio::read_some(input, &mut chunk)?;
        q = quarter::take_chunk(room, out, q, &chunk[..n]);
        let ended = n == 0;
        if ended || q.held.is_none() {
            return Ok(q);
        }
    }
    Err(Failure::Unread)
}
