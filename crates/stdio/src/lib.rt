// Standard input and output, for every program: all of the input, or some bytes of it, read into lent room; the first bytes of a text written; an
// input answered, from its first byte read to the last byte written; and what kept it from its answer told.
#![tactic(auto)]

ghost use Rattle.std.specs.Prelude.{◌≤◌, length, take, OnOk, IfErr, ◌≡◌};
ghost use Rattle.std.specs.Io.KnownBytes.{Appends};
ghost use Rattle.stdio.specs.Answered.{Answered};
ghost use Rattle.stdio.specs.Read.{ReadInto, TakesAll, TakesSome};
ghost use Rattle.stdio.specs.Sentence.{sentence};

use std::io::{Read, Write};

// What kept an input from its answer: a read failed, or a write.
#[derive(Clone, Copy, Debug, PartialEq, Eq, Hash)]
pub enum Failure {
    Unread,
    Unwritten,
}

impl Failure {
    // Of a program's two sentences, the one that tells what failed.
    pub fn sentence<'a>(self, unread: &'a str, unwritten: &'a str) -> &'a str
        ensures { result.now ≡ sentence self unread.now unwritten.now }
    {
        match self {
            Failure::Unread => unread,
            Failure::Unwritten => unwritten,
        }
    }
}

// Reads the input into lent room, has the call answer what was read, and writes its text. The room wants a byte more than the longest input that
// the call can answer: a longer one is then seen to be longer.
pub fn answer<'a, R: Read, W: Write, F: FnOnce(&[u8]) -> &'a [u8]>(
    input: &mut R,
    output: &mut W,
    room: &mut [u8],
    call: F,
) -> Result<(), Failure>
    requires { F.IsAlwaysCallable call }
    ensures { Answered F.FnOnce call (length room.old) (R.remaining input.old) (R.remaining input.new) (W.contents output.old) (W.contents output.new) result }
{
    let n = read_all(input, room)?;
    let text = call(&room[..n]);
    write_front(output, text, text.len())
}

// Reads to the end of the input, or until the room is full.
pub fn read_all<R: Read>(input: &mut R, room: &mut [u8]) -> Result<usize, Failure>
    ensures within { ReadInto result room.old room.new }
    ensures taken { TakesAll result (R.remaining input.old) (R.remaining input.new) room.new }
{
    let mut at = 0usize;
    while at < room.len() {
        let n = read_some(input, &mut room[at..])?;
        if n == 0 {
            return Ok(at);
        }
        at += n;
    }
    Ok(at)
}

// Reads some bytes, as many as come at once and the room takes; none at the end of the input, and where there is no room.
pub fn read_some<R: Read>(input: &mut R, room: &mut [u8]) -> Result<usize, Failure>
    ensures within { ReadInto result room.old room.new }
    ensures taken { TakesSome result (R.remaining input.old) (R.remaining input.new) room.new }
{
    input.read(room).map_err(|_| Failure::Unread)
}

// Writes the first n bytes of a text, and fails where not all of them were written: always of a text that has fewer.
// Kept: the length stands beside the text: that a text with fewer bytes is refused is a promise, which a slice alone can't give.
pub fn write_front<W: Write>(output: &mut W, text: &[u8], n: usize) -> Result<(), Failure>
    ensures whole { OnOk result (n ≤ length text.now) }
    ensures written { OnOk result (Appends (W.contents output.old) (W.contents output.new) (take n text.now)) }
    ensures unwritten { IfErr result (λ e. e ≡ Failure.Unwritten) }
{
    if text.len() < n {
        return Err(Failure::Unwritten);
    }
    output
        .write_all(&text[0..n])
        .map_err(|_| Failure::Unwritten)
}
