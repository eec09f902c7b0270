// tsav-movement: reads a block's 17 numbers and t from standard input and writes how far each risk, raised by t, moves the reported K, or the line
// of the refusal. A read or a write that fails is said on standard error; an input that could not be read gets neither.
#![tactic(auto)]

ghost use Rattle.std.specs.Prelude.{◌≡◌};
ghost use Rattle.text_answer.specs.Printing.{printout};
ghost use Rattle.movement.specs.Call.{movements};
ghost use Rattle.stdio.specs.Answered.{Prints};

use movement::MOVEMENT_BYTES;
use movement_input::INPUT_BYTES;
use std::io;
use std::io::{Read, Write};
use stdio::Failure;

// One byte more than a movement's input has, so that one that is too long is seen to be.
const INPUT_ROOM: usize = INPUT_BYTES + 1;

// Has the input answered, or says what kept it from its answer.
// Kept: in each program, as the two sentences differ; which of them is told is `Failure::sentence`'s. No contract speaks of the system's streams.
fn main(rt: HostRuntime) {
    if let Err(failure) = answer(&mut rt.stdin(), &mut io::writer(&rt)) {
        let _ = rt.eprintln(failure.sentence(
            "tsav-movement: the input cannot be read",
            "tsav-movement: the movements cannot be written",
        ));
    }
}

// Of an input of any bytes and any length, the lines of the movements or the line of its refusal.
// Kept: in each program, as the rooms, the call and its text differ; what they share is `stdio::answer`.
fn answer<R: Read, W: Write>(input: &mut R, output: &mut W) -> Result<(), Failure>
    ensures { Prints (λ s. printout (movements s)) (R.remaining input.old) (W.contents output.old) (W.contents output.new) result }
{
    let mut numbers = [0u8; INPUT_ROOM];
    let mut lines = [0u8; MOVEMENT_BYTES];
    stdio::answer(
        input,
        output,
        &mut numbers,
        |numbers: &[u8]| -> &[u8]
            ensures { result.now ≡ printout (movements numbers.now) }
        {
            let length = movement::print_movement(numbers, &mut lines);
            &lines[..length]
        },
    )
}
