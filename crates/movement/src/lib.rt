// The movement call: a block's 17 numbers and t are read off 18 lines, and for each risk in turn there is a line that says how far the reported K
// moves as the risk's component is raised by t. And what tsav-movement prints of its input.
#![tactic(auto)]

// The lines of the risks.
pub mod moves;

ghost use Rattle.std.specs.Prelude.{◌≡◌};
ghost use Rattle.refusal.specs.Outcome.{stated_number};
ghost use Rattle.text_answer.specs.Lent.{Done};
ghost use Rattle.text_answer.specs.Printing.{printout, Printed};
ghost use Rattle.movement.specs.Call.{movements, movement_call};
ghost use Rattle.movement.specs.Bounds.{MovementsBounded};

use refusal::{Place, Refusal, Rule};
use report_line::REPORT_LINE_BYTES;
use sizes::{BLOCK_NUMBERS, RISKS};

// A line for each risk.
pub const MOVEMENT_BYTES: usize = REPORT_LINE_BYTES * RISKS;

// An input of any bytes, and lent room of any length: nothing is written into it before every rule passes. A raise above the limit is told in the
// risk's own line, and turns no input away.
pub fn movement_call(input: &[u8], room: &mut [u8]) -> Result<usize, Refusal>
    ensures answer { ◌≡◌ {A = Done} (record { outcome = stated_number result; room = room.new }) (movement_call input.now room.old) }
    ensures bounded { MovementsBounded input.now (stated_number result) room.new }
{
    let Some(input) = input.as_array() else {
        return Err(Refusal(Rule::NotWholeLines, Place::Nowhere));
    };
    if let Some(line) = movement_input::first_broken(input) {
        return Err(Refusal(Rule::BrokenLayout, Place::Line(line + 1)));
    }
    let block = block::accepted_block(&movement_input::block_of(input))?;
    if room.len() < MOVEMENT_BYTES {
        return Err(Refusal(Rule::RoomTooShort, Place::Nowhere));
    }
    let figures = figures::figures_of(&block);
    let raise = movement_input::number_at(input, BLOCK_NUMBERS);
    moves::write_movements(&block, figures.k, raise, room);
    Ok(MOVEMENT_BYTES)
}

// What tsav-movement prints of an input of any bytes, from the room's start on: the lines of the risks, or the line of the refusal. It gives how
// many bytes that is. There is room for the lines, so that 14 never comes.
// Kept: two lines in each of four calls, as `text_answer::print_answer` says.
pub fn print_movement(input: &[u8], room: &mut [u8; MOVEMENT_BYTES]) -> usize
    ensures { Printed (printout (movements input.now)) result room.old room.new }
{
    let answer = movement_call(input, room);
    text_answer::print_answer(answer, room)
}
