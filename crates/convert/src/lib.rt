// Sheets in thousands of dollars, with the code in small letters: a sheet of either sort converted to the other.
//
// There are two passes over a sheet: first every line is read and tested, with the marks of those before it and the last key, then the columns of
// each are moved. So a refusal writes nothing, and no table of amounts is held.
#![tactic(auto)]

ghost use Rattle.std.specs.Prelude.{◌≡◌, [], ◌%◌, ◌≤◌, length};
ghost use Rattle.layout.specs.Columns.{sheet_line_bytes};
ghost use Rattle.places.specs.Marks.{marks_of};
ghost use Rattle.order.specs.Reading.{outcome_of};
ghost use Rattle.refusal.specs.Outcome.{stated_number};
ghost use Rattle.text_answer.specs.Lent.{Done};
ghost use Rattle.text_answer.specs.Printing.{printout, Printed};
ghost use Rattle.scaled_line.specs.Moved.{moved_line};
ghost use Rattle.convert.specs.Call.{conversion, reading_in, convert_call, ConvertsBack};
ghost use Rattle.convert.specs.Steps.{LinesWritten, lines_call};

use layout::SHEET_LINE_BYTES;
use places::PLACES;
use refusal::{Place, Refusal, Rule};
use scaled_line::Scale;
use sheet_length::LONGEST_SHEET;

// A sheet of any bytes, and lent room of any length: nothing is written into it before every rule passes.
pub fn convert_call(sheet: &[u8], room: &mut [u8]) -> Result<usize, Refusal>
    ensures answer { ◌≡◌ {A = Done} (record { outcome = stated_number result; room = room.new }) (convert_call sheet.now room.old) }
    ensures converts_back { ConvertsBack sheet.now (stated_number result) room.new }
{
    sheet_length::measure(sheet)?;
    convert_lines(scaled_line::letters::scale_of(sheet), sheet, room)
}

// What tsav-convert prints of a sheet of any bytes, from the room's start on: the converted sheet, or the line of the refusal. It gives how many
// bytes that is. There is room for every sheet, so that 14 never comes.
// Kept: two lines in each of four calls, as `text_answer::print_answer` says.
pub fn print_converted(sheet: &[u8], room: &mut [u8; LONGEST_SHEET]) -> usize
    ensures { Printed (printout (conversion sheet.now)) result room.old room.new }
{
    let answer = convert_call(sheet, room);
    text_answer::print_answer(answer, room)
}

// A sheet of whole lines: they are tested, then comes rule 14, and then they are written.
// Kept: the sort beside the sheet, here and in two below; a sheet that knows its sort would be made here and opened at once.
fn convert_lines(scale: Scale, sheet: &[u8], room: &mut [u8]) -> Result<usize, Refusal>
    requires { length sheet.now % sheet_line_bytes ≡ 0 }
    ensures { ◌≡◌ {A = Done} (record { outcome = stated_number result; room = room.new }) (lines_call scale sheet.now room.old) }
{
    let mut marks = [0; PLACES];
    test_lines(scale, sheet, &mut marks)?;
    if room.len() < sheet.len() {
        return Err(Refusal(Rule::RoomTooShort, Place::Nowhere));
    }
    write_lines(scale, sheet, room);
    Ok(sheet.len())
}

// Tests the lines of a sheet one after the other, up to the first bad one. There is no text yet: all good, it gives how many lines there are.
// Kept: beside `sheet_reader::read_lines`, which enters amounts; here are marks alone. One over the step would be a closure that both are lent to.
fn test_lines(scale: Scale, sheet: &[u8], marks: &mut [u8; PLACES]) -> Result<usize, Refusal>
    requires { marks.old ≡ marks_of [] }
    ensures { stated_number result ≡ outcome_of (reading_in scale sheet.now) }
{
    let (lines, _) = sheet.as_chunks::<SHEET_LINE_BYTES>();
    let mut last = 0u64;
    for (i, bytes) in lines.iter().enumerate() {
        let read = scale.read(bytes);
        let admitted = order::admit(read, last, marks);
        let line = scale.convertible(admitted);
        match line {
            Ok(e) => last = order::key_of(e),
            Err(rule) => return Err(Refusal(rule, Place::Line(i + 1))),
        }
    }
    Ok(lines.len())
}

// Writes the lines of a sheet, all of them good, as the other sort has them, each into its own stretch of the room.
fn write_lines(scale: Scale, sheet: &[u8], room: &mut [u8])
    requires { (length sheet.now % sheet_line_bytes ≡ 0) × (length sheet.now ≤ length room.old) }
    ensures { LinesWritten scale sheet.now room.old room.new }
{
    let (lines, _) = sheet.as_chunks::<SHEET_LINE_BYTES>();
    for (i, bytes) in lines.iter().enumerate() {
        let from = SHEET_LINE_BYTES * i;
        write_line(scale, bytes, &mut room[from..from + SHEET_LINE_BYTES]);
    }
}

// Writes a line into its own stretch of the room.
//
// Kept: the stretch comes as a slice. What an array ends as is told of the slice that it was made of, and not of the room around it.
fn write_line(scale: Scale, line: &[u8; SHEET_LINE_BYTES], stretch: &mut [u8])
    requires { length stretch.old ≡ sheet_line_bytes }
    ensures { stretch.new ≡ moved_line scale line.now }
{
    let Some(out) = stretch.as_mut_array() else {
        unreachable!()
    };
    scale.write_other_scale(line, out);
}
