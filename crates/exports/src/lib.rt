// The calls for C and Rust: a number is given back, and the rest is written into what the caller lends. An accepted call gives
// 0 and leaves the lent place as it was; a refused one gives its number and leaves all but the place as it was. Beside them the version of
// these calls, for a caller to compare before it lends anything.
// Kept: numbers, and tables and rooms that the caller lends, since the C interface has them: include/tsav.h says what each is.
#![tactic(auto)]

ghost use Rattle.std.specs.Prelude.{◌≡◌, [], ◌∷◌, ◌++◌};
ghost use Rattle.refusal.specs.Outcome.Outcome.{accepted};
ghost use Rattle.figures.specs.Parts.{figure_list, step_list};
ghost use Rattle.block.specs.Call.{block_call};
ghost use Rattle.block.specs.Accepted.{BlockDemand3, FewSteps};
ghost use Rattle.operational.specs.Call.{operational_call};
ghost use Rattle.fluctuation.specs.Call.{fluctuation_call};
ghost use Rattle.fluctuation.specs.Accepted.{FluctuationDemand};
ghost use Rattle.shares.specs.Call.{shares_call};
ghost use Rattle.shares.specs.Accepted.{SharesDemand};
ghost use Rattle.sheet_call.specs.Call.{sheet_call};
ghost use Rattle.sheet_call.specs.Demand.{Demand3, PrintedWhole};
ghost use Rattle.convert.specs.Call.{convert_call, ConvertsBack};
ghost use Rattle.check_call.specs.Call.{check_call, ListsExactly};
ghost use Rattle.movement.specs.Call.{movement_call};
ghost use Rattle.movement.specs.Bounds.{MovementsBounded};
ghost use Rattle.quarter.specs.Call.{quarter_call, SummarySays};
ghost use Rattle.exported_answer.specs.Caller.{CallerHas};
ghost use Rattle.exports.specs.Version.{interface_version};

use figures::FiguresAndSteps;
use sizes::{BLOCK_FIGURES, BLOCK_NUMBERS, GENERAL_FIGURES, PARTS};

// What the block call gives: the figures, and the steps of its two roots.
const BLOCK_VALUES: usize = BLOCK_FIGURES + 2;

// Of the calls as they are declared here.
const VERSION: u64 = 3;

// The version of these calls.
#[unsafe(no_mangle)]
pub extern "C" fn tsav_version() -> u64
    ensures { result ≡ interface_version }
{
    VERSION
}

// The figures are I and D in half cents, then U, LT and K in cents, then the steps of the roots of I and of D. Where 0 is given, they meet
// demand 3 for one block, and no root took more than 58 steps.
#[unsafe(no_mangle)]
pub extern "C" fn tsav_block(
    numbers: &[u64; BLOCK_NUMBERS],
    figures: &mut [u64; BLOCK_VALUES],
    place: &mut [u64; 2],
) -> u64
    ensures leaves { CallerHas (block_call numbers.now) result figures.old place.old figures.new place.new }
    ensures at_0 { result ≡ 0 → BlockDemand3 numbers.now (accepted figures.new) × FewSteps (accepted figures.new) }
{
    let values = block::block_call(numbers).map(
        |w: FiguresAndSteps|
            ensures { result ≡ figure_list w.figures ++ step_list w.steps }
        {
            let FiguresAndSteps {
                figures: f,
                steps: s,
            } = w;
            [f.i, f.d, f.u, f.lt, f.k, s.i, s.d]
        },
    );
    exported_answer::give_values(values, figures, place)
}

// The figure is RO.
#[unsafe(no_mangle)]
pub extern "C" fn tsav_operational(
    volumes: &[u64],
    general: &[u64; GENERAL_FIGURES],
    figure: &mut [u64; 1],
    place: &mut [u64; 2],
) -> u64
    ensures { CallerHas (operational_call volumes.now general.now) result figure.old place.old figure.new place.new }
{
    let values = operational::operational_call(volumes, general).map(
        |ro: u64|
            ensures { result ≡ ro ∷ [] }
        { [ro] },
    );
    exported_answer::give_values(values, figure, place)
}

// A row of section 11.1.2, the requirement and the face amount. The figure is the requirement times its factor; where 0 is given, it meets
// the accuracy rule with one cent.
#[unsafe(no_mangle)]
pub extern "C" fn tsav_fluctuation(
    row: u64,
    requirement: u64,
    face: u64,
    figure: &mut [u64; 1],
    place: &mut [u64; 2],
) -> u64
    ensures leaves { CallerHas (fluctuation_call row requirement face) result figure.old place.old figure.new place.new }
    ensures at_0 { result ≡ 0 → FluctuationDemand row requirement face (accepted figure.new) }
{
    let values = fluctuation::fluctuation_call(row, requirement, face).map(
        |product: u64|
            ensures { result ≡ product ∷ [] }
        { [product] },
    );
    exported_answer::give_values(values, figure, place)
}

// The shares of K in cents: risks 1 to 7, then PC, credit and market. Where 0 is given, they total K, and each is within a cent of its
// unrounded share.
#[unsafe(no_mangle)]
pub extern "C" fn tsav_shares(
    numbers: &[u64; BLOCK_NUMBERS],
    shares: &mut [u64; PARTS],
    place: &mut [u64; 2],
) -> u64
    ensures leaves { CallerHas (shares_call numbers.now) result shares.old place.old shares.new place.new }
    ensures at_0 { result ≡ 0 → SharesDemand numbers.now (accepted shares.new) }
{
    exported_answer::give_values(shares::shares_call(numbers), shares, place)
}

// Accepted, `written` holds how many bytes of the lent report are the report, from its start. Where 0 is given, the report meets demand 3, and none
// of its numbers is cut.
// Kept: this call and the four below have one shape and the same parameters, since the C interface has them: include/tsav.h names each.
#[unsafe(no_mangle)]
pub extern "C" fn tsav_sheet(
    sheet: &[u8],
    report: &mut [u8],
    written: &mut [u64; 1],
    place: &mut [u64; 2],
) -> u64
    ensures room_after { report.new ≡ (sheet_call sheet.now report.old).room }
    ensures leaves { CallerHas (sheet_call sheet.now report.old).outcome result written.old place.old written.new place.new }
    ensures at_0 { result ≡ 0 → Demand3 sheet.now (accepted written.new) report.new × PrintedWhole sheet.now (accepted written.new) report.new }
{
    exported_answer::give_length(sheet_call::sheet_call(sheet, report), written, place)
}

// Accepted, `written` holds how many bytes of the lent room are the converted sheet, from its start. Where 0 is given, it converts back.
// Kept: of one shape with tsav_sheet, as the C interface has it.
#[unsafe(no_mangle)]
pub extern "C" fn tsav_convert(
    sheet: &[u8],
    room: &mut [u8],
    written: &mut [u64; 1],
    place: &mut [u64; 2],
) -> u64
    ensures room_after { room.new ≡ (convert_call sheet.now room.old).room }
    ensures leaves { CallerHas (convert_call sheet.now room.old).outcome result written.old place.old written.new place.new }
    ensures at_0 { result ≡ 0 → ConvertsBack sheet.now (accepted written.new) room.new }
{
    exported_answer::give_length(convert::convert_call(sheet, room), written, place)
}

// Accepted, `written` holds how many bytes of the lent room are the listing, from its start. Where 0 is given, a line of the sheet is listed exactly
// when its need is unmet.
// Kept: of one shape with tsav_sheet, as the C interface has it.
#[unsafe(no_mangle)]
pub extern "C" fn tsav_check(
    sheet: &[u8],
    room: &mut [u8],
    written: &mut [u64; 1],
    place: &mut [u64; 2],
) -> u64
    ensures room_after { room.new ≡ (check_call sheet.now room.old).room }
    ensures leaves { CallerHas (check_call sheet.now room.old).outcome result written.old place.old written.new place.new }
    ensures at_0 { result ≡ 0 → ListsExactly sheet.now (accepted written.new) room.new }
{
    exported_answer::give_length(check_call::check_call(sheet, room), written, place)
}

// Accepted, `written` holds how many bytes of the lent room are the movements, a line for each risk, from its start. Where 0 is given, a risk whose
// raise is within the limit moves the exact K by at most t, and the reported K by less than t + 2.
// Kept: of one shape with tsav_sheet, as the C interface has it.
#[unsafe(no_mangle)]
pub extern "C" fn tsav_movement(
    input: &[u8],
    room: &mut [u8],
    written: &mut [u64; 1],
    place: &mut [u64; 2],
) -> u64
    ensures room_after { room.new ≡ (movement_call input.now room.old).room }
    ensures leaves { CallerHas (movement_call input.now room.old).outcome result written.old place.old written.new place.new }
    ensures at_0 { result ≡ 0 → MovementsBounded input.now (accepted written.new) room.new }
{
    exported_answer::give_length(movement::movement_call(input, room), written, place)
}

// Accepted, `written` holds how many bytes of the lent room are the text of the sheets, from its start, a last line REF 24 or 25 included. Where 0 is
// given, a summary that stands there says what it has to.
// Kept: of one shape with tsav_sheet, as the C interface has it.
#[unsafe(no_mangle)]
pub extern "C" fn tsav_quarter(
    sheets: &[u8],
    room: &mut [u8],
    written: &mut [u64; 1],
    place: &mut [u64; 2],
) -> u64
    ensures room_after { room.new ≡ (quarter_call sheets.now room.old).room }
    ensures leaves { CallerHas (quarter_call sheets.now room.old).outcome result written.old place.old written.new place.new }
    ensures at_0 { result ≡ 0 → SummarySays sheets.now (accepted written.new) room.new }
{
    exported_answer::give_length(quarter::quarter_call(sheets, room), written, place)
}
