// A refusal: the rule that turns an input away, its place, and the numbers that they are told by.
#![tactic(auto)]

ghost use Rattle.std.specs.Prelude.{◌≡◌};
ghost use Rattle.refusal.specs.Outcome.{place_of, rule_number};

// The kind of a place: nowhere, a line, a position, a risk, a sheet.
// Kept: numbers, since the C interface has them: include/tsav.h says what each stands for.
const NOWHERE: u64 = 0;

// A line of the sheet.
const LINE: u64 = 1;

// A position in the call's numbers.
const POSITION: u64 = 2;

// A risk of a block.
const RISK: u64 = 3;

// A sheet of several.
const SHEET: u64 = 4;

// Where a refusal has its place: a line of the input, counted from 1, a position in a call's numbers, counted from 0, a risk, 1 to 7, a sheet of
// several, counted from 1, or nowhere.
#[derive(Clone, Copy)]
pub enum Place {
    Line(usize),
    Position(usize),
    Risk(usize),
    Sheet(usize),
    Nowhere,
}

// A rule that turns an input away, in the order of the numbers.
#[derive(Clone, Copy)]
pub enum Rule {
    // 1: a sheet has more bytes than the longest that there can be
    SheetTooLong,
    // 2: a sheet is not of whole lines, or the movement call's input is not of its 18
    NotWholeLines,
    // 3: a line's columns break the layout
    BrokenLayout,
    // 4: a line's code is none of the seven
    UnknownCode,
    // 5: a line's block is outside the code's range
    BlockOutside,
    // 6: a line's class is outside the code's range
    ClassOutside,
    // 7: an amount is above the limit
    AmountAboveLimit,
    // 8: a second amount where there is one alone
    SecondAmount,
    // 9: a level and trend part is above its component
    TrendAboveComponent,
    // 10: the scalar g is outside its range
    ScalarOutside,
    // 11: a line with its code, block and class stood before
    LineRepeated,
    // 12: a sheet has no line of the scalar
    ScalarMissing,
    // 13: the credits are above what they come off
    CreditsAboveBracket,
    // 14: the lent room is shorter than the text
    RoomTooShort,
    // 15: the volumes are not whole territories, or too many
    VolumesLength,
    // 16: a mortality credit is above its block's level and trend part
    CreditAboveTrend,
    // 17: a dividend credit is above its block's K, or its block does not exist
    DividendBarred,
    // 18: a row that section 11.1.2 does not have
    UnknownRow,
    // 19: a line does not come after the one before it
    OutOfOrder,
    // 20: an amount in cents is not whole thousands of dollars
    NotWholeThousands,
    // 21: an amount in thousands has cents above the limit
    ThousandsAboveLimit,
    // 22: a raised component passes the limit
    RaiseAboveLimit,
    // 23: a margin is below zero, or all are zero
    NoShares,
    // 24: an input has more sheets than it may have
    TooManySheets,
    // 25: an input ends within a sheet
    SheetNotClosed,
}

// What turns an input away: the rule, and where it has its place.
#[derive(Clone, Copy)]
pub struct Refusal(pub Rule, pub Place);

impl Rule {
    // The number of a rule, by which it is told.
    pub fn number(self) -> u64
        ensures { result ≡ rule_number self }
    {
        match self {
            Rule::SheetTooLong => 1,
            Rule::NotWholeLines => 2,
            Rule::BrokenLayout => 3,
            Rule::UnknownCode => 4,
            Rule::BlockOutside => 5,
            Rule::ClassOutside => 6,
            Rule::AmountAboveLimit => 7,
            Rule::SecondAmount => 8,
            Rule::TrendAboveComponent => 9,
            Rule::ScalarOutside => 10,
            Rule::LineRepeated => 11,
            Rule::ScalarMissing => 12,
            Rule::CreditsAboveBracket => 13,
            Rule::RoomTooShort => 14,
            Rule::VolumesLength => 15,
            Rule::CreditAboveTrend => 16,
            Rule::DividendBarred => 17,
            Rule::UnknownRow => 18,
            Rule::OutOfOrder => 19,
            Rule::NotWholeThousands => 20,
            Rule::ThousandsAboveLimit => 21,
            Rule::RaiseAboveLimit => 22,
            Rule::NoShares => 23,
            Rule::TooManySheets => 24,
            Rule::SheetNotClosed => 25,
        }
    }
}

// A place as the caller of an exported call has it: its kind, and its line, position, risk or sheet.
impl From<Place> for [u64; 2] {
    ghost from_gives = { λ at numbers. numbers ≡ place_of at };

    fn from(at: Place) -> [u64; 2] {
        match at {
            Place::Nowhere => [NOWHERE, 0],
            Place::Line(line) => [LINE, cast::word(line)],
            Place::Position(position) => [POSITION, cast::word(position)],
            Place::Risk(risk) => [RISK, cast::word(risk)],
            Place::Sheet(sheet) => [SHEET, cast::word(sheet)],
        }
    }
}
