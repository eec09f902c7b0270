// The code in columns 1 to 3, and the table of all that is said of a code.
#![tactic(auto)]

ghost use Rattle.std.specs.Prelude.{◌≡◌, ◌≤◌, length};
ghost use Rattle.codes.specs.Codes.{letters_of, row_of, code_of};

use sizes::{
    ADJUSTABLE_PRODUCTS, BLOCKS, NON_PARTICIPATING, OTHER_AMOUNTS, PARTICIPATING, RISKS,
    TERRITORIES, VOLUME_CLASSES, VOLUME_PAIRS,
};

// The code of a line.
#[derive(Clone, Copy)]
pub enum Code {
    Rsk,
    Oth,
    Mor,
    Vol,
    Acq,
    Gen,
    Crd,
}

// A row of the table of codes: what is said of a code, and of CRD in block 0 or in the others.
#[derive(Clone, Copy)]
pub struct CodeRow {
    // The code's letters, as in columns 1 to 3.
    pub letters: [u8; 3],
    // Its place in the order of codes.
    pub rank: u64,
    // Its blocks.
    pub lowest: u64,
    pub highest: u64,
    // Its classes, from 1 on.
    pub classes: u64,
    // The last class with a second amount; 0 for none.
    pub paired: u64,
    // Whether the second amount is a part of the first, level and trend. Volumes may fall or rise, and T may pass S.
    pub trend: bool,
    // The class of the scalar g; 0 for none.
    pub scalar: u64,
    // Whether its lines make their block exist.
    pub makes_block: bool,
    // The place of its first line in the tables, and how many of its lines a block has, of those from 1 on.
    pub first_place: usize,
    pub block_places: usize,
}

// RSK's classes: mortality to expenses.
pub const RISK_CLASSES: usize = RISKS;

// RSK's classes with a level and trend part: all but the last, expenses.
pub const TREND_CLASSES: usize = RISK_CLASSES - 1;

// OTH's classes: property and casualty, credit, market.
pub const OTHER_CLASSES: usize = OTHER_AMOUNTS;

// The class of RSK that holds mortality.
pub const MORTALITY_RISK_CLASS: usize = 1;

// The classes of OTH that hold property and casualty, credit and market risk.
pub const PC_CLASS: usize = 1;

pub const CREDIT_CLASS: usize = 2;

pub const MARKET_CLASS: usize = 3;

// The class of MOR that holds the sums S and T.
pub const SUMS_CLASS: usize = 1;

// The class of VOL that holds segregated funds with guarantees.
pub const SEGREGATED_CLASS: usize = 5;

// The class of CRD that holds a participating block's dividend credit.
pub const DIVIDEND_CLASS: usize = 1;

// MOR's classes: one, that of S and T.
pub const MORTALITY_CLASSES: usize = 1;

// ACQ's classes: those of the volumes.
pub const ACQUIRED_CLASSES: usize = VOLUME_CLASSES;

// GEN's classes: gross components to credits.
pub const GENERAL_CLASSES: usize = 5;

// The class of GEN that holds the gross components.
pub const GROSS_CLASS: usize = 1;

// The class of GEN that holds the guarantee requirement.
pub const GUARANTEE_CLASS: usize = 2;

// The class of GEN that holds the ceded premiums.
pub const CEDED_CLASS: usize = 3;

// The class of GEN that holds the group and deposit credits.
pub const GROUP_CREDITS_CLASS: usize = 5;

// The class of GEN that holds the scalar g.
pub const SCALAR_CLASS: usize = 4;

// CRD's classes of a participating block: one, its dividend credit.
pub const DIVIDEND_CLASSES: usize = 1;

// The RSK lines that there can be.
const RISK_LINES: usize = BLOCKS * RISK_CLASSES;

// The MOR lines.
const MORTALITY_LINES: usize = NON_PARTICIPATING * MORTALITY_CLASSES;

// Where VOL's lines begin in the tables: RSK's begin at 0, MOR's behind them, VOL's behind those.
const FIRST_VOLUME_PLACE: usize = RISK_LINES + MORTALITY_LINES;

// The lines that can have a second amount, those of RSK, MOR and VOL, which come first in the tables. OTH's begin behind them.
pub const PAIRED_LINES: usize = FIRST_VOLUME_PLACE + VOLUME_PAIRS;

// The OTH lines.
const OTHER_LINES: usize = BLOCKS * OTHER_CLASSES;

// Where ACQ's lines begin, behind OTH's.
const FIRST_ACQUIRED_PLACE: usize = PAIRED_LINES + OTHER_LINES;

// The ACQ lines.
const ACQUIRED_LINES: usize = TERRITORIES * ACQUIRED_CLASSES;

// Where GEN's lines begin, behind ACQ's.
const FIRST_GENERAL_PLACE: usize = FIRST_ACQUIRED_PLACE + ACQUIRED_LINES;

// Where CRD's lines begin, behind GEN's.
const FIRST_CREDIT_PLACE: usize = FIRST_GENERAL_PLACE + GENERAL_CLASSES;

// The CRD lines, of block 0 and of the participating blocks.
const CREDIT_LINES: usize = ADJUSTABLE_PRODUCTS + PARTICIPATING * DIVIDEND_CLASSES;

// The lines that a sheet can have, one for each code, block and class.
pub const MOST_LINES: usize = FIRST_CREDIT_PLACE + CREDIT_LINES;

// The code whose letters columns 1 to 3 are.
#[tactic(auto, unfolding(crate::specs::Codes::code_among, crate::specs::Codes::is_code, basics::specs::Pick::pick))]
pub fn read_code(s: &[u8]) -> Option<Code>
    requires { 3 ≤ length s.now }
    ensures { result ≡ code_of s.now }
{
    match &s[0..3] {
        b"RSK" => Some(Code::Rsk),
        b"OTH" => Some(Code::Oth),
        b"MOR" => Some(Code::Mor),
        b"VOL" => Some(Code::Vol),
        b"ACQ" => Some(Code::Acq),
        b"GEN" => Some(Code::Gen),
        b"CRD" => Some(Code::Crd),
        _ => None,
    }
}

// The letters of a code.
impl From<Code> for [u8; 3] {
    ghost from_gives = { λ code letters. letters ≡ letters_of code };

    fn from(code: Code) -> [u8; 3] {
        ROWS[code as usize].letters
    }
}

// The rows, in the order of codes, and behind them all the second one of CRD, that of block 0.
static ROWS: [CodeRow; 8] = [
    // RSK
    CodeRow {
        letters: *b"RSK",
        rank: 0,
        lowest: 1,
        highest: BLOCKS as u64,
        classes: RISK_CLASSES as u64,
        paired: TREND_CLASSES as u64,
        trend: true,
        scalar: 0,
        makes_block: true,
        first_place: 0,
        block_places: RISK_CLASSES,
    },
    // OTH
    CodeRow {
        letters: *b"OTH",
        rank: 1,
        lowest: 1,
        highest: BLOCKS as u64,
        classes: OTHER_CLASSES as u64,
        paired: 0,
        trend: false,
        scalar: 0,
        makes_block: true,
        first_place: PAIRED_LINES,
        block_places: OTHER_CLASSES,
    },
    // MOR
    CodeRow {
        letters: *b"MOR",
        rank: 2,
        lowest: 1,
        highest: NON_PARTICIPATING as u64,
        classes: MORTALITY_CLASSES as u64,
        paired: MORTALITY_CLASSES as u64,
        trend: false,
        scalar: 0,
        makes_block: false,
        first_place: RISK_LINES,
        block_places: MORTALITY_CLASSES,
    },
    // VOL
    CodeRow {
        letters: *b"VOL",
        rank: 3,
        lowest: 1,
        highest: TERRITORIES as u64,
        classes: VOLUME_CLASSES as u64,
        paired: VOLUME_CLASSES as u64,
        trend: false,
        scalar: 0,
        makes_block: false,
        first_place: FIRST_VOLUME_PLACE,
        block_places: VOLUME_CLASSES,
    },
    // ACQ
    CodeRow {
        letters: *b"ACQ",
        rank: 4,
        lowest: 1,
        highest: TERRITORIES as u64,
        classes: ACQUIRED_CLASSES as u64,
        paired: 0,
        trend: false,
        scalar: 0,
        makes_block: false,
        first_place: FIRST_ACQUIRED_PLACE,
        block_places: ACQUIRED_CLASSES,
    },
    // GEN
    CodeRow {
        letters: *b"GEN",
        rank: 5,
        lowest: 0,
        highest: 0,
        classes: GENERAL_CLASSES as u64,
        paired: 0,
        trend: false,
        scalar: SCALAR_CLASS as u64,
        makes_block: false,
        first_place: FIRST_GENERAL_PLACE,
        block_places: 0,
    },
    // CRD, the dividend credit of a participating block
    CodeRow {
        letters: *b"CRD",
        rank: 6,
        lowest: NON_PARTICIPATING as u64 + 1,
        highest: BLOCKS as u64,
        classes: DIVIDEND_CLASSES as u64,
        paired: 0,
        trend: false,
        scalar: 0,
        makes_block: false,
        first_place: FIRST_CREDIT_PLACE,
        block_places: DIVIDEND_CLASSES,
    },
    // CRD of block 0, adjustable products
    CodeRow {
        letters: *b"CRD",
        rank: 6,
        lowest: 0,
        highest: 0,
        classes: ADJUSTABLE_PRODUCTS as u64,
        paired: 0,
        trend: false,
        scalar: 0,
        makes_block: false,
        first_place: FIRST_CREDIT_PLACE,
        block_places: DIVIDEND_CLASSES,
    },
];

// The row of a code that a block falls under.
//
// Kept: a sum and no `if` for CRD, so that the row is read at its place and not jumped to (docs/DECISIONS.md).
pub fn row_of(code: Code, block: u64) -> CodeRow
    ensures { result ≡ row_of code block }
{
    ROWS[code as usize + usize::from(matches!(code, Code::Crd) & (block == 0))]
}
