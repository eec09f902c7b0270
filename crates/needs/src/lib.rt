// The check, request #113: the companion line that a line of a sheet needs beside it, as MOR needs RSK class 1 of its block; the 176 lines that can
// need one; and how long their listing can be.
#![tactic(auto)]

ghost use Rattle.std.specs.Prelude.{◌≡◌, ◌≤◌, Some};
ghost use Rattle.codes.specs.Codes.{Key};
ghost use Rattle.needs.specs.Needs.{need_of};
ghost use Rattle.needs.specs.Needing.{most_listed, needing};

use codes::{
    Code, DIVIDEND_CLASS, GUARANTEE_CLASS, MORTALITY_RISK_CLASS, SEGREGATED_CLASS, SUMS_CLASS,
};
use key_columns::KEY_BYTES;
use sizes::{NON_PARTICIPATING, PARTICIPATING, TERRITORIES, VOLUME_CLASSES, VOLUME_PAIRS};

// A line's code, block and class.
#[derive(Clone, Copy)]
pub struct Label {
    pub code: Code,
    pub block: usize,
    pub class: usize,
}

impl Label {
    ghost use Rattle.std.specs.Prelude.{◌≡◌};
    ghost use Rattle.needs.specs.Needs.{label};

    fn new(code: Code, block: usize, class: usize) -> Label
        ensures { result ≡ label code block class }
    {
        Label { code, block, class }
    }
}

// A line that can need another, and what it needs, where its amounts aren't all zero: its companion.
#[derive(Clone, Copy)]
pub struct Need {
    pub line: Label,
    pub companion: Label,
    pub ghost key: { Key line.code line.block line.class },
    pub ghost needed: { need_of line ≡ Some companion },
}

// The bytes of a line of the listing, its line feed with them.
pub const LISTED_BYTES: usize = 2 * KEY_BYTES + 2;

// The number of the last MOR line among the lines that can need another.
const LAST_MOR: usize = NON_PARTICIPATING;

// That of the last VOL line, of one class.
const LAST_VOL: usize = LAST_MOR + TERRITORIES;

// That of the last ACQ line.
const LAST_ACQ: usize = LAST_VOL + VOLUME_PAIRS;

// How many there are, with the CRD lines of the participating blocks.
pub const MOST_LISTED: usize = LAST_ACQ + PARTICIPATING;

// A line for each of them.
pub const LONGEST_LISTING: usize = LISTED_BYTES * MOST_LISTED;

// The lines that can need another, in the order of lines, by their number from 1 on, each with what it needs. Class 0 of a companion is whichever
// class there is.
// Kept: class 0 for that, and no enum, which would be no plainer: the listing prints class 0 there, so that it would be turned back into it.
pub fn needing(n: usize) -> Need
    requires { (1 ≤ n) × (n ≤ most_listed) }
    ensures { result.line ≡ needing n }
{
    if n > LAST_ACQ {
        // CRD of a block needs an RSK line of it, of whichever class
        let block = n - LAST_ACQ + NON_PARTICIPATING;
        let line = Label::new(Code::Crd, block, DIVIDEND_CLASS);
        let companion = Label::new(Code::Rsk, block, 0);
        return Need { line, companion };
    }
    if n > LAST_VOL {
        // ACQ needs VOL of its block and class
        let before = n - LAST_VOL - 1;
        let block = before / VOLUME_CLASSES + 1;
        let class = before % VOLUME_CLASSES + 1;
        let line = Label::new(Code::Acq, block, class);
        let companion = Label::new(Code::Vol, block, class);
        return Need { line, companion };
    }
    if n > LAST_MOR {
        // VOL of segregated funds with guarantees needs their guarantee requirement
        let line = Label::new(Code::Vol, n - LAST_MOR, SEGREGATED_CLASS);
        let companion = Label::new(Code::Gen, 0, GUARANTEE_CLASS);
        return Need { line, companion };
    }
    // MOR needs RSK of mortality of its block
    let line = Label::new(Code::Mor, n, SUMS_CLASS);
    let companion = Label::new(Code::Rsk, n, MORTALITY_RISK_CLASS);
    Need { line, companion }
}
