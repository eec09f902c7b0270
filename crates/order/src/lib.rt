// A sheet's lines without their amounts: the order of lines, and what admits a line after those before it.
#![tactic(auto)]

ghost use Rattle.std.specs.Prelude.{◌≡◌, Result, Ok};
ghost use Rattle.codes.specs.Codes.{Key};
ghost use Rattle.refusal.specs.Outcome.{rule_number};
ghost use Rattle.order.specs.Order.{key_for, Keyed, KeyedByNumber, Admits, AdmitsByNumber};

use places::PLACES;
use refusal::Rule;
use sheet_line::Entry;

// A power of two above every block and class, which have two columns each.
const ORDER_BASE: u64 = 128;

// What admits a line after those before it. One that was turned away is handed on with its rule.
//
// Kept: inlined, and so is the next. The ledger works the line's place out too, and the compiler makes one of both where this is taken in.
#[inline(always)]
pub fn admit(line: Result<Entry, Rule>, last: u64, marks: &mut [u8; PLACES]) -> Result<Entry, Rule>
    requires { Keyed line }
    ensures { Admits line last marks.old result marks.new }
{
    admit_entry(line?, last, marks)
}

// What admits an entry after the lines before it: rule 11, a line with its code, block and class stood before, and rule 19, it doesn't come after
// the last one. The marks tell of those lines, and the key of the last one, 0 where there is none. A line that is admitted is marked.
//
// Kept: 0 for no last key. No key is 0, so that one comparison serves the first line too; an Option would be no plainer.
#[tactic(auto, using(crate::proofs::Admission::stands_marked))]
#[inline(always)]
fn admit_entry(e: Entry, last: u64, marks: &mut [u8; PLACES]) -> Result<Entry, Rule>
    requires { Key e.code e.block e.class }
    ensures { Admits (Ok e) last marks.old result marks.new }
{
    let at = places::index_for(e);
    if 0 < marks[at] {
        return Err(Rule::LineRepeated);
    }
    if key_of(e) <= last {
        return Err(Rule::OutOfOrder);
    }
    marks[at] = 1;
    Ok(e)
}

// The same of a line that was turned away by any number, a caller's own too: it is handed on with its number.
pub fn admit_by_number(
    line: Result<Entry, u64>,
    last: u64,
    marks: &mut [u8; PLACES],
) -> Result<Entry, u64>
    requires { KeyedByNumber line }
    ensures { AdmitsByNumber line last marks.old result marks.new }
{
    let admitted = admit_entry(line?, last, marks);
    admitted.map_err(
        |rule: Rule|
            ensures { result ≡ rule_number rule }
        { rule.number() },
    )
}

// The key of an entry in the order of lines.
pub fn key_of(e: Entry) -> u64
    requires { Key e.code e.block e.class }
    ensures { result ≡ key_for e }
{
    (codes::row_of(e.code, e.block).rank * ORDER_BASE + e.block) * ORDER_BASE + e.class
}
