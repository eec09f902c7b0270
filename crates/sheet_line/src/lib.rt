// A line of the sheet: 40 bytes, rules 3, 4, 5, 6, 8, 9 and 10 in this order.
#![tactic(auto)]

// Rules 5 to 10, of what the line says.
pub mod rules;

ghost use Rattle.std.specs.Prelude.{◌≡◌, Option};
ghost use Rattle.std.specs.Fn.{FnOnceReturnsAt};
ghost use Rattle.codes.specs.declared.Code.{Code};
ghost use Rattle.layout.specs.Columns.{layout_of};
ghost use Rattle.sheet_line.specs.Rules.{rule3, parse_line};

use codes::Code;
use layout::SHEET_LINE_BYTES;
use refusal::Rule;

// A line's code and numbers.
#[derive(Clone, Copy)]
pub struct Entry {
    pub code: Code,
    pub block: u64,
    pub class: u64,
    pub first: u64,
    pub second: u64,
}

// Reads a line: its layout and its code, then the rules of what it says. The first rule that it breaks turns it away.
#[tactic(auto, unfolding(crate::specs::Rules::parse_line))]
pub fn read_line(s: &[u8; SHEET_LINE_BYTES]) -> Result<Entry, Rule>
    ensures { result ≡ parse_line s.now }
{
    read_line_by(s, |s| codes::read_code(s))
}

// Reads a line whose code is told by a reader of its own.
//
// Kept: the reader, and not the code that it tells. So the compiler makes a copy of this for each reader and takes it into its one caller; of one
// copy for two callers the entry would come through memory (docs/DECISIONS.md).
pub fn read_line_by<F: FnOnce(&[u8; SHEET_LINE_BYTES]) -> Option<Code>>(
    s: &[u8; SHEET_LINE_BYTES],
    reader: F,
) -> Result<Entry, Rule>
    requires { F.IsAlwaysCallable reader }
    ensures { (c : Option Code) × FnOnceReturnsAt F.FnOnce reader s.now c × (result ≡ rule3 (layout_of s.now) c) }
{
    let coded = reader(s);
    let n = layout::read_layout(s).ok_or(Rule::BrokenLayout)?;
    let code = coded.ok_or(Rule::UnknownCode)?;
    rules::judged(Entry {
        code,
        block: n.block,
        class: n.class,
        first: n.first,
        second: n.second,
    })
}
