// The lines of the risks: how far K moves as one component is raised by t, or that it would pass the limit.
ghost use Rattle.std.specs.Prelude.{◌≡◌, suc, ◌++◌, ◌+◌, ◌*◌, ◌≤◌, ◌<◌, length, drop};
ghost use Rattle.std.proofs.Math.IntN.{sub_ℕ};
ghost use Rattle.amount.specs.Amount.{limit};
ghost use Rattle.sizes.specs.Sizes.{risks, block_numbers};
ghost use Rattle.guideline.specs.Block.{ir, K};
ghost use Rattle.sensitivity.specs.Movement.{raised};
ghost use Rattle.report_line.specs.Line.{report_line_bytes};
ghost use Rattle.movement.specs.Call.{signed_line, MOV, risk_line, risk_lines};

use amount::LARGEST_AMOUNT;
use guideline::Block;
use refusal::{Place, Refusal, Rule};
use report_line::{NUMBER, NUMBER_END, REPORT_LINE_BYTES, Row};
use sizes::RISKS;

// A line for each risk, of a block whose reported K is k, each into its own stretch of the room, from its start on.
// Kept: the block and its raise as two parameters, here and in two below; a struct of them would be filled here and opened at once.
// Kept: how many numbers the block has stays a clause, here and in two below. `Block` can't say it, as one is made of any array of 17 numbers
// (`block::accepted_block`), and a law gets no length of an array from its type; here it is known of what was read.
pub(crate) fn write_movements(block: &Block, k: u64, raise: u64, room: &mut [u8])
    requires { (length block.now.numbers ≡ block_numbers) × (k ≡ K block.now.numbers) × (report_line_bytes * risks ≤ length room.old) }
    ensures { room.new ≡ risk_lines block.now.numbers raise risks ++ drop (report_line_bytes * risks) room.old }
{
    for i in 0..RISKS {
        let at = REPORT_LINE_BYTES * i;
        write_movement(block, k, raise, i, &mut room[at..at + REPORT_LINE_BYTES]);
    }
}

// The line of the risk behind i others: what it moves K by, or that the raise takes it above the limit.
fn write_movement(block: &Block, k: u64, raise: u64, i: usize, out: &mut [u8])
    requires { (length block.now.numbers ≡ block_numbers) × (k ≡ K block.now.numbers) × (i < risks) × (length out.old ≡ report_line_bytes) }
    ensures { out.new ≡ risk_line block.now.numbers raise (suc i) }
{
    let component = block.ir(i + 1);
    if LARGEST_AMOUNT - component < raise {
        text_answer::write_refusal(out, Refusal(Rule::RaiseAboveLimit, Place::Risk(i + 1)));
        return;
    }
    let figures = figures::figures_of(&raised(block, raise, i));
    write_signed(out, cast::word(i + 1), figures.k, k);
}

// The block with the component of the risk behind i others raised.
fn raised(block: &Block, raise: u64, i: usize) -> Block
    requires { (length block.now.numbers ≡ block_numbers) × (i < risks) × (ir block.now.numbers (suc i) + raise ≤ limit) }
    ensures { result.numbers ≡ raised block.now.numbers (suc i) raise }
{
    // A number at a time, as in `Block::new`.
    let [a, b, c, d, e, f, g, h, j, k, l, m, n, o, p, q, r] = *block.numbers();
    let mut numbers = [a, b, c, d, e, f, g, h, j, k, l, m, n, o, p, q, r];
    numbers[2 * i] += raise;
    Block::new(numbers)
}

// The line of a movement from one K to another.
fn write_signed(out: &mut [u8], risk: u64, to: u64, from: u64)
    requires { length out.old ≡ report_line_bytes }
    ensures { out.new ≡ signed_line MOV 0 risk (sub_ℕ to from) }
{
    let row = Row {
        code: *b"MOV",
        block: 0,
        item: risk,
        number: 0,
    };
    row.write(out);
    field::signed::write_difference(&mut out[NUMBER..NUMBER_END], to, from);
}
