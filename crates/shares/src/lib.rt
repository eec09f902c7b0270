// The shares call: K of a block divided among its ten parts by the marginal method, request #112.
#![tactic(auto)]

ghost use Rattle.std.specs.Prelude.{◌≡◌, ◌≤◌};
ghost use Rattle.refusal.specs.Outcome.{stated_numbers};
ghost use Rattle.sizes.specs.Sizes.{parts};
ghost use Rattle.guideline.specs.Block.{K};
ghost use Rattle.shares.specs.Margins.{without, k_without};
ghost use Rattle.shares.specs.Call.{shares_call, rule23};
ghost use Rattle.shares.specs.Accepted.{SharesDemand};
ghost use Rattle.shares.specs.Steps.{MarginsOf};

use guideline::Block;
use refusal::{Place, Refusal, Rule};
use sizes::{BLOCK_NUMBERS, PARTS, PC_POSITION, RISKS};

// The first part after the risks: PC, then credit, then market.
const PC_PART: usize = RISKS + 1;

// The margins of the parts, and their sum.
#[derive(Clone, Copy)]
struct PartMargins {
    each: [u64; PARTS],
    sum: u64,
}

// The shares of a block of any 17 numbers, seven pairs IR, LT, then PC, credit, market: those of the seven risks, then of PC, credit, market, in
// cents. Where it is accepted, they total K, and each is within a cent of its unrounded share.
pub fn shares_call(b: &[u64; BLOCK_NUMBERS]) -> Result<[u64; PARTS], Refusal>
    ensures outcome { stated_numbers result ≡ shares_call b.now }
    ensures shares_demand { SharesDemand b.now (stated_numbers result) }
{
    let block = block::accepted_block(b)?;
    shares_of(&block)
}

// The shares of a block, or rule 23 where they can't be had.
fn shares_of(b: &Block) -> Result<[u64; PARTS], Refusal>
    ensures { stated_numbers result ≡ rule23 b.now.numbers }
{
    let k = figures::figures_of(b).k;
    let Some(margins) = margins_of(b, k) else {
        return Err(Refusal(Rule::NoShares, Place::Nowhere));
    };
    let sum = margins.sum;
    if sum == 0 {
        return Err(Refusal(Rule::NoShares, Place::Nowhere));
    }
    Ok(apportion::shared_out(k, &margins.each, sum))
}

// The margins, where none is negative: the block is not worked out again after the first that is.
fn margins_of(b: &Block, k: u64) -> Option<PartMargins>
    requires { k ≡ K b.now.numbers }
    ensures { MarginsOf b.now.numbers result }
{
    let mut each = [0u64; PARTS];
    let mut sum = 0u64;
    for part in 0..PARTS {
        let less = k_without(b, part + 1);
        if k < less {
            return None;
        }
        each[part] = k - less;
        sum += k - less;
    }
    Some(PartMargins { each, sum })
}

// K with the amounts of a part, from 1 to 10, zero.
fn k_without(b: &Block, part: usize) -> u64
    requires { (1 ≤ part) × (part ≤ parts) }
    ensures { result ≡ k_without b.now.numbers part }
{
    let less = Block::new(without_part(b.numbers(), part));
    figures::figures_of(&less).k
}

// The block with the amounts of a part zero: IR and LT of a risk, or the one amount of PC, credit or market.
fn without_part(b: &[u64; BLOCK_NUMBERS], part: usize) -> [u64; BLOCK_NUMBERS]
    requires { (1 ≤ part) × (part ≤ parts) }
    ensures { result ≡ without b.now part }
{
    // A number at a time, as in `Block::new`.
    let [a, c, d, e, f, g, h, i, j, k, l, m, n, o, p, q, r] = *b;
    let mut less = [a, c, d, e, f, g, h, i, j, k, l, m, n, o, p, q, r];
    if RISKS < part {
        less[PC_POSITION + (part - PC_PART)] = 0;
        return less;
    }
    less[2 * part - 2] = 0;
    less[2 * part - 1] = 0;
    less
}
