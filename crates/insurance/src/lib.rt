// Section 11.2.1, Exigence pour risque d'assurance (I):
//
//     I = √( Σ i,j=1..7  ρ_ij × (IR_i − 0,5 × LT_i) × (IR_j − 0,5 × LT_j) ) + PC
//
// The print lost the root sign; its example's figures show it, and document 01 says it. Here I is in hundredths of the half cent (document 02,
// #109) and ρ_ij in quarters.
#![tactic(auto)]

ghost use Rattle.std.specs.Prelude.{◌≡◌, ◌+◌, ◌*◌, ◌^◌, ◌<◌, max};
ghost use Rattle.sizes.specs.Sizes.{fineness};
ghost use Rattle.guideline.specs.Block.{ys, largest_of, fine_i};
ghost use Rattle.root.specs.Steps.{steps};
ghost use Rattle.insurance.specs.Radicand.{radicand_i};

use guideline::Block;
use root::Root;
use sizes::{FINENESS, RISKS};

// 2,500: what 10,000 × Q is of the sum in quarters.
const RADICAND_OF_SUM: u64 = FINENESS * FINENESS / 4;

// I, in hundredths of the half cent, with the steps of its root: what the section does, one thing after the other.
pub fn insurance(b: &Block) -> Root
    ensures { (result.root ≡ fine_i b.now.numbers) × (result.steps ≡ steps (radicand_i b.now.numbers)) }
{
    // 'IR_i − 0,5 × LT_i'
    let y = half_cents(b);
    // 'Σ ρ_ij × (IR_i − 0,5 × LT_i) × (IR_j − 0,5 × LT_j)'
    let sum = correlation::correlated(&y);
    // the root, by document 02: 'the least whole number of them (the radicand of I is 10,000 × Q)'
    let found = root::root_and_steps(sum * RADICAND_OF_SUM);
    // 'Cependant, I ne peut être inférieur à ..', and '+ PC'
    Root {
        root: floor_then_pc(found.root, &y, b.pc()),
        steps: found.steps,
    }
}

// The seven IR_i − 0,5 × LT_i, in half cents y(i) = 2 × IR(i) − LT(i): an odd LT keeps its half cent.
#[tactic(auto, unfolding(guideline::specs::Block::ys, guideline::specs::Block::y))]
fn half_cents(b: &Block) -> [u64; RISKS]
    ensures { result ≡ ys b.now.numbers }
{
    [
        2 * b.ir(1) - b.lt(1),
        2 * b.ir(2) - b.lt(2),
        2 * b.ir(3) - b.lt(3),
        2 * b.ir(4) - b.lt(4),
        2 * b.ir(5) - b.lt(5),
        2 * b.ir(6) - b.lt(6),
        2 * b.ir(7) - b.lt(7),
    ]
}

// What the section does with the root. PC stands in the formula and in its floor, so it is added last, to whichever is the larger.
fn floor_then_pc(root: u64, y: &[u64; RISKS], pc: u64) -> u64
    requires { max root (fineness * largest_of y.now) + fineness * (2 * pc) < 2 ^ 64 }
    ensures { result ≡ max root (fineness * largest_of y.now) + fineness * (2 * pc) }
{
    // 'Cependant, I ne peut être inférieur à la valeur la plus élevée de IR_i − 0,5 × LT_i ..'
    let without_pc = floored(root, y);
    // '.. + PC'
    with_pc(without_pc, pc)
}

// The floor: the root, but not below the largest of the y(i).
fn floored(root: u64, y: &[u64; RISKS]) -> u64
    requires { fineness * largest_of y.now < 2 ^ 64 }
    ensures { result ≡ max root (fineness * largest_of y.now) }
{
    root.max(FINENESS * largest_of(y))
}

// The largest of the seven y(i).
fn largest_of(y: &[u64; RISKS]) -> u64
    ensures { result ≡ largest_of y.now }
{
    y.iter().copied().fold(0, u64::max)
}

// '+ PC', in hundredths of the half cent.
fn with_pc(without: u64, pc: u64) -> u64
    requires { without + fineness * (2 * pc) < 2 ^ 64 }
    ensures { result ≡ without + fineness * (2 * pc) }
{
    without + FINENESS * (2 * pc)
}
