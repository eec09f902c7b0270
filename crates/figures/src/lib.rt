// A block's figures, sections 11.2.1 to 11.2.4, with the steps of its two roots.
#![tactic(auto)]

ghost use Rattle.std.specs.Prelude.{◌≡◌, ◌+◌, ◌-◌, ◌*◌, ◌^◌, ◌≤◌, ◌<◌, leb};
ghost use Rattle.basics.specs.Least.{least};
ghost use Rattle.amount.specs.Amount.{limit};
ghost use Rattle.sizes.specs.Sizes.{fineness};
ghost use Rattle.guideline.specs.Block.{A, U, LT, radicand, reported, requirement, figures_of};
ghost use Rattle.root.specs.Steps.{steps};
ghost use Rattle.figures.specs.Parts.{figure_list, step_list, FigureBounds};
ghost use Rattle.figures.specs.RootSteps.{steps_of};

use guideline::Block;
use root::Root;
use sizes::FINENESS;
use wide::Wide;

// 60 × V in hundredths, as it is beside D, is so many times V in cents.
const OVER_V: u64 = 60 * FINENESS;
// And 7V / 10 so many times.
const SEVEN_TENTHS: u64 = 7 * FINENESS / 10;

// The reported figures of a block: I and D in half cents, the others in cents.
#[derive(Clone, Copy, Default)]
pub struct Figures {
    pub i: u64,
    pub d: u64,
    pub u: u64,
    pub lt: u64,
    pub k: u64,
}

// A block's number, and its figures.
#[derive(Clone, Copy, Default)]
pub struct NumberedFigures {
    pub block: u64,
    pub figures: Figures,
}

// The steps of a block's two roots: that of I, and that of D.
#[derive(Clone, Copy)]
pub struct Steps {
    pub i: u64,
    pub d: u64,
}

// A block's figures, and the steps of its roots.
#[derive(Clone, Copy)]
pub struct FiguresAndSteps {
    pub figures: Figures,
    pub steps: Steps,
}

// The figures of a block.
pub fn figures_of(b: &Block) -> Figures
    ensures { figure_list result ≡ figures_of b.now.numbers }
{
    worked_out(b).figures
}

// The same with the steps, in the order of sections 11.2.1 to 11.2.4.
pub fn worked_out(b: &Block) -> FiguresAndSteps
    ensures { (figure_list result.figures ≡ figures_of b.now.numbers) × (step_list result.steps ≡ steps_of b.now.numbers) }
{
    // 11.2.1: I
    let insurance = insurance::insurance(b);
    let fine_i = insurance.root;
    // 11.2.2: D
    let joint = diversified(FINENESS * (2 * credit_and_market(b)), fine_i);
    let fine_d = joint.root;
    // 11.2.3: U
    let u = undiversified(b);
    // 11.2.4: LT = Σ LT_i, and K
    let lt = level_and_trend(b);
    let k = adjusted_requirement(u, lt, fine_d);
    FiguresAndSteps {
        figures: Figures {
            i: in_half_cents(fine_i),
            d: in_half_cents(fine_d),
            u,
            lt,
            k,
        },
        steps: Steps {
            i: insurance.steps,
            d: joint.steps,
        },
    }
}

// A finer I or D in half cents, the least at or above.
fn in_half_cents(x: u64) -> u64
    requires { x < 2 ^ 63 }
    ensures { result ≡ reported x }
{
    x.div_ceil(FINENESS)
}

// ---- 11.2.2 Exigence pour risque diversifié (D): D = √( A² + AI + I² ), as its example has it.

// D, in hundredths of the half cent as a and I are, with the steps of its root, for a = 2 × A. a² + a × I + I² is a × (a + I) + I².
fn diversified(a: u64, i: u64) -> Root
    requires { a + i ≤ fineness * (20 * limit) }
    ensures { (result.root ≡ least (λ d. leb (radicand a i) (d * d))) × (result.steps ≡ steps (radicand a i)) }
{
    root::root_and_steps(Wide::product(a, a + i) + Wide::product(i, i))
}

// 'A est la somme des exigences pour le risque de crédit .. et le risque du marché', in cents.
#[tactic(auto, unfolding(guideline::specs::Block::A))]
fn credit_and_market(b: &Block) -> u64
    ensures { (result ≡ A b.now.numbers) × (result ≤ 2 * limit) }
{
    b.credit() + b.market()
}

// ---- 11.2.3 Exigence pour risque non diversifié (U): U = Σ i=1..7 IR_i + PC + A.

// U, in cents.
#[tactic(auto, unfolding(guideline::specs::Block::U))]
fn undiversified(b: &Block) -> u64
    ensures { result ≡ U b.now.numbers }
{
    let risks = b.ir(1) + b.ir(2) + b.ir(3) + b.ir(4) + b.ir(5) + b.ir(6) + b.ir(7);
    risks + b.pc() + credit_and_market(b)
}

// ---- 11.2.4 Exigence diversifiée ajustée (K), by document 01's formula: the print of K lost its fractions.

// LT without a number, LT = Σ i=1..7 LT_i, in cents.
#[tactic(auto, unfolding(guideline::specs::Block::LT))]
fn level_and_trend(b: &Block) -> u64
    ensures { result ≡ LT b.now.numbers }
{
    b.lt(1) + b.lt(2) + b.lt(3) + b.lt(4) + b.lt(5) + b.lt(6) + b.lt(7)
}

// K, in cents, with V = 2U − LT and d, the finer D; V is taken in hundredths beside it. M is (3d − V) × (10d − 7V), the second factor cut at 0:
// with V at most 3d no sign is needed. In tenths of a cent K is 8U + LT, in cents, and a tenth of M over 60 × V: a number of two words by v, a
// quotient of one word by a constant and a sum by 10, each time rounded up.
fn adjusted_requirement(u: u64, lt: u64, d: u64) -> u64
    requires { FigureBounds u lt d }
    ensures { result ≡ requirement u lt (2 * u - lt) d }
{
    if u == 0 {
        return 0;
    }
    let v = 2 * u - lt;
    let tenth_of_m = Wide::product(3 * d - FINENESS * v, amount::excess(d, SEVEN_TENTHS * v));
    let tenths = division::divide_up(tenth_of_m, v).div_ceil(OVER_V);
    (8 * u + lt + tenths).div_ceil(10)
}
