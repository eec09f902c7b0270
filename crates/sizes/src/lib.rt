// The numbers that count something, each once: specs/Sizes has the same names.
#![tactic(auto)]

// Blocks without participation: 1 to this one. They alone have MOR lines.
pub const NON_PARTICIPATING: usize = 16;

// Participating blocks, which follow: 17 to 32.
pub const PARTICIPATING: usize = 16;

// Blocks 1 to this one, of both sorts.
pub const BLOCKS: usize = NON_PARTICIPATING + PARTICIPATING;

// The insurance risks of section 11.2.1.
pub const RISKS: usize = 7;

// The products of two of them.
pub const PRODUCTS: usize = RISKS * RISKS;

// A block's other amounts: property and casualty, credit, market.
pub const OTHER_AMOUNTS: usize = 3;

// The block call's numbers: seven pairs IR, LT, then PC, credit, market.
pub const BLOCK_NUMBERS: usize = 2 * RISKS + OTHER_AMOUNTS;

// Where the numbers of a block that are no pair of a risk stand, by how many stand before: PC, credit and market; and the last LT, right before them.
pub const PC_POSITION: usize = 2 * RISKS;

pub const CREDIT_POSITION: usize = PC_POSITION + 1;

pub const MARKET_POSITION: usize = PC_POSITION + 2;

pub const LAST_LT_POSITION: usize = PC_POSITION - 1;

// The parts that K is divided among: the risks, then PC, credit, market.
pub const PARTS: usize = RISKS + OTHER_AMOUNTS;

// The figures that are reported of a block: I, D, U, LT, K.
pub const BLOCK_FIGURES: usize = 5;

// Territories with volumes.
pub const TERRITORIES: usize = 16;

// The volume classes of section 8.2.1.
pub const VOLUME_CLASSES: usize = 8;

// The pairs of volumes of all territories.
pub const VOLUME_PAIRS: usize = TERRITORIES * VOLUME_CLASSES;

// Eight pairs a territory.
pub const TERRITORY_NUMBERS: usize = 2 * VOLUME_CLASSES;

// The volumes of all territories.
pub const VOLUME_NUMBERS: usize = TERRITORIES * TERRITORY_NUMBERS;

// The adjustable products of section 11.3 that can have a credit.
pub const ADJUSTABLE_PRODUCTS: usize = 16;

// The general figures of section 8.2.3: gross components, guarantee requirement, ceded premiums.
pub const GENERAL_FIGURES: usize = 3;

// The scalar and the factors of chapter 8 are in ten-thousandths.
pub const TEN_THOUSANDTHS: u64 = 10000;

// I and D are worked out in hundredths of the half cent: so many to the half cent.
pub const FINENESS: u64 = 100;

// The largest scalar, in ten-thousandths.
pub const LARGEST_SCALAR: u64 = 20000;
