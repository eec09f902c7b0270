// Runs the block, the operational, the fluctuation and the shares call on rows of numbers. Standard input has a row a line: a word for the call,
// then numbers in decimal, `14*0` for 14 zeros. A line that begins with '#' says where rows are from; what follows `title` is printed. What is
// printed of each row is compared with the file stdout beside src/.
#![tactic(auto)]

use refusal::{Place, Refusal};
use sizes::{BLOCK_NUMBERS, CREDIT_POSITION, GENERAL_FIGURES, MARKET_POSITION, PC_POSITION, RISKS};
use std::io::Read;

// Room for all rows. More of them would not be read, and the comparison would show it.
const ROOM: usize = 16384;

// The most numbers of a row: of 17 territories, and the general figures.
const MOST_NUMBERS: usize = 275;

// Where the pairs of risks 5 to 7 begin in a block: the last three, right before PC.
const RISK_5_POSITION: usize = PC_POSITION - 6;

const RISK_6_POSITION: usize = PC_POSITION - 4;

const RISK_7_POSITION: usize = PC_POSITION - 2;

// Half cents of a dollar.
const DOLLAR: u64 = 200;

// Line after line.
fn main(rt: HostRuntime) {
    let mut room = [0u8; ROOM];
    let Some(text) = input_text(&mut rt.stdin(), &mut room) else {
        let _ = rt.println("no rows that can be read");
        return;
    };
    for line in text.lines() {
        print_line(&rt, line);
    }
}

// The input; none where there is none, or it can't be read, is longer than the room or is no text.
fn input_text<'a, R: Read>(input: &mut R, room: &'a mut [u8; ROOM]) -> Option<&'a str> {
    let n = stdio::read_all(input, room).ok()?;
    if n == 0 || n == ROOM {
        return None;
    }
    str::from_utf8(room.get(..n)?).ok()
}

// What is printed of a line.
fn print_line(rt: &impl Print, line: &str) {
    if line.starts_with('#') {
        return;
    }
    let (word, rest) = line.split_once(' ').unwrap_or((line, ""));
    if word == "title" {
        let _ = rt.println(rest);
    } else if print_row(rt, word, rest).is_none() {
        let _ = println!(rt; "not a row: {line}");
    }
}

// What is printed of a row; none where there is no such call, or it takes no such numbers.
fn print_row(rt: &impl Print, call: &str, rest: &str) -> Option<()> {
    let mut list = [0u64; MOST_NUMBERS];
    let n = read_numbers(rest, &mut list)?;
    let numbers = list.get(..n)?;
    let answer = if call == "block" {
        print_block(rt, numbers.as_array()?)
    } else if call == "dollars" {
        print_dollars(rt, numbers.as_array()?)
    } else if call == "segments" {
        print_segments(rt, numbers.as_array()?)
    } else if call == "shares" {
        print_shares(rt, numbers.as_array()?)
    } else if call == "fluctuation" {
        print_fluctuation(rt, numbers.as_array()?)
    } else if call == "operational" {
        let (volumes, general) = numbers.split_last_chunk()?;
        print_operational(rt, volumes, general)
    } else {
        return None;
    };
    if let Err(refusal) = answer {
        print_refusal(rt, refusal);
    }
    Some(())
}

// How many numbers a row has, entered from the start of a list; none where one of them is no number, or the list is too short.
fn read_numbers(row: &str, list: &mut [u64; MOST_NUMBERS]) -> Option<usize> {
    let mut n = 0usize;
    for word in row.split_ascii_whitespace() {
        let (times, number) = word.split_once('*').unwrap_or(("1", word));
        let (times, number) = (times.parse::<usize>().ok()?, number.parse::<u64>().ok()?);
        let end = n.checked_add(times)?;
        list.get_mut(n..end)?.fill(number);
        n = end;
    }
    Some(n)
}

// A refusal: its number and its place.
fn print_refusal(rt: &impl Print, Refusal(rule, place): Refusal) {
    let n = rule.number();
    let _ = match place {
        Place::Position(at) => println!(rt; "refused {n} position {at}"),
        Place::Nowhere => println!(rt; "refused {n}"),
        _ => println!(rt; "refused {n} elsewhere"),
    };
}

// A title and numbers in a unit, rounded to the nearest, on a line.
fn print_numbers(rt: &impl Print, title: &str, numbers: &[u64], unit: u64) {
    let _ = rt.print(title);
    for n in numbers {
        let units = nearest(*n, unit);
        let _ = print!(rt; " {units}");
    }
    let _ = rt.println("");
}

// The same of so many times each number, in tenths and with a decimal comma.
fn print_in_tenths(rt: &impl Print, title: &str, numbers: &[u64], times: u64, unit: u64) {
    let _ = rt.print(title);
    for n in numbers {
        let tenths = nearest(n.saturating_mul(times), unit);
        let _ = print!(rt; " {},{}", tenths / 10, tenths % 10);
    }
    let _ = rt.println("");
}

// n over d, rounded to the nearest; 0 where d is 0.
fn nearest(n: u64, d: u64) -> u64 {
    let twice = n.saturating_mul(2).checked_div(d).unwrap_or(0);
    twice / 2 + twice % 2
}

// Cents in half cents.
fn halves(cents: u64) -> u64 {
    cents.saturating_mul(2)
}

// A block's figures, and the steps of its roots.
fn print_block(rt: &impl Print, b: &[u64; BLOCK_NUMBERS]) -> Result<(), Refusal> {
    let worked = block::block_call(b)?;
    let (f, s) = (worked.figures, worked.steps);
    let numbers = [f.i, f.d, f.u, f.lt, f.k, s.i, s.d];
    print_numbers(rt, "I, D, U, LT, K, steps:", &numbers, 1);
    Ok(())
}

// The shares of a block.
fn print_shares(rt: &impl Print, b: &[u64; BLOCK_NUMBERS]) -> Result<(), Refusal> {
    let shares = shares::shares_call(b)?;
    print_numbers(rt, "shares:", &shares, 1);
    Ok(())
}

// RO of volumes and of the general figures.
fn print_operational(
    rt: &impl Print,
    volumes: &[u64],
    general: &[u64; GENERAL_FIGURES],
) -> Result<(), Refusal> {
    let ro = operational::operational_call(volumes, general)?;
    print_numbers(rt, "RO:", &[ro], 1);
    Ok(())
}

// A requirement times its factor, of its row, it and a face amount.
fn print_fluctuation(rt: &impl Print, numbers: &[u64; 3]) -> Result<(), Refusal> {
    let [row, requirement, face] = *numbers;
    let product = fluctuation::fluctuation_call(row, requirement, face)?;
    print_numbers(rt, "result:", &[product], 1);
    Ok(())
}

// What document 000 prints of its example, in whole dollars and in its order. Mortality is the largest of the seven risks.
fn print_dollars(rt: &impl Print, b: &[u64; BLOCK_NUMBERS]) -> Result<(), Refusal> {
    let f = block::block_call(b)?.figures;
    let mut y = [0u64; RISKS];
    let mut components = 0u64;
    for risk in 0..RISKS {
        let component = halves(b[2 * risk]);
        y[risk] = component.saturating_sub(b[2 * risk + 1]);
        components = components.saturating_add(component);
    }
    let pc = halves(b[PC_POSITION]);
    let a = halves(b[CREDIT_POSITION]).saturating_add(halves(b[MARKET_POSITION]));
    let i = [f.i.saturating_sub(pc), f.i, y[0].saturating_add(pc)];
    print_numbers(rt, "", &y, DOLLAR);
    print_numbers(rt, "totals", &[components, halves(f.lt)], DOLLAR);
    print_numbers(rt, "I", &i, DOLLAR);
    print_numbers(
        rt,
        "A, D, U, K",
        &[a, f.d, halves(f.u), halves(f.k)],
        DOLLAR,
    );
    Ok(())
}

// What document 001 prints of its illustration, section 2.2.2: the capital of all four segments and of each three of them, in whole dollars, then
// the shares, in tenths of a dollar and of a percent. Segment 1 is market, 2 to 4 are risks 5 to 7.
fn print_segments(rt: &impl Print, b: &[u64; BLOCK_NUMBERS]) -> Result<(), Refusal> {
    let [_, _, _, _, risk5, risk6, risk7, _, _, market] = shares::shares_call(b)?;
    let shares = [market, risk5, risk6, risk7];
    let all = capital_without(b, 0, 0)?;
    let not_market = capital_without(b, MARKET_POSITION, BLOCK_NUMBERS)?;
    let not_5 = capital_without(b, RISK_5_POSITION, RISK_6_POSITION)?;
    let not_6 = capital_without(b, RISK_6_POSITION, RISK_7_POSITION)?;
    let not_7 = capital_without(b, RISK_7_POSITION, PC_POSITION)?;
    print_numbers(rt, "SCR", &[all, not_market, not_5, not_6, not_7], DOLLAR);
    print_in_tenths(rt, "shares", &shares, 20, DOLLAR);
    print_in_tenths(rt, "percent", &shares, 2000, all);
    Ok(())
}

// K in half cents of a block with the numbers from one position on to another zero.
fn capital_without(b: &[u64; BLOCK_NUMBERS], from: usize, to: usize) -> Result<u64, Refusal> {
    let mut rest = *b;
    if let Some(segment) = rest.get_mut(from..to) {
        segment.fill(0);
    }
    Ok(halves(block::block_call(&rest)?.figures.k))
}
