// What a call gives to C and Rust of its answer: its number, its values or how many bytes it has written, or the place of its refusal.
#![tactic(auto)]

ghost use Rattle.std.specs.Prelude.{◌≡◌};
ghost use Rattle.refusal.specs.Outcome.{Never0, place_of, rule_number, stated_number, stated_numbers};
ghost use Rattle.text_answer.specs.Lent.{stated_by_number};
ghost use Rattle.exported_answer.specs.Caller.{CallerHas};

use refusal::{Place, Refusal};

// Given by a call that is accepted. No refusal has this number.
// Kept: a number, since the C interface has it: include/tsav.h says that 0 is accepted.
pub const ACCEPTED: u64 = 0;

// What a call has answered that gives N values: these are written, or its refusal is.
pub fn give_values<const N: usize>(
    answer: Result<[u64; N], Refusal>,
    values: &mut [u64; N],
    place: &mut [u64; 2],
) -> u64
    ensures never_0 { Never0 (stated_numbers answer.entry) }
    ensures leaves { CallerHas (stated_numbers answer.entry) result values.old place.old values.new place.new }
{
    match answer {
        Ok(given) => {
            *values = given;
            ACCEPTED
        }
        Err(refusal) => give_refusal(refusal, place),
    }
}

// What a call has answered that was lent room: how many bytes it has written, or its refusal.
pub fn give_length(
    answer: Result<usize, Refusal>,
    written: &mut [u64; 1],
    place: &mut [u64; 2],
) -> u64
    ensures { CallerHas (stated_number answer) result written.old place.old written.new place.new }
{
    let by_number = answer.map_err(
        |refusal: Refusal|
            ensures { (result.0 ≡ rule_number refusal.0) × (result.1 ≡ refusal.1) }
        { (refusal.0.number(), refusal.1) },
    );
    give_length_by_number(by_number, written, place)
}

// The same of an answer that tells its refusal by any number but 0, a caller's own too.
pub fn give_length_by_number(
    answer: Result<usize, (u64, Place)>,
    written: &mut [u64; 1],
    place: &mut [u64; 2],
) -> u64
    requires { Never0 (stated_by_number answer) }
    ensures { CallerHas (stated_by_number answer) result written.old place.old written.new place.new }
{
    match answer {
        Ok(length) => {
            *written = [cast::word(length)];
            ACCEPTED
        }
        Err((number, at)) => give_refusal_by_number(number, at, place),
    }
}

// A refusal's number is given, and its place is written.
pub fn give_refusal(refusal: Refusal, place: &mut [u64; 2]) -> u64
    ensures { (result ≡ rule_number refusal.0) × (place.new ≡ place_of refusal.1) }
{
    let Refusal(rule, at) = refusal;
    give_refusal_by_number(rule.number(), at, place)
}

// The same of a refusal by any number, a caller's own too.
pub fn give_refusal_by_number(number: u64, at: Place, place: &mut [u64; 2]) -> u64
    ensures { (result ≡ number) × (place.new ≡ place_of at) }
{
    *place = at.into();
    number
}
