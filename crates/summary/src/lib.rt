// The quarter, request #114: of its accepted sheets the number, the smallest and the largest buffer, each with the first sheet that has it, the total
// and the mean.
#![tactic(auto)]

ghost use Rattle.std.specs.Prelude.{◌≡◌, List, ◌∷◌, [], ◌++◌, ◌+◌, ◌^◌, ◌<◌};
ghost use Rattle.summary.specs.Summaries.{summary_of, items_of};
ghost use Rattle.summary.specs.declared.Accepted.{Accepted};

use std::cmp::{max_by_key, min_by_key};

// An accepted sheet: its number, and its buffer.
#[derive(Clone, Copy)]
pub struct Accepted {
    pub sheet: u64,
    pub buffer: u64,
}

// What is known of the accepted sheets so far; zeros where there is none.
// Kept: zeros and not an Option: in one, that the count is above 0 would be a fact carried beside it, for the division by it in `items`.
#[derive(Clone, Copy)]
pub struct Summary {
    pub count: u64,
    pub smallest: Accepted,
    pub largest: Accepted,
    pub total: u64,
}

// The items of a summary.
pub const SUMMARY_ITEMS: usize = 8;

// No sheet yet.
pub fn no_sheets() -> Summary
    ensures { result ≡ summary_of [] }
{
    let nothing = Accepted {
        sheet: 0,
        buffer: 0,
    };
    Summary {
        count: 0,
        smallest: nothing,
        largest: nothing,
        total: 0,
    }
}

// A sheet more, after the others, whichever they are.
pub fn with_sheet(s: Summary, a: Accepted) -> Summary
    requires { (s.count + 1 < 2 ^ 64) × (s.total + a.buffer < 2 ^ 64) }
    ensures { (xs : List Accepted) → s ≡ summary_of xs → result ≡ summary_of (xs ++ (a ∷ [])) }
{
    if s.count == 0 {
        return Summary {
            count: 1,
            smallest: a,
            largest: a,
            total: a.buffer,
        };
    }
    Summary {
        count: s.count + 1,
        smallest: min_by_key(s.smallest, a, |x| x.buffer),
        // of equal ones this gives the second
        largest: max_by_key(a, s.largest, |x| x.buffer),
        total: s.total + a.buffer,
    }
}

// Items 1 to 8, in order.
pub fn items(s: Summary) -> [u64; SUMMARY_ITEMS]
    ensures { result ≡ items_of s }
{
    let (mean, remainder) = if s.count == 0 {
        (0, 0)
    } else {
        (s.total / s.count, s.total % s.count)
    };
    [
        s.count,
        s.smallest.buffer,
        s.smallest.sheet,
        s.largest.buffer,
        s.largest.sheet,
        s.total,
        mean,
        remainder,
    ]
}
