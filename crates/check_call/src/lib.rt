// The check: a sheet is judged, then come rule 14 and the listing of the lines whose needs are unmet. And what tsav-check prints of a sheet.
//
// Only 176 lines can need another. They are looked up in the ledger that judging has filled, in the order of lines, which is the sheet's: once to
// count the unmet needs, so that a refusal writes nothing, and once to write.
#![tactic(auto)]

ghost use Rattle.std.specs.Prelude.{◌≡◌, ◌++◌, ◌+◌, ◌≤◌, length, drop};
ghost use Rattle.refusal.specs.Outcome.{stated_number};
ghost use Rattle.text_answer.specs.Lent.{Done};
ghost use Rattle.text_answer.specs.Printing.{printout, Printed};
ghost use Rattle.judgement.specs.Judgement.{judgement};
ghost use Rattle.needs.specs.Needing.{most_listed};
ghost use Rattle.check_call.specs.Call.{listing_to, check_call, ListsExactly};
ghost use Rattle.check_call.specs.Tabled.{tabled_listing, tabled_call, counted_to, one_at, PutAt};

use figures::NumberedFigures;
use ledger::Ledger;
use needs::{LISTED_BYTES, LONGEST_LISTING, MOST_LISTED};
use refusal::{Place, Refusal, Rule};
use sizes::BLOCKS;

// A sheet of any bytes, and lent room of any length: nothing is written into it before every rule passes.
pub fn check_call(sheet: &[u8], room: &mut [u8]) -> Result<usize, Refusal>
    ensures answer { ◌≡◌ {A = Done} (record { outcome = stated_number result; room = room.new }) (check_call sheet.now room.old) }
    ensures lists_exactly { ListsExactly sheet.now (stated_number result) room.new }
{
    let mut ledger = Ledger::new();
    let mut rows = [NumberedFigures::default(); BLOCKS];
    judgement::judge(sheet, &mut ledger, &mut rows)?;
    list(&ledger, room)
}

// What tsav-check prints of a sheet of any bytes, from the room's start on: the listing, or the line of the refusal. It gives how many bytes
// that is. There is room for every listing, so that 14 never comes.
// Kept: two lines in each of four calls, as `text_answer::print_answer` says.
pub fn print_check(sheet: &[u8], room: &mut [u8; LONGEST_LISTING]) -> usize
    ensures { Printed (printout (listing_to (judgement sheet.now))) result room.old room.new }
{
    let answer = check_call(sheet, room);
    text_answer::print_answer(answer, room)
}

// Rule 14, and then the listing of the lines that the ledger holds.
// Kept: the room beside the ledger, here and in two below; it is the caller's memory, lent for the call.
fn list(ledger: &Ledger, room: &mut [u8]) -> Result<usize, Refusal>
    ensures { ◌≡◌ {A = Done} (record { outcome = stated_number result; room = room.new }) (tabled_call ledger.now.firsts ledger.now.seconds room.old) }
{
    let length = LISTED_BYTES * count_unmet(ledger);
    if room.len() < length {
        return Err(Refusal(Rule::RoomTooShort, Place::Nowhere));
    }
    // Kept: a test of its own. Where no need is unmet the lines that can need another are not looked up a second time.
    if 0 < length {
        write_listing(ledger, room);
    }
    Ok(length)
}

// How many lines have an unmet need.
fn count_unmet(ledger: &Ledger) -> usize
    ensures { result ≡ counted_to ledger.now.firsts ledger.now.seconds most_listed }
{
    let mut count = 0;
    for n in 1..=MOST_LISTED {
        if needs_unmet::unmet(ledger.firsts(), ledger.seconds(), needs::needing(n)) {
            count += 1;
        }
    }
    count
}

// The listing, from the room's start on.
fn write_listing(ledger: &Ledger, room: &mut [u8])
    requires { length (tabled_listing ledger.now.firsts ledger.now.seconds) ≤ length room.old }
    ensures { let t = tabled_listing ledger.now.firsts ledger.now.seconds in room.new ≡ t ++ drop (length t) room.old }
{
    let mut at = 0;
    for n in 1..=MOST_LISTED {
        at = write_unmet(ledger, n, room, at);
    }
}

// One line more, into its own stretch, where its need is unmet. It gives where the next one stands.
fn write_unmet(ledger: &Ledger, n: usize, room: &mut [u8], at: usize) -> usize
    requires { (1 ≤ n) × (n ≤ most_listed) × (at + length (one_at ledger.now.firsts ledger.now.seconds n) ≤ length room.old) }
    ensures { PutAt (one_at ledger.now.firsts ledger.now.seconds n) at room.old result room.new }
{
    let need = needs::needing(n);
    if !needs_unmet::unmet(ledger.firsts(), ledger.seconds(), need) {
        return at;
    }
    needs_line::write_listed(&mut room[at..at + LISTED_BYTES], need.line, need.companion);
    at + LISTED_BYTES
}
