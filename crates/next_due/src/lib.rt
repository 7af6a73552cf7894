// When the next interval timer is due, for whoever wants to sleep until then. This call alone makes no check of the whole table: it reads the header and
// one slot, so that its time does not grow with the slots. Its contract is as those of crate `timer`.
#![tactic(auto)]

ghost use Rattle.std.specs.Prelude.{◌≡◌, [], take};
ghost use Rattle.calendar.specs.Calendar.{all_of};
ghost use Rattle.model.specs.Calls as call;
ghost use Rattle.model.specs.Directives.{first_tests};
ghost use Rattle.model.specs.Outcome.{outcome_of, outcome};
ghost use Rattle.answers.specs.Answers.{status_of, answer_of};

use model::Status;
use table::*;

// The slice has a header, 1 to 255 slots by it, and the words of them all.
fn has_room(table: &[u32]) -> bool
    ensures { result ≡ all_of (take 4 (first_tests table.now)) }
{
    HEADER <= table.len()
        && (1..=MOST_SLOTS).contains(&table[SLOT_COUNT])
        && HEADER + SLOT * (table[SLOT_COUNT] as usize) <= table.len()
}

// The ticks until the first interval timer, 0 if none waits. On a sound table these are the least ticks left over all of them.
// (0 and no `Option`: it is the number that the call answers, in document 01 and to C.)
pub fn next_due(table: &[u32]) -> Result<u32, Status>
    ensures { outcome_of (status_of result) (answer_of result) table.now [] ≡ outcome table.now call.next_due }
{
    if !has_room(table) {
        return Err(Status::NotSound);
    }
    let first = table[FIRST_TICKING];
    if first == 0 {
        return Ok(0);
    }
    if table[SLOT_COUNT] < first {
        return Err(Status::NotSound);
    }
    if !waits_for_ticks(get(table, first, KIND)) {
        return Err(Status::NotSound);
    }
    let wait = get(table, first, WAIT);
    if wait == 0 {
        return Err(Status::NotSound);
    }
    Ok(wait)
}
