// The timers of a table: laid out, created, found, cancelled, deleted, and asked for their ticks left. The calls that start timers are in crate
// `starts`, those of the clock in `clock`, those of the deferred server in `server`. None asks anything of its arguments:
// every table, number and date is answered, and each contract gives status, answer and every word of table and list by one equation with the
// model's `outcome` (model/specs/Outcome.antt). `status_of` and `answer_of` (answers/specs/Answers.antt) say what an answer is in document 01's
// numbers.
#![tactic(auto)]

ghost use Rattle.std.specs.Prelude.{◌≡◌, []};
ghost use Rattle.calendar.specs.Calendar.{all_of};
ghost use Rattle.model.specs.Calls as call;
ghost use Rattle.model.specs.Directives.{limits};
ghost use Rattle.model.specs.Outcome.{outcome_of, outcome};
ghost use Rattle.answers.specs.Answers.{status_of, answer_of};

use links::{Table, store, ticks_to};
use model::Status;
use opening::{open_party, open_timer};
use slots::{ID_BASE, Sound, clear};
use table::*;

// The numbers of a lay out are within their limits.
fn numbers_fit(slots: u32, rate: u32, split: u32) -> bool
    ensures { result ≡ all_of (limits slots rate split) }
{
    within_limits(slots, rate) && split < slots
}

// A table for so many slots: clock not set, all slots free. The first `split` of them are party 1's, the rest party 2's; 0 is for one party.
pub fn lay_out(table: &mut [u32], slots: u32, rate: u32, split: u32) -> Result<u32, Status>
    ensures { outcome_of (status_of result) (answer_of result) table.new [] ≡ outcome table.old (call.lay_out slots rate split) }
{
    if !numbers_fit(slots, rate, split) {
        return Err(Status::InvalidNumber);
    }
    let words = HEADER + SLOT * (slots as usize);
    if table.len() < words {
        return Err(Status::InvalidSize);
    }
    clear(table, words);
    table[SLOT_COUNT] = slots;
    table[TICKS_PER_SECOND] = rate;
    table[PARTY_SPLIT] = split;
    Ok(0)
}

// The party's lowest free slot becomes a timer of this name; answers its id.
pub fn create(table: &mut [u32], party: u32, name: u32) -> Result<u32, Status>
    ensures { outcome_of (status_of result) (answer_of result) table.new [] ≡ outcome table.old (call.create party name) }
{
    open_party(table, party)?;
    if name == 0 {
        return Err(Status::InvalidName);
    }
    let i = Sound { words: table }
        .free_slot(party)
        .ok_or(Status::TooMany)?;
    store(table, i, Kind::NeverStarted as u32, name);
    Ok(ID_BASE + i)
}

// The id of the party's lowest slot with this name. (create and ident begin alike, and stay two: each has its own rules and its own equation.)
pub fn ident(table: &[u32], party: u32, name: u32) -> Result<u32, Status>
    ensures { outcome_of (status_of result) (answer_of result) table.now [] ≡ outcome table.now (call.ident party name) }
{
    open_party(table, party)?;
    if name == 0 {
        return Err(Status::InvalidName);
    }
    let i = Sound { words: table }
        .slot_called(party, name)
        .ok_or(Status::InvalidName)?;
    Ok(ID_BASE + i)
}

// A waiting or queued timer is idle then. Refused where there is nothing to cancel.
pub fn cancel(table: &mut [u32], party: u32, id: u32) -> Result<u32, Status>
    ensures { outcome_of (status_of result) (answer_of result) table.new [] ≡ outcome table.old (call.cancel party id) }
{
    let i = open_timer(table, party, id)?;
    let mut timers = Table { words: table };
    if !timers.stop(i) {
        return Err(Status::IncorrectState);
    }
    Ok(0)
}

// A timer is cancelled if waiting or queued, and its slot is free again.
pub fn delete(table: &mut [u32], party: u32, id: u32) -> Result<u32, Status>
    ensures { outcome_of (status_of result) (answer_of result) table.new [] ≡ outcome table.old (call.delete party id) }
{
    let i = open_timer(table, party, id)?;
    let mut timers = Table { words: table };
    timers.stop(i);
    store(table, i, Kind::Free as u32, 0);
    Ok(0)
}

// The ticks until a timer that waits for ticks fires or is queued; 0 for any other.
pub fn ticks_left(table: &[u32], party: u32, id: u32) -> Result<u32, Status>
    ensures { outcome_of (status_of result) (answer_of result) table.now [] ≡ outcome table.now (call.ticks_left party id) }
{
    let i = open_timer(table, party, id)?;
    if !waits_for_ticks(get(table, i, KIND)) {
        return Ok(0);
    }
    Ok(ticks_to(table, i))
}
