// The calls that start timers: for some ticks, for a date, for every so many ticks, and again; what a start does behind its opening is in crate
// `starting`. Their contracts are as those of crate `timer`. (fire_after, fire_every and fire_when stay three, here and in crate `server`: each is
// a call of document 01 with its own equation, and what they share is one function already.)
#![tactic(auto)]

ghost use Rattle.std.specs.Prelude.{◌≡◌, cond, Some, None, []};
ghost use Rattle.model.specs.Kinds.{last_by_ticks, last_mode};
ghost use Rattle.model.specs.Calls as call;
ghost use Rattle.model.specs.Outcome.{outcome_of, outcome};
ghost use Rattle.answers.specs.Answers.{status_of, answer_of};

use calendar::WallTime;
use links::Table;
use model::{Mode, Status};
use opening::{open_party, open_timer};
use starting::{start_for_date, start_for_ticks};
use table::*;

// How a timer of the kind was last started, if by interval: idle, waiting or queued.
fn last_by_ticks(kind: u32) -> Option<Mode>
    ensures { result ≡ cond (last_by_ticks kind) (Some (last_mode kind)) None }
{
    match Kind::try_from(kind) {
        Ok(Kind::IdleTicks | Kind::WaitingTicks) => Some(Mode::After),
        Ok(Kind::IdleEvery | Kind::WaitingEvery) => Some(Mode::Every),
        Ok(Kind::ServerIdleTicks | Kind::ServerWaitingTicks | Kind::QueuedTicks) => {
            Some(Mode::ServerAfter)
        }
        _ => None,
    }
}

// A timer fires so many ticks from now.
pub fn fire_after(
    table: &mut [u32],
    party: u32,
    id: u32,
    ticks: u32,
    routine: u32,
    user_data: u32,
) -> Result<u32, Status>
    ensures { outcome_of (status_of result) (answer_of result) table.new [] ≡ outcome table.old (call.fire_after party id ticks routine user_data) }
{
    open_party(table, party)?;
    start_for_ticks(table, Mode::After, party, id, ticks, routine, user_data)
}

// A timer fires every so many ticks from now on, until it is cancelled, started anew or deleted.
pub fn fire_every(
    table: &mut [u32],
    party: u32,
    id: u32,
    ticks: u32,
    routine: u32,
    user_data: u32,
) -> Result<u32, Status>
    ensures { outcome_of (status_of result) (answer_of result) table.new [] ≡ outcome table.old (call.fire_every party id ticks routine user_data) }
{
    open_party(table, party)?;
    start_for_ticks(table, Mode::Every, party, id, ticks, routine, user_data)
}

// A timer waits for a date, behind every timer due at the same date.
pub fn fire_when(
    table: &mut [u32],
    party: u32,
    id: u32,
    when: WallTime,
    routine: u32,
    user_data: u32,
) -> Result<u32, Status>
    ensures { outcome_of (status_of result) (answer_of result) table.new [] ≡ outcome table.old (call.fire_when party id when routine user_data) }
{
    open_party(table, party)?;
    start_for_date(table, Mode::When, party, id, when, routine, user_data)
}

// A timer last started by interval starts again as it was, with the interval, routine and data that it has stored.
pub fn reset(table: &mut [u32], party: u32, id: u32) -> Result<u32, Status>
    ensures { outcome_of (status_of result) (answer_of result) table.new [] ≡ outcome table.old (call.reset party id) }
{
    let i = open_timer(table, party, id)?;
    let Some(mode) = last_by_ticks(get(table, i, KIND)) else {
        return Err(Status::NotDefined);
    };
    let ticks = get(table, i, INTERVAL);
    let routine = get(table, i, ROUTINE);
    let user_data = get(table, i, DATA);
    let mut timers = Table { words: table };
    timers.start(mode, i, ticks, routine, user_data);
    Ok(0)
}
