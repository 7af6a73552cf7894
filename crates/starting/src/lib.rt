// A timer starts for some ticks, or for a date, on a table that is known to be sound: what the calls of crates `starts` and `server` share, whose
// openings differ. The contracts give status, answer and every word by the rules that are left to try.
#![tactic(auto)]

ghost use Rattle.std.specs.Prelude.{◌≡◌, true, []};
ghost use Rattle.calendar.specs.Calendar.{seconds_of};
ghost use Rattle.model.specs.Directives.{start_rules, date_rules};
ghost use Rattle.model.specs.Words.{read};
ghost use Rattle.model.specs.Sound.{sound};
ghost use Rattle.model.specs.Outcome.{outcome_of};
ghost use Rattle.answers.specs.Answers.{status_of, answer_of};
ghost use Rattle.starting.specs.Starts.{start_outcome};

use calendar::WallTime;
use links::Table;
use model::{Mode, Status};
use slots::Sound;
use table::{CLOCK_SET, SECONDS};

// A timer waits for so many ticks from now, as the mode says, behind every timer due at the same tick. (What is sound here is written below, which no
// `Sound` lets: so it is a clause, here and in the next.)
pub fn start_for_ticks(
    table: &mut [u32],
    mode: Mode,
    party: u32,
    id: u32,
    ticks: u32,
    routine: u32,
    user_data: u32,
) -> Result<u32, Status>
    requires { sound table.old ≡ true }
    ensures { outcome_of (status_of result) (answer_of result) table.new [] ≡ start_outcome mode (start_rules (read table.old) party id ticks routine) table.old id ticks routine user_data }
{
    if ticks == 0 {
        return Err(Status::InvalidNumber);
    }
    if routine == 0 {
        return Err(Status::InvalidAddress);
    }
    let i = Sound { words: table }
        .named(party, id)
        .ok_or(Status::InvalidId)?;
    let mut timers = Table { words: table };
    timers.start(mode, i, ticks, routine, user_data);
    Ok(0)
}

// A timer waits for a date, as the mode says, behind every timer due at the same date.
pub fn start_for_date(
    table: &mut [u32],
    mode: Mode,
    party: u32,
    id: u32,
    when: WallTime,
    routine: u32,
    user_data: u32,
) -> Result<u32, Status>
    requires { sound table.old ≡ true }
    ensures { outcome_of (status_of result) (answer_of result) table.new [] ≡ start_outcome mode (date_rules (read table.old) party id when routine) table.old id (seconds_of when) routine user_data }
{
    if table[CLOCK_SET] != 1 {
        return Err(Status::NotDefined);
    }
    if routine == 0 {
        return Err(Status::InvalidAddress);
    }
    let date = calendar::to_seconds(when).ok_or(Status::InvalidClock)?;
    if date <= table[SECONDS] {
        return Err(Status::InvalidClock);
    }
    let i = Sound { words: table }
        .named(party, id)
        .ok_or(Status::InvalidId)?;
    let mut timers = Table { words: table };
    timers.start(mode, i, date, routine, user_data);
    Ok(0)
}
