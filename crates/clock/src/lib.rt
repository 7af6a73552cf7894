// The clock: a tick, a leap, set clock and get clock. Their contracts are as those of crate `timer`, set clock's with a second equation, leap's with a second
// number; `setting_answer`, `progress_answer` and `reading_answer` (answers/specs/Answers.antt) say what their answers are in document 01's numbers.
#![tactic(auto)]

ghost use Rattle.std.specs.Prelude.{◌≡◌, [], ◌∷◌, ◌++◌, ◌+◌, ◌*◌, ◌^◌, ◌<◌, ◌≤◌, pos, ◌-ℤ◌};
ghost use Rattle.model.specs.Calls as call;
ghost use Rattle.model.specs.Outcome.{outcome_of, outcome, movement};
ghost use Rattle.model.specs.Directives.{clock_at, moved_by};
ghost use Rattle.model.specs.Words.{read};
ghost use Rattle.answers.specs.Answers.{status_of, answer_of, reading_answer, setting_answer, moved_in, progress_answer};
ghost use Rattle.answers.specs.Openings.{Opens};
ghost use Rattle.clock.specs.Lent.{on_list, Lent};

use answers::{Progress, Setting};
use calendar::WallTime;
use firing::fire_dated;
use going_on::ENTRY;
use leaping::MOST_LEAP;
use links::Table;
use model::Status;
use slots::Sound;
use soundness::{checked, is_sound};
use table::*;

// The lent list has room for every slot; refused where the table is not sound or the list is too short. The answer's number is the last slot of the
// server's queue, 0 where that is empty.
fn open_list(table: &[u32], fired: &[u32]) -> Result<u32, Status>
    ensures { Opens (on_list table.now fired.now) (Lent table.now fired.now) result }
{
    // (by `ok_or` and `?` it takes three instructions more)
    let Some(end) = checked(table) else {
        return Err(Status::NotSound);
    };
    if fired.len() < ENTRY * (table[SLOT_COUNT] as usize) {
        return Err(Status::ListTooShort);
    }
    Ok(end)
}

// One tick: interval timers come nearer and those due fire; then the clock goes on and dated timers that are due fire. Answers how many. Server timers
// that are due are queued instead.
pub fn tick(table: &mut [u32], fired: &mut [u32]) -> Result<u32, Status>
    ensures { outcome_of (status_of result) (answer_of result) table.new fired.new ≡ outcome table.old (call.tick fired.old) }
{
    let end = open_list(table, fired)?;
    let listed = leaping::tick(table, fired, end);
    Ok(listed)
}

// A leap by so many ticks: it stops after the first one that fires or queues a timer. Answers how many fired, and how many ticks were done.
pub fn leap(table: &mut [u32], ticks: u32, fired: &mut [u32]) -> Result<Progress, Status>
    ensures { outcome_of (status_of result) (progress_answer result) table.new fired.new ≡ outcome table.old (call.leap ticks fired.old) }
{
    let end = open_list(table, fired)?;
    if MOST_LEAP < ticks {
        return Err(Status::InvalidNumber);
    }
    let gone = leaping::leap(table, ticks, fired, end);
    Ok(gone)
}

// A second, so many ticks into it, counted in ticks.
fn in_ticks(rate: u32, second: u32, ticks: u32) -> u64
    requires { rate ≤ 1000 }
    ensures { (result ≡ second * rate + ticks) × (result < 2 ^ 63) }
{
    u64::from(second) * u64::from(rate) + u64::from(ticks)
}

// New minus old, below zero when set back.
fn difference(new: u64, old: u64) -> i64
    requires { (new < 2 ^ 63) × (old < 2 ^ 63) }
    ensures { result ≡ pos new -ℤ pos old }
{
    // (`i64` has no `From<u64>`: both fit by what is required)
    (new as i64) - (old as i64)
}

// How far the clock moves when it is set to a second, so many ticks into it; 0 where it is not set yet.
fn move_to(t: Sound, second: u32, ticks: u32) -> i64
    ensures { result ≡ moved_by (read t.entry.words.now).clock (clock_at (read t.entry.words.now).clock second ticks) }
{
    if t.words[CLOCK_SET] != 1 {
        return 0;
    }
    let rate = t.words[TICKS_PER_SECOND];
    let old = in_ticks(rate, t.words[SECONDS], t.words[TICKS]);
    let new = in_ticks(rate, second, ticks);
    difference(new, old)
}

// The clock is set, and dated timers that are then due fire, server timers into the queue. Interval timers do not change. Answers how many fired,
// and how far the clock moved.
pub fn set_clock(table: &mut [u32], time: WallTime, fired: &mut [u32]) -> Result<Setting, Status>
    ensures { (outcome_of (status_of result) (setting_answer result) table.new fired.new ≡ outcome table.old (call.set_clock time fired.old)) × (moved_in result ≡ movement table.old time fired.old) }
{
    let end = open_list(table, fired)?;
    let second = calendar::to_seconds(time).ok_or(Status::InvalidClock)?;
    if table[TICKS_PER_SECOND] <= time.ticks {
        return Err(Status::InvalidClock);
    }
    let moved = move_to(Sound { words: table }, second, time.ticks);
    let mut timers = Table { words: table };
    firing::set_clock(&mut timers, second, time.ticks);
    let dated = fire_dated(&mut timers, fired, second, 0, end);
    Ok(Setting {
        fired: dated.count,
        moved,
    })
}

// The date that the clock stands at, with the ticks into its second.
pub fn get_clock(table: &[u32]) -> Result<WallTime, Status>
    ensures { outcome_of (status_of result) (reading_answer result) table.now [] ≡ outcome table.now call.get_clock }
{
    if !is_sound(table) {
        return Err(Status::NotSound);
    }
    if table[CLOCK_SET] != 1 {
        return Err(Status::NotDefined);
    }
    let date = calendar::from_seconds(table[SECONDS]).ok_or(Status::NotSound)?;
    Ok(WallTime {
        ticks: table[TICKS],
        ..date
    })
}
