// Ticks on a sound table: one, and a leap by many. A leap costs one tick however long it is: those in which no timer is due are gone over at once,
// and one in which a timer is due is a tick.
#![tactic(auto)]

ghost use Rattle.std.specs.Prelude.{◌≡◌, true, ◌-◌, ◌*◌, ◌<◌, ◌≤◌};
ghost use Rattle.model.specs.Lists.{All};
ghost use Rattle.model.specs.State.{with_clock};
ghost use Rattle.model.specs.Directives.{most_leap, ticked};
ghost use Rattle.model.specs.Words.{read, written_over};
ghost use Rattle.model.specs.Sound.{sound};
ghost use Rattle.firing.specs.Lists.{Leaves};
ghost use Rattle.leaping.specs.Leaps.{clock_on, skipped, until_ticks, until_date, until_due, Ready, LeapLeaves};

use answers::Progress;
use firing::{come_nearer, fire_dated, fire_ticking, step_clock};
use links::Table;
use slots::Sound;
use table::{CLOCK_SET, FIRST_DATED, FIRST_TICKING, SECONDS, TICKS, TICKS_PER_SECOND, WAIT, get};

// One tick: interval timers come nearer and those due fire; then the clock goes on and dated timers that are due fire. Gives how many. Server timers
// that are due are queued instead, behind slot `end`.
pub fn tick(t: &mut [u32], list: &mut [u32], end: u32) -> u32
    requires { Ready t.old list.old end }
    ensures { Leaves t.old list.old (ticked (read t.old)) result t.new list.new }
{
    let mut table = Table { words: t };
    come_nearer(&mut table, 1);
    let ticking = fire_ticking(&mut table, list, end);
    step_clock(&mut table);
    let second = table.word(SECONDS);
    let listed = ticking.count;
    let last = ticking.end;
    let dated = fire_dated(&mut table, list, second, listed, last);
    dated.count
}

// The clock goes on by many ticks at once, if it is set, and stands still at its last one. (Sound by a clause, here and in `skip`: the words are written.)
fn run_clock(t: &mut [u32], ticks: u32)
    requires { (sound t.old ≡ true) × (ticks ≤ most_leap) }
    ensures { t.new ≡ written_over (with_clock (read t.old) (clock_on ticks (read t.old).clock)) t.old }
{
    if t[CLOCK_SET] != 1 {
        return;
    }
    let rate = t[TICKS_PER_SECOND];
    let into = t[TICKS] + ticks;
    let reached = t[SECONDS] + into / rate;
    if calendar::LAST_SECOND < reached {
        t[TICKS] = rate - 1;
        t[SECONDS] = calendar::LAST_SECOND;
        return;
    }
    t[TICKS] = into % rate;
    t[SECONDS] = reached;
}

// Ticks in which no timer is due, at once: all interval timers come so many ticks nearer, and the clock goes on.
fn skip(t: &mut [u32], ticks: u32)
    requires { (sound t.old ≡ true) × (ticks ≤ most_leap) × All (λ w. ticks ≤ w.wait) (read t.old).ticking }
    ensures { t.new ≡ written_over (skipped ticks (read t.old)) t.old }
{
    run_clock(t, ticks);
    let mut table = Table { words: t };
    come_nearer(&mut table, ticks);
}

// The ticks until the first interval timer is due, or `most` if they are no fewer.
fn until_ticks(t: Sound, most: u32) -> u32
    ensures { result ≡ until_ticks most (read t.entry.words.now).ticking }
{
    let i = t.words[FIRST_TICKING];
    if i == 0 {
        return most;
    }
    let w = get(t.words, i, WAIT);
    if w < most {
        return w;
    }
    most
}

// The ticks in some seconds, but for those that are over already: in 64 bits, since those until a date can pass 32.
fn ticks_away(seconds: u32, rate: u32, into: u32) -> u64
    requires { (1 ≤ seconds) × (rate ≤ 1000) × (into < rate) }
    ensures { result ≡ seconds * rate - into }
{
    u64::from(seconds) * u64::from(rate) - u64::from(into)
}

// The ticks until the clock comes to the first date, or `most` if they are no fewer.
fn until_date(t: Sound, most: u32) -> u32
    ensures { result ≡ until_date most (read t.entry.words.now).clock (read t.entry.words.now).dated }
{
    let i = t.words[FIRST_DATED];
    if i == 0 {
        return most;
    }
    let date = get(t.words, i, WAIT);
    let ticks = ticks_away(
        date - t.words[SECONDS],
        t.words[TICKS_PER_SECOND],
        t.words[TICKS],
    );
    if ticks < u64::from(most) {
        // (below `most`: a `try_from` would have a refusal that no call meets)
        return ticks as u32;
    }
    most
}

// The ticks until some timer is due, or `most` if they are no fewer.
fn until_due(t: Sound, most: u32) -> u32
    ensures { result ≡ until_due most (read t.entry.words.now) }
{
    let ticks = until_ticks(t, most);
    until_date(t, ticks)
}

// The most ticks of a leap.
pub const MOST_LEAP: u32 = 1000000;

// A leap by so many ticks: it stops after the first one in which a timer fires or is queued.
pub fn leap(t: &mut [u32], most: u32, list: &mut [u32], end: u32) -> Progress
    requires { Ready t.old list.old end × (most ≤ most_leap) }
    ensures { LeapLeaves t.old list.old most result.fired result.done t.new list.new }
{
    let ticks = until_due(Sound { words: t }, most + 1);
    if most < ticks {
        skip(t, most);
        return Progress {
            fired: 0,
            done: most,
        };
    }
    skip(t, ticks - 1);
    let fired = tick(t, list, end);
    Progress { fired, done: ticks }
}
