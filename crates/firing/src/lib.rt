// Timers fire, and the clock goes on: the steps of a tick and of a set clock. All timers of a chain that are due come off first: a server timer
// goes to the back of the queue, any other is listed. Then the periodic ones, which the list names in the order in which they fired, go back into
// the interval chain.
#![tactic(auto)]

ghost use Rattle.std.specs.Prelude.{◌≡◌, false, [], ◌∷◌, ◌+◌, ◌*◌, ◌<◌, ◌≤◌, length};
ghost use Rattle.std.proofs.lemmas.List.Edits.{sets};
ghost use Rattle.model.specs.declared.Chain.TheVariants.{ByTicks, ByDate};
ghost use Rattle.model.specs.State.{with_clock};
ghost use Rattle.model.specs.Directives.{clock_at, clock_step};
ghost use Rattle.model.specs.Words.{read, ticks_into};
ghost use Rattle.laws.proofs.WellFormed.{Holds};
ghost use Rattle.links.specs.Tables.{SameWords, Becomes};
ghost use Rattle.firing.specs.Lists.{Room, ComesOff, CameOff, Turns, tally_of, Turned, TakesOff, Fires};
ghost use Rattle.firing.specs.Nearer.{nearer_by, Nearable};

use going_on::{ENTRY, put_back, queue};
use links::{Table, stopped_kind};
use model::Chain;
use slots::ID_BASE;
use table::{
    CLOCK_SET, DATA, FIRST_TICKING, KIND, Kind, ROUTINE, SECONDS, TICKS, TICKS_PER_SECOND, WAIT,
    get, put,
};

// Entry n of the fired list.
pub fn put_entry(list: &mut [u32], n: u32, id: u32, routine: u32, user_data: u32)
    requires { (3 * n + 3 ≤ length list.old) × (n < 256) }
    ensures { list.new ≡ sets list.old (3 * n) (id ∷ routine ∷ user_data ∷ []) }
{
    let at = ENTRY * (n as usize);
    list[at] = id;
    list[at + 1] = routine;
    list[at + 2] = user_data;
}

// Slot i, of that kind, the first of the chain and due, comes off and is listed as entry n. Gives the slot that followed it.
pub fn come_off(
    table: &mut Table<'_>,
    list: &mut [u32],
    chain: Chain,
    i: u32,
    kind: u32,
    n: u32,
) -> u32
    requires { ComesOff chain table.old.words.now list.old i kind n }
    ensures same { SameWords table.old table.new }
    ensures off { CameOff table.old.words.now list.old i n result table.new.words.now list.new }
{
    let routine = table.get(i, ROUTINE);
    let user_data = table.get(i, DATA);
    put_entry(list, n, ID_BASE + i, routine, user_data);
    table.stop_first(chain, i, stopped_kind(kind))
}

// How many entries there are, whether the timer of one is periodic, the last slot of the queue and the first of the chain, 0 where they are empty.
#[derive(Clone, Copy, Debug, PartialEq, Eq)]
struct Counts {
    count: u32,
    periodic: bool,
    end: u32,
    front: u32,
}

// The front of the chain, which is due, comes off: a server timer goes to the back of the queue, any other is listed.
fn turn(table: &mut Table<'_>, list: &mut [u32], chain: Chain, counts: Counts) -> Counts
    requires { Turns chain table.old.words.now list.old counts.front counts.count counts.end }
    ensures same { SameWords table.old table.new }
    ensures turned { Turned table.old.words.now list.old (tally_of counts.count counts.periodic counts.end counts.front) (tally_of result.count result.periodic result.end result.front) table.new.words.now list.new }
{
    let i = counts.front;
    let kind = table.get(i, KIND);
    // (by `Kind::try_from` here and in `going_on::queue` `fire` takes 245 instructions and not 235, seven of them in a turn)
    if Kind::ServerWaitingTicks as u32 <= kind {
        let next = queue(table, chain, i, kind, counts.end);
        return Counts {
            count: counts.count,
            periodic: counts.periodic,
            end: i,
            front: next,
        };
    }
    let next = come_off(table, list, chain, i, kind, counts.count);
    // (by `||` and struct update `fire` takes two instructions more)
    let mut periodic = counts.periodic;
    if kind == Kind::WaitingEvery as u32 {
        periodic = true;
    }
    Counts {
        count: counts.count + 1,
        periodic: periodic,
        end: counts.end,
        front: next,
    }
}

// The timers at the front of a chain whose wait is not above the limit come off it; those listed are the entries from `from` on.
fn take_off(
    table: &mut Table<'_>,
    list: &mut [u32],
    chain: Chain,
    limit: u32,
    from: u32,
    end: u32,
) -> Counts
    requires { Room chain table.old.words.now list.old limit from end }
    ensures same { SameWords table.old table.new }
    ensures off { TakesOff chain table.old.words.now list.old limit from false (tally_of result.count result.periodic result.end result.front) table.new.words.now list.new }
{
    let first = table.first(chain);
    let mut counts = Counts {
        count: from,
        periodic: false,
        end,
        front: first,
    };
    loop {
        if counts.front == 0 {
            break counts;
        }
        let w = table.get(counts.front, WAIT);
        if limit < w {
            break counts;
        }
        counts = turn(table, list, chain, counts);
    }
}

// How many entries there are, and the last slot of the queue.
#[derive(Clone, Copy, Debug, PartialEq, Eq)]
pub struct Fired {
    pub count: u32,
    pub end: u32,
}

// The timers at the front of a chain whose wait is not above the limit fire: server timers go to the back of the queue, whose last slot is `end`, 0
// where that is empty, and the others are listed, as entries from `from` on. (It takes the slice: with `&mut Table` a tick takes 0.8 % more
// instructions, since the compiler makes a call of it. List, entry and end stay parameters too: a struct of three words or more is passed in memory.)
#[inline(never)]
fn fire(t: &mut [u32], list: &mut [u32], chain: Chain, limit: u32, from: u32, end: u32) -> Fired
    requires order { Holds t.old (read t.old) }
    requires room { Room chain t.old list.old limit from end }
    ensures { Fires chain t.old list.old limit from result.count result.end t.new list.new }
{
    let mut table = Table { words: t };
    let off = take_off(&mut table, list, chain, limit, from, end);
    let n = off.count;
    let last = off.end;
    if off.periodic {
        put_back(&mut table, list, from, n);
    }
    Fired {
        count: n,
        end: last,
    }
}

// The same. In most ticks no timer fires, which is seen here, where the compiler makes no call of it.
#[inline(always)]
fn fire_due(
    table: &mut Table<'_>,
    list: &mut [u32],
    chain: Chain,
    limit: u32,
    from: u32,
    end: u32,
) -> Fired
    requires { Room chain table.old.words.now list.old limit from end }
    ensures same { SameWords table.old table.new }
    ensures fires { Fires chain table.old.words.now list.old limit from result.count result.end table.new.words.now list.new }
{
    let none = Fired { count: from, end };
    let front = table.first(chain);
    if front == 0 {
        return none;
    }
    let wait = table.get(front, WAIT);
    if limit < wait {
        return none;
    }
    let words = &mut *table.words;
    fire(words, list, chain, limit, from, end)
}

// The interval timers with no ticks left fire.
pub fn fire_ticking(table: &mut Table<'_>, list: &mut [u32], end: u32) -> Fired
    requires { Room ByTicks table.old.words.now list.old 0 0 end }
    ensures same { SameWords table.old table.new }
    ensures fires { Fires ByTicks table.old.words.now list.old 0 0 result.count result.end table.new.words.now list.new }
{
    fire_due(table, list, Chain::ByTicks, 0, 0, end)
}

// The dated timers whose date is not past this second fire, as entries from `from` on.
pub fn fire_dated(
    table: &mut Table<'_>,
    list: &mut [u32],
    second: u32,
    from: u32,
    end: u32,
) -> Fired
    requires { Room ByDate table.old.words.now list.old second from end }
    ensures same { SameWords table.old table.new }
    ensures fires { Fires ByDate table.old.words.now list.old second from result.count result.end table.new.words.now list.new }
{
    fire_due(table, list, Chain::ByDate, second, from, end)
}

// Every interval timer comes some ticks nearer: the first one's wait falls, and those behind it count from it.
pub fn come_nearer(table: &mut Table<'_>, ticks: u32)
    requires { Nearable table.old.words.now ticks }
    ensures { Becomes table.old table.new (nearer_by ticks (read table.old.words.now)) }
{
    let words = &mut *table.words;
    let i = words[FIRST_TICKING];
    if i != 0 {
        let w = get(words, i, WAIT);
        put(words, i, WAIT, w - ticks);
    }
}

// The clock goes on by one tick, if it is set and not at its last one.
pub fn step_clock(table: &mut Table<'_>)
    requires { ticks_into table.old.words.now < 1000 }
    ensures { Becomes table.old table.new (with_clock (read table.old.words.now) (clock_step (read table.old.words.now).clock)) }
{
    let words = &mut *table.words;
    if words[CLOCK_SET] != 1 {
        return;
    }
    let ticks = words[TICKS] + 1;
    if ticks < words[TICKS_PER_SECOND] {
        words[TICKS] = ticks;
        return;
    }
    let second = words[SECONDS];
    let last = calendar::LAST_SECOND;
    if second < last {
        words[TICKS] = 0;
        words[SECONDS] = second + 1;
    }
}

// The clock is set to a second, so many ticks into it.
pub fn set_clock(table: &mut Table<'_>, second: u32, ticks: u32)
    ensures { Becomes table.old table.new (with_clock (read table.old.words.now) (clock_at (read table.old.words.now).clock second ticks)) }
{
    let words = &mut *table.words;
    words[CLOCK_SET] = 1;
    words[SECONDS] = second;
    words[TICKS] = ticks;
}
