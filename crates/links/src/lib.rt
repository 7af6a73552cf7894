// Timers start to wait and stop: a slot goes into the chain of its kind, behind every one due by then, or out of it, and its other words say
// what it waits for. What the chains are, and which words change, is in `chains`.
#![tactic(auto)]

ghost use Rattle.std.specs.Prelude.{◌≡◌, ◌+◌, ◌*◌, ◌<◌, ◌≤◌, true, length};
ghost use Rattle.model.specs.Kinds.{kind_at, chain_for, waiting_kind, interval_in, linked};
ghost use Rattle.model.specs.State.{chain_of, slot_at, wait_at};
ghost use Rattle.model.specs.Directives.{stored, stopped, idled, started};
ghost use Rattle.model.specs.Words.{word, head_word, field, difference, accumulated, read, written_over, wait_of, next_of};
ghost use Rattle.laws.proofs.WellFormed.{Holds, times_in};
ghost use Rattle.links.specs.InOrder.{Holds-prop};
ghost use Rattle.table.specs.Kinds.{word_of};
ghost use Rattle.links.specs.Places.{At, InTable, IsSlot, Stops, FirstStops, IdleInTable, From};
ghost use Rattle.links.specs.TimerWords.{timer_put};

use chains::{extract, extract_first, follower, insert};
use model::{Chain, Mode};
use table::{DATA, INTERVAL, KIND, Kind, NAME, NEXT, PREVIOUS, ROUTINE, WAIT, get, put};

// What a start says: its chain, its kind and its interval. (Functions and no methods of `Mode` and `Chain`: these are types of crate `model`, whose
// definitions cite them.)

// The chain in which a start waits.
fn chain_for(mode: Mode) -> Chain
    ensures { result ≡ chain_for mode }
{
    match mode {
        Mode::After | Mode::Every | Mode::ServerAfter => Chain::ByTicks,
        Mode::When | Mode::ServerWhen => Chain::ByDate,
    }
}

// The kind of a timer that was started.
fn waiting_kind(mode: Mode) -> Kind
    ensures { word_of result ≡ waiting_kind mode }
{
    match mode {
        Mode::After => Kind::WaitingTicks,
        Mode::When => Kind::WaitingDate,
        Mode::Every => Kind::WaitingEvery,
        Mode::ServerAfter => Kind::ServerWaitingTicks,
        Mode::ServerWhen => Kind::ServerWaitingDate,
    }
}

// The interval of a start: its ticks, none for a date.
fn interval_in(chain: Chain, amount: u32) -> u32
    ensures { result ≡ interval_in chain amount }
{
    match chain {
        Chain::ByTicks => amount,
        Chain::ByDate | Chain::Queue => 0,
    }
}

// The word of the kind of a timer that stops; one that is in no chain keeps its own. Every word is answered: one that is no kind stays.
pub fn stopped_kind(kind: u32) -> u32
    ensures { result ≡ (kind_at kind).when_stopped }
{
    match Kind::try_from(kind) {
        Ok(known) => known.stopped().into(),
        Err(_) => kind,
    }
}

// A timer that stands in the chain stops, as that kind. (A method of `Table` has no proof that the next slot's wait fits a word then: of words
// behind a field nothing says that each fits.)
fn stop_in(t: &mut [u32], chain: Chain, i: u32, idle: u32)
    requires { Stops t.old chain i idle }
    ensures { t.new ≡ written_over (stopped (read t.old) i (idled (slot_at (read t.old).slots i))) t.old }
{
    extract(t, chain, i);
    put(t, i, KIND, idle)
}

// Where a timer goes: the slot before it, and its wait.
#[derive(Clone, Copy, Debug, PartialEq, Eq)]
pub struct Place {
    pub before: u32,
    pub wait: u32,
}

// What is left of some ticks behind a slot of wait w; a date stays.
fn behind(chain: Chain, left: u32, w: u32) -> u32
    requires { w ≤ left }
    ensures { result ≡ difference chain w left }
{
    match chain {
        Chain::ByTicks => left - w,
        Chain::ByDate | Chain::Queue => left,
    }
}

// The place of a timer that is due `amount` ticks after slot `from`, or at the date `amount`: behind every timer due by then. Slot `from` is
// one of the chain that is due by then, or 0 for the chain's start. (No method of `Table`, nor is `ticks_to`: they take words that are lent to be read,
// and a `Table` wants them lent to be written.)
pub fn place_from(t: &[u32], chain: Chain, from: u32, amount: u32) -> Place
    requires { From chain t.now from amount }
    ensures { At chain (read t.now) (accumulated chain (wait_at from (chain_of chain (read t.now))) amount) result.before result.wait }
{
    let mut p = from;
    let mut left = amount;
    let mut i = follower(t, chain, from);
    loop {
        if i == 0 {
            break Place {
                before: p,
                wait: left,
            };
        }
        let w = get(t, i, WAIT);
        if left < w {
            break Place {
                before: p,
                wait: left,
            };
        }
        left = behind(chain, left, w);
        p = i;
        i = get(t, i, NEXT);
    }
}

// The place of a timer of wait n: behind every timer due by then.
fn find_place(t: &[u32], chain: Chain, n: u32) -> Place
    requires { Holds t.now (read t.now) }
    ensures { At chain (read t.now) n result.before result.wait }
{
    place_from(t, chain, 0, n)
}

// Kind, interval, routine and user data of slot i. (Routine and user data stay two parameters, here and from the calls down to here: a struct of them
// would be made in each call, and taken apart in each store, in each entry of the list and in each clause, as in `started`.)
fn put_timer(t: &mut [u32], i: u32, kind: u32, interval: u32, routine: u32, user_data: u32)
    requires { 8 * i + 10 ≤ length t.old }
    ensures { t.new ≡ timer_put t.old i kind interval routine user_data }
{
    put(t, i, KIND, kind);
    put(t, i, INTERVAL, interval);
    put(t, i, ROUTINE, routine);
    put(t, i, DATA, user_data);
}

// The words of a table, whose chains are in order.
#[derive(Drop)]
pub struct Table<'t> {
    pub words: &'t mut [u32],
    pub ghost in_order: { Holds words.now (read words.now) } by { Holds-prop words.now (read words.now) },
}

impl<'t> Table<'t> {
    ghost use Rattle.links.specs.Tables.{Becomes};

    // Word `at` of the header.
    pub fn word(&self, at: usize) -> u32
        requires { at < 10 }
        ensures { result ≡ word self.now.words.now at }
    {
        self.words[at]
    }

    // The first slot of the chain, 0 where that is empty.
    pub fn first(&self, chain: Chain) -> u32
        ensures { result ≡ word self.now.words.now (head_word chain) }
    {
        follower(self.words, chain, 0)
    }

    // Word `at` of slot i.
    pub fn get(&self, i: u32, at: usize) -> u32
        requires slot { IsSlot self.now.words.now i }
        requires word { at < 8 }
        ensures { result ≡ field self.now.words.now i at }
    {
        get(self.words, i, at)
    }

    // The first timer of the chain stops, as that kind; in the interval chain it is due. Gives the slot that followed it.
    pub fn stop_first(&mut self, chain: Chain, i: u32, idle: u32) -> u32
        requires { FirstStops self.old.words.now chain i idle }
        ensures table { Becomes self.old self.new (stopped (read self.old.words.now) i (idled (slot_at (read self.old.words.now).slots i))) }
        ensures next { result ≡ next_of self.old.words.now i }
    {
        let words = &mut *self.words;
        let next = extract_first(words, chain, i);
        put(words, i, KIND, idle);
        next
    }

    // A waiting or queued timer becomes idle of its own kind; one in no chain stays as it is. Gives whether it was in one.
    // (Left to itself, the compiler makes a call of it, and a cancel takes 12 instructions more.)
    #[inline(always)]
    pub fn stop(&mut self, i: u32) -> bool
        requires { IsSlot self.old.words.now i }
        ensures table { Becomes self.old self.new (stopped (read self.old.words.now) i (idled (slot_at (read self.old.words.now).slots i))) }
        ensures was_linked { result ≡ linked (slot_at (read self.old.words.now).slots i).kind }
    {
        let words = &mut *self.words;
        let Ok(kind) = Kind::try_from(get(words, i, KIND)) else {
            return false;
        };
        let Some(chain) = kind.chain() else {
            return false;
        };
        stop_in(words, chain, i, kind.stopped().into());
        true
    }

    // A timer that does not wait starts to wait, behind every timer due at the same tick or date.
    fn start_idle(&mut self, mode: Mode, i: u32, amount: u32, routine: u32, user_data: u32)
        requires { IdleInTable self.old.words.now i }
        ensures { Becomes self.old self.new (started mode (read self.old.words.now) i amount routine user_data) }
    {
        let chain = chain_for(mode);
        let words = &mut *self.words;
        let place = find_place(words, chain, amount);
        let p = place.before;
        let w = place.wait;
        insert(words, chain, p, i, w);
        let kind = waiting_kind(mode);
        let interval = interval_in(chain, amount);
        put_timer(words, i, kind.into(), interval, routine, user_data);
    }

    // A timer starts to wait, whatever it did before.
    pub fn start(&mut self, mode: Mode, i: u32, amount: u32, routine: u32, user_data: u32)
        requires { IsSlot self.old.words.now i }
        ensures { Becomes self.old self.new (started mode (read self.old.words.now) i amount routine user_data) }
    {
        self.stop(i);
        self.start_idle(mode, i, amount, routine, user_data);
    }
}

// A slot gets another kind and name, and what was stored at a start is cleared. Nothing is asked of the kind, and with one that waits the chains
// are in order no more: so this is no method of `Table`.
pub fn store(t: &mut [u32], i: u32, kind: u32, name: u32)
    requires { InTable t.old i }
    ensures { t.new ≡ written_over (stored (read t.old) i (record { kind = kind; name = name; interval = 0; routine = 0; user_data = 0 })) t.old }
{
    put(t, i, NAME, name);
    put_timer(t, i, kind, 0, 0, 0);
}

// The ticks left of a slot of the interval chain: its wait and those of every slot before it. The slice is reborrowed where it is passed
// on, which saves a copy at each step.
pub fn ticks_to(t: &[u32], i: u32) -> u32
    requires { Holds t.now (read t.now) × (0 < times_in (read t.now).ticking i) }
    ensures { result ≡ wait_at i (read t.now).ticking }
{
    let wait = get(&*t, i, WAIT);
    let p = get(&*t, i, PREVIOUS);
    if p == 0 {
        return wait;
    }
    ticks_to(&*t, p) + wait
}
