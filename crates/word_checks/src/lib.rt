// The words of the header, and those of a slot, tested by themselves: the parts of the soundness check that follow no link.
#![tactic(auto)]

ghost use Rattle.std.specs.Prelude.{◌≡◌, ◌&&◌, false, ◌+◌, ◌*◌, ◌≤◌, eqb, length};
ghost use Rattle.model.specs.Sound.{header_sound, unlinked, unstarted};
ghost use Rattle.word_checks.specs.Tested.{all_zero, new_tested, idle_tested, slot_tested};

use calendar::LAST_SECOND;
use table::*;

// The kinds that are told apart here, as words: a word that is checked may be no kind, and one test of them by `Kind::try_from` makes the check of a
// table with a server 2.5 % slower.
const FREE: u32 = Kind::Free as u32;

const NEVER_STARTED: u32 = Kind::NeverStarted as u32;

const IDLE_DATE: u32 = Kind::IdleDate as u32;

const WAITING_TICKS: u32 = Kind::WaitingTicks as u32;

const WAITING_DATE: u32 = Kind::WaitingDate as u32;

const WAITING_EVERY: u32 = Kind::WaitingEvery as u32;

const IDLE_EVERY: u32 = Kind::IdleEvery as u32;

// All three are zero: one test for three words.
fn all_zero(a: u32, b: u32, c: u32) -> bool
    ensures { result ≡ all_zero a b c }
{
    (a | b | c) == 0
}

// All seven are zero.
fn all_seven_zero(x: u32, a: u32, b: u32, c: u32, d: u32, e: u32, f: u32) -> bool
    ensures { result ≡ (eqb x 0 && (all_zero a b c && all_zero d e f)) }
{
    (x | a | b | c | d | e | f) == 0
}

// The header, and the slice is as long as the header says.
#[tactic(auto, unfolding(model::specs::Sound::header_sound))]
pub fn header_sound(t: &[u32]) -> bool
    ensures { result ≡ header_sound t.now }
{
    if t.len() < HEADER {
        return false;
    }
    let n = t[SLOT_COUNT];
    let per_second = t[TICKS_PER_SECOND];
    1 <= n
        && n <= MOST_SLOTS
        && HEADER + SLOT * (n as usize) <= t.len()
        && 1 <= per_second
        && per_second <= MOST_RATE
        && t[CLOCK_SET] <= 1
        && t[SECONDS] <= LAST_SECOND
        && t[TICKS] < per_second
        && t[PARTY_SPLIT] < n
        && t[SERVER] <= 1
        && (t[CLOCK_SET] == 1 || all_zero(t[SECONDS], t[TICKS], t[FIRST_DATED]))
}

// Here and in the crates above, the words of slot i are in the slice. (A type for such a slot would be made anew at each slot of the pass, and its one
// field would say no more than this clause.)
//
// Wait, next and previous of slot i are zero.
pub fn is_unlinked(t: &[u32], i: u32) -> bool
    requires { 8 * i + 10 ≤ length t.now }
    ensures { result ≡ unlinked t.now i }
{
    all_zero(get(t, i, WAIT), get(t, i, NEXT), get(t, i, PREVIOUS))
}

// Interval, routine and user data of slot i are zero, and wait, next and previous, and x.
fn is_blank(t: &[u32], i: u32, x: u32) -> bool
    requires { 8 * i + 10 ≤ length t.now }
    ensures { result ≡ (eqb x 0 && (unstarted t.now i && unlinked t.now i)) }
{
    all_seven_zero(
        x,
        get(t, i, INTERVAL),
        get(t, i, ROUTINE),
        get(t, i, DATA),
        get(t, i, WAIT),
        get(t, i, NEXT),
        get(t, i, PREVIOUS),
    )
}

// Slot i is free or was never started: every word is zero but the kind and the name, and the name is zero just where the slot is free.
pub fn new_tested(t: &[u32], i: u32, kind: u32) -> bool
    requires { 8 * i + 10 ≤ length t.now }
    ensures { result ≡ new_tested t.now i kind }
{
    let name = get(t, i, NAME);
    if kind == FREE {
        return is_blank(t, i, name);
    }
    if name < 1 {
        return false;
    }
    is_blank(t, i, 0)
}

// Slot i is idle, of a kind up to 7: wait and links are zero, and the interval is zero after a start by date, 1 or more after one by interval.
fn idle_tested(t: &[u32], i: u32, dated: bool) -> bool
    requires { 8 * i + 10 ≤ length t.now }
    ensures { result ≡ idle_tested t.now i dated }
{
    if !is_unlinked(t, i) {
        return false;
    }
    if dated {
        return get(t, i, INTERVAL) == 0;
    }
    0 < get(t, i, INTERVAL)
}

// The words of slot i, by its kind, 0 to 7: server timers are not taken. The wait and the links of a waiting slot are left to the walks, and so is
// the interval of one that waits for ticks. Periodic kinds come last, so that they cost the others nothing. (The order is the
// pass's speed, and a `match` over these ranges would have the same arms.)
pub fn slot_tested(t: &[u32], i: u32) -> bool
    requires { 8 * i + 10 ≤ length t.now }
    ensures { result ≡ slot_tested false t.now i }
{
    let kind = get(t, i, KIND);
    if kind <= NEVER_STARTED {
        return new_tested(t, i, kind);
    }
    if get(t, i, NAME) < 1 {
        return false;
    }
    if get(t, i, ROUTINE) < 1 {
        return false;
    }
    if kind == WAITING_TICKS {
        return true;
    }
    if kind == WAITING_DATE {
        return get(t, i, INTERVAL) == 0;
    }
    if kind <= IDLE_DATE {
        return idle_tested(t, i, kind == IDLE_DATE);
    }
    if kind == WAITING_EVERY {
        return true;
    }
    if kind == IDLE_EVERY {
        return idle_tested(t, i, false);
    }
    false
}
