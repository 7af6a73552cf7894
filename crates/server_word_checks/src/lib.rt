// The words of a slot, tested by themselves, where the server is initiated: every kind may occur.
#![tactic(auto)]

ghost use Rattle.std.specs.Prelude.{◌≡◌, cond, ◌+◌, ◌*◌, ◌≤◌, length};
ghost use Rattle.model.specs.declared.Chain.TheVariants.{ByDate};
ghost use Rattle.model.specs.Kinds.{waits_in};
ghost use Rattle.word_checks.specs.Tested.{idle_tested};
ghost use Rattle.server_word_checks.specs.Places.{place_of};

use table::*;
use word_checks::{is_unlinked, new_tested};

// The kinds that are told apart here, as words: see crate `word_checks`.
const NEVER_STARTED: u32 = Kind::NeverStarted as u32;

const IDLE_DATE: u32 = Kind::IdleDate as u32;

const WAITING_DATE: u32 = Kind::WaitingDate as u32;

const SERVER_IDLE_DATE: u32 = Kind::ServerIdleDate as u32;

const SERVER_WAITING_DATE: u32 = Kind::ServerWaitingDate as u32;

const QUEUED_TICKS: u32 = Kind::QueuedTicks as u32;

const QUEUED_DATE: u32 = Kind::QueuedDate as u32;

// The place of a slot: the word that holds the first slot of the chain in which it stands. These are no such words: the slot stands in no chain; its
// words are wrong. (An enum would name the three words a second time.)
pub const NOWHERE: usize = 0;

pub const WRONG: usize = 1;

// The place, if the slot's words are right.
fn place_if(right: bool, place: usize) -> usize
    ensures { result ≡ cond right place 1 }
{
    if right {
        return place;
    }
    WRONG
}

// A timer of this kind waits in the dated chain.
fn waits_for_date(kind: u32) -> bool
    ensures { result ≡ waits_in ByDate kind }
{
    matches!(kind, WAITING_DATE | SERVER_WAITING_DATE)
}

// Slot i is idle: wait and links are zero, and the interval is zero just where the last start was by date. No branch depends on which it was. (Crate
// `word_checks` has its own, with one: without, the pass that knows no server timers executes 0.2 % more instructions.)
fn idle_tested(t: &[u32], i: u32, dated: bool) -> bool
    requires { 8 * i + 10 ≤ length t.now }
    ensures { result ≡ idle_tested t.now i dated }
{
    is_unlinked(t, i) && (get(t, i, INTERVAL) == 0) == dated
}

// The place of slot i, if its words are right for its kind, 0 to 13; else WRONG. The wait and the links of a slot in a chain are left to the walks,
// and so is the interval of one that waits for ticks.
pub fn slot_place(t: &[u32], i: u32) -> usize
    requires { 8 * i + 10 ≤ length t.now }
    ensures { result ≡ place_of t.now i }
{
    let kind = get(t, i, KIND);
    if kind <= NEVER_STARTED {
        return place_if(new_tested(t, i, kind), NOWHERE);
    }
    if get(t, i, NAME) < 1 {
        return WRONG;
    }
    if get(t, i, ROUTINE) < 1 {
        return WRONG;
    }
    if waits_for_ticks(kind) {
        return FIRST_TICKING;
    }
    if waits_for_date(kind) {
        return place_if(get(t, i, INTERVAL) == 0, FIRST_DATED);
    }
    if kind == QUEUED_TICKS {
        return place_if(0 < get(t, i, INTERVAL), FIRST_QUEUED);
    }
    if kind == QUEUED_DATE {
        return place_if(get(t, i, INTERVAL) == 0, FIRST_QUEUED);
    }
    if kind <= IDLE_DATE {
        return place_if(idle_tested(t, i, kind == IDLE_DATE), NOWHERE);
    }
    if kind <= SERVER_IDLE_DATE {
        return place_if(idle_tested(t, i, kind == SERVER_IDLE_DATE), NOWHERE);
    }
    WRONG
}
