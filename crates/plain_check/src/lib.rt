// The soundness check of a table whose server is not initiated: the pass over the slots, with a walk along the interval chain and one along the
// dated chain.
#![tactic(auto)]

ghost use Rattle.std.specs.Prelude.{◌≡◌, true, ◌<◌};
ghost use Rattle.model.specs.declared.Chain.TheVariants.{ByTicks};
ghost use Rattle.model.specs.Kinds.{waits_in};
ghost use Rattle.model.specs.Words.{server_initiated};
ghost use Rattle.model.specs.Sound.{header_sound, sound};

use table::*;
use walks::*;
use word_checks::slot_tested;

// The kinds that are told apart here, as words: see crate `word_checks`.
const WAITING_TICKS: u32 = Kind::WaitingTicks as u32;

const WAITING_DATE: u32 = Kind::WaitingDate as u32;

const WAITING_EVERY: u32 = Kind::WaitingEvery as u32;

// A timer of this kind, one of 0 to 7, waits in the interval chain.
fn plain_waits_for_ticks(kind: u32) -> bool
    requires { kind < 8 }
    ensures { result ≡ waits_in ByTicks kind }
{
    matches!(kind, WAITING_TICKS | WAITING_EVERY)
}

// Whether the table is sound, where its header is and the server is not initiated. One pass over the slots; each waiting one goes one step along its
// chain. Server timers do not occur, so that the queue must be empty. The slice is reborrowed where it is passed on, so that the compiler keeps it in
// registers.
pub fn is_sound(t: &[u32]) -> bool
    requires { (header_sound t.now ≡ true) × (server_initiated t.now ≡ 0) }
    ensures { result ≡ sound t.now }
{
    if !heads_tested(&*t) {
        return false;
    }
    let n = t[SLOT_COUNT];
    let mut tick_at = t[FIRST_TICKING];
    let mut tick_before = 0;
    let mut ticks: u64 = 0;
    let mut date_at = t[FIRST_DATED];
    let mut date_before = 0;
    let mut date = t[SECONDS] + 1;
    let mut i = 1;
    // (by `for` the pass executes 9 % more instructions)
    while i <= n {
        if !slot_tested(&*t, i) {
            return false;
        }
        let kind = get(&*t, i, KIND);
        i += 1;
        if plain_waits_for_ticks(kind) {
            if !tick_tested(&*t, n, tick_at, tick_before, ticks) {
                return false;
            }
            ticks += wide(get(&*t, tick_at, WAIT));
            tick_before = tick_at;
            tick_at = get(&*t, tick_at, NEXT);
        } else if kind == WAITING_DATE {
            if !date_tested(&*t, n, date_at, date_before, date) {
                return false;
            }
            date = get(&*t, date_at, WAIT);
            date_before = date_at;
            date_at = get(&*t, date_at, NEXT);
        }
    }
    // one test for the end of a walk and the queue that must be empty
    if (tick_at | t[FIRST_QUEUED]) != 0 {
        return false;
    }
    dates_ended(date_at, date_before, date)
}
