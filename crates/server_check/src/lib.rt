// The soundness check of a table whose server is initiated: the pass over the slots, with a walk along each of the three chains.
#![tactic(auto)]

ghost use Rattle.std.specs.Prelude.{◌≡◌, true};
ghost use Rattle.model.specs.Words.{server_initiated};
ghost use Rattle.model.specs.Sound.{header_sound};
ghost use Rattle.server_check.specs.LastSlots.{last_if_sound};

use server_word_checks::{WRONG, slot_place};
use table::*;
use walks::*;

// No slot has this number: the table is not sound. (By an `Option` the pass takes 2.6 % more instructions.)
pub const UNSOUND: u32 = MOST_SLOTS + 1;

// The last slot of the queue, 0 if the queue is empty, of a table whose header is sound and whose server is initiated; UNSOUND if the table is not
// sound. One pass over the slots; each that stands in a chain goes one step along it. The walk along the queue ends behind its last slot. The slice is
// reborrowed where it is passed on, so that the compiler keeps it in registers.
pub fn last_queued(t: &[u32]) -> u32
    requires { (header_sound t.now ≡ true) × (server_initiated t.now ≡ 1) }
    ensures { result ≡ last_if_sound t.now }
{
    if !heads_tested(&*t) {
        return UNSOUND;
    }
    let n = t[SLOT_COUNT];
    let mut tick_at = t[FIRST_TICKING];
    let mut tick_before = 0;
    let mut ticks: u64 = 0;
    let mut date_at = t[FIRST_DATED];
    let mut date_before = 0;
    let mut date = t[SECONDS] + 1;
    let mut queue_at = t[FIRST_QUEUED];
    let mut queue_before = 0;
    let mut i = 1;
    // (by `while`, as in crate `plain_check`)
    while i <= n {
        let place = slot_place(&*t, i);
        if place == WRONG {
            return UNSOUND;
        }
        i += 1;
        if place == FIRST_TICKING {
            if !tick_tested(&*t, n, tick_at, tick_before, ticks) {
                return UNSOUND;
            }
            ticks += wide(get(&*t, tick_at, WAIT));
            tick_before = tick_at;
            tick_at = get(&*t, tick_at, NEXT);
        } else if place == FIRST_DATED {
            if !date_tested(&*t, n, date_at, date_before, date) {
                return UNSOUND;
            }
            date = get(&*t, date_at, WAIT);
            date_before = date_at;
            date_at = get(&*t, date_at, NEXT);
        } else if place == FIRST_QUEUED {
            if !queue_tested(&*t, n, queue_at, queue_before) {
                return UNSOUND;
            }
            queue_before = queue_at;
            queue_at = get(&*t, queue_at, NEXT);
        }
    }
    // one test for the ends of two walks
    if (tick_at | queue_at) != 0 {
        return UNSOUND;
    }
    if !dates_ended(date_at, date_before, date) {
        return UNSOUND;
    }
    queue_before
}
