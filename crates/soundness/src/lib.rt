// The check that every call makes first: whether a table is sound.
//
// How the check works. The header is tested first, so that N can be trusted, and that the interval chain and the dated one do not begin at the same
// slot. Then one pass goes over the slots, 1 to N. Each slot's words are tested by its kind; and a slot that stands in a chain, besides, pays for one
// step along that chain. So there are three walks, one along each chain from its head word, which the pass moves on in turn. A step tests the slot that
// the walk comes to, which is mostly not the slot that pays: its index is 1 to N, its previous is the slot that the walk comes from, and its wait fits
// what the walk has reached. For the interval chain that is the ticks so far, the sum of the waits, which must be 1 at least and not above the slot's
// interval; for the dated chain the date before, which must not be above the slot's; in the queue the slot is of kind 12 or 13 and its wait is 0. When
// the pass is over, the walks must stand at 0, and the last date must not be past the last second. The walk along the queue then comes from its last
// slot, which `checked` hands on, so that timers are queued behind it without a search.
//
// Where the server is not initiated, kinds 8 to 13 do not occur, and the queue must be empty: the pass knows kinds 0 to 7 and two walks. So tables
// without server timers do not pay for them.
//
// Why it is right. A walk that ends at 0 meets no slot twice: the number of steps from a slot to the end depends on the slot alone, so a slot that came
// again would have two. It met slots of its kinds only (4, 6 and 10 in the interval chain, 5 and 11 in the dated one, 12 and 13 in the queue), each at
// most once, and took as many steps as there are slots of those kinds: so it met each exactly once. If on the other hand the chain is right, it has just
// as many slots as the pass pays for, no step fails, and the walk ends at 0. Neither a mark for each slot nor a counter is kept, and no word is read
// that the table does not have.
//
// What is left out, since it follows (crate walks, proofs/UntestedFollows.antt):
//   that the interval of kinds 4, 6 and 10 is 1 or more: the walk meets every such slot, with ticks left from 1 up to the interval;
//   the kind in a step along the interval chain: besides its own only kinds 2, 7, 8 and 12 have an interval. Idle ones have wait and previous 0: such a
//     slot could only come first, where no ticks are left yet, and so has fewer than 1. A slot of kind 12 stands in the queue with wait 0, behind one
//     that is queued or, at the head, 0: the first that the walk came to would stand behind one that waits for ticks, or come first with no ticks left;
//   the kind in a step along the dated chain: kinds in no chain have wait 0, and so have queued ones, which is no date to come. A slot that waits for
//     ticks stands in the interval chain, where its previous does so too or, at the head, is 0: the first that the walk came to would stand behind one
//     that waits for a date, or be the head of both chains;
//   in a step, that the date is not past the last second: dates never fall along the chain, so that the last one is the greatest.
//
// The tests of the header and of a slot by itself are in `word_checks` and, where server timers may occur, `server_word_checks`; those of the walks in
// `walks`; the pass in `plain_check` and `server_check`.
#![tactic(auto)]

ghost use Rattle.std.specs.Prelude.{◌≡◌};
ghost use Rattle.model.specs.Sound.{sound};
ghost use Rattle.soundness.specs.Verdicts.{verdict};

use server_check::{UNSOUND, last_queued};
use table::*;
use word_checks::header_sound;

// Whether the table is sound.
pub fn is_sound(t: &[u32]) -> bool
    ensures { result ≡ sound t.now }
{
    if !header_sound(&*t) {
        return false;
    }
    if t[SERVER] != 0 {
        return last_queued(&*t) != UNSOUND;
    }
    plain_check::is_sound(&*t)
}

// The last slot of the queue of a sound table, 0 if the queue is empty; `None` if the table is not sound. For a call that may queue timers behind it.
pub fn checked(t: &[u32]) -> Option<u32>
    ensures { result ≡ verdict t.now }
{
    if t.len() < HEADER {
        return None;
    }
    if t[SERVER] == 0 {
        if is_sound(&*t) {
            return Some(0);
        }
        return None;
    }
    if !header_sound(&*t) {
        return None;
    }
    let last = last_queued(&*t);
    if last == UNSOUND {
        return None;
    }
    Some(last)
}
