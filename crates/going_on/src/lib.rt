// Timers that fired go on: a periodic one back into the interval chain, for its interval, and a server timer to the back of the queue.
#![tactic(auto)]

ghost use Rattle.std.specs.Prelude.{◌≡◌, ◌-◌, ◌*◌, ◌<◌, ◌≤◌, length};
ghost use Rattle.model.specs.State.{id_base};
ghost use Rattle.model.specs.Words.{word, read, next_of};
ghost use Rattle.links.specs.Tables.{SameWords, Becomes};
ghost use Rattle.going_on.specs.GoingBack.{waits_again, Again, back_all, slots_in, Entries, Sought, GoesBack, WentBack};
ghost use Rattle.going_on.specs.Queueing.{queued, Queues};

use chains::insert;
use links::{Table, place_from, stopped_kind};
use model::Chain;
use slots::ID_BASE;
use table::{INTERVAL, KIND, Kind, put};

// Words of the fired list for each timer: id, routine, user data.
pub const ENTRY: usize = 3;

// From the kind of a server timer that waits to that of one that is queued. (As a `match` of kinds: see `firing::turn`.)
const TO_QUEUED: u32 = Kind::QueuedTicks as u32 - Kind::ServerWaitingTicks as u32;

// An idle periodic timer waits again for its interval, behind every timer due at the same tick: it is due `left` ticks after slot `from`, or
// from now where `from` is 0.
fn wait_again(table: &mut Table<'_>, i: u32, from: u32, left: u32)
    requires { Again table.old.words.now i from left }
    ensures { Becomes table.old table.new (waits_again (read table.old.words.now) i) }
{
    let words = &mut *table.words;
    let place = place_from(words, Chain::ByTicks, from, left);
    let p = place.before;
    let w = place.wait;
    insert(words, Chain::ByTicks, p, i, w);
    put(words, i, KIND, Kind::WaitingEvery as u32);
}

// The slot of entry j.
fn slot_listed(list: &[u32], j: u32) -> u32
    requires { (3 * j < length list.now) × (j < 256) × (id_base ≤ word list.now (3 * j)) }
    ensures { result ≡ word list.now (3 * j) - id_base }
{
    let at = ENTRY * (j as usize);
    list[at] - ID_BASE
}

// A slot of the interval chain with its ticks left; slot 0 for the chain's start.
#[derive(Clone, Copy, Debug, PartialEq, Eq)]
struct Mark {
    slot: u32,
    ticks: u32,
}

// Where to seek the place of a timer that goes back: from the mark where that is due by then, else from the chain's start.
fn seek_from(mark: Mark, interval: u32) -> Mark
    ensures { Sought mark.slot mark.ticks interval result.slot result.ticks }
{
    if interval < mark.ticks {
        return Mark { slot: 0, ticks: 0 };
    }
    mark
}

// Slot i goes back into the interval chain, if its timer is periodic and idle; the mark is then the slot.
fn go_back(table: &mut Table<'_>, i: u32, mark: Mark) -> Mark
    requires { GoesBack table.old.words.now i mark.slot mark.ticks }
    ensures same { SameWords table.old table.new }
    ensures back { WentBack table.old.words.now i result.slot result.ticks table.new.words.now }
{
    if table.get(i, KIND) != Kind::IdleEvery as u32 {
        return mark;
    }
    let interval = table.get(i, INTERVAL);
    let sought = seek_from(mark, interval);
    let from = sought.slot;
    let ticks = sought.ticks;
    wait_again(table, i, from, interval - ticks);
    Mark {
        slot: i,
        ticks: interval,
    }
}

// The periodic timers of the entries from `from` on go back, in the order of the entries. There are n entries.
pub fn put_back(table: &mut Table<'_>, list: &[u32], from: u32, n: u32)
    requires { Entries table.old.words.now list.now from n }
    ensures { Becomes table.old table.new (back_all (slots_in list.now from (n - from)) (read table.old.words.now)) }
{
    let mut mark = Mark { slot: 0, ticks: 0 };
    for j in from..n {
        let i = slot_listed(list, j);
        mark = go_back(table, i, mark);
    }
}

// A server timer of that kind, the first of the chain and due, goes to the back of the queue, whose last slot is `end`, 0 where the queue is empty.
// Gives the slot that followed it in the chain.
pub fn queue(table: &mut Table<'_>, chain: Chain, i: u32, kind: u32, end: u32) -> u32
    requires { Queues chain table.old.words.now i kind end }
    ensures table { Becomes table.old table.new (queued (read table.old.words.now) i) }
    ensures next { result ≡ next_of table.old.words.now i }
{
    let next = table.stop_first(chain, i, stopped_kind(kind));
    let words = &mut *table.words;
    insert(words, Chain::Queue, end, i, 0);
    put(words, i, KIND, kind + TO_QUEUED);
    next
}
