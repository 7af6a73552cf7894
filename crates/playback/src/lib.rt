// The replay of a recorded day: the calls of a recording run on a lent table, laid out afresh, and each status is compared with the expected one.
// specs/Replay.antt says what comes of it; any bytes, table and list are answered.
#![tactic(auto)]

ghost use Rattle.std.specs.Prelude.{◌≡◌, ◌+◌, ◌*◌, ◌<◌, ◌≤◌, length, get_or, take, drop, Ok};
ghost use Rattle.recording.specs.Format.{words_of, reading, given, calls_in, statuses_in};
ghost use Rattle.playback.specs.Replay.{replay_of, played_from, replaying, status_of, place_of};

use going_on::ENTRY;
use recorded_call::play;
use recording::{CALL_WORDS, FRONT, Recording, WORD, word_at};
use std::array;
use table::{HEADER, ONE_PARTY, SLOT};

// What comes of a replay: every status is the expected one; or the place, from 0, of the first call whose status differs; or no recording, with the
// position of the first wrong word; or a table, or a list, too short for the recording, whose calls are not played.
#[derive(Clone, Copy, Debug, PartialEq, Eq)]
pub enum Replayed {
    Agree,
    Differs(u32),
    Refused(u32),
    ShortTable,
    ShortList,
}

// The eleven words of the call at the front.
fn first_call(bytes: &[u8]) -> [u32; CALL_WORDS]
    requires { 11 ≤ length (words_of bytes.now) }
    ensures { result ≡ take 11 (words_of bytes.now) }
{
    array::from_fn(|i| word_at(bytes, i))
}

// The calls of a recording run, one after the other, until the status of one is not the expected one.
fn play_all(bytes: &[u8], calls: u32, table: &mut [u32], list: &mut [u32]) -> Replayed
    requires { ((reading bytes.now).status ≡ 0) × (calls ≡ get_or (words_of bytes.now) 3 0) }
    ensures { replay_of (status_of result) (place_of result) table.new list.new
        ≡ played_from 0 table.old list.old (calls_in (words_of bytes.now)) (statuses_in (words_of bytes.now)) }
{
    let statuses = FRONT + 1 + CALL_WORDS * (calls as usize);
    for k in 0..calls {
        let call = first_call(&bytes[WORD * (FRONT + CALL_WORDS * (k as usize))..]);
        let status = play(call, table, list);
        let expected = word_at(bytes, statuses + k as usize);
        if status != expected {
            return Replayed::Differs(k);
        }
    }
    Replayed::Agree
}

// A recording that is taken runs on the table, which is laid out first, if table and list are long enough.
fn run(bytes: &[u8], recorded: Recording, table: &mut [u32], list: &mut [u32]) -> Replayed
    requires { given (Ok recorded) ≡ reading bytes.now }
    ensures { replay_of (status_of result) (place_of result) table.new list.new ≡ replaying bytes.now table.old list.old }
{
    let slots = recorded.slots as usize;
    if table.len() < HEADER + SLOT * slots {
        return Replayed::ShortTable;
    }
    let lent = ENTRY * slots;
    if list.len() < lent {
        return Replayed::ShortList;
    }
    let _ = timer::lay_out(table, recorded.slots, recorded.rate, ONE_PARTY);
    play_all(bytes, recorded.calls, table, &mut list[..lent])
}

// The replay of the recording that bytes hold, on a lent table, and with a lent list for the calls that take one.
pub fn replay(bytes: &[u8], table: &mut [u32], list: &mut [u32]) -> Replayed
    ensures { replay_of (status_of result) (place_of result) table.new list.new ≡ replaying bytes.now table.old list.old }
{
    match recording::read(bytes) {
        Ok(recorded) => run(bytes, recorded, table, list),
        Err(wrong) => Replayed::Refused(wrong.position),
    }
}
