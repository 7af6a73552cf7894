// Replays the recording on standard input and prints one line: the place, from 0, of the first call whose status differs, or "agree", or "refused",
// a space and the position, from 0, of the first wrong word. Nothing is replayed where it is refused.
#![tactic(auto)]

ghost use Rattle.std.specs.Prelude.{◌≡◌, ◌≤◌, ◌⊎◌, length, IfOk};
ghost use Rattle.playback.specs.Replay.{status_of};

use going_on::ENTRY;
use playback::Replayed;
use recording::{CALL_WORDS, FRONT, MOST_CALLS, WORD};
use std::io;
use std::io::Read;
use table::{HEADER, MOST_SLOTS, SLOT};

// The words of the longest recording: its numbers, its calls, their count again and a status each.
const MOST_WORDS: usize = FRONT + 1 + (CALL_WORDS + 1) * (MOST_CALLS as usize);

// Its bytes, and a word more: what follows those makes no difference (playback/proofs/LongInput).
const MOST_BYTES: usize = WORD * (MOST_WORDS + 1);

// The words of the table and of the list that the most slots take.
const TABLE: usize = HEADER + SLOT * (MOST_SLOTS as usize);

const LIST: usize = ENTRY * (MOST_SLOTS as usize);

// Prints what came of a replay on a table and a list that were not too short.
fn show(rt: &impl Print, replayed: Replayed) -> io::Result<()>
    requires { (status_of replayed ≡ 0) ⊎ (status_of replayed ≡ 10) }
{
    match replayed {
        Replayed::Agree => println!(rt; "agree"),
        Replayed::Differs(place) => println!(rt; "{place}"),
        Replayed::Refused(position) => println!(rt; "refused {position}"),
        Replayed::ShortTable | Replayed::ShortList => unreachable!(),
    }
}

// The replay of any recording, on a table and a list that are long enough for all.
fn replay_any(bytes: &[u8]) -> Replayed
    ensures { (status_of result ≡ 0) ⊎ (status_of result ≡ 10) }
{
    let mut table = [0u32; TABLE];
    let mut list = [0u32; LIST];
    playback::replay(bytes, &mut table, &mut list)
}

// Reads until the buffer is full or the input at its end, and gives how many bytes there were. (Each turn goes on by as many as came, so it is no `for`; std's
// `read_to_end` is of a Vec, on a heap; `edges` has its own, since no library here reads.)
fn read_full(reader: &mut impl Read, buffer: &mut [u8]) -> io::Result<usize>
    ensures { IfOk result (λ n. n ≤ length buffer.new) }
{
    let mut n = 0;
    while n < buffer.len() {
        let count = reader.read(&mut buffer[n..])?;
        if count == 0 {
            return Ok(n);
        }
        n += count;
    }
    Ok(n)
}

fn main(rt: HostRuntime) -> io::Result<()> {
    let mut bytes = [0u8; MOST_BYTES];
    let n = read_full(&mut rt.reader(), &mut bytes)?;
    show(&rt, replay_any(&bytes[..n]))
}
