// Recordings for C: the prototypes of include/heathcinder.h. A slice is a pointer and a length there. Each call gives its status as the result, and its
// answer through the last pointer. The contracts are the reader's, the replay's and the writer's own equations.
#![tactic(auto)]

ghost use Rattle.std.specs.Prelude.{◌≡◌};
ghost use Rattle.recording.specs.Format.{reading, given};
ghost use Rattle.playback.specs.Replay as replay;
ghost use Rattle.recording_writer.specs.Writing as writer;
ghost use Rattle.recording_c.specs.Exports.{place_number, exported, in_c};

use answers::{number_in, status_of};
use model::{SUCCESSFUL, Status};
use playback::Replayed;
use recording::{Recording, WrongWord};

// `HC_AGREE`, the place where no status differs.
const AGREE: u32 = 4294967295;

// The status of a reading, and the position of the first wrong word, 0 where there is none: what C is given. (A wrong word is no `Status`, so that
// `answers::status_of` is not of it.)
fn read_status(contents: Result<Recording, WrongWord>) -> u32
    ensures { result ≡ (given contents).status }
{
    match contents {
        Ok(_) => SUCCESSFUL,
        Err(_) => Status::InvalidNumber.into(),
    }
}

fn position_in(contents: Result<Recording, WrongWord>) -> u32
    ensures { result ≡ (given contents).position }
{
    match contents {
        Ok(_) => 0,
        Err(wrong) => wrong.position,
    }
}

// The status of a replay, and the place of the first call that differs, or the position of the first wrong word.
fn replay_status(replayed: Replayed) -> u32
    ensures { result ≡ replay.status_of replayed }
{
    match replayed {
        Replayed::Agree | Replayed::Differs(_) => SUCCESSFUL,
        Replayed::Refused(_) => Status::InvalidNumber.into(),
        Replayed::ShortTable => Status::InvalidSize.into(),
        Replayed::ShortList => Status::ListTooShort.into(),
    }
}

fn place_in(replayed: Replayed) -> u32
    ensures { result ≡ place_number (replay.place_of replayed) }
{
    match replayed {
        Replayed::Agree => AGREE,
        Replayed::Differs(place) => place,
        Replayed::Refused(position) => position,
        Replayed::ShortTable | Replayed::ShortList => 0,
    }
}

#[unsafe(no_mangle)]
pub extern "C" fn hc_recording_check(bytes: &[u8], position: &mut u32) -> u32
    ensures { (result ≡ (reading bytes.now).status) × (position.new ≡ (reading bytes.now).position) }
{
    let contents = recording::read(bytes);
    *position = position_in(contents);
    read_status(contents)
}

#[unsafe(no_mangle)]
pub extern "C" fn hc_recording_replay(
    bytes: &[u8],
    table: &mut [u32],
    list: &mut [u32],
    place: &mut u32,
) -> u32
    ensures { exported result place.new table.new list.new ≡ in_c (replay.replaying bytes.now table.old list.old) }
{
    let replayed = playback::replay(bytes, table, list);
    *place = place_in(replayed);
    replay_status(replayed)
}

#[unsafe(no_mangle)]
pub extern "C" fn hc_recording_write(
    slots: u32,
    rate: u32,
    calls: &[u32],
    statuses: &[u32],
    buffer: &mut [u8],
    written: &mut u32,
) -> u32
    ensures { writer.output result written.new buffer.new ≡ writer.writing slots rate calls.now statuses.now buffer.old }
{
    let answer = recording_writer::write(slots, rate, calls, statuses, buffer);
    *written = number_in(answer);
    status_of(answer)
}
