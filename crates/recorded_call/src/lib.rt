// One recorded call: its eleven words, a number and arguments, say which call of the library it is (recorded_timer/specs/RecordedCalls.antt).
// Here are the calls on the table as a whole; crate `recorded_timer` has those on one timer.
#![tactic(auto)]

ghost use Rattle.std.specs.Prelude.{◌≡◌, true, get_or};
ghost use Rattle.recording.specs.Format.{within};
ghost use Rattle.recorded_timer.specs.RecordedCalls.{step_of, step};

use answers::status_of;
use clock::*;
use recorded_timer::{play_timer, wall_time_at};
use recording::{CALL_WORDS, CallNumber};
use server::{initiate_server, serve};
use table::PARTY_1;

// The call of eleven words runs on the table, and on the list if it is lent one; answers its status.
pub fn play(words: [u32; CALL_WORDS], table: &mut [u32], list: &mut [u32]) -> u32
    requires { within 2 19 (get_or words 0 0) ≡ true }
    ensures { step_of result table.new list.new ≡ step table.old list.old words }
{
    match CallNumber::of_word(words[0]) {
        CallNumber::Tick => status_of(tick(table, list)),
        CallNumber::SetClock => status_of(set_clock(table, wall_time_at(words, 1), list)),
        CallNumber::GetClock => status_of(get_clock(table)),
        CallNumber::NextDue => status_of(next_due::next_due(table)),
        CallNumber::InitiateServer => status_of(initiate_server(table)),
        CallNumber::Serve => status_of(serve(table, PARTY_1, list)),
        CallNumber::Leap => status_of(leap(table, words[1], list)),
        _ => status_of(play_timer(words, table)),
    }
}
