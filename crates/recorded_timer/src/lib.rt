// A recorded call on one timer: its eleven words are a number, the timer's id or name, and other arguments. specs/RecordedCalls.antt has the table of all
// calls that are recorded, as party 1's. Here each call on one timer is an arm; crate `recorded_call` has the rest.
#![tactic(auto)]

ghost use Rattle.std.specs.Prelude.{◌≡◌, [], ◌∷◌, ◌+◌, ◌≤◌, get_or};
ghost use Rattle.recorded_timer.specs.Parts.{OnTimer, Alone};
ghost use Rattle.recorded_timer.specs.RecordedCalls.{wall_time_at};

use calendar::WallTime;
use model::Status;
use recording::{CALL_WORDS, CallNumber};
use server::{server_fire_after, server_fire_when};
use starts::*;
use table::PARTY_1;
use timer::*;

// The wall time whose seven words stand from a word on.
pub fn wall_time_at(words: [u32; CALL_WORDS], at: usize) -> WallTime
    requires { at + 7 ≤ 11 }
    ensures { result ≡ wall_time_at words at }
{
    WallTime {
        year: words[at],
        month: words[at + 1],
        day: words[at + 2],
        hour: words[at + 3],
        minute: words[at + 4],
        second: words[at + 5],
        ticks: words[at + 6],
    }
}

// The call of eleven words runs on the table.
#[tactic(auto, using(crate::proofs::Steps::numbers))]
pub fn play_timer(words: [u32; CALL_WORDS], table: &mut [u32]) -> Result<u32, Status>
    requires { OnTimer (get_or words 0 0) }
    ensures { Alone words table.old result table.new }
{
    let id = words[1];
    let ticks = words[2];
    let routine = words[3];
    let data = words[4];
    match CallNumber::of_word(words[0]) {
        CallNumber::Create => create(table, PARTY_1, words[1]),
        CallNumber::Ident => ident(table, PARTY_1, words[1]),
        CallNumber::Cancel => cancel(table, PARTY_1, id),
        CallNumber::Delete => delete(table, PARTY_1, id),
        CallNumber::Reset => reset(table, PARTY_1, id),
        CallNumber::TicksLeft => ticks_left(table, PARTY_1, id),
        CallNumber::FireAfter => fire_after(table, PARTY_1, id, ticks, routine, data),
        CallNumber::FireEvery => fire_every(table, PARTY_1, id, ticks, routine, data),
        CallNumber::ServerFireAfter => server_fire_after(table, PARTY_1, id, ticks, routine, data),
        CallNumber::FireWhen => {
            let when = wall_time_at(words, 2);
            fire_when(table, PARTY_1, id, when, words[9], words[10])
        }
        CallNumber::ServerFireWhen => {
            let date = wall_time_at(words, 2);
            server_fire_when(table, PARTY_1, id, date, words[9], words[10])
        }
        _ => unreachable!(),
    }
}
