// A start by a delay, document 02, item 12: as fire after or, for a date, as fire when. specs/Starts.antt says what comes of it.
#![tactic(auto)]

ghost use Rattle.std.specs.Prelude.{◌≡◌, []};
ghost use Rattle.model.specs.Words.{ticks_per_second};
ghost use Rattle.model.specs.Outcome.{outcome_of};
ghost use Rattle.answers.specs.Answers.{status_of, answer_of};
ghost use Rattle.delay.specs.Seconds.{converted};
ghost use Rattle.delayed.specs.Starts.{started};

use answers::number_in;
use delay::{Delay, seconds_to_ticks};
use model::Status;
use starts::{fire_after, fire_when};
use table::TICKS_PER_SECOND;

// The ticks in a second of a table; 0 where it has no such word, as `ticks_per_second` has it. (No Option: fire after refuses such a table whatever the ticks.)
fn rate_of(table: &[u32]) -> u32
    ensures { result ≡ ticks_per_second table.now }
{
    table.get(TICKS_PER_SECOND).copied().unwrap_or(0)
}

// The ticks of a number of seconds; 0 where it is refused, which fire after refuses with the same status in the same place.
fn ticks_in(seconds: f64, rate: u32) -> u32
    ensures { result ≡ (converted seconds rate).ticks }
{
    number_in(seconds_to_ticks(seconds, rate))
}

// A timer fires so many ticks or seconds from now, or at a date. (The parameters stand as in the calls that it hands on to, and in `started`.)
pub fn fire_after_delay(
    table: &mut [u32],
    party: u32,
    id: u32,
    delay: Delay,
    routine: u32,
    user_data: u32,
) -> Result<u32, Status>
    ensures { outcome_of (status_of result) (answer_of result) table.new [] ≡ started table.old party id delay routine user_data }
{
    match delay {
        Delay::Ticks(ticks) => fire_after(table, party, id, ticks, routine, user_data),
        Delay::Seconds(seconds) => {
            let rate = rate_of(table);
            let ticks = ticks_in(seconds, rate);
            fire_after(table, party, id, ticks, routine, user_data)
        }
        Delay::Date(date) => fire_when(table, party, id, date, routine, user_data),
    }
}
