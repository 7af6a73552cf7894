// Delays in seconds for C: the prototypes of include/heathcinder.h. A slice is a pointer and a length there, and seconds are a `double`. Each call gives
// its status as the result; the ticks of a conversion go through the pointer, 0 on a refusal. The contracts are the calls' own equations. (The parameters are
// those of include/heathcinder.h.)
#![tactic(auto)]

ghost use Rattle.std.specs.Prelude.{◌≡◌, [], ◌∷◌};
ghost use Rattle.model.specs.Outcome.{outcome_of};
ghost use Rattle.delay.specs.declared.Delay.TheVariants.{Seconds};
ghost use Rattle.delay.specs.Seconds.{conversion, converted};
ghost use Rattle.delay.specs.Exact.{Exact};
ghost use Rattle.delayed.specs.Starts.{started};

use answers::{number_in, status_of};
use delay::{Delay, seconds_to_ticks};
use delayed::fire_after_delay;

#[unsafe(no_mangle)]
pub extern "C" fn hc_seconds_to_ticks(seconds: f64, rate: u32, ticks: &mut u32) -> u32
    ensures outcome { conversion result ticks.new ≡ converted seconds rate }
    ensures exact { Exact seconds rate (conversion result ticks.new) }
{
    let answer = seconds_to_ticks(seconds, rate);
    *ticks = number_in(answer);
    status_of(answer)
}

#[unsafe(no_mangle)]
pub extern "C" fn hc_fire_after_seconds(
    table: &mut [u32],
    party: u32,
    id: u32,
    seconds: f64,
    routine: u32,
    user_data: u32,
) -> u32
    ensures { outcome_of result (0 ∷ []) table.new [] ≡ started table.old party id (Seconds seconds) routine user_data }
{
    status_of(fire_after_delay(
        table,
        party,
        id,
        Delay::Seconds(seconds),
        routine,
        user_data,
    ))
}
