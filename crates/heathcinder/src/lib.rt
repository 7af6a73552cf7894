// The timer manager for C: the prototypes of include/heathcinder.h, in its order. A slice is a pointer and a length there, and seven words are
// a `struct hc_wall_time`. Each call gives its status as the result; an answer goes through the last pointer, set clock's two and leap's two
// through the last two, and is 0 on every refusal. The contracts are the calls' own equations with the model's `outcome` and `movement`.
#![tactic(auto)]

ghost use Rattle.std.specs.Prelude.{◌≡◌, [], ◌∷◌};
ghost use Rattle.model.specs.Calls as call;
ghost use Rattle.model.specs.Outcome.{outcome_of, outcome, movement};
ghost use Rattle.heathcinder.specs.Exports.{wall_time};

use answers::{number_in, reading_numbers, status_of};
use calendar::WallTime;
use model::SUCCESSFUL;

// The wall time of seven numbers, the words of a `struct hc_wall_time`.
fn wall_time(numbers: &[u32; 7]) -> WallTime
    ensures { result ≡ wall_time numbers.now }
{
    let [year, month, day, hour, minute, second, ticks] = *numbers;
    WallTime {
        year,
        month,
        day,
        hour,
        minute,
        second,
        ticks,
    }
}

// The calls. Each is the call of that name of `timer`, `starts`, `clock`, `next_due` or `server`, with the same arguments. (Many are alike, and their
// parameters travel together: each is a name of its own in include/heathcinder.h, with that signature.)
#[unsafe(no_mangle)]
pub extern "C" fn hc_lay_out(table: &mut [u32], slots: u32, rate: u32, split: u32) -> u32
    ensures { outcome_of result (0 ∷ []) table.new [] ≡ outcome table.old (call.lay_out slots rate split) }
{
    status_of(timer::lay_out(table, slots, rate, split))
}

#[unsafe(no_mangle)]
pub extern "C" fn hc_create(table: &mut [u32], party: u32, name: u32, id: &mut u32) -> u32
    ensures { outcome_of result (id.new ∷ []) table.new [] ≡ outcome table.old (call.create party name) }
{
    let answer = timer::create(table, party, name);
    *id = number_in(answer);
    status_of(answer)
}

#[unsafe(no_mangle)]
pub extern "C" fn hc_ident(table: &[u32], party: u32, name: u32, id: &mut u32) -> u32
    ensures { outcome_of result (id.new ∷ []) table.now [] ≡ outcome table.now (call.ident party name) }
{
    let answer = timer::ident(table, party, name);
    *id = number_in(answer);
    status_of(answer)
}

#[unsafe(no_mangle)]
pub extern "C" fn hc_cancel(table: &mut [u32], party: u32, id: u32) -> u32
    ensures { outcome_of result (0 ∷ []) table.new [] ≡ outcome table.old (call.cancel party id) }
{
    status_of(timer::cancel(table, party, id))
}

#[unsafe(no_mangle)]
pub extern "C" fn hc_delete(table: &mut [u32], party: u32, id: u32) -> u32
    ensures { outcome_of result (0 ∷ []) table.new [] ≡ outcome table.old (call.delete party id) }
{
    status_of(timer::delete(table, party, id))
}

#[unsafe(no_mangle)]
pub extern "C" fn hc_fire_after(
    table: &mut [u32],
    party: u32,
    id: u32,
    ticks: u32,
    routine: u32,
    user_data: u32,
) -> u32
    ensures { outcome_of result (0 ∷ []) table.new [] ≡ outcome table.old (call.fire_after party id ticks routine user_data) }
{
    status_of(starts::fire_after(table, party, id, ticks, routine, user_data))
}

#[unsafe(no_mangle)]
pub extern "C" fn hc_fire_when(
    table: &mut [u32],
    party: u32,
    id: u32,
    when: &[u32; 7],
    routine: u32,
    user_data: u32,
) -> u32
    ensures { outcome_of result (0 ∷ []) table.new [] ≡ outcome table.old (call.fire_when party id (wall_time when.now) routine user_data) }
{
    let date = wall_time(when);
    status_of(starts::fire_when(table, party, id, date, routine, user_data))
}

#[unsafe(no_mangle)]
pub extern "C" fn hc_fire_every(
    table: &mut [u32],
    party: u32,
    id: u32,
    ticks: u32,
    routine: u32,
    user_data: u32,
) -> u32
    ensures { outcome_of result (0 ∷ []) table.new [] ≡ outcome table.old (call.fire_every party id ticks routine user_data) }
{
    status_of(starts::fire_every(table, party, id, ticks, routine, user_data))
}

#[unsafe(no_mangle)]
pub extern "C" fn hc_reset(table: &mut [u32], party: u32, id: u32) -> u32
    ensures { outcome_of result (0 ∷ []) table.new [] ≡ outcome table.old (call.reset party id) }
{
    status_of(starts::reset(table, party, id))
}

#[unsafe(no_mangle)]
pub extern "C" fn hc_ticks_left(table: &[u32], party: u32, id: u32, ticks: &mut u32) -> u32
    ensures { outcome_of result (ticks.new ∷ []) table.now [] ≡ outcome table.now (call.ticks_left party id) }
{
    let answer = timer::ticks_left(table, party, id);
    *ticks = number_in(answer);
    status_of(answer)
}

#[unsafe(no_mangle)]
pub extern "C" fn hc_next_due(table: &[u32], ticks: &mut u32) -> u32
    ensures { outcome_of result (ticks.new ∷ []) table.now [] ≡ outcome table.now call.next_due }
{
    let due = next_due::next_due(table);
    *ticks = number_in(due);
    status_of(due)
}

#[unsafe(no_mangle)]
pub extern "C" fn hc_tick(table: &mut [u32], fired: &mut [u32], count: &mut u32) -> u32
    ensures { outcome_of result (count.new ∷ []) table.new fired.new ≡ outcome table.old (call.tick fired.old) }
{
    let answer = clock::tick(table, fired);
    *count = number_in(answer);
    status_of(answer)
}

#[unsafe(no_mangle)]
pub extern "C" fn hc_set_clock(
    table: &mut [u32],
    time: &[u32; 7],
    fired: &mut [u32],
    count: &mut u32,
    moved: &mut i64,
) -> u32
    ensures { (outcome_of result (count.new ∷ []) table.new fired.new ≡ outcome table.old (call.set_clock (wall_time time.now) fired.old)) × (moved.new ≡ movement table.old (wall_time time.now) fired.old) }
{
    match clock::set_clock(table, wall_time(time), fired) {
        Ok(setting) => {
            *moved = setting.moved;
            *count = setting.fired;
            SUCCESSFUL
        }
        Err(refusal) => {
            *moved = 0;
            *count = 0;
            refusal.into()
        }
    }
}

// The zeros of a refusal are written first: to choose between them and the date at the end takes longer.
#[unsafe(no_mangle)]
pub extern "C" fn hc_get_clock(table: &[u32], time: &mut [u32; 7]) -> u32
    ensures { outcome_of result time.new table.now [] ≡ outcome table.now call.get_clock }
{
    *time = [0; 7];
    let reading = clock::get_clock(table);
    let Ok(_) = reading else {
        return status_of(reading);
    };
    *time = reading_numbers(reading);
    status_of(reading)
}

#[unsafe(no_mangle)]
pub extern "C" fn hc_initiate_server(table: &mut [u32]) -> u32
    ensures { outcome_of result (0 ∷ []) table.new [] ≡ outcome table.old call.initiate_server }
{
    status_of(server::initiate_server(table))
}

#[unsafe(no_mangle)]
pub extern "C" fn hc_server_fire_after(
    table: &mut [u32],
    party: u32,
    id: u32,
    ticks: u32,
    routine: u32,
    user_data: u32,
) -> u32
    ensures { outcome_of result (0 ∷ []) table.new [] ≡ outcome table.old (call.server_fire_after party id ticks routine user_data) }
{
    status_of(server::server_fire_after(table, party, id, ticks, routine, user_data))
}

#[unsafe(no_mangle)]
pub extern "C" fn hc_server_fire_when(
    table: &mut [u32],
    party: u32,
    id: u32,
    when: &[u32; 7],
    routine: u32,
    user_data: u32,
) -> u32
    ensures { outcome_of result (0 ∷ []) table.new [] ≡ outcome table.old (call.server_fire_when party id (wall_time when.now) routine user_data) }
{
    let date = wall_time(when);
    status_of(server::server_fire_when(table, party, id, date, routine, user_data))
}

#[unsafe(no_mangle)]
pub extern "C" fn hc_serve(
    table: &mut [u32],
    party: u32,
    served: &mut [u32],
    count: &mut u32,
) -> u32
    ensures { outcome_of result (count.new ∷ []) table.new served.new ≡ outcome table.old (call.serve party served.old) }
{
    let answer = server::serve(table, party, served);
    *count = number_in(answer);
    status_of(answer)
}

#[unsafe(no_mangle)]
pub extern "C" fn hc_leap(
    table: &mut [u32],
    ticks: u32,
    fired: &mut [u32],
    done: &mut u32,
    count: &mut u32,
) -> u32
    ensures { outcome_of result (count.new ∷ done.new ∷ []) table.new fired.new ≡ outcome table.old (call.leap ticks fired.old) }
{
    match clock::leap(table, ticks, fired) {
        Ok(progress) => {
            *done = progress.done;
            *count = progress.fired;
            SUCCESSFUL
        }
        Err(refusal) => {
            *done = 0;
            *count = 0;
            refusal.into()
        }
    }
}
