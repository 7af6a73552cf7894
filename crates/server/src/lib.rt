// The deferred server: server timers that are due are queued, by tick and set clock, and handed out one at a time. Initiate server, its two starts,
// and serve. Their contracts are as those of crate `timer`.
#![tactic(auto)]

ghost use Rattle.std.specs.Prelude.{◌≡◌, [], ◌≤◌, length};
ghost use Rattle.model.specs.Calls as call;
ghost use Rattle.model.specs.Directives.{front};
ghost use Rattle.model.specs.Words.{first, read};
ghost use Rattle.model.specs.Outcome.{outcome_of, outcome};
ghost use Rattle.links.specs.Tables.{SameWords};
ghost use Rattle.links.specs.Places.{IsSlot};
ghost use Rattle.slots.specs.Search.{some_slot};
ghost use Rattle.answers.specs.Answers.{status_of, answer_of};
ghost use Rattle.answers.specs.Openings.{Opens};
ghost use Rattle.server.specs.Initiated.{on_server, Initiated};
ghost use Rattle.server.specs.HandedOut.{HandedOut};

use calendar::WallTime;
use firing::put_entry;
use going_on::ENTRY;
use links::Table;
use model::{Mode, Status};
use opening::open_party;
use slots::{ID_BASE, Sound, is_party, owner};
use soundness::is_sound;
use starting::{start_for_date, start_for_ticks};
use table::{DATA, FIRST_QUEUED, NEXT, PARTY_SPLIT, ROUTINE, SERVER, get};

// The caller is a party and the server is initiated; refused where the table is not sound, no party has this number, or it is not.
fn open_server(table: &[u32], party: u32) -> Result<u32, Status>
    ensures { Opens (on_server table.now party) (λ _. Initiated table.now party) result }
{
    open_party(table, party)?;
    if table[SERVER] != 1 {
        return Err(Status::IncorrectState);
    }
    Ok(0)
}

// From now on there are server timers. Once since the lay out.
pub fn initiate_server(table: &mut [u32]) -> Result<u32, Status>
    ensures { outcome_of (status_of result) (answer_of result) table.new [] ≡ outcome table.old call.initiate_server }
{
    if !is_sound(table) {
        return Err(Status::NotSound);
    }
    if table[SERVER] == 1 {
        return Err(Status::IncorrectState);
    }
    table[SERVER] = 1;
    Ok(0)
}

// A timer is queued so many ticks from now. (This start and the next are like those of `starts` but for opening and mode: each has an equation of its own.)
pub fn server_fire_after(
    table: &mut [u32],
    party: u32,
    id: u32,
    ticks: u32,
    routine: u32,
    user_data: u32,
) -> Result<u32, Status>
    ensures { outcome_of (status_of result) (answer_of result) table.new [] ≡ outcome table.old (call.server_fire_after party id ticks routine user_data) }
{
    open_server(table, party)?;
    start_for_ticks(
        table,
        Mode::ServerAfter,
        party,
        id,
        ticks,
        routine,
        user_data,
    )
}

// A timer is queued at a date.
pub fn server_fire_when(
    table: &mut [u32],
    party: u32,
    id: u32,
    when: WallTime,
    routine: u32,
    user_data: u32,
) -> Result<u32, Status>
    ensures { outcome_of (status_of result) (answer_of result) table.new [] ≡ outcome table.old (call.server_fire_when party id when routine user_data) }
{
    open_server(table, party)?;
    start_for_date(table, Mode::ServerWhen, party, id, when, routine, user_data)
}

// The slot of the party's first queued timer.
fn first_queued(t: Sound, party: u32) -> Option<u32>
    ensures { result ≡ some_slot (first (front (read t.entry.words.now) party)) }
{
    let split = t.words[PARTY_SPLIT];
    let mut i = t.words[FIRST_QUEUED];
    // (along the links: no range counts these turns)
    while i != 0 {
        if owner(split, i) == party {
            return Some(i);
        }
        i = get(t.words, i, NEXT);
    }
    None
}

// The timer of slot i is handed out: its three words go to the list, and it is idle then. (Not by `firing::come_off`, which takes the first of a chain:
// the party's own may stand behind others in the queue.)
fn hand_out(table: &mut Table<'_>, list: &mut [u32], i: u32)
    requires slot { IsSlot table.old.words.now i }
    requires room { 3 ≤ length list.old }
    ensures same { SameWords table.old table.new }
    ensures handed { HandedOut table.old.words.now list.old i table.new.words.now list.new }
{
    let routine = table.get(i, ROUTINE);
    let user_data = table.get(i, DATA);
    put_entry(list, 0, ID_BASE + i, routine, user_data);
    table.stop(i);
}

// The party's first queued timer is handed out: its three words go to the list, and it is idle then. Answers 1, or 0 if it has none.
pub fn serve(table: &mut [u32], party: u32, served: &mut [u32]) -> Result<u32, Status>
    ensures { outcome_of (status_of result) (answer_of result) table.new served.new ≡ outcome table.old (call.serve party served.old) }
{
    if !is_sound(table) {
        return Err(Status::NotSound);
    }
    if served.len() < ENTRY {
        return Err(Status::ListTooShort);
    }
    if !is_party(table[PARTY_SPLIT], party) {
        return Err(Status::InvalidId);
    }
    let initiated = table[SERVER];
    if initiated != 1 {
        return Err(Status::IncorrectState);
    }
    let Some(i) = first_queued(Sound { words: table }, party) else {
        return Ok(0);
    };
    let mut timers = Table { words: table };
    hand_out(&mut timers, served, i);
    Ok(1)
}
