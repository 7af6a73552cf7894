// How the calls of a party open: refused with 100 or 4, or on; those that take an id go on with the slot of the party's timer that it names.
#![tactic(auto)]

ghost use Rattle.answers.specs.Openings.{Opens};
ghost use Rattle.opening.specs.Parties.{on_party, Member};
ghost use Rattle.opening.specs.Ids.{on_id, Named};

use model::Status;
use slots::{Sound, is_party};
use soundness::is_sound;
use table::PARTY_SPLIT;

// The caller is a party; refused where the table is not sound or no party has this number.
pub fn open_party(table: &[u32], party: u32) -> Result<u32, Status>
    ensures { Opens (on_party table.now party) (λ _. Member table.now party) result }
{
    if !is_sound(table) {
        return Err(Status::NotSound);
    }
    if !is_party(table[PARTY_SPLIT], party) {
        return Err(Status::InvalidId);
    }
    Ok(0)
}

// The slot of the party's timer that an id names, as the number of the answer; refused where the table is not sound or the id names no timer of the
// party's. A number that is no party's has no timers, and is refused with the same status.
pub fn open_timer(table: &[u32], party: u32, id: u32) -> Result<u32, Status>
    ensures { Opens (on_id table.now party id) (Named table.now party id) result }
{
    if !is_sound(table) {
        return Err(Status::NotSound);
    }
    Sound { words: table }
        .named(party, id)
        .ok_or(Status::InvalidId)
}
