// Whose slots are whose; a party's slots are found by a word, or by an id; and a slice is cleared for a new table.
#![tactic(auto)]

ghost use Rattle.std.specs.Prelude.{◌≡◌, true, ◌++◌, ◌<◌, ◌≤◌, length, drop, replicate};
ghost use Rattle.model.specs.Parties.{owner_of, is_party, first_own, last_own};
ghost use Rattle.model.specs.Words.{read, slot_count, party_split};
ghost use Rattle.model.specs.Directives.{lowest_free, lowest_named};
ghost use Rattle.model.specs.Sound.{sound};
ghost use Rattle.slots.specs.Search.{some_slot, lowest_in, lowest_own, named_slot};

use table::{KIND, Kind, NAME, ONE_PARTY, PARTY_1, PARTY_2, PARTY_SPLIT, SLOT_COUNT, get};

// The kind of a free slot, as the word that stands there.
const FREE: u32 = Kind::Free as u32;

// An id is this plus the slot's index.
pub const ID_BASE: u32 = 0x12010000;

// The party whose slot i is.
pub fn owner(split: u32, i: u32) -> u32
    ensures { result ≡ owner_of split i }
{
    // (joined by `||`, the two tests take three instructions more in each call)
    if split == ONE_PARTY {
        return PARTY_1;
    }
    if i <= split {
        return PARTY_1;
    }
    PARTY_2
}

// A party has this number.
pub fn is_party(split: u32, party: u32) -> bool
    ensures { result ≡ is_party split party }
{
    match party {
        PARTY_1 => true,
        PARTY_2 => split != ONE_PARTY,
        _ => false,
    }
}

// The party's first slot.
fn first_own(split: u32, party: u32) -> u32
    requires { split < 255 }
    ensures { result ≡ first_own split party }
{
    if party == PARTY_2 { split + 1 } else { 1 }
}

// Its last slot.
fn last_own(split: u32, slots: u32, party: u32) -> u32
    ensures { result ≡ last_own split slots party }
{
    if party != PARTY_1 || split == ONE_PARTY {
        slots
    } else {
        split
    }
}

// The words of a table that is known to be sound, to be read.
#[derive(Clone, Copy)]
pub struct Sound<'t> {
    pub words: &'t [u32],
    pub ghost is_sound: { sound words.now ≡ true },
}

impl<'t> Sound<'t> {
    // The lowest slot, of those from `from` to `to`, whose word f is v.
    fn find(self, f: usize, v: u32, from: u32, to: u32) -> Option<u32>
        requires { (f < 8) × (1 ≤ from) × (to ≤ slot_count self.words.now) }
        ensures { result ≡ some_slot (lowest_in self.entry.words.now f v from to) }
    {
        // (by `for` a turn takes 8 instructions and not 7)
        let mut i = from;
        while i <= to {
            if get(self.words, i, f) == v {
                return Some(i);
            }
            i += 1;
        }
        None
    }

    // The party's lowest slot whose word f is v.
    fn find_own(self, party: u32, f: usize, v: u32) -> Option<u32>
        requires { f < 8 }
        ensures { result ≡ some_slot (lowest_own self.entry.words.now party f v) }
    {
        let split = self.words[PARTY_SPLIT];
        let first = first_own(split, party);
        let last = last_own(split, self.words[SLOT_COUNT], party);
        self.find(f, v, first, last)
    }

    // The party's lowest free slot.
    pub fn free_slot(self, party: u32) -> Option<u32>
        requires { is_party (party_split self.words.now) party ≡ true }
        ensures { result ≡ some_slot (lowest_free (read self.entry.words.now) party) }
    {
        self.find_own(party, KIND, FREE)
    }

    // The party's lowest slot with this name.
    pub fn slot_called(self, party: u32, name: u32) -> Option<u32>
        requires { is_party (party_split self.words.now) party ≡ true }
        ensures { result ≡ some_slot (lowest_named (read self.entry.words.now) party name) }
    {
        self.find_own(party, NAME, name)
    }

    // The slot of the party's timer that an id names.
    pub fn named(self, party: u32, id: u32) -> Option<u32>
        ensures { result ≡ some_slot (named_slot self.entry.words.now party id) }
    {
        if id <= ID_BASE {
            return None;
        }
        let i = id - ID_BASE;
        if self.words[SLOT_COUNT] < i {
            return None;
        }
        if get(self.words, i, KIND) == FREE {
            return None;
        }
        if owner(self.words[PARTY_SPLIT], i) != party {
            return None;
        }
        Some(i)
    }
}

// The first n words become zero.
pub fn clear(t: &mut [u32], n: usize)
    requires { n ≤ length t.old }
    ensures { t.new ≡ replicate n 0 ++ drop n t.old }
{
    for i in 0..n {
        t[i] = 0;
    }
}
