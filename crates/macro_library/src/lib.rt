// Macros by their names: a library is entries of name and step count, a word each, and the steps, five words each. The bench has its own, and one is
// shared by all. Any words are searched: an entry that is not whole ends its library.
#![tactic(auto)]

ghost use Rattle.std.specs.Prelude.{◌≡◌};
ghost use Rattle.macro_library.specs.Library.{steps_in, found_in, part_of, looked_up};

use macro_steps::STEP_WORDS;

// Words of an entry's head: its name and its step count.
pub const ENTRY_HEAD: usize = 2;

// Where a library has the steps of an entry, and how many words they are.
#[derive(Clone, Copy, Debug, PartialEq, Eq)]
pub struct Stretch {
    pub start: usize,
    pub words: usize,
}

// Which library has the steps of an entry, and where. (An enum of its own: both cases hold the same, and neither is a refusal.)
#[derive(Clone, Copy, Debug, PartialEq, Eq)]
pub enum Found {
    Own(Stretch),
    Shared(Stretch),
}

// Where a library has the steps of the first whole entry of this name.
fn find_in(library: &[u32], name: u32) -> Option<Stretch>
    ensures { result ≡ steps_in library.now name }
{
    // (No `for`: a turn goes on by as many words as the entry says.)
    let mut at = 0;
    while ENTRY_HEAD <= library.len() - at {
        let start = at + ENTRY_HEAD;
        let steps = library[at + 1] as usize;
        let words = STEP_WORDS * steps;
        if library.len() - start < words {
            return None;
        }
        if library[at] == name {
            return Some(Stretch { start, words });
        }
        at = start + words;
    }
    None
}

// Where the steps of this name are: of the first whole entry so named in the bench's own library, or else in the shared one.
#[tactic(auto, unfolding(crate::specs::Library::found_in))]
pub fn find(own: &[u32], shared: &[u32], name: u32) -> Option<Found>
    ensures { result ≡ found_in own.now shared.now name }
{
    if let Some(steps) = find_in(own, name) {
        return Some(Found::Own(steps));
    }
    Some(Found::Shared(find_in(shared, name)?))
}

// The steps of a macro by its name: that stretch of the library that has it, or an empty part where neither does.
#[tactic(auto, using(crate::proofs::LibraryLaws::lying))]
pub fn look_up<'a>(own: &'a [u32], shared: &'a [u32], name: u32) -> &'a [u32]
    ensures { part_of result ≡ looked_up own.entry shared.entry name }
{
    match find(own, shared, name) {
        Some(Found::Own(steps)) => &own[steps.start..steps.start + steps.words],
        Some(Found::Shared(steps)) => &shared[steps.start..steps.start + steps.words],
        None => &own[..0],
    }
}
