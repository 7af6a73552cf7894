// The words of a table: where they stand, and how they are read and written.
//
// The table, in 32-bit words (document 01, and document 02, items 1, 5 and 10). A link is a slot's index, and 0 means none.
//
//   0 slot count N        5 first slot of the interval chain    slot i, from 1 to N, is the eight words from 2 + 8i on:
//   1 ticks in a second   6 first slot of the dated chain       0 kind     1 name   2 interval   3 wait
//   2 clock set, 0 or 1   7 split L of two parties, or 0        4 routine  5 data   6 next       7 previous
//   3 seconds             8 server initiated, 0 or 1
//   4 ticks into it       9 first slot of the queue
//
// The kinds. An idle timer is told apart by how it was last started; a periodic one waits again when it fired, a server timer is queued then.
//
//   0 free            2 idle, by interval   4 waiting for ticks    6 waiting for ticks, periodic
//   1 never started   3 idle, by date       5 waiting for a date   7 idle, periodic
//
//   server timers:    8 idle, by interval  10 waiting for ticks   12 queued, by interval
//                     9 idle, by date      11 waiting for a date  13 queued, by date
#![tactic(auto)]

ghost use Rattle.std.specs.Prelude.{◌≡◌, [], ◌∷◌, ◌+◌, ◌*◌, ◌<◌, ◌≤◌, length, set, leb};
ghost use Rattle.calendar.specs.Calendar.{all_of};
ghost use Rattle.model.specs.declared.Chain.TheVariants.{ByTicks};
ghost use Rattle.model.specs.Kinds.{kind_at, waits_in};
ghost use Rattle.model.specs.Words.{field};
ghost use Rattle.table.specs.Kinds.{word_of, Decodes, option_of};

use model::Chain;

// The words of the header.
pub const SLOT_COUNT: usize = 0;

pub const TICKS_PER_SECOND: usize = 1;

pub const CLOCK_SET: usize = 2;

pub const SECONDS: usize = 3;

pub const TICKS: usize = 4;

pub const FIRST_TICKING: usize = 5;

pub const FIRST_DATED: usize = 6;

// How many slots party 1 has where there are two parties: 0 where there is one.
pub const PARTY_SPLIT: usize = 7;

pub const SERVER: usize = 8;

pub const FIRST_QUEUED: usize = 9;

// The words of a slot.
pub const KIND: usize = 0;

pub const NAME: usize = 1;

pub const INTERVAL: usize = 2;

pub const WAIT: usize = 3;

pub const ROUTINE: usize = 4;

pub const DATA: usize = 5;

pub const NEXT: usize = 6;

pub const PREVIOUS: usize = 7;

// The length of the header and of a slot, in words, and the word at which a slot 0 would begin.
pub const HEADER: usize = 10;

pub const SLOT: usize = 8;

const SLOT_ZERO: usize = HEADER - SLOT;

// The greatest slot count and the most ticks in a second.
pub const MOST_SLOTS: u32 = 255;

pub const MOST_RATE: u32 = 1000;

// The split of a table that one party has alone, and the numbers of the parties. (No enum: a call takes any number, and answers 4 for one that is
// no party.)
pub const ONE_PARTY: u32 = 0;

pub const PARTY_1: u32 = 1;

pub const PARTY_2: u32 = 2;

// What a timer does, and how it was last started. A kind stands in a table as its number: `as` gives that of a kind that is named in place. (A function
// takes a kind as a word where every word may be given, as `waits_for_ticks` and links's `stopped_kind` and `store`; or where its contract speaks of
// the word that its caller has read, as links's `stop_first`, going_on's `queue` and firing's `come_off`.)
#[derive(Clone, Copy, Debug, PartialEq, Eq)]
pub enum Kind {
    Free = 0,
    NeverStarted = 1,
    IdleTicks = 2,
    IdleDate = 3,
    WaitingTicks = 4,
    WaitingDate = 5,
    WaitingEvery = 6,
    IdleEvery = 7,
    ServerIdleTicks = 8,
    ServerIdleDate = 9,
    ServerWaitingTicks = 10,
    ServerWaitingDate = 11,
    QueuedTicks = 12,
    QueuedDate = 13,
}

// A word that is the number of no kind.
#[derive(Clone, Copy, Debug, PartialEq, Eq)]
pub struct UnknownKind;

impl From<Kind> for u32 {
    ghost from_gives = { λ kind word. word ≡ word_of kind };

    fn from(kind: Kind) -> u32 {
        kind as u32
    }
}

impl TryFrom<u32> for Kind {
    type Error = UnknownKind;

    ghost try_from_gives = { Decodes };

    fn try_from(word: u32) -> Result<Kind, UnknownKind> {
        match word {
            0 => Ok(Kind::Free),
            1 => Ok(Kind::NeverStarted),
            2 => Ok(Kind::IdleTicks),
            3 => Ok(Kind::IdleDate),
            4 => Ok(Kind::WaitingTicks),
            5 => Ok(Kind::WaitingDate),
            6 => Ok(Kind::WaitingEvery),
            7 => Ok(Kind::IdleEvery),
            8 => Ok(Kind::ServerIdleTicks),
            9 => Ok(Kind::ServerIdleDate),
            10 => Ok(Kind::ServerWaitingTicks),
            11 => Ok(Kind::ServerWaitingDate),
            12 => Ok(Kind::QueuedTicks),
            13 => Ok(Kind::QueuedDate),
            _ => Err(UnknownKind),
        }
    }
}

impl Kind {
    // The kind of a timer that stops; one that is in no chain keeps its own. (Each by name: with `_ => self` it becomes a table of jumps.)
    pub fn stopped(self) -> Kind
        ensures { word_of result ≡ (kind_at (word_of self)).when_stopped }
    {
        match self {
            Kind::Free => Kind::Free,
            Kind::NeverStarted => Kind::NeverStarted,
            Kind::IdleTicks | Kind::WaitingTicks => Kind::IdleTicks,
            Kind::IdleDate | Kind::WaitingDate => Kind::IdleDate,
            Kind::IdleEvery | Kind::WaitingEvery => Kind::IdleEvery,
            Kind::ServerIdleTicks | Kind::ServerWaitingTicks | Kind::QueuedTicks => {
                Kind::ServerIdleTicks
            }
            Kind::ServerIdleDate | Kind::ServerWaitingDate | Kind::QueuedDate => {
                Kind::ServerIdleDate
            }
        }
    }

    // The chain in which a timer of the kind stands, if it is in one.
    pub fn chain(self) -> Option<Chain>
        ensures { option_of result ≡ (kind_at (word_of self)).chain }
    {
        let chain = match self {
            Kind::WaitingTicks | Kind::WaitingEvery | Kind::ServerWaitingTicks => Chain::ByTicks,
            Kind::WaitingDate | Kind::ServerWaitingDate => Chain::ByDate,
            Kind::QueuedTicks | Kind::QueuedDate => Chain::Queue,
            _ => return None,
        };
        Some(chain)
    }
}

// So many slots and so many ticks in a second are within their limits.
pub fn within_limits(slots: u32, rate: u32) -> bool
    ensures { result ≡ all_of (leb 1 slots ∷ leb slots 255 ∷ leb 1 rate ∷ leb rate 1000 ∷ []) }
{
    (1..=MOST_SLOTS).contains(&slots) && (1..=MOST_RATE).contains(&rate)
}

const WAITING_TICKS: u32 = Kind::WaitingTicks as u32;

const WAITING_EVERY: u32 = Kind::WaitingEvery as u32;

const SERVER_WAITING_TICKS: u32 = Kind::ServerWaitingTicks as u32;

// A timer of this kind waits in the interval chain. Every word is answered. (By `Kind::try_from` the soundness check of a table with a server takes
// 2.5 % more instructions.)
pub fn waits_for_ticks(kind: u32) -> bool
    ensures { result ≡ waits_in ByTicks kind }
{
    matches!(kind, WAITING_TICKS | WAITING_EVERY | SERVER_WAITING_TICKS)
}

// Word f of slot i. (An index is made by `as`, in every crate: no `From` goes from `u32` to `usize`.)
pub fn get(t: &[u32], i: u32, f: usize) -> u32
    requires { (f < 8) × (8 * i + 10 ≤ length t.now) }
    ensures { result ≡ field t.now i f }
{
    t[SLOT_ZERO + SLOT * (i as usize) + f]
}

// Stores v as word f of slot i.
pub fn put(t: &mut [u32], i: u32, f: usize, v: u32)
    requires { (f < 8) × (8 * i + 10 ≤ length t.old) }
    ensures { t.new ≡ set t.old (2 + 8 * i + f) v }
{
    t[SLOT_ZERO + SLOT * (i as usize) + f] = v;
}
