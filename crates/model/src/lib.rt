// The timer manager as definitions, with cases that are computed from them: see specs/ and proofs/. Laws of them are in crate `laws`. Here are
// the types that the definitions share with the code, and the numbers of the statuses.
#![tactic(auto)]

ghost use Rattle.std.specs.Prelude.{◌≡◌};
ghost use Rattle.model.specs.Status.{number_of};

use std::fmt;

// The chain of the timers that wait for ticks, of those that wait for a date, and of those that wait to be served.
#[derive(Clone, Copy, Debug, PartialEq, Eq)]
pub enum Chain {
    ByTicks,
    ByDate,
    Queue,
}

// How a timer is started: fire after, fire when, fire every, server fire after, server fire when.
#[derive(Clone, Copy, Debug, PartialEq, Eq)]
pub enum Mode {
    After,
    When,
    Every,
    ServerAfter,
    ServerWhen,
}

// Why a call is refused: RTEMS's names, and two of our own. specs/Status.antt has their numbers.
#[derive(Clone, Copy, Debug, PartialEq, Eq)]
pub enum Status {
    InvalidName = 3,
    InvalidId = 4,
    TooMany = 5,
    InvalidSize = 8,
    InvalidAddress = 9,
    InvalidNumber = 10,
    NotDefined = 11,
    Unsatisfied = 13,
    IncorrectState = 14,
    InvalidClock = 20,
    NotSound = 100,
    ListTooShort = 101,
}

// The status of a call that is done.
pub const SUCCESSFUL: u32 = 0;

// The number of a refusal, for whoever prints it or hands it to C: document 01's table, of which those below 100 are RTEMS's.
impl From<Status> for u32 {
    ghost from_gives = { λ s n. n ≡ number_of s };

    fn from(status: Status) -> u32 {
        status as u32
    }
}

// A refusal in words, for a log: as `hc_status_text` of include/heathcinder.h.
impl fmt::Display for Status {
    ghost use Rattle.std.specs.Prelude.{Some};
    ghost use Rattle.model.specs.StatusTexts.{text_of};

    ghost output = { λ s. Some (text_of s) };

    fn fmt<W: fmt::Write>(&self, f: &mut fmt::Formatter<W>) -> fmt::Result {
        match self {
            Status::InvalidName => f.write_str("invalid name"),
            Status::InvalidId => f.write_str("invalid id"),
            Status::TooMany => f.write_str("too many"),
            Status::InvalidSize => f.write_str("invalid size"),
            Status::InvalidAddress => f.write_str("invalid address"),
            Status::InvalidNumber => f.write_str("invalid number"),
            Status::NotDefined => f.write_str("not defined"),
            Status::Unsatisfied => f.write_str("unsatisfied"),
            Status::IncorrectState => f.write_str("incorrect state"),
            Status::InvalidClock => f.write_str("invalid clock"),
            Status::NotSound => f.write_str("not sound"),
            Status::ListTooShort => f.write_str("list too short"),
        }
    }
}
