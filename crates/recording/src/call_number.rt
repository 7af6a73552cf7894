// The numbers of the calls that are recorded, and how many arguments each has: `CallNumber`, in whose words specs/CallNumbers.antt speaks.

ghost use Rattle.std.specs.Prelude.{◌≡◌, true};
ghost use Rattle.recording.specs.Format.{within, arguments};
ghost use Rattle.recording.specs.CallNumbers.{word_of, Decodes};

// A call that is recorded, with its number.
#[derive(Clone, Copy, Debug, PartialEq, Eq)]
pub enum CallNumber {
    Create = 2,
    Ident = 3,
    Cancel = 4,
    Delete = 5,
    FireAfter = 6,
    FireWhen = 7,
    Reset = 8,
    TicksLeft = 9,
    Tick = 10,
    SetClock = 11,
    GetClock = 12,
    FireEvery = 13,
    NextDue = 14,
    InitiateServer = 15,
    ServerFireAfter = 16,
    ServerFireWhen = 17,
    Serve = 18,
    Leap = 19,
}

// No call that is recorded has this number.
#[derive(Clone, Copy, Debug, PartialEq, Eq)]
pub struct UnknownCall {
    pub number: u32,
}

// The number of the first call, and how many arguments each has from there on.
const FIRST: usize = 2;

const ARGUMENTS: [usize; 18] = [1, 1, 1, 1, 4, 10, 1, 1, 0, 7, 0, 4, 0, 0, 4, 10, 0, 1];

impl From<CallNumber> for u32 {
    ghost from_gives = { λ call number. number ≡ word_of call };

    fn from(call: CallNumber) -> u32 {
        call as u32
    }
}

impl TryFrom<u32> for CallNumber {
    type Error = UnknownCall;

    ghost try_from_gives = { Decodes };

    fn try_from(number: u32) -> Result<CallNumber, UnknownCall> {
        match number {
            2 => Ok(CallNumber::Create),
            3 => Ok(CallNumber::Ident),
            4 => Ok(CallNumber::Cancel),
            5 => Ok(CallNumber::Delete),
            6 => Ok(CallNumber::FireAfter),
            7 => Ok(CallNumber::FireWhen),
            8 => Ok(CallNumber::Reset),
            9 => Ok(CallNumber::TicksLeft),
            10 => Ok(CallNumber::Tick),
            11 => Ok(CallNumber::SetClock),
            12 => Ok(CallNumber::GetClock),
            13 => Ok(CallNumber::FireEvery),
            14 => Ok(CallNumber::NextDue),
            15 => Ok(CallNumber::InitiateServer),
            16 => Ok(CallNumber::ServerFireAfter),
            17 => Ok(CallNumber::ServerFireWhen),
            18 => Ok(CallNumber::Serve),
            19 => Ok(CallNumber::Leap),
            _ => Err(UnknownCall { number }),
        }
    }
}

impl CallNumber {
    // The call of a number that is known to be one.
    pub fn of_word(number: u32) -> CallNumber
        requires { within 2 19 number ≡ true }
        ensures { word_of result ≡ number }
    {
        match CallNumber::try_from(number) {
            Ok(call) => call,
            Err(_) => unreachable!(),
        }
    }

    // The number of its arguments. (By a match hc_recording_check would jump by a table, and docs/KERNEL.md says that it does not.)
    #[tactic(auto, unfolding(crate::specs::Format::arguments))]
    pub fn arguments(self) -> usize
        ensures { result ≡ arguments (word_of self) }
    {
        ARGUMENTS[self as usize - FIRST]
    }
}
