// What the calls answer, and what that is in document 01's numbers (specs/Answers.antt), for whoever prints it or hands it to C.
#![tactic(auto)]

ghost use Rattle.std.specs.Prelude.{◌≡◌, [], ◌∷◌};
ghost use Rattle.answers.specs.Answers.{status_of, answer_of, reading_answer};

use calendar::WallTime;
use model::{SUCCESSFUL, Status};

// What set clock answers where it is not refused: how many timers fired, and how far the clock moved, in ticks.
#[derive(Clone, Copy, Debug, PartialEq, Eq)]
pub struct Setting {
    pub fired: u32,
    pub moved: i64,
}

// What leap answers where it is not refused: how many timers fired, and how many ticks were done.
#[derive(Clone, Copy, Debug, PartialEq, Eq)]
pub struct Progress {
    pub fired: u32,
    pub done: u32,
}

// The status of an answer of any kind, as a number.
pub fn status_of<T: Drop>(answer: Result<T, Status>) -> u32
    ensures { result ≡ status_of answer }
{
    match answer {
        Ok(_) => SUCCESSFUL,
        Err(refusal) => refusal.into(),
    }
}

// The number of an answer.
pub fn number_in(answer: Result<u32, Status>) -> u32
    ensures { result ∷ [] ≡ answer_of answer }
{
    answer.unwrap_or(0)
}

// The seven numbers of get clock.
pub fn reading_numbers(reading: Result<WallTime, Status>) -> [u32; 7]
    ensures { result ≡ reading_answer reading }
{
    match reading {
        Ok(w) => [w.year, w.month, w.day, w.hour, w.minute, w.second, w.ticks],
        Err(_) => [0; 7],
    }
}
