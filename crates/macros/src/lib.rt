// The macro runner: a step of a macro on a record that the host lends, over a table of timers. It refuses to sign after a status that nobody checked.
// A step takes any words, any record and any table; its contract gives status, answer, record and every word of the table by one equation with
// `stepped` (specs/Stepping.antt), and specs/Runs.antt says what is claimed of a macro's steps. Each step makes one pass over the macro.
#![tactic(auto)]

ghost use Rattle.std.specs.Prelude.{◌≡◌, []};
ghost use Rattle.model.specs.Outcome.{outcome_of};
ghost use Rattle.answers.specs.Answers.{status_of, answer_of};
ghost use Rattle.macros.specs.Stepping.{calls_of, asked, sign_of, stepped, took};
ghost use Rattle.macros.specs.Runs.{stops, ran_for};
ghost use Rattle.macros.specs.Parts.{refused_as};

use answers::{number_in, status_of};
use macro_record::{Position, Runner, readiness};
use macro_steps::{Step, StepKind, kind_at, step_at};
use model::{SUCCESSFUL, Status};
use starts::fire_after;
use timer::{cancel, ticks_left};

// What a step answers, and the record after it.
#[derive(Clone, Copy, Debug, PartialEq, Eq)]
pub struct Stepped {
    pub answer: Result<u32, Status>,
    pub runner: Runner,
}

// What the manager answers to an arm, cancel or wait, called as the host's party; nothing, to any other step.
fn ask(table: &mut [u32], party: u32, step: Step) -> Result<u32, Status>
    ensures { outcome_of (status_of result) (answer_of result) table.new [] ≡ asked table.old (calls_of party step) }
{
    match step {
        Step::Arm(id, ticks, routine, user_data) => fire_after(
            table, party, id, ticks, routine, user_data,
        ),
        Step::Cancel(id) => cancel(table, party, id),
        Step::Wait(id) => ticks_left(table, party, id),
        _ => Ok(0),
    }
}

// What a step answers: 1 is a sign.
fn sign_of(step: Step) -> u32
    ensures { result ≡ sign_of step }
{
    u32::from(matches!(step, Step::Sign))
}

// A step that is refused, and the record as it was.
fn refused(r: Runner) -> Stepped
    ensures { result ≡ refused_as r }
{
    Stepped {
        answer: Err(Status::InvalidNumber),
        runner: r,
    }
}

// One step of a macro, with the record by value.
pub fn step_value(words: &[u32], r: Runner, table: &mut [u32], party: u32) -> Stepped
    ensures { took result.answer result.runner table.new ≡ stepped party words.now r table.old }
{
    let Some(blocks) = readiness(words, r) else {
        return refused(r);
    };
    let position = Position {
        words,
        runner: r,
        blocks,
    };
    let step = step_at(words, r.place as usize);
    let answer = ask(table, party, step);
    Stepped {
        answer: Ok(sign_of(step)),
        runner: position.after(step, status_of(answer), number_in(answer)),
    }
}

// One step of a macro, on a record that the host lends.
pub fn step(
    runner: &mut Runner,
    words: &[u32],
    table: &mut [u32],
    party: u32,
) -> Result<u32, Status>
    ensures { took result runner.new table.new ≡ stepped party words.now runner.old table.old }
{
    let s = step_value(words, *runner, table, party);
    *runner = s.runner;
    s.answer
}

// A run ends with this step: it was refused, it answers 1, or it left the place as it was and is no end.
fn stops_at(words: &[u32], r: Runner, s: Stepped) -> bool
    ensures { result ≡ stops words.now r (took s.answer s.runner []) }
{
    status_of(s.answer) != SUCCESSFUL
        || number_in(s.answer) == 1
        || (s.runner.place == r.place && kind_at(words, r.place as usize) != StepKind::End)
}

// So many steps of a macro at most, with the record by value, until one ends the run.
pub fn run(words: &[u32], r: Runner, table: &mut [u32], party: u32, budget: u32) -> Stepped
    ensures { took result.answer result.runner table.new ≡ ran_for party words.now budget r table.old }
{
    let mut at = r;
    for _turn in 0..budget {
        let s = step_value(words, at, table, party);
        if stops_at(words, at, s) {
            return s;
        }
        at = s.runner;
    }
    Stepped {
        answer: Ok(0),
        runner: at,
    }
}
