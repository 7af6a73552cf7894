// The macro runner for C: the prototypes of include/heathcinder.h. A slice is a pointer and a length there, and ten words are a
// `struct hc_macro_record`. A check, a step and a run give their status as the result, and an answer goes through the last pointer; a search gives the
// number of the library. The contracts are the runner's own equations.
#![tactic(auto)]

ghost use Rattle.std.specs.Prelude.{◌≡◌, List, ℕ};
ghost use Rattle.macro_library.specs.Library.{found_in};
ghost use Rattle.macros.specs.Stepping.{stepped, took};
ghost use Rattle.macros.specs.Runs.{ran_for};
ghost use Rattle.macro_c.specs.Exports.{check_status, runner_in, words_of, exported_as, exported, located_at, located};

use answers::{number_in, status_of};
use macro_check::MOST_DEEP;
use macro_library::{Found, Stretch};
use macro_record::Runner;
use macros::Stepped;
use model::{SUCCESSFUL, Status};

// The libraries of a search. (Numbers and no enum: they are what hc_macro_find answers to C.)
const NOWHERE: u32 = 0;

const OWN: u32 = 1;

const SHARED: u32 = 2;

// The words of a `struct hc_macro_record`: the place, the counts, the last status.
const PLACE: usize = 0;

const COUNTS: usize = 1;

const LAST: usize = COUNTS + MOST_DEEP;

const RUN: usize = LAST + 1;

// The record of a `struct hc_macro_record`. (No `From`, here and below: neither type is of this crate. Count by count: by `copy_from_slice` hc_macro_step is
// 68 instructions and not 52.)
fn runner_in(run: &[u32; RUN]) -> Runner
    ensures { result ≡ runner_in run.now }
{
    Runner {
        place: run[PLACE],
        counts: [
            run[COUNTS],
            run[COUNTS + 1],
            run[COUNTS + 2],
            run[COUNTS + 3],
            run[COUNTS + 4],
            run[COUNTS + 5],
            run[COUNTS + 6],
            run[COUNTS + 7],
        ],
        last: run[LAST],
    }
}

// Its words.
fn words_of(r: Runner) -> [u32; RUN]
    ensures { result ≡ words_of r }
{
    let c = r.counts;
    [
        r.place, c[0], c[1], c[2], c[3], c[4], c[5], c[6], c[7], r.last,
    ]
}

// What came of a step or a run goes to C: the record's words, the answer, and as the result the status.
fn give(s: Stepped, run: &mut [u32; RUN], answer: &mut u32) -> u32
    ensures { (t : List ℕ) → exported_as result answer.new run.new t ≡ exported (took s.answer s.runner t) }
{
    *run = words_of(s.runner);
    *answer = number_in(s.answer);
    status_of(s.answer)
}

#[unsafe(no_mangle)]
pub extern "C" fn hc_macro_check(steps: &[u32]) -> u32
    ensures { result ≡ check_status steps.now }
{
    if macro_check::passes(steps) {
        return SUCCESSFUL;
    }
    Status::InvalidNumber.into()
}

#[unsafe(no_mangle)]
pub extern "C" fn hc_macro_step(
    table: &mut [u32],
    party: u32,
    steps: &[u32],
    run: &mut [u32; RUN],
    answer: &mut u32,
) -> u32
    ensures { exported_as result answer.new run.new table.new ≡ exported (stepped party steps.now (runner_in run.old) table.old) }
{
    let stepped = macros::step_value(steps, runner_in(run), table, party);
    give(stepped, run, answer)
}

#[unsafe(no_mangle)]
pub extern "C" fn hc_macro_run(
    table: &mut [u32],
    party: u32,
    steps: &[u32],
    run: &mut [u32; RUN],
    budget: u32,
    answer: &mut u32,
) -> u32
    ensures { exported_as result answer.new run.new table.new ≡ exported (ran_for party steps.now budget (runner_in run.old) table.old) }
{
    let ran = macros::run(steps, runner_in(run), table, party, budget);
    give(ran, run, answer)
}

#[unsafe(no_mangle)]
pub extern "C" fn hc_macro_find(
    own: &[u32],
    shared: &[u32],
    name: u32,
    offset: &mut usize,
    words: &mut usize,
) -> u32
    ensures { located_at result offset.new words.new ≡ located (found_in own.now shared.now name) }
{
    let (library, steps) = match macro_library::find(own, shared, name) {
        Some(Found::Own(steps)) => (OWN, steps),
        Some(Found::Shared(steps)) => (SHARED, steps),
        None => (NOWHERE, Stretch { start: 0, words: 0 }),
    };
    *offset = steps.start;
    *words = steps.words;
    library
}
