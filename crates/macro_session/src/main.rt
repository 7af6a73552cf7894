// A day of macros: two libraries, macros by their names, and their steps through the record that the host lends, with a tick after each. Prints one
// line a step: status, answer, place and last status, in decimal, after the macro's name. The macro 7 is in both libraries, and the bench's own runs: it
// arms a guard, checks, cancels it, checks, and signs. The macro 8 of the shared library arms it twice in each of two turns, and waits for it. The macro
// 9 waits for a timer that is not there, and is stopped. The macro 6 arms one that is not there, and its check stops it. Nobody has the macro 5.
#![tactic(auto)]

ghost use Rattle.std.specs.Prelude.{◌≡◌, ◌+◌, ◌*◌, ◌≤◌, length};

use answers::{number_in, status_of};
use macro_library::ENTRY_HEAD;
use macro_record::Runner;
use macro_steps::{STEP_WORDS, StepKind};
use std::io;
use table::{ONE_PARTY, PARTY_1};

const SLOTS: u32 = 1;

const TICKS_PER_SECOND: u32 = 10;

// The words of a table and of a fired list for one slot.
const TABLE: usize = 18;

const LIST: usize = 3;

// The id of the one timer, and one that names none.
const GUARD: u32 = 0x12010001;

const NOBODY: u32 = 0x12010002;

// The words of the libraries: the bench's own has three macros with ten steps, the shared one two with nine.
const OWN: usize = 3 * ENTRY_HEAD + 10 * STEP_WORDS;

const SHARED: usize = 2 * ENTRY_HEAD + 9 * STEP_WORDS;

// The words of a step.
fn step(kind: StepKind, [a, b, c, d]: [u32; 4]) -> [u32; STEP_WORDS] {
    [kind.into(), a, b, c, d]
}

// A step goes into a library. Gives the place behind it.
fn put_step(library: &mut [u32], at: usize, step: [u32; STEP_WORDS]) -> usize
    requires { at + 5 ≤ length library.old }
    ensures { result ≡ at + 5 }
{
    let end = at + STEP_WORDS;
    library[at..end].copy_from_slice(&step);
    end
}

// A macro goes into a library: its name, the number of its steps, and the steps. Gives the place behind it.
fn put_macro<const N: usize>(
    library: &mut [u32],
    at: usize,
    name: u32,
    steps: [[u32; STEP_WORDS]; N],
) -> usize
    requires steps { N ≤ 256 }
    requires library { at + 2 + 5 * N ≤ length library.old }
    ensures { result ≡ at + 2 + 5 * N }
{
    library[at] = name;
    library[at + 1] = N as u32;
    let mut end = at + ENTRY_HEAD;
    for step in steps {
        end = put_step(library, end, step);
    }
    end
}

// The bench's own library: the macros 7, 6 and 9.
fn own_library() -> [u32; OWN] {
    let mut library = [0; OWN];
    let at = put_macro(
        &mut library,
        0,
        7,
        [
            step(StepKind::Arm, [GUARD, 9, 7, 70]),
            step(StepKind::Check, [0; 4]),
            step(StepKind::Cancel, [GUARD, 0, 0, 0]),
            step(StepKind::Check, [0; 4]),
            step(StepKind::Sign, [0; 4]),
        ],
    );
    let at = put_macro(
        &mut library,
        at,
        6,
        [
            step(StepKind::Arm, [NOBODY, 2, 7, 70]),
            step(StepKind::Check, [0; 4]),
            step(StepKind::Sign, [0; 4]),
        ],
    );
    put_macro(
        &mut library,
        at,
        9,
        [
            step(StepKind::Wait, [NOBODY, 0, 0, 0]),
            step(StepKind::Sign, [0; 4]),
        ],
    );
    library
}

// The shared library: a macro 7 that signs, and the macro 8.
fn shared_library() -> [u32; SHARED] {
    let mut library = [0; SHARED];
    let at = put_macro(&mut library, 0, 7, [step(StepKind::Sign, [0; 4])]);
    put_macro(
        &mut library,
        at,
        8,
        [
            step(StepKind::Repeat, [2, 0, 0, 0]),
            step(StepKind::Repeat, [2, 0, 0, 0]),
            step(StepKind::Arm, [GUARD, 3, 7, 71]),
            step(StepKind::Check, [0; 4]),
            step(StepKind::Wait, [GUARD, 0, 0, 0]),
            step(StepKind::End, [0; 4]),
            step(StepKind::End, [0; 4]),
            step(StepKind::Sign, [0; 4]),
        ],
    );
    library
}

// So many steps of a macro from a fresh record, which is lent for each, with a tick and a line after each.
fn run(rt: &impl Print, name: u32, words: &[u32], table: &mut [u32], steps: u32) -> io::Result<()> {
    let mut fired = [0u32; LIST];
    let mut r = Runner::default();
    for _ in 0..steps {
        let answer = macros::step(&mut r, words, table, PARTY_1);
        println!(rt;
            "{name} {} {} {} {}",
            status_of(answer),
            number_in(answer),
            r.place,
            r.last
        )?;
        let _ = clock::tick(table, &mut fired);
    }
    Ok(())
}

// The macros run, by their names.
fn run_all<'a>(
    rt: &impl Print,
    own: &'a [u32],
    shared: &'a [u32],
    table: &mut [u32],
) -> io::Result<()> {
    run(rt, 7, macro_library::look_up(own, shared, 7), table, 6)?;
    run(rt, 8, macro_library::look_up(own, shared, 8), table, 27)?;
    run(rt, 9, macro_library::look_up(own, shared, 9), table, 3)?;
    run(rt, 6, macro_library::look_up(own, shared, 6), table, 4)?;
    run(rt, 5, macro_library::look_up(own, shared, 5), table, 1)
}

fn main(rt: HostRuntime) -> io::Result<()> {
    let mut table = [0u32; TABLE];
    let _ = timer::lay_out(&mut table, SLOTS, TICKS_PER_SECOND, ONE_PARTY);
    let _ = timer::create(&mut table, PARTY_1, 1);
    let own = own_library();
    let shared = shared_library();
    run_all(&rt, &own, &shared, &mut table)
}
