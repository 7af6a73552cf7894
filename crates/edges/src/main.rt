// Runs the cases of document 01 and of the requests that stand in `stdin`, one a line: a label, a bar, and the words of a step in decimal, its number
// first and then its arguments. Prints the label, then status and answer. A line without a bar says which sentences the cases below it are of, and is
// copied. `stdout` is written by hand from the documents. A new case is a line of both files; a new call is a number and an arm.
#![tactic(auto)]

ghost use Rattle.std.specs.Prelude.{◌≤◌, length, IfOk};

use answers::{Progress, Setting};
use calendar::WallTime;
use clock::*;
use model::{SUCCESSFUL, Status};
use recording::CallNumber;
use server::*;
use starts::*;
use std::io::Read;
use std::{fmt, io};
use table::{PARTY_1, SLOT_COUNT, TICKS_PER_SECOND};
use timer::*;

// The words of a table and of a list for three slots.
const TABLE: usize = 34;

const LIST: usize = 9;

const MOST: u32 = 4294967295;

// The bytes that there is room for in `stdin`.
const TEXT: usize = 163840;

// What a step is, by its number.
#[derive(Clone, Copy, Debug, PartialEq, Eq)]
enum Action {
    Nothing,
    LayOut,
    Call(CallNumber),
    // so many words of the list are printed; a word of the table becomes a number; another party calls
    PrintList,
    ChangeWord,
    Caller,
    // a call that is lent a word too few for three slots, 33 of the table or 8 of the list
    ShortLayOut,
    ShortCall(CallNumber),
    Unknown,
}

// A step: the words behind its number, which are zero where a line leaves them out.
#[derive(Clone, Copy, Debug, PartialEq, Eq)]
struct Step {
    action: Action,
    a: u32,
    b: u32,
    c: u32,
    d: u32,
    e: u32,
}

// Lay out is step 1, and crate `recording` numbers the other calls; their arguments come in the order of `model`. A call that is lent a word too few has
// 100 more. A wall time is two words: 20000229 235959 is the last second of 2000-02-29; set clock has its ticks as a third, 0 where it is left out. Serve
// has the word from which on it is lent the list: 6 lends it three words of the nine, 7 two, 9 none. Lay out has L as its third, 0 where it is left out.
// The caller is party 1 until a step says another.
fn action_of(number: u32) -> Action {
    if let Ok(call) = CallNumber::try_from(number) {
        return Action::Call(call);
    }
    if let Ok(call) = CallNumber::try_from(number.wrapping_sub(100)) {
        return Action::ShortCall(call);
    }
    match number {
        0 => Action::Nothing,
        1 => Action::LayOut,
        50 => Action::PrintList,
        51 => Action::ChangeWord,
        52 => Action::Caller,
        101 => Action::ShortLayOut,
        _ => Action::Unknown,
    }
}

// Numbers with a space before each.
#[derive(Clone, Copy, Debug, PartialEq, Eq)]
struct Numbers<'n>(&'n [i64]);

impl<'n> fmt::Display for Numbers<'n> {
    fn fmt<W: fmt::Write>(&self, f: &mut fmt::Formatter<W>) -> fmt::Result {
        for number in self.0 {
            write!(f, " {number}")?;
        }
        Ok(())
    }
}

// Prints status and answer, whose numbers are zeros where it is refused. (All of it in one write.)
fn show<const N: usize>(rt: &impl Print, answer: Result<[i64; N], Status>) -> io::Result<()> {
    let (status, numbers) = match answer {
        Ok(numbers) => (SUCCESSFUL, numbers),
        Err(refusal) => (u32::from(refusal), [0; N]),
    };
    print!(rt; " {status}{}", Numbers(&numbers))
}

// The same of two numbers, the second by a write of its own.
fn show_two(rt: &impl Print, answer: Result<[i64; 2], Status>) -> io::Result<()> {
    show(rt, answer.map(|numbers| [numbers[0]]))?;
    let second = answer.map_or(0, |numbers| numbers[1]);
    print!(rt; " {second}")
}

// An answer of one number. (The next three differ from it in the fields that they read.)
fn one(answer: Result<u32, Status>) -> Result<[i64; 1], Status> {
    answer.map(|number| [i64::from(number)])
}

// What set clock answers: how many timers fired, and how far the clock moved.
fn setting(answer: Result<Setting, Status>) -> Result<[i64; 2], Status> {
    answer.map(|s| [i64::from(s.fired), s.moved])
}

// What leap answers: how many timers fired, and the ticks done.
fn progress(answer: Result<Progress, Status>) -> Result<[i64; 2], Status> {
    answer.map(|p| [i64::from(p.fired), i64::from(p.done)])
}

// What get clock answers.
fn reading(answer: Result<WallTime, Status>) -> Result<[i64; 7], Status> {
    answer.map(|w| {
        [
            i64::from(w.year),
            i64::from(w.month),
            i64::from(w.day),
            i64::from(w.hour),
            i64::from(w.minute),
            i64::from(w.second),
            i64::from(w.ticks),
        ]
    })
}

// The wall time whose date and time of day have these decimal digits.
fn wall_time(date: u32, time: u32, ticks: u32) -> WallTime {
    WallTime {
        year: date / 10000,
        month: date / 100 % 100,
        day: date % 100,
        hour: time / 10000,
        minute: time / 100 % 100,
        second: time % 100,
        ticks,
    }
}

// Prints so many words of the list.
fn print_list(rt: &impl Print, list: &[u32; LIST], count: u32) -> io::Result<()> {
    for word in list.iter().take(count as usize) {
        print!(rt; " {word}")?;
    }
    Ok(())
}

// Serves, with the list lent from a word on. A word past its end is no step's.
fn serve_from(
    table: &mut [u32; TABLE],
    party: u32,
    list: &mut [u32; LIST],
    word: u32,
) -> Result<u32, Status> {
    match list.get_mut(word as usize..) {
        Some(lent) => serve(table, party, lent),
        None => Ok(MOST),
    }
}

// Makes a call that answers one number. The ticks of a fire when's wall time are not zero, and do not count. Any other call is no step's.
fn call(
    call: CallNumber,
    step: Step,
    party: u32,
    table: &mut [u32; TABLE],
    list: &mut [u32; LIST],
) -> Result<u32, Status> {
    let Step { a, b, c, d, e, .. } = step;
    match call {
        CallNumber::Create => create(table, party, a),
        CallNumber::Ident => ident(table, party, a),
        CallNumber::Cancel => cancel(table, party, a),
        CallNumber::Delete => delete(table, party, a),
        CallNumber::FireAfter => fire_after(table, party, a, b, c, d),
        CallNumber::FireWhen => fire_when(table, party, a, wall_time(b, c, MOST), d, e),
        CallNumber::FireEvery => fire_every(table, party, a, b, c, d),
        CallNumber::Reset => reset(table, party, a),
        CallNumber::TicksLeft => ticks_left(table, party, a),
        CallNumber::Tick => tick(table, list),
        CallNumber::NextDue => next_due::next_due(table),
        CallNumber::InitiateServer => initiate_server(table),
        CallNumber::ServerFireAfter => server_fire_after(table, party, a, b, c, d),
        CallNumber::ServerFireWhen => {
            server_fire_when(table, party, a, wall_time(b, c, MOST), d, e)
        }
        CallNumber::Serve => serve_from(table, party, list, a),
        CallNumber::SetClock | CallNumber::GetClock | CallNumber::Leap => Ok(MOST),
    }
}

// Takes a step and prints what comes of it.
fn play(
    rt: &impl Print,
    step: Step,
    party: u32,
    table: &mut [u32; TABLE],
    list: &mut [u32; LIST],
) -> io::Result<()> {
    let Step { a, b, c, .. } = step;
    let mut short = [0u32; LIST - 1];
    let mut cut = [0u32; TABLE - 1];
    cut[SLOT_COUNT] = 3;
    cut[TICKS_PER_SECOND] = 10;
    match step.action {
        Action::Nothing => Ok(()),
        Action::LayOut => show(rt, one(lay_out(table, a, b, c))),
        Action::Call(CallNumber::SetClock) => {
            show_two(rt, setting(set_clock(table, wall_time(a, b, c), list)))
        }
        Action::Call(CallNumber::GetClock) => show(rt, reading(get_clock(table))),
        Action::Call(CallNumber::Leap) => show_two(rt, progress(leap(table, a, list))),
        Action::Call(number) => show(rt, one(call(number, step, party, table, list))),
        Action::PrintList => print_list(rt, list, a),
        Action::ChangeWord => {
            table[a as usize % TABLE] = b;
            show(rt, one(Ok(b)))
        }
        Action::Caller => show(rt, one(Ok(a))),
        Action::ShortLayOut => show(rt, one(lay_out(&mut cut, a, b, c))),
        Action::ShortCall(CallNumber::Create) => show(rt, one(create(&mut cut, party, a))),
        Action::ShortCall(CallNumber::NextDue) => show(rt, one(next_due::next_due(&cut))),
        Action::ShortCall(CallNumber::Tick) => show(rt, one(tick(table, &mut short))),
        Action::ShortCall(CallNumber::SetClock) => {
            show_two(
                rt,
                setting(set_clock(table, wall_time(a, b, c), &mut short)),
            )
        }
        Action::ShortCall(CallNumber::Leap) => show_two(rt, progress(leap(table, a, &mut short))),
        Action::ShortCall(_) | Action::Unknown => show(rt, one(Ok(MOST))),
    }
}

// A number with a decimal digit more, in ASCII. What is past 32 bits is lost.
fn with_digit(number: u32, digit: u8) -> u32 {
    number.wrapping_mul(10).wrapping_add(u32::from(digit % 16))
}

// The number of a word.
fn number_of(word: &[u8]) -> u32 {
    word.iter()
        .fold(0, |number, digit| with_digit(number, *digit))
}

// The number that stands so many spaces behind the bar; 0 where none does.
fn word(step: &[u8], spaces: usize) -> u32 {
    step.split(|byte| *byte == b' ')
        .nth(spaces)
        .map_or(0, number_of)
}

// Copies a line up to its bar, and reads the step behind it.
fn step_of(rt: &impl Print, line: &[u8]) -> io::Result<Step> {
    let bar = line
        .iter()
        .position(|byte| *byte == b'|')
        .unwrap_or(line.len());
    let (label, step) = line.split_at(bar);
    rt.write_all(label)?;
    Ok(Step {
        action: action_of(word(step, 1)),
        a: word(step, 2),
        b: word(step, 3),
        c: word(step, 4),
        d: word(step, 5),
        e: word(step, 6),
    })
}

// Who calls after a step.
fn caller_after(step: Step, party: u32) -> u32 {
    match step.action {
        Action::Caller => step.a,
        _ => party,
    }
}

// No line begins before the second of two bytes.
fn goes_on(_before: &u8, byte: &u8) -> bool {
    *byte != b'\n'
}

// Runs the lines of a text, each with the newline before it, which is written with its label.
fn run(rt: &impl Print, text: &[u8]) -> io::Result<()> {
    let mut table = [0u32; TABLE];
    let mut list = [0u32; LIST];
    let mut party = PARTY_1;
    for line in text.chunk_by(goes_on) {
        let step = step_of(rt, line)?;
        party = caller_after(step, party);
        play(rt, step, party, &mut table, &mut list)?;
    }
    Ok(())
}

// Reads until the buffer is full or the input at its end, and gives how many bytes there were. (Each turn goes on by as many as came, so it is no `for`; std's
// `read_to_end` is of a Vec, on a heap; `replay` has its own, since no library here reads.)
fn read_full(reader: &mut impl Read, buffer: &mut [u8]) -> io::Result<usize>
    ensures { IfOk result (λ n. n ≤ length buffer.new) }
{
    let mut n = 0;
    while n < buffer.len() {
        let count = reader.read(&mut buffer[n..])?;
        if count == 0 {
            return Ok(n);
        }
        n += count;
    }
    Ok(n)
}

fn main(rt: HostRuntime) -> io::Result<()> {
    let mut text = [0u8; TEXT];
    let n = read_full(&mut rt.reader(), &mut text)?;
    run(&rt, &text[..n])
}
