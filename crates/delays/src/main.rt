// Delays at both sides of each edge of document 02, item 12: first conversions alone, then starts of a timer on a table of three slots with ten ticks in a
// second. Prints one line each: the delay, status and answer, and what became of the timer. `stdout` is written by hand from the document.
#![tactic(auto)]

use answers::{number_in, status_of};
use calendar::WallTime;
use delay::{Delay, seconds_to_ticks};
use delayed::fire_after_delay;
use model::Status;
use std::io;
use table::{CLOCK_SET, ONE_PARTY, PARTY_1, PARTY_2};

const SLOTS: u32 = 3;

const RATE: u32 = 10;

// Where there are two parties, party 2 has slot 3.
const SPLIT: u32 = 2;

// The words of a table and of a fired list for three slots.
const TABLE: usize = 34;

const LIST: usize = 9;

// The id of slot 1, one that names no timer, and the id of slot 3. (Ids are numbers: document 01 says which.)
const TIMER: u32 = 302055425;

const NO_TIMER: u32 = TIMER + 1;

const OTHERS_TIMER: u32 = TIMER + 2;

// So many seconds into 2000, with a ticks field.
fn second(number: u32, ticks: u32) -> WallTime {
    WallTime {
        year: 2000,
        month: 1,
        day: 1,
        hour: 0,
        minute: 0,
        second: number,
        ticks,
    }
}

// Prints what was asked for, status and answer. (A `Display` would want a type of our own around each answer.)
fn show(rt: &impl Print, label: &str, answer: Result<u32, Status>) -> io::Result<()> {
    print!(rt; "{label}: {} {}", status_of(answer), number_in(answer))
}

fn convert(rt: &impl Print, label: &str, seconds: f64, rate: u32) -> io::Result<()> {
    show(rt, label, seconds_to_ticks(seconds, rate))?;
    println!(rt)
}

// Numbers that are a whole number of ticks, that are not, and whose nearest binary64 number lies above or below them.
fn conversions(rt: &impl Print) -> io::Result<()> {
    convert(rt, "1.5 s, T 10", 1.5, 10)?;
    convert(rt, "1.25 s, T 10", 1.25, 10)?;
    convert(rt, "0.1 s, T 10", 0.1, 10)?;
    convert(rt, "0.1 s, T 1000", 0.1, 1000)?;
    convert(rt, "0.3 s, T 10", 0.3, 10)?;
    convert(rt, "1 s, T 1", 1.0, 1)?;
    convert(rt, "1 s, T 1000", 1.0, 1000)?;
    convert(rt, "the next above 1 s, T 1000", 1.0000000000000002, 1000)?;
    convert(rt, "the smallest above 0, T 1000", 5e-324, 1000)?;
    convert(rt, "0, T 1000", 0.0, 1000)?;
    convert(rt, "-0, T 1000", -0.0, 1000)?;
    convert(rt, "4294967295 s, T 1", 4294967295.0, 1)?;
    convert(rt, "4294967.295 s, T 1000", 4294967.295, 1000)
}

fn refused_conversions(rt: &impl Print) -> io::Result<()> {
    let infinity = 1e300 * 1e300;
    convert(
        rt,
        "the next above 4294967295 s, T 1",
        4294967295.0000005,
        1,
    )?;
    convert(
        rt,
        "the next above 4294967.295 s, T 1000",
        4294967.295000001,
        1000,
    )?;
    convert(rt, "the largest number, T 1", 1.7976931348623157e308, 1)?;
    convert(rt, "the smallest below 0, T 1000", -5e-324, 1000)?;
    convert(rt, "infinity, T 10", infinity, 10)?;
    convert(rt, "-infinity, T 10", -infinity, 10)?;
    convert(rt, "not a number, T 10", 0.0 / 0.0, 10)?;
    convert(rt, "1 s, T 0", 1.0, 0)?;
    convert(rt, "1 s, T 1001", 1.0, 1001)
}

// Prints the ticks that a party's timer has left.
fn show_left(rt: &impl Print, table: &[u32], party: u32, id: u32) -> io::Result<()> {
    println!(rt; ", left {}", number_in(timer::ticks_left(table, party, id)))
}

// What a party asks for: a start of a timer.
#[derive(Clone, Copy, Debug, PartialEq)]
struct Request {
    party: u32,
    id: u32,
    delay: Delay,
    routine: u32,
}

// Party 1 starts its timer.
fn own(delay: Delay) -> Request {
    Request {
        party: PARTY_1,
        id: TIMER,
        delay,
        routine: 7,
    }
}

// A table where a party has a timer, the first in its slots.
fn with_timer(split: u32, party: u32) -> [u32; TABLE] {
    let mut table = [0u32; TABLE];
    let _ = timer::lay_out(&mut table, SLOTS, RATE, split);
    let _ = timer::create(&mut table, party, 1);
    table
}

// A table of one party, whose timer waits for nine ticks.
fn waiting() -> [u32; TABLE] {
    let mut table = with_timer(ONE_PARTY, PARTY_1);
    let _ = ask(&mut table, own(Delay::Ticks(9)));
    table
}

fn ask(table: &mut [u32], request: Request) -> Result<u32, Status> {
    fire_after_delay(
        table,
        request.party,
        request.id,
        request.delay,
        request.routine,
        70,
    )
}

// Starts a timer that waits for nine ticks.
fn start_as(rt: &impl Print, label: &str, request: Request) -> io::Result<()> {
    let mut table = waiting();
    show(rt, label, ask(&mut table, request))?;
    show_left(rt, &table, PARTY_1, TIMER)
}

// (Here and below rt and label go through as they are: a struct of both would be made anew for each line.)
fn start(rt: &impl Print, label: &str, delay: Delay) -> io::Result<()> {
    start_as(rt, label, own(delay))
}

// Ten ticks are a second. A start that is refused leaves the timer waiting for the ticks that it had.
fn starts_for_ticks(rt: &impl Print) -> io::Result<()> {
    start(rt, "start, 1.5 s", Delay::Seconds(1.5))?;
    start(rt, "start, 0.1 s", Delay::Seconds(0.1))?;
    start(rt, "start, 15 ticks", Delay::Ticks(15))?;
    start(rt, "start, 4294967295 ticks", Delay::Ticks(4294967295))?;
    start(rt, "start, 429496729.5 s", Delay::Seconds(429496729.5))?;
    start(rt, "start, 429496729.6 s", Delay::Seconds(429496729.6))?;
    start(rt, "start, 0", Delay::Seconds(0.0))?;
    start(rt, "start, -0", Delay::Seconds(-0.0))?;
    start(rt, "start, 0 ticks", Delay::Ticks(0))?;
    start(rt, "start, not a number", Delay::Seconds(0.0 / 0.0))?;
    let no_timer = Request {
        id: NO_TIMER,
        ..own(Delay::Seconds(1.5))
    };
    start_as(
        rt,
        "start, not a number, routine 0, no timer",
        Request {
            delay: Delay::Seconds(0.0 / 0.0),
            routine: 0,
            ..no_timer
        },
    )?;
    start_as(
        rt,
        "start, 1.5 s, routine 0, no timer",
        Request {
            routine: 0,
            ..no_timer
        },
    )?;
    start_as(rt, "start, 1.5 s, no timer", no_timer)?;
    start(rt, "start, date, clock not set", Delay::Date(second(1, 0)))
}

// A table that is not sound is refused before the number of seconds is. Its timer waits for nine ticks, and with its word mended waits for them still.
fn start_unsound(rt: &impl Print, label: &str, delay: Delay) -> io::Result<()> {
    let mut table = waiting();
    table[CLOCK_SET] = 2;
    show(rt, label, ask(&mut table, own(delay)))?;
    table[CLOCK_SET] = 0;
    show_left(rt, &table, PARTY_1, TIMER)
}

// Starts party 2's timer as the party that is given.
fn start_others(rt: &impl Print, label: &str, party: u32) -> io::Result<()> {
    let mut table = with_timer(SPLIT, PARTY_2);
    let request = Request {
        party,
        id: OTHERS_TIMER,
        ..own(Delay::Seconds(1.5))
    };
    show(rt, label, ask(&mut table, request))?;
    show_left(rt, &table, PARTY_2, OTHERS_TIMER)
}

// A date is as by fire when. Prints also how many ticks pass until the timer fires, of a thousand.
fn start_from_second_0(rt: &impl Print, label: &str, delay: Delay) -> io::Result<()> {
    let mut table = with_timer(ONE_PARTY, PARTY_1);
    let mut fired = [0u32; LIST];
    let _ = clock::set_clock(&mut table, second(0, 0), &mut fired);
    show(rt, label, ask(&mut table, own(delay)))?;
    let ticks = match clock::leap(&mut table, 1000, &mut fired) {
        Ok(progress) => progress.done,
        Err(_) => 0,
    };
    println!(rt; ", ticks {ticks}")
}

fn main(rt: HostRuntime) -> io::Result<()> {
    conversions(&rt)?;
    refused_conversions(&rt)?;
    starts_for_ticks(&rt)?;
    start_unsound(
        &rt,
        "start, not a number, table not sound",
        Delay::Seconds(0.0 / 0.0),
    )?;
    start_unsound(&rt, "start, 1.5 s, table not sound", Delay::Seconds(1.5))?;
    start_others(&rt, "start, 1.5 s, party 2", PARTY_2)?;
    start_others(&rt, "start, 1.5 s, party 1, party 2's timer", PARTY_1)?;
    let second_party = Request {
        party: PARTY_2,
        ..own(Delay::Seconds(1.5))
    };
    start_as(
        &rt,
        "start, not a number, party 2 of one",
        Request {
            delay: Delay::Seconds(0.0 / 0.0),
            ..second_party
        },
    )?;
    start_as(&rt, "start, 1.5 s, party 2 of one", second_party)?;
    start_from_second_0(
        &rt,
        "start, date, the present second",
        Delay::Date(second(0, 0)),
    )?;
    start_from_second_0(
        &rt,
        "start, date, a second later",
        Delay::Date(second(1, 0)),
    )?;
    start_from_second_0(
        &rt,
        "start, date, a second later, 99 ticks",
        Delay::Date(second(1, 99)),
    )?;
    start_from_second_0(&rt, "start, 1 s", Delay::Seconds(1.0))
}
