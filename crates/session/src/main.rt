// The session of document 01: two timers of a table of three wait for five ticks each, and fire together at the fifth. Prints one line a call:
// status, a space, answer, both in decimal.
#![tactic(auto)]

use answers::{number_in, status_of};
use model::Status;
use std::io;
use table::{ONE_PARTY, PARTY_1};

const SLOTS: u32 = 3;

const TICKS_PER_SECOND: u32 = 10;

// The words of a table and of a fired list for three slots.
const TABLE: usize = 34;

const LIST: usize = 9;

// Prints the line of an answer, and gives its number. (A `Display` would want a type of our own around each answer.)
fn line(rt: &impl Print, answer: Result<u32, Status>) -> io::Result<u32> {
    let number = number_in(answer);
    println!(rt; "{} {number}", status_of(answer))?;
    Ok(number)
}

// The two timers start: for 5 ticks each.
fn start_both(rt: &impl Print, table: &mut [u32]) -> io::Result<()> {
    line(
        rt,
        timer::lay_out(table, SLOTS, TICKS_PER_SECOND, ONE_PARTY),
    )?;
    let first = line(rt, timer::create(table, PARTY_1, 1))?;
    let second = line(rt, timer::create(table, PARTY_1, 2))?;
    line(rt, starts::fire_after(table, PARTY_1, first, 5, 7, 70))?;
    line(rt, starts::fire_after(table, PARTY_1, second, 5, 8, 80))?;
    Ok(())
}

fn main(rt: HostRuntime) -> io::Result<()> {
    let mut table = [0u32; TABLE];
    let mut fired = [0u32; LIST];
    start_both(&rt, &mut table)?;
    for _ in 0..5 {
        line(&rt, clock::tick(&mut table, &mut fired))?;
    }
    Ok(())
}
