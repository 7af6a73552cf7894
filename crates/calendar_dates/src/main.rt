// Prints the dates of seconds and the seconds of dates over the whole calendar, to be compared with another calendar's (tests/calendar_expected.py).
#![tactic(auto)]

ghost use Rattle.std.specs.Prelude.{◌<◌};

use calendar::{FIRST_YEAR, LAST_SECOND, LAST_YEAR, WallTime};
use std::{fmt, io};

const MOST: u32 = u32::MAX;

// The calendar's days, and a day's seconds.
const DAYS: u32 = 40908;

const DAY: u32 = 86400;

// A prime, so that times of day vary.
const STRIDE: u32 = 7919;

// Both sides of the calendar's edges, and numbers far outside it: seconds, and the numbers of dates.
const EDGE_SECONDS: [u32; 4] = [0, LAST_SECOND, LAST_SECOND + 1, MOST];

const EDGE_DATES: [[u32; 6]; 19] = [
    [1987, 12, 31, 23, 59, 59],
    [1988, 1, 1, 0, 0, 0],
    [2099, 12, 31, 23, 59, 59],
    [2100, 1, 1, 0, 0, 0],
    [2000, 0, 1, 0, 0, 0],
    [2000, 13, 1, 0, 0, 0],
    [2000, 1, 0, 0, 0, 0],
    [2000, 1, 32, 0, 0, 0],
    [2000, 2, 29, 0, 0, 0],
    [2000, 2, 30, 0, 0, 0],
    [2001, 2, 29, 0, 0, 0],
    [2001, 4, 31, 0, 0, 0],
    [2001, 1, 1, 24, 0, 0],
    [2001, 1, 1, 0, 60, 0],
    [2001, 1, 1, 0, 0, 60],
    [MOST, 1, 1, 0, 0, 0],
    [2001, MOST, 1, 0, 0, 0],
    [2001, 1, MOST, 0, 0, 0],
    [2001, 1, 1, MOST, MOST, MOST],
];

// A date as the lines have it: its year, month, day, hour, minute and second.
#[derive(Clone, Copy, Debug, PartialEq, Eq)]
struct Date(WallTime);

impl Date {
    fn of([year, month, day, hour, minute, second]: [u32; 6]) -> Date {
        Date(WallTime {
            year,
            month,
            day,
            hour,
            minute,
            second,
            ticks: 0,
        })
    }
}

impl fmt::Display for Date {
    fn fmt<W: fmt::Write>(&self, f: &mut fmt::Formatter<W>) -> fmt::Result {
        let w = self.0;
        write!(
            f,
            "{} {} {} {} {} {}",
            w.year, w.month, w.day, w.hour, w.minute, w.second
        )
    }
}

// A line: a second, and its date.
fn second_line(rt: &impl Print, s: u32) -> io::Result<()> {
    match calendar::from_seconds(s) {
        Some(w) => println!(rt; "{s} {}", Date(w)),
        None => println!(rt; "{s} past"),
    }
}

// A column: a date's seconds. Its ticks are not zero, and do not count.
fn column(rt: &impl Print, w: WallTime) -> io::Result<()> {
    match calendar::to_seconds(WallTime { ticks: 9, ..w }) {
        Some(s) => print!(rt; " {s}"),
        None => print!(rt; " -"),
    }
}

// The seconds of every third day of a month, from the second to the 26th, at various times.
fn middle_columns(rt: &impl Print, first: WallTime) -> io::Result<()> {
    for third in 0..9 {
        let day = 2 + 3 * third;
        let w = WallTime {
            day,
            hour: (first.month % 24 + day) % 24,
            minute: (first.year % 60 + day) % 60,
            second: (first.month % 60 + day * 7) % 60,
            ..first
        };
        column(rt, w)?;
    }
    Ok(())
}

// A line: a year, a month, and the seconds of its first day at 00:00:00, of days between, and of days 28 to 31 at 23:59:59.
fn month_line(rt: &impl Print, first: WallTime) -> io::Result<()> {
    print!(rt; "{} {}", first.year, first.month)?;
    column(rt, first)?;
    middle_columns(rt, first)?;
    for day in 28..32 {
        let w = WallTime {
            day,
            hour: 23,
            minute: 59,
            second: 59,
            ..first
        };
        column(rt, w)?;
    }
    println!(rt)
}

// A line: the last second of the month before.
fn month_end_line(rt: &impl Print, first: WallTime) -> io::Result<()> {
    match calendar::to_seconds(first) {
        Some(s) if 0 < s => second_line(rt, s - 1),
        _ => Ok(()),
    }
}

// A line: a date, and its seconds or that it has none.
fn date_line(rt: &impl Print, date: Date) -> io::Result<()> {
    print!(rt; "{date}")?;
    column(rt, date.0)?;
    println!(rt)
}

fn months_of(rt: &impl Print, year: u32) -> io::Result<()> {
    for month in 1..13 {
        let Date(first) = Date::of([year, month, 1, 0, 0, 0]);
        month_line(rt, first)?;
        month_end_line(rt, first)?;
    }
    Ok(())
}

fn edges(rt: &impl Print) -> io::Result<()> {
    for s in EDGE_SECONDS {
        second_line(rt, s)?;
    }
    for numbers in EDGE_DATES {
        date_line(rt, Date::of(numbers))?;
    }
    Ok(())
}

// A line: a second of a day of the calendar. Of nine days one is taken at 00:00:00, one at 23:59:59, the others at various times.
fn day_line(rt: &impl Print, day: u32) -> io::Result<()>
    requires { day < 40908 }
{
    let time = match day % 9 {
        0 => 0,
        3 => DAY - 1,
        _ => day * STRIDE % DAY,
    };
    second_line(rt, day * DAY + time)
}

fn third_days(rt: &impl Print) -> io::Result<()> {
    for third in 0..DAYS / 3 {
        day_line(rt, 3 * third)?;
    }
    Ok(())
}

fn main(rt: HostRuntime) -> io::Result<()> {
    third_days(&rt)?;
    for year in FIRST_YEAR..=LAST_YEAR {
        months_of(&rt, year)?;
    }
    edges(&rt)
}
