// The civil calendar from 1988 to 2099: which wall times are valid, and the seconds from 1988-01-01 00:00:00 to and from them.
#![tactic(auto)]

ghost use Rattle.std.specs.Prelude.{◌≡◌, true, ◌+◌, ◌-◌, ◌*◌, ◌/◌, ◌<◌, ◌≤◌, get_or};
ghost use Rattle.calendar.specs.Calendar.{leap_flag, months_of, valid, total, before, years, days_of, seconds_of, last_second, date_of, instant_of, date_answer};

// The ticks into the second are no matter of the calendar: set clock alone takes them; `from_seconds` gives zero.
#[derive(Clone, Copy, Debug, PartialEq, Eq)]
pub struct WallTime {
    pub year: u32,
    pub month: u32,
    pub day: u32,
    pub hour: u32,
    pub minute: u32,
    pub second: u32,
    pub ticks: u32,
}

// The years of the calendar.
pub const FIRST_YEAR: u32 = 1988;

pub const LAST_YEAR: u32 = 2099;

// The second of 2099-12-31 23:59:59.
pub const LAST_SECOND: u32 = 3534451199;

const MONTHS: u32 = 12;

// The months' lengths, January first: of a common year, and of a leap year. (Two rows of twelve, as document 01 has them.)
const MONTH_LENGTHS: [[u8; 12]; 2] = [
    [31, 28, 31, 30, 31, 30, 31, 31, 30, 31, 30, 31],
    [31, 29, 31, 30, 31, 30, 31, 31, 30, 31, 30, 31],
];

// Every fourth year is leap, the first year among them, so that four years have one day more than four common years.
const LEAP_EVERY: u32 = 4;

const COMMON_YEAR_DAYS: u32 = 365;

const FOUR_YEARS_DAYS: u32 = 1461;

// The days of four years before the second, the third and the fourth of them.
const SECOND_YEAR: u32 = COMMON_YEAR_DAYS + 1;

const THIRD_YEAR: u32 = SECOND_YEAR + COMMON_YEAR_DAYS;

const FOURTH_YEAR: u32 = THIRD_YEAR + COMMON_YEAR_DAYS;

// February, January being month 0, and the days that it lacks of 30 in a common year.
const FEBRUARY: u32 = 1;

const FEBRUARY_LACKS: u32 = 2;

// Where months begin if February had 30 days, in sixteenths of a day: half a day for January, and as much more for each month as the last of these.
const SIXTEENTHS: u32 = 16;

const FIRST_SIXTEENTHS: u32 = 8;

const MONTH_SIXTEENTHS: u32 = 489;

// More days than a month has.
const MONTH_LIMIT: u32 = 32;

// A minute, an hour, a day and four years, in seconds.
const MINUTE: u32 = 60;

const HOUR: u32 = 3600;

const DAY: u32 = 86400;

const FOUR_YEARS: u32 = FOUR_YEARS_DAYS * DAY;

// The last hour of a day, minute of an hour and second of a minute.
const LAST_HOUR: u32 = 23;

const LAST_MINUTE: u32 = 59;

const LAST_OF_MINUTE: u32 = 59;

// The row of a year's months in `MONTH_LENGTHS`. (Here, in `month_length` and in `month_start` a conversion is a cast: `from` is a method, and
// `called` of proofs/Turns.antt counts a call of a method as a loop.)
fn leap_flag(year: u32) -> usize
    ensures { result ≡ leap_flag year }
{
    if year % LEAP_EVERY == 0 { 1 } else { 0 }
}

// The length of a month of a year, January being month 0.
#[tactic(auto, unfolding(crate::specs::Calendar::months_of))]
fn month_length(year: u32, month: u32) -> u32
    requires { month < 12 }
    ensures { result ≡ get_or (months_of year) month 0 }
{
    let leap = leap_flag(year);
    MONTH_LENGTHS[leap][month as usize] as u32
}

// Whether a wall time is a date and a time of the calendar.
#[tactic(auto, unfolding(crate::specs::Calendar::valid))]
pub fn is_valid(w: WallTime) -> bool
    ensures { result ≡ valid w }
{
    (FIRST_YEAR..=LAST_YEAR).contains(&w.year)
        && (1..=MONTHS).contains(&w.month)
        && 1 <= w.day
        && w.day <= month_length(w.year, w.month - 1)
        && w.hour <= LAST_HOUR
        && w.minute <= LAST_MINUTE
        && w.second <= LAST_OF_MINUTE
}

// The days before a year, 1988 being year 0: those of a common year for each, and one for each leap year.
#[tactic(auto, using(crate::proofs::Years::starts))]
fn days_before_year(year: u32) -> u32
    requires { year ≤ 112 }
    ensures { result ≡ before years year }
{
    let leap_years = (year + (LEAP_EVERY - 1)) / LEAP_EVERY;
    year * COMMON_YEAR_DAYS + leap_years
}

// The days of a year before one of its months, January being month 0.
#[tactic(auto, using(crate::proofs::Spans::spans, crate::proofs::Years::short))]
fn days_before_month(year: u32, month: u32) -> u32
    requires { month ≤ 12 }
    ensures { result ≡ before (months_of year) month }
{
    let mut days = 0;
    for m in 0..month {
        days += month_length(year, m);
    }
    days
}

// The days from 1988-01-01 to a valid wall time's day.
#[tactic(auto, using(crate::proofs::Validity::facts, crate::proofs::Found::within))]
fn day_number(w: WallTime) -> u32
    requires { valid w ≡ true }
    ensures { result ≡ days_of w }
{
    let year_start = days_before_year(w.year - FIRST_YEAR);
    let month_start = days_before_month(w.year, w.month - 1);
    year_start + month_start + (w.day - 1)
}

// The seconds from 1988-01-01 00:00:00 to a valid wall time.
#[tactic(auto, using(crate::proofs::Validity::facts, crate::proofs::Found::within), unfolding(crate::specs::Calendar::seconds_of))]
fn seconds_if_valid(w: WallTime) -> u32
    requires { valid w ≡ true }
    ensures { result ≡ seconds_of w }
{
    let midnight = day_number(w) * DAY;
    midnight + w.hour * HOUR + w.minute * MINUTE + w.second
}

// The seconds from 1988-01-01 00:00:00 to a wall time; `None` for one that is not valid.
pub fn to_seconds(w: WallTime) -> Option<u32>
    ensures { result ≡ instant_of w }
{
    is_valid(w).then(|| seconds_if_valid(w))
}

// A year of four and a day of it, both counted from 0.
#[derive(Clone, Copy, Debug, PartialEq, Eq)]
struct YearDay {
    year: u32,
    day: u32,
}

// The year and the day in it of a day of four years, the first of which is leap, all counted from 0.
#[tactic(auto, unfolding(crate::specs::Calendar::years))]
fn year_day(day: u32) -> YearDay
    requires { day < 1461 }
    ensures { (result.year < 4) × (day ≡ before years result.year + result.day) × (result.day < get_or years result.year 0) }
{
    if day < SECOND_YEAR {
        return YearDay { year: 0, day };
    }
    if day < THIRD_YEAR {
        return YearDay {
            year: 1,
            day: day - SECOND_YEAR,
        };
    }
    if day < FOURTH_YEAR {
        return YearDay {
            year: 2,
            day: day - THIRD_YEAR,
        };
    }
    YearDay {
        year: 3,
        day: day - FOURTH_YEAR,
    }
}

// The days of a year before one of its months, January being month 0: if February had 30 days, months would begin along a straight line.
#[tactic(auto, using(crate::proofs::Months::starts, crate::proofs::Years::leap))]
fn month_start(year: u32, month: u32) -> u32
    requires { month ≤ 12 }
    ensures { result ≡ before (months_of year) month }
{
    let on_line = (month * MONTH_SIXTEENTHS + FIRST_SIXTEENTHS) / SIXTEENTHS;
    if month <= FEBRUARY {
        return on_line;
    }
    let leap = leap_flag(year) as u32;
    on_line - (FEBRUARY_LACKS - leap)
}

// A day of a month, both counted from 0.
#[derive(Clone, Copy, Debug, PartialEq, Eq)]
struct MonthDay {
    month: u32,
    day: u32,
}

// The month and the day in it of a day of a year, all counted from 0. No month has 32 days, so the month is not before the day divided by 32,
// and at most one after it: the loop over the months' lengths turns once or not at all. (No `for`: `turns` beside its answers, for
// `at-most-16-turns`, is of this loop.)
fn month_day(year: u32, day: u32) -> MonthDay
    requires { day < total (months_of year) }
    ensures { (result.month < 12) × (result.day < get_or (months_of year) result.month 0) × (day ≡ before (months_of year) result.month + result.day) }
{
    let mut month = day / MONTH_LIMIT;
    let start = month_start(year, month);
    let mut left = day - start;
    loop {
        let length = month_length(year, month);
        if left < length {
            return MonthDay { month, day: left };
        }
        left -= length;
        month += 1;
    }
}

// The wall time of a second of the calendar. Divisions find the four years and the day of them, comparisons the year, so that no loop counts
// years: the only one is over months, in `month_day`.
fn date_in_range(s: u32) -> WallTime
    requires { s ≤ last_second }
    ensures { result ≡ date_of s }
{
    let fours = s / FOUR_YEARS;
    let second = s % FOUR_YEARS;
    let of_year = year_day(second / DAY);
    let year = FIRST_YEAR + (fours * LEAP_EVERY + of_year.year);
    let of_month = month_day(year, of_year.day);
    let month = of_month.month + 1;
    let date = of_month.day + 1;
    let time = second % DAY;
    WallTime {
        year,
        month,
        day: date,
        hour: time / HOUR,
        minute: time % HOUR / MINUTE,
        second: time % MINUTE,
        ticks: 0,
    }
}

// The wall time so many seconds after 1988-01-01 00:00:00; `None` after 2099-12-31 23:59:59. (No `then`, as in `to_seconds`: `turns_of` of
// proofs/Turns.antt would count its call as a loop.)
pub fn from_seconds(s: u32) -> Option<WallTime>
    ensures { result ≡ date_answer s }
{
    if LAST_SECOND < s {
        return None;
    }
    Some(date_in_range(s))
}
