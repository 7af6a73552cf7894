// Delays as people write them, document 02, item 12: so many ticks, seconds as a binary64 number, or a date. Seconds become ticks exactly, from the
// number's bits. Every number and every T is answered: specs/Seconds.antt says what.
#![tactic(auto)]

ghost use Rattle.std.specs.Prelude.{◌≡◌, ◌<◌, ◌≤◌, ◌*◌, ◌^◌};
ghost use Rattle.std.specs.Float.{binary64};
ghost use Rattle.std.specs.Float.Ieee.{of_bits};
ghost use Rattle.delay.specs.Seconds.{conversion_of, ticks_of_fraction, ticks_of_value, converted};
ghost use Rattle.delay.specs.Exact.{Exact};

use calendar::WallTime;
use model::Status;
use table::MOST_RATE;

// How long until a timer fires: so many ticks, seconds, or until a date.
#[derive(Clone, Copy, Debug, PartialEq)]
pub enum Delay {
    Ticks(u32),
    Seconds(f64),
    Date(WallTime),
}

// The most ticks that a timer can wait for.
const MOST_TICKS: u64 = 4294967295;

// A binary64 number is a sign, 11 bits of exponent and 52 of significand: the sign bit, the lowest bit of the exponent, how many exponents there are.
const SIGN: u64 = 0x8000000000000000;

const EXPONENT: u64 = 0x10000000000000;

const EXPONENTS: u64 = 0x800;

// The leading digit of a significand, which the bits leave out unless the exponent is 0.
const LEADING: u64 = 0x10000000000000;

// The exponent of infinities and of what is not a number.
const SPECIAL: u64 = 0x7ff;

// The smallest number above zero is 2 to the power of minus this.
const PLACES: u64 = 1074;

// The bits of a significand times T, at most.
const PRODUCT_BITS: u64 = 63;

// The ticks of digits * 2 ^ (scale - PLACES) seconds, with a sign. Where the point stands further left than the product has bits, that is less than a tick.
// (T's bounds stand here and in `ticks_of_bits` alone: a type for T would take more lines than it saves.)
fn ticks_of_fraction(negative: bool, digits: u64, scale: u64, rate: u32) -> Result<u32, Status>
    requires { (digits < 2 ^ 53) × (rate ≤ 1000) × (1 ≤ rate) × (0 < scale → 2 ^ 52 ≤ digits) }
    ensures { conversion_of result ≡ ticks_of_fraction negative (digits * 2 ^ scale) (2 ^ 1074) rate }
{
    if digits == 0 {
        return Ok(0);
    }
    if negative {
        return Err(Status::InvalidNumber);
    }
    if PLACES < scale {
        return Err(Status::InvalidNumber);
    }
    let shift = PLACES - scale;
    if PRODUCT_BITS < shift {
        return Ok(1);
    }
    let product = digits * u64::from(rate);
    let ticks = ((product - 1) >> shift) + 1;
    // (by `try_from` hc_seconds_to_ticks takes 62 instructions for 57)
    if MOST_TICKS < ticks {
        return Err(Status::InvalidNumber);
    }
    Ok(ticks as u32)
}

// The ticks of the number that has these bits.
fn ticks_of_bits(bits: u64, rate: u32) -> Result<u32, Status>
    requires { (rate ≤ 1000) × (1 ≤ rate) }
    ensures { conversion_of result ≡ ticks_of_value (of_bits binary64 bits) rate }
{
    let negative = SIGN <= bits;
    let exponent = bits / EXPONENT % EXPONENTS;
    let significand = bits % EXPONENT;
    if exponent == SPECIAL {
        return Err(Status::InvalidNumber);
    }
    if exponent == 0 {
        return ticks_of_fraction(negative, significand, 0, rate);
    }
    ticks_of_fraction(negative, LEADING + significand, exponent - 1, rate)
}

// The smallest whole number of ticks not below so many seconds, at `rate` ticks in a second.
pub fn seconds_to_ticks(seconds: f64, rate: u32) -> Result<u32, Status>
    ensures outcome { conversion_of result ≡ converted seconds rate }
    ensures exact { Exact seconds rate (conversion_of result) }
{
    // (by `contains` these two tests leave their answers a test of a range to take apart)
    if rate < 1 {
        return Err(Status::InvalidNumber);
    }
    if MOST_RATE < rate {
        return Err(Status::InvalidNumber);
    }
    // what is not a number has no one pattern of bits to ask for
    if seconds.is_nan() {
        return Err(Status::InvalidNumber);
    }
    ticks_of_bits(seconds.to_bits(), rate)
}
