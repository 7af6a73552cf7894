// The reader of recordings: bytes that hold the calls of a day and the status expected of each. A recording is a file of 32-bit words;
// specs/Format.antt says what each has to be. The reader takes any bytes.
#![tactic(auto)]

ghost use Rattle.std.specs.Prelude.{◌≡◌, true, ◌&&◌, [], ◌∷◌, ◌+◌, ◌-◌, ◌<◌, ◌≤◌, length, get_or, drop, replicate, ltb};
ghost use Rattle.recording.specs.Format.{words_of, within, exactly, arguments, call_rules, calls_rules, right, refused_at, reading, given};

use table::{MOST_RATE, MOST_SLOTS};

mod call_number;

pub use call_number::{CallNumber, UnknownCall};

// What a recording says of itself: N, T and the number of its calls.
#[derive(Clone, Copy, Debug, PartialEq, Eq)]
pub struct Recording {
    pub slots: u32,
    pub rate: u32,
    pub calls: u32,
}

// Why bytes hold no recording: the word at this position is the first that is wrong, missing, partial or surplus.
#[derive(Clone, Copy, Debug, PartialEq, Eq)]
pub struct WrongWord {
    pub position: u32,
}

// The bytes of a word.
pub const WORD: usize = 4;

// The words of the file: the count of the numbers, those, the count of the calls, the calls, that count again, the statuses.
pub const NUMBERS: usize = 0;

pub const SLOTS: usize = 1;

pub const RATE: usize = 2;

pub const CALLS: usize = 3;

// The words before the calls, and those of a call.
pub const FRONT: usize = 4;

pub const CALL_WORDS: usize = 11;

pub const NUMBERS_COUNT: u32 = 2;

pub const MOST_CALLS: u32 = 1000;

// The number of whole words.
fn words(bytes: &[u8]) -> usize
    ensures { result ≡ length (words_of bytes.now) }
{
    bytes.len() / WORD
}

// The word at a position, from 0; 0 where there is none. (No Option: `get_or` of its clause gives 0 too, and no call's number and no N is 0.)
#[tactic(auto, using(crate::proofs::ByteWords::lengths))]
pub fn word_at(bytes: &[u8], position: usize) -> u32
    ensures { result ≡ get_or (words_of bytes.now) position 0 }
{
    if words(bytes) <= position {
        return 0;
    }
    let at = WORD * position;
    u32::from_le_bytes([bytes[at], bytes[at + 1], bytes[at + 2], bytes[at + 3]])
}

// There is a word at this position, and it is within these limits.
fn is_right(bytes: &[u8], position: usize, least: u32, most: u32) -> bool
    ensures { result ≡ (ltb position (length (words_of bytes.now)) && within least most (get_or (words_of bytes.now) position 0)) }
{
    position < words(bytes) && (least..=most).contains(&word_at(bytes, position))
}

// The next four give a position, which is the end where all is right: `right` of specs/Format.antt is defined so, and an Option would say no more. Counts and
// positions are cast where they become an index, and back where one is the answer.

// Where the zeros of a call end, from a word of it on, at its end or before. (It goes over places, as the test of a place is that of the first four words too.)
fn zeros_end(bytes: &[u8], from: usize) -> usize
    requires { from ≤ 11 }
    ensures { result ≡ from + right (replicate (11 - from) (exactly 0)) (drop from (words_of bytes.now)) }
{
    for p in from..CALL_WORDS {
        if !is_right(bytes, p, 0, 0) {
            return p;
        }
    }
    CALL_WORDS
}

// Where the call at the front ends, or its first wrong word.
#[tactic(auto, using(crate::proofs::Reach::few_arguments, crate::proofs::ByteWords::lengths))]
fn call_end(bytes: &[u8]) -> usize
    ensures { result ≡ right (call_rules (get_or (words_of bytes.now) 0 0)) (words_of bytes.now) }
{
    // a word that is missing is 0 here, which is no call's number
    let Ok(call) = CallNumber::try_from(word_at(bytes, 0)) else {
        return 0;
    };
    let fill = 1 + call.arguments();
    let n = words(bytes);
    if n < fill {
        return n;
    }
    zeros_end(bytes, fill)
}

// Where so many calls at the front end, or their first wrong word.
fn calls_end(bytes: &[u8], calls: usize) -> usize
    requires { calls ≤ 1000 }
    ensures { result ≡ right (calls_rules calls (words_of bytes.now)) (words_of bytes.now) }
{
    for k in 0..calls {
        let at = CALL_WORDS * k;
        let end = call_end(&bytes[WORD * at..]);
        if end < CALL_WORDS {
            return at + end;
        }
    }
    CALL_WORDS * calls
}

// The first wrong word of the first four, or 4. (Four guards in the order of the words: a row of limits with a loop over it would be no plainer.)
fn numbers_end(bytes: &[u8]) -> usize
    ensures { result ≡ right (exactly 2 ∷ within 1 255 ∷ within 1 1000 ∷ within 0 1000 ∷ []) (words_of bytes.now) }
{
    if !is_right(bytes, NUMBERS, NUMBERS_COUNT, NUMBERS_COUNT) {
        return NUMBERS;
    }
    if !is_right(bytes, SLOTS, 1, MOST_SLOTS) {
        return SLOTS;
    }
    if !is_right(bytes, RATE, 1, MOST_RATE) {
        return RATE;
    }
    if !is_right(bytes, CALLS, 0, MOST_CALLS) {
        return CALLS;
    }
    FRONT
}

// No recording: the word at this position is the first wrong one. (20,000 is any bound above the 12,005 words of a recording: the number fits.)
fn refused_at(position: usize) -> Result<Recording, WrongWord>
    requires { position < 20000 }
    ensures { given result ≡ refused_at position }
{
    Err(WrongWord {
        position: position as u32,
    })
}

// The recording that bytes hold, or the position of the first word that is wrong, missing, partial or surplus.
#[tactic(auto, using(crate::proofs::Answers::few_calls))]
pub fn read(bytes: &[u8]) -> Result<Recording, WrongWord>
    ensures { given result ≡ reading bytes.now }
{
    let start = numbers_end(bytes);
    if start < FRONT {
        return refused_at(start);
    }
    let calls = word_at(bytes, CALLS);
    let again = FRONT + CALL_WORDS * (calls as usize);
    let end = FRONT + calls_end(&bytes[WORD * FRONT..], calls as usize);
    if end < again {
        return refused_at(end);
    }
    if !is_right(bytes, again, calls, calls) {
        return refused_at(again);
    }
    let last = again + 1 + calls as usize;
    let n = words(bytes);
    if n < last {
        return refused_at(n);
    }
    if bytes.len() != WORD * last {
        return refused_at(last);
    }
    let slots = word_at(bytes, SLOTS);
    let rate = word_at(bytes, RATE);
    Ok(Recording { slots, rate, calls })
}
