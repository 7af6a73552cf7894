// The writer of recordings: numbers, calls and statuses become the bytes that crate `recording` reads. It takes any of them; specs/Writing.antt says
// what it answers, and specs/RoundTrip.antt what holds of a recording that is written and read.
#![tactic(auto)]

ghost use Rattle.std.specs.Prelude.{◌≡◌, [], ◌∷◌, ◌+◌, ◌*◌, ◌/◌, ◌≤◌, ◌↔◌, IsTrue, All, length, get_or, eqb};
ghost use Rattle.std.proofs.lemmas.List.Edits.{sets};
ghost use Rattle.recording.specs.Format.{bytes_of, call_rules, calls_rules, right};
ghost use Rattle.recording_writer.specs.Writing.{fitting, writing, output_of};

use model::Status;
use recording::{CALL_WORDS, CallNumber, FRONT, MOST_CALLS, NUMBERS_COUNT, WORD};
use table::within_limits;

// All words are zero.
fn all_zero(words: &[u32]) -> bool
    ensures { IsTrue result ↔ All (λ w. w ≡ 0) words.now }
{
    words.iter().all(|word| *word == 0)
}

// The eleven words of a call to be written are right.
#[tactic(auto, using(recording::proofs::Reach::few_arguments))]
fn call_fits(call: &[u32]) -> bool
    requires { length call.now ≡ 11 }
    ensures { result ≡ eqb (right (call_rules (get_or call.now 0 0)) call.now) 11 }
{
    let Ok(number) = CallNumber::try_from(call[0]) else {
        return false;
    };
    all_zero(&call[1 + number.arguments()..])
}

// The words of calls to be written are right, eleven each.
fn calls_fit(calls: &[u32]) -> bool
    ensures { result ≡ eqb (right (calls_rules (length calls.now / 11) calls.now) calls.now) (11 * (length calls.now / 11)) }
{
    for call in calls.chunks_exact(CALL_WORDS) {
        if !call_fits(call) {
            return false;
        }
    }
    true
}

// The reader would take a recording of these, and there are eleven words for each status.
fn is_recording(slots: u32, rate: u32, calls: &[u32], statuses: &[u32]) -> bool
    ensures { result ≡ fitting slots rate calls.now statuses.now }
{
    within_limits(slots, rate)
        && statuses.len() <= MOST_CALLS as usize
        && calls.len() == CALL_WORDS * statuses.len()
        && calls_fit(calls)
}

// The four bytes of a word go into a buffer.
fn put_word(buffer: &mut [u8], at: usize, w: u32)
    requires { at + 4 ≤ length buffer.old }
    ensures { buffer.new ≡ sets buffer.old at (bytes_of (w ∷ [])) }
{
    buffer[at..at + WORD].copy_from_slice(&w.to_le_bytes());
}

// Words go into a buffer. (An index, which is that of the word and of its bytes: chunks of the buffer with an iterator over the words are no plainer.)
fn put_words(buffer: &mut [u8], at: usize, ws: &[u32])
    requires { at + 4 * length ws.now ≤ length buffer.old }
    ensures { buffer.new ≡ sets buffer.old at (bytes_of ws.now) }
{
    for i in 0..ws.len() {
        put_word(buffer, at + WORD * i, ws[i]);
    }
}

// A recording goes into a buffer: N and T, the calls, eleven words each, and the status expected of each. Bytes past it stay. Answers its length in
// bytes.
#[tactic(auto, using(crate::proofs::Files::facts))]
pub fn write(
    slots: u32,
    rate: u32,
    calls: &[u32],
    statuses: &[u32],
    buffer: &mut [u8],
) -> Result<u32, Status>
    ensures { output_of result buffer.new ≡ writing slots rate calls.now statuses.now buffer.old }
{
    if !is_recording(slots, rate, calls, statuses) {
        return Err(Status::InvalidNumber);
    }
    let count = statuses.len();
    let again = FRONT + CALL_WORDS * count;
    let words = again + 1 + count;
    let size = WORD * words;
    if buffer.len() < size {
        return Err(Status::InvalidSize);
    }
    put_words(buffer, 0, &[NUMBERS_COUNT, slots, rate, count as u32]);
    put_words(buffer, WORD * FRONT, calls);
    put_words(buffer, WORD * again, &[count as u32]);
    put_words(buffer, WORD * (again + 1), statuses);
    let length = size as u32;
    Ok(length)
}
