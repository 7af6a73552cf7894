// A macro's words as steps: five words each, kind, arguments, zeros to fill (specs/Steps.antt). Any words are read.
#![tactic(auto)]

ghost use Rattle.std.specs.Prelude.{◌≡◌, [], ◌∷◌, eqb};
ghost use Rattle.calendar.specs.Calendar.{all_of};
ghost use Rattle.macro_steps.specs.Steps.{bare, with_one, step_of, count, step_at, kind_of, kind_at, times_of};
ghost use Rattle.macro_steps.specs.StepKinds.{number_of};

// Words in a step.
pub const STEP_WORDS: usize = 5;

// How many times a repeat repeats, at most.
const MOST_TIMES: u32 = 100;

// The kinds of steps, by their numbers; 0 is none.
#[derive(Clone, Copy, Debug, PartialEq, Eq)]
pub enum StepKind {
    NoStep = 0,
    Arm = 1,
    Cancel = 2,
    Wait = 3,
    Check = 4,
    Repeat = 5,
    End = 6,
    Sign = 7,
}

impl From<StepKind> for u32 {
    ghost from_gives = { λ k n. n ≡ number_of k };

    fn from(kind: StepKind) -> u32 {
        kind as u32
    }
}

// A step's first word. (Numbers in what reads it, and no `StepKind::try_from`: by that the checker and a step jump through a register, which tests/stack.py
// lets them nowhere.)
const ARM: u32 = StepKind::Arm as u32;

const CANCEL: u32 = StepKind::Cancel as u32;

const WAIT: u32 = StepKind::Wait as u32;

const CHECK: u32 = StepKind::Check as u32;

const REPEAT: u32 = StepKind::Repeat as u32;

const END: u32 = StepKind::End as u32;

const SIGN: u32 = StepKind::Sign as u32;

// A step with its arguments: arm has id, ticks, routine and data; cancel and wait an id; repeat how many times. `NoStep` is words that have none of
// these forms, and a place past the last step.
#[derive(Clone, Copy, Debug, PartialEq, Eq)]
pub enum Step {
    Arm(u32, u32, u32, u32),
    Cancel(u32),
    Wait(u32),
    Check,
    Repeat(u32),
    End,
    Sign,
    NoStep,
}

// The step of a kind without arguments.
#[tactic(auto, unfolding(crate::specs::Steps::bare))]
fn bare_step(kind: u32) -> Step
    ensures { result ≡ bare kind }
{
    match kind {
        CHECK => Step::Check,
        END => Step::End,
        SIGN => Step::Sign,
        _ => Step::NoStep,
    }
}

// The step of a kind and one argument.
#[tactic(auto, unfolding(crate::specs::Steps::with_one))]
fn step_with(kind: u32, a: u32) -> Step
    ensures { result ≡ with_one kind a }
{
    match kind {
        CANCEL => Step::Cancel(a),
        WAIT => Step::Wait(a),
        REPEAT if (1..=MOST_TIMES).contains(&a) => Step::Repeat(a),
        REPEAT => Step::NoStep,
        _ if a != 0 => Step::NoStep,
        _ => bare_step(kind),
    }
}

// Three words are zero.
fn is_fill(b: u32, c: u32, d: u32) -> bool
    ensures { result ≡ all_of (eqb b 0 ∷ eqb c 0 ∷ eqb d 0 ∷ []) }
{
    b == 0 && c == 0 && d == 0
}

// The step of five words. (Five numbers and no array, as `step_of` of specs/Steps.antt takes them.)
#[tactic(auto, unfolding(crate::specs::Steps::step_of))]
fn step_of(kind: u32, a: u32, b: u32, c: u32, d: u32) -> Step
    ensures { result ≡ step_of kind a b c d }
{
    match kind {
        ARM => Step::Arm(a, b, c, d),
        _ if is_fill(b, c, d) => step_with(kind, a),
        _ => Step::NoStep,
    }
}

// How many steps the words are.
pub fn step_count(words: &[u32]) -> usize
    ensures { result ≡ count words.now }
{
    words.len() / STEP_WORDS
}

// The step at a place.
#[tactic(auto, unfolding(crate::specs::Steps::step_at))]
pub fn step_at(words: &[u32], at: usize) -> Step
    ensures { result ≡ step_at words.now at }
{
    if step_count(words) <= at {
        return Step::NoStep;
    }
    let i = STEP_WORDS * at;
    step_of(
        words[i],
        words[i + 1],
        words[i + 2],
        words[i + 3],
        words[i + 4],
    )
}

// A step's kind.
fn kind_of(step: Step) -> StepKind
    ensures { number_of result ≡ kind_of step }
{
    match step {
        Step::Arm(..) => StepKind::Arm,
        Step::Cancel(_) => StepKind::Cancel,
        Step::Wait(_) => StepKind::Wait,
        Step::Check => StepKind::Check,
        Step::Repeat(_) => StepKind::Repeat,
        Step::End => StepKind::End,
        Step::Sign => StepKind::Sign,
        Step::NoStep => StepKind::NoStep,
    }
}

// How many times a step repeats its block.
pub fn times_of(step: Step) -> u32
    ensures { result ≡ times_of step }
{
    match step {
        Step::Repeat(times) => times,
        _ => 0,
    }
}

// The kind of the step at a place.
pub fn kind_at(words: &[u32], at: usize) -> StepKind
    ensures { number_of result ≡ kind_at words.now at }
{
    kind_of(step_at(words, at))
}
