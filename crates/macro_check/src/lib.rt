// The checker says which macros may run. `passes` and `scan` take any words; specs/Passed.antt says which macros pass. A step of a macro needs the
// repeats that its place is inside too: `scan` finds both in one pass.
#![tactic(auto)]

ghost use Rattle.std.specs.Prelude.{◌≡◌, cond, ◌+◌, ◌<◌, set, ltb};
ghost use Rattle.macro_steps.specs.StepKinds.{number_of};
ghost use Rattle.macro_steps.specs.Steps.{count, kind_at};
ghost use Rattle.macro_check.specs.Passed.{asks_check, whole, passed};
ghost use Rattle.macro_check.specs.Blocks.{scanned_at};
ghost use Rattle.macro_check.specs.Parts.{Scanning, Checked, AtEnd};

use macro_steps::{STEP_WORDS, StepKind, kind_at, step_count};

// Steps in a macro, at most.
const MOST_STEPS: usize = 256;

// Repeats inside one another, at most.
pub const MOST_DEEP: usize = 8;

// What a pass over a macro finds at a place: for each depth, the first place of the block that is open there, 0 where none is. (0 and no `Option`:
// `blocks_of` of specs/Blocks.antt says so.)
pub type Blocks = [usize; MOST_DEEP];

// A step of this kind has to be followed at once by a check: an arm or a cancel.
fn asks_check(kind: StepKind) -> bool
    ensures { result ≡ asks_check (number_of kind) }
{
    matches!(kind, StepKind::Arm | StepKind::Cancel)
}

// The block at this depth begins at `start`, as long as the pass has not come to the place.
fn note(blocks: &mut Blocks, depth: usize, start: usize, at: usize, place: usize)
    requires { depth < 8 }
    ensures { blocks.new ≡ cond (ltb at place) (set blocks.old depth start) blocks.old }
{
    if at < place {
        blocks[depth] = start;
    }
}

// The end of the block of which a place is the first that is left to check, inside so many repeats: the place of an end step, or the macro's end; `None`
// where a step before it is not as it has to be. (Words, place and blocks go along as they are: `note` writes the blocks, and a struct of the three would be
// made for these two functions alone.)
#[cycle(check_block_check_step)]
fn check_block(
    words: &[u32],
    at: usize,
    depth: usize,
    place: usize,
    blocks: &mut Blocks,
) -> Option<usize>
    requires { Scanning words.now at depth place blocks.old }
    ensures { Checked at at depth place words.now blocks.new result × AtEnd words.now result }
{
    // (No `for`: a turn goes on to where the step's own block ends.)
    let mut next = at;
    while next < step_count(words) {
        let kind = kind_at(words, next);
        if kind == StepKind::End {
            return Some(next);
        }
        // (through `check_step` and its `?` a step that stands alone takes three instructions more, and a macro of waits a quarter more time)
        next = match kind {
            StepKind::Wait | StepKind::Check | StepKind::Sign => next + 1,
            _ => check_step(words, next, kind, depth, place, blocks)?,
        };
    }
    Some(next)
}

// The place after a step that is no end: after its check, for an arm or cancel; after its block and the end of that, for a repeat.
#[cycle(check_block_check_step)]
fn check_step(
    words: &[u32],
    at: usize,
    kind: StepKind,
    depth: usize,
    place: usize,
    blocks: &mut Blocks,
) -> Option<usize>
    requires { (at < count words.now) × (((number_of kind ≡ kind_at words.now at) × (number_of kind ≡ 6 → ⊥)) × Scanning words.now at depth place blocks.old) }
    ensures { Checked (at + 1) at depth place words.now blocks.new result }
{
    if asks_check(kind) {
        if kind_at(words, at + 1) == StepKind::Check {
            return Some(at + 2);
        }
        return None;
    }
    match kind {
        StepKind::NoStep => None,
        StepKind::Repeat if depth < MOST_DEEP => {
            note(blocks, depth, at + 1, at, place);
            let end = check_block(words, at + 1, depth + 1, place, blocks)?;
            if end == step_count(words) {
                return None;
            }
            note(blocks, depth, 0, end, place);
            Some(end + 1)
        }
        StepKind::Repeat => None,
        _ => Some(at + 1),
    }
}

// The words are a macro of 1 to 256 steps.
fn is_whole(words: &[u32]) -> bool
    ensures { result ≡ whole words.now }
{
    let steps = step_count(words);
    (1..=MOST_STEPS).contains(&steps) && words.len() == STEP_WORDS * steps
}

// One pass over a macro, for one place of it: the blocks that are open there, where the checker passes the macro and the place is not past its end.
pub fn scan(words: &[u32], place: usize) -> Option<Blocks>
    ensures { result ≡ scanned_at words.now place }
{
    let steps = step_count(words);
    if !is_whole(words) || steps < place {
        return None;
    }
    let mut blocks = [0; MOST_DEEP];
    match check_block(words, 0, 0, place, &mut blocks) {
        Some(end) if end == steps => Some(blocks),
        _ => None,
    }
}

// The checker: these words are a macro of 1 to 256 steps, each of its form, well nested, with a check after every arm and cancel.
pub fn passes(words: &[u32]) -> bool
    ensures { result ≡ passed words.now }
{
    scan(words, 0).is_some()
}
