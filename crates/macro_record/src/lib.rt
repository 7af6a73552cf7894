// The runner's record: where a macro stands. `readiness` says whether a step may be taken on it, and `Position::after` what becomes of it, by what the
// manager answered: specs/Record.antt.
#![tactic(auto)]

ghost use Rattle.std.specs.Prelude.{◌≡◌, ◌-◌, ◌≤◌, length};
ghost use Rattle.macro_record.specs.Record.{times_at};
ghost use Rattle.macro_record.specs.Parts.{fits_block, fit_blocks, readiness_of, Standing};
ghost use Rattle.macro_record.specs.InOneWay.{Standing-prop};

use macro_check::{Blocks, MOST_DEEP, scan};
use macro_steps::{Step, step_at, step_count, times_of};

// Where a macro stands: the next step, the counts of the repeats that it is in, by depth, and the status of the last arm or cancel. A fresh one is all
// zero. (Any numbers, and no invariant: a host lends its own record. Statuses are numbers here and in `after`, and no `Result`: any may be given.)
#[derive(Clone, Copy, Debug, Default, PartialEq, Eq)]
pub struct Runner {
    pub place: u32,
    pub counts: [u32; MOST_DEEP],
    pub last: u32,
}

// How many times the block that begins at a place repeats.
fn times_of_block(words: &[u32], start: usize) -> u32
    requires { 1 ≤ start }
    ensures { result ≡ times_at words.now (start - 1) }
{
    times_of(step_at(words, start - 1))
}

// A count is 1 to its repeat's number inside a block, and 0 where none is open.
fn fits_block(words: &[u32], start: usize, count: u32) -> bool
    ensures { result ≡ fits_block words.now start count }
{
    if start == 0 {
        return count == 0;
    }
    (1..=times_of_block(words, start)).contains(&count)
}

// Every count fits.
fn fit_blocks(words: &[u32], blocks: Blocks, counts: [u32; MOST_DEEP]) -> bool
    ensures { result ≡ fit_blocks words.now blocks counts }
{
    for depth in 0..MOST_DEEP {
        if !fits_block(words, blocks[depth], counts[depth]) {
            return false;
        }
    }
    true
}

// Whether a step may be taken: the macro is passed, the place is not past its end, and every count fits; and then the blocks that are open.
pub fn readiness(words: &[u32], r: Runner) -> Option<Blocks>
    ensures { result ≡ readiness_of words.now r }
{
    let blocks = scan(words, r.place as usize)?;
    if !fit_blocks(words, blocks, r.counts) {
        return None;
    }
    Some(blocks)
}

// (By value in the methods: by `&self` a step is some 20 instructions longer.)
//
// A record that stands in a macro: the checker passes the macro, the record's place is not past its end, and these are the blocks that are open there.
#[derive(Clone, Copy, Debug, PartialEq, Eq)]
pub struct Position<'m> {
    pub words: &'m [u32],
    pub runner: Runner,
    pub blocks: Blocks,
    pub ghost stands: { Standing words.now runner blocks } by { Standing-prop words.now runner blocks },
}

impl<'m> Position<'m> {
    ghost use Rattle.macro_steps.specs.Steps.{step_at, kind_at};
    ghost use Rattle.macro_check.specs.Blocks.{opened};
    ghost use Rattle.macro_record.specs.Record.{onward, ended, called, waited, checked, repeated, block_ended, moved};

    // How many blocks are open.
    fn depth(self) -> usize
        ensures { result ≡ length (opened self.entry.words.now self.entry.runner.place) }
    {
        for depth in 0..MOST_DEEP {
            if self.blocks[depth] == 0 {
                return depth;
            }
        }
        MOST_DEEP
    }

    // On to the next step.
    fn to_next(self) -> Runner
        ensures { result ≡ onward self.entry.runner }
    {
        Runner {
            place: self.runner.place + 1,
            ..self.runner
        }
    }

    // To the end, counts 0.
    fn to_end(self) -> Runner
        ensures { result ≡ ended self.entry.words.now self.entry.runner }
    {
        Runner {
            place: step_count(self.words) as u32,
            counts: [0; MOST_DEEP],
            last: self.runner.last,
        }
    }

    // After an arm or cancel with this status.
    fn after_call(self, status: u32) -> Runner
        ensures { result ≡ called self.entry.runner status }
    {
        Runner {
            last: status,
            ..self.to_next()
        }
    }

    // After a wait with this status and these ticks left: it stops the macro where it is refused, and goes on once the ticks are 0.
    fn after_wait(self, status: u32, ticks: u32) -> Runner
        ensures { result ≡ waited self.entry.words.now self.entry.runner status ticks }
    {
        if status != 0 {
            return self.to_end();
        }
        if ticks != 0 {
            return self.runner;
        }
        self.to_next()
    }

    // After a check: it stops the macro if the last arm or cancel was not 0.
    fn after_check(self) -> Runner
        ensures { result ≡ checked self.entry.words.now self.entry.runner }
    {
        if self.runner.last != 0 {
            return self.to_end();
        }
        self.to_next()
    }

    #[tactic(auto, using(crate::proofs::CountLaws::depths))]
    // After a repeat: its depth's count is 1.
    fn after_repeat(self) -> Runner
        requires { kind_at self.words.now self.runner.place ≡ 5 }
        ensures { result ≡ repeated (opened self.entry.words.now self.entry.runner.place) self.entry.runner }
    {
        let depth = self.depth();
        let mut next = self.to_next();
        next.counts[depth] = 1;
        next
    }

    #[tactic(auto, using(crate::proofs::CountLaws::depths))]
    // After an end: back to the step after the repeat with a count of one more, or at the repeat's number on, with a count of 0.
    fn after_end(self) -> Runner
        requires { kind_at self.words.now self.runner.place ≡ 6 }
        ensures { result ≡ block_ended self.entry.words.now (opened self.entry.words.now self.entry.runner.place) self.entry.runner }
    {
        let depth = self.depth() - 1;
        let start = self.blocks[depth];
        let count = self.runner.counts[depth];
        if count < times_of_block(self.words, start) {
            let mut again = self.runner;
            again.counts[depth] = count + 1;
            again.place = start as u32;
            return again;
        }
        let mut next = self.to_next();
        next.counts[depth] = 0;
        next
    }

    // The record after the step at its place, for which the manager answered so.
    pub fn after(self, step: Step, status: u32, number: u32) -> Runner
        requires { step ≡ step_at self.words.now self.runner.place }
        ensures { result ≡ moved self.entry.words.now self.entry.runner status number step }
    {
        match step {
            Step::Arm(..) => self.after_call(status),
            Step::Cancel(_) => self.after_call(status),
            Step::Wait(_) => self.after_wait(status, number),
            Step::Check => self.after_check(),
            Step::Repeat(_) => self.after_repeat(),
            Step::End => self.after_end(),
            Step::Sign => self.to_end(),
            Step::NoStep => self.runner,
        }
    }
}
