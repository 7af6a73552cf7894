// The walks of the soundness check: the test of the heads, a step along each chain, and the end of the dated one.
#![tactic(auto)]

ghost use Rattle.std.specs.Prelude.{◌≡◌, ◌+◌, ◌*◌, ◌<◌, ◌≤◌, length};
ghost use Rattle.model.specs.declared.Chain.TheVariants.{ByTicks, ByDate, Queue};
ghost use Rattle.model.specs.Kinds.{waits_in};
ghost use Rattle.walks.specs.Walks.{heads_tested, link_tested, step_tested, end_tested, standing};

use calendar::LAST_SECOND;
use table::*;

// The kinds that are told apart here, as words: see crate `word_checks`.
const QUEUED_TICKS: u32 = Kind::QueuedTicks as u32;

const QUEUED_DATE: u32 = Kind::QueuedDate as u32;

// Ticks left are added in 64 bits, so that no sum of two words wraps. (Two wrong answers, `wide_keeps_half` and `wide_loses_a_bit`, are edits of this cast.)
pub fn wide(x: u32) -> u64
    ensures { result ≡ x }
{
    x as u64
}

// The interval chain and the dated one do not begin at the same slot.
pub fn heads_tested(t: &[u32]) -> bool
    requires { 10 ≤ length t.now }
    ensures { result ≡ heads_tested t.now }
{
    t[FIRST_TICKING] != t[FIRST_DATED] || t[FIRST_TICKING] == 0
}

// A timer of this kind is queued.
fn is_queued(kind: u32) -> bool
    ensures { result ≡ waits_in Queue kind }
{
    matches!(kind, QUEUED_TICKS | QUEUED_DATE)
}

// Slot i is one of n, and slot p stands before it. (A type for a slice with the words of n slots would be taken apart again at each step: see crate
// `word_checks`.)
#[tactic(auto, unfolding(crate::specs::Walks::link_tested))]
fn link_tested(t: &[u32], n: u32, i: u32, p: u32) -> bool
    requires { 8 * n + 10 ≤ length t.now }
    ensures { result ≡ link_tested t.now n i p }
{
    1 <= i && i <= n && get(t, i, PREVIOUS) == p
}

// Slot i of n may stand in the interval chain behind slot p, which has b ticks left.
#[tactic(auto, unfolding(crate::specs::Walks::step_tested, crate::specs::Walks::link_tested))]
pub fn tick_tested(t: &[u32], n: u32, i: u32, p: u32, b: u64) -> bool
    requires { (8 * n + 10 ≤ length t.now) × (b < 4294967296) }
    ensures { result ≡ step_tested ByTicks t.now n (standing i p b) }
{
    if !link_tested(t, n, i, p) {
        return false;
    }
    let left = b + wide(get(t, i, WAIT));
    1 <= left && left <= wide(get(t, i, INTERVAL))
}

// Slot i of n may stand in the dated chain behind slot p, where no date may be below d.
#[tactic(auto, unfolding(crate::specs::Walks::step_tested))]
pub fn date_tested(t: &[u32], n: u32, i: u32, p: u32, d: u32) -> bool
    requires { 8 * n + 10 ≤ length t.now }
    ensures { result ≡ step_tested ByDate t.now n (standing i p d) }
{
    link_tested(t, n, i, p) && d <= get(t, i, WAIT)
}

// Slot i of n may stand in the queue behind slot p.
#[tactic(auto, unfolding(crate::specs::Walks::step_tested))]
pub fn queue_tested(t: &[u32], n: u32, i: u32, p: u32) -> bool
    requires { 8 * n + 10 ≤ length t.now }
    ensures { result ≡ step_tested Queue t.now n (standing i p 0) }
{
    if !link_tested(t, n, i, p) {
        return false;
    }
    is_queued(get(t, i, KIND)) && get(t, i, WAIT) == 0
}

// The walk along the dated chain is over, i being 0. If it met a slot, the last of them is p and d its date, which no other is above.
pub fn dates_ended(i: u32, p: u32, d: u32) -> bool
    ensures { result ≡ end_tested ByDate (standing i p d) }
{
    // (joined by `&&` and `||`, the three tests take two instructions more in each check)
    if i != 0 {
        return false;
    }
    if p == 0 {
        return true;
    }
    d <= LAST_SECOND
}
