// One slot goes into a chain of a table or out of it, word by word. A chain is doubly linked: word 5, 6 or 9 of the header holds its first slot, and
// each slot the next and the previous one, 0 for none. In the interval chain a slot's wait is the ticks after the slot before it, so that its
// follower's wait grows when it leaves and shrinks when it comes in front; in the dated chain a wait is the date
// itself, and in the queue of the server it is 0.
#![tactic(auto)]

ghost use Rattle.std.specs.Prelude.{◌≡◌, ◌+◌, ◌*◌, ◌<◌, ◌≤◌, length, set};
ghost use Rattle.model.specs.Words.{word, head_word, wait_of, next_of};
ghost use Rattle.laws.proofs.StateWords.{link_word};
ghost use Rattle.chains.specs.EditedWords.{follower_put, links_put, wait_without, wait_behind, previous_put, extracted_words, inserted_words, Extractable, FirstExtractable, Insertable};

use model::Chain;
use table::{FIRST_DATED, FIRST_QUEUED, FIRST_TICKING, NEXT, PREVIOUS, WAIT, get, put};

// The header word of a chain's first slot.
fn head_word(chain: Chain) -> usize
    ensures { result ≡ head_word chain }
{
    match chain {
        Chain::ByTicks => FIRST_TICKING,
        Chain::ByDate => FIRST_DATED,
        Chain::Queue => FIRST_QUEUED,
    }
}

// What follows slot p in a chain; its first slot where p is 0.
pub fn follower(t: &[u32], chain: Chain, p: u32) -> u32
    requires { 8 * p + 10 ≤ length t.now }
    ensures { result ≡ word t.now (link_word chain p) }
{
    if p != 0 {
        return get(t, p, NEXT);
    }
    let at = head_word(chain);
    t[at]
}

// The word that links to what follows slot p becomes n.
fn put_next(t: &mut [u32], chain: Chain, p: u32, n: u32)
    requires { 8 * p + 10 ≤ length t.old }
    ensures { t.new ≡ set t.old (link_word chain p) n }
{
    if p == 0 {
        let at = head_word(chain);
        t[at] = n;
    } else {
        put(t, p, NEXT, n);
    }
}

// Slot n, if there is one, gets previous q and wait v.
fn put_follower(t: &mut [u32], n: u32, q: u32, v: u32)
    requires { 8 * n + 10 ≤ length t.old }
    ensures { t.new ≡ follower_put t.old n q v }
{
    if n == 0 {
        return;
    }
    put(t, n, PREVIOUS, q);
    put(t, n, WAIT, v);
}

// Wait, next and previous of slot i.
fn put_links(t: &mut [u32], i: u32, w: u32, n: u32, p: u32)
    requires { 8 * i + 10 ≤ length t.old }
    ensures { t.new ≡ links_put t.old i w n p }
{
    put(t, i, WAIT, w);
    put(t, i, NEXT, n);
    put(t, i, PREVIOUS, p);
}

// The wait of slot n, if there is one, after a change.
#[inline(always)]
fn wait_changed<F: FnOnce(u32) -> u32>(t: &[u32], n: u32, change: F) -> u32
    requires slot { 8 * n + 10 ≤ length t.now }
    requires callable { 0 < n → F.pre change (wait_of t.now n) }
    ensures none { n ≡ 0 → result ≡ 0 }
    ensures changed { 0 < n → F.post change (wait_of t.now n) result }
{
    if n == 0 {
        return 0;
    }
    change(get(t, n, WAIT))
}

// The wait of slot n, if there is one, after the slot before it, of wait w, left the chain.
fn wait_without(t: &[u32], chain: Chain, n: u32, w: u32) -> u32
    requires { (8 * n + 10 ≤ length t.now) × (wait_without chain t.now n w < 4294967296) }
    ensures { result ≡ wait_without chain t.now n w }
{
    wait_changed(t, n, |v| match chain {
        Chain::ByTicks => v + w,
        Chain::ByDate | Chain::Queue => v,
    })
}

// The wait of slot n, if there is one, after one of wait w came in front of it.
fn wait_behind(t: &[u32], chain: Chain, n: u32, w: u32) -> u32
    requires { (8 * n + 10 ≤ length t.now) × (chain ≡ Chain.ByTicks → 0 < n → w ≤ wait_of t.now n) }
    ensures { result ≡ wait_behind chain t.now n w }
{
    wait_changed(t, n, |v| match chain {
        Chain::ByTicks => v - w,
        Chain::ByDate | Chain::Queue => v,
    })
}

// Slot i leaves its chain.
pub fn extract(t: &mut [u32], chain: Chain, i: u32)
    requires { Extractable chain t.old i }
    ensures { t.new ≡ extracted_words chain t.old i }
{
    let n = get(t, i, NEXT);
    let p = get(t, i, PREVIOUS);
    let w = get(t, i, WAIT);
    let v = wait_without(t, chain, n, w);
    put_next(t, chain, p, n);
    put_follower(t, n, p, v);
    put_links(t, i, 0, 0, 0);
}

// Slot n, if there is one, gets previous q.
fn put_previous(t: &mut [u32], n: u32, q: u32)
    requires { 8 * n + 10 ≤ length t.old }
    ensures { t.new ≡ previous_put t.old n q }
{
    if n == 0 {
        return;
    }
    put(t, n, PREVIOUS, q)
}

// Slot i, the first of its chain, leaves it. In the interval chain it has no ticks left, so that its follower's wait stays. Gives the slot that
// followed it, which is the first then.
pub fn extract_first(t: &mut [u32], chain: Chain, i: u32) -> u32
    requires { FirstExtractable chain t.old i }
    ensures { (t.new ≡ extracted_words chain t.old i) × (result ≡ next_of t.old i) }
{
    let n = get(t, i, NEXT);
    put_next(t, chain, 0, n);
    put_previous(t, n, 0);
    put_links(t, i, 0, 0, 0);
    n
}

// Slot i comes behind slot p, with wait w.
pub fn insert(t: &mut [u32], chain: Chain, p: u32, i: u32, w: u32)
    requires { Insertable chain t.old p i w }
    ensures { t.new ≡ inserted_words chain t.old p i w }
{
    let n = follower(t, chain, p);
    let v = wait_behind(t, chain, n, w);
    put_next(t, chain, p, i);
    put_follower(t, n, i, v);
    put_links(t, i, w, n, p);
}
