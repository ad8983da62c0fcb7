// Refusal 10: whether one change has two vectors on two sheets of a read-out.
#![tactic(auto)]

ghost use Rattle.std.specs.Prelude.{◌≡◌, ℕ, ◌+◌, ◌≤◌, ◌<◌, not, ◌&&◌, cond, [], eqb, ltb, Some, None};
ghost use Rattle.base_laws.specs.Below.{any_below};
ghost use Rattle.base_merge.specs.Merge.{at, head_place};
ghost use Rattle.sheet_pages.specs.Ring.{pages_of};
ghost use Rattle.sheet_vectors.specs.Vectors.{two_vectors};
ghost use Rattle.sheet_vectors.specs.Heads.{stored_numbers, Orderly, lists_read, same_entries, first_with, head_differs, heads_differ};

use base_limits::Limits;

// The state that each card has stored: base plus the count of its frames.
pub fn stored_numbers(
    bases: [u32; Limits::CARDS],
    counts: [u32; Limits::CARDS],
) -> [u32; Limits::CARDS]
    requires { (c : ℕ) → c < 16 → at bases c + at counts c ≤ 60000 }
    ensures { result ≡ stored_numbers bases counts }
{
    let mut out = [0u32; Limits::CARDS];
    for c in 0..Limits::CARDS {
        out[c] = bases[c] + counts[c];
    }
    out
}

fn same_entries(entries: &[u32; Limits::ENTRIES], p: usize, q: usize, n: usize) -> bool
    requires { (p < 768) × (q < 768) × (n ≤ 16) }
    ensures { result ≡ same_entries entries.now n p q }
{
    for k in 0..n {
        if entries[p * Limits::CARDS + k] != entries[q * Limits::CARDS + k] {
            return false;
        }
    }
    true
}

// The first card at whose head the change k stands.
fn first_with(heads: [u32; Limits::CARDS], k: u32) -> Option<usize>
    ensures { result ≡ cond (ltb (first_with heads k) 16) (Some (first_with heads k)) None }
{
    for c in 0..Limits::CARDS {
        if heads[c] == k {
            return Some(c);
        }
    }
    None
}

// Whether card c has the change k at its head, with another vector than that at place p.
fn head_differs(
    entries: &[u32; Limits::ENTRIES],
    head: u32,
    c: usize,
    passed: u32,
    k: u32,
    p: usize,
    n: usize,
) -> bool
    requires { (c < 16) × (p < 768) × (n ≤ 16) }
    ensures { result ≡ (eqb head k && not (same_entries entries.now n (head_place c passed) p)) }
{
    head == k && !same_entries(entries, base_merge::head_place(c as u32, passed), p, n)
}

// Whether some card has.
fn some_differs(
    entries: &[u32; Limits::ENTRIES],
    heads: [u32; Limits::CARDS],
    passed: [u32; Limits::CARDS],
    k: u32,
    p: usize,
    n: usize,
) -> bool
    requires { (p < 768) × (n ≤ 16) }
    ensures { result ≡ any_below 16 (head_differs entries.now heads passed n k p) }
{
    for other in 0..Limits::CARDS {
        if head_differs(entries, heads[other], other, passed[other], k, p, n) {
            return true;
        }
    }
    false
}

// Whether two cards have the change k at their heads, with two vectors.
fn heads_differ(
    entries: &[u32; Limits::ENTRIES],
    heads: [u32; Limits::CARDS],
    passed: [u32; Limits::CARDS],
    k: u32,
    n: usize,
) -> bool
    requires { n ≤ 16 }
    ensures { result ≡ heads_differ entries.now heads passed n k }
{
    let Some(first) = first_with(heads, k) else {
        return false;
    };
    let p = base_merge::head_place(first as u32, passed[first]);
    some_differs(entries, heads, passed, k, p, n)
}

// Whether one change has two vectors on two sheets, by one merge over the sheets' frames.
pub fn two_vectors<'a>(
    changes: &'a [u32; Limits::FRAMES],
    entries: &'a [u32; Limits::ENTRIES],
    bases: [u32; Limits::CARDS],
    counts: [u32; Limits::CARDS],
    n: u32,
) -> bool
    requires { (n ≤ 16) × Orderly changes.now bases counts n }
    ensures { result ≡ two_vectors (pages_of (lists_read changes.now entries.now [] bases counts n)) }
{
    let cards = n as usize;
    let stored = stored_numbers(bases, counts);
    let ends = base_merge::ends_of(stored, n);
    let mut passed = bases;
    let mut heads = base_merge::heads(changes, passed, ends);
    let mut k: u32 = 0;
    let mut x = base_merge::least(heads);
    while k < x {
        if heads_differ(entries, heads, passed, x, cards) {
            return true;
        }
        k = x;
        // The two arrays stay behind a `let` each: a call's answer laid in an array that stands gets no proof.
        let p = base_merge::past(passed, ends, heads, k);
        passed = p;
        let h = base_merge::heads(changes, passed, ends);
        heads = h;
        x = base_merge::least(heads);
    }
    false
}
