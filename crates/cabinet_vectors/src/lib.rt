// Vectors of 16 entries by value, merged entry by entry.
#![tactic(auto)]

ghost use Rattle.std.specs.Prelude.{◌≡◌, true, cond, ℕ, ◌<◌, max};
ghost use Rattle.base_bits.specs.Member.{member};
ghost use Rattle.theory_history.specs.Vector.{joined, no_entries, with_own, vector_of};
ghost use Rattle.cabinet_layout.specs.Shape.{limits16, at, list_of, open_of, tracked_of};

use base_limits::Limits;
use cabinet_layout::{Slot, Vector};

pub fn greater(a: u32, b: u32) -> u32
    ensures { result ≡ max a b }
{
    a.max(b)
}

// The greater of two vectors, entry by entry.
pub fn join(u: [u32; Limits::CARDS], v: [u32; Limits::CARDS]) -> [u32; Limits::CARDS]
    ensures { result ≡ list_of (joined (at u) (at v)) }
{
    let mut out = [0u32; Limits::CARDS];
    for j in 0..Limits::CARDS {
        out[j] = greater(u[j], v[j]);
    }
    out
}

// The vector as a list of 16 entries.
pub fn copied(v: [u32; Limits::CARDS]) -> [u32; Limits::CARDS]
    ensures { (result ≡ v) × (v ≡ list_of (at v)) }
{
    v
}

// The vector with the entry for card c set to the state overwritten.
fn with_own(v: [u32; Limits::CARDS], c: usize, reached: u32) -> [u32; Limits::CARDS]
    requires { (c < 16) × (reached < 4294967295) }
    ensures { result ≡ list_of (with_own c reached (at v)) }
{
    let mut out = v;
    out[c] = reached + 1;
    out
}

// "of a card only read, its last; of a written card, its pending with its own entry set to the state overwritten"
fn share_of(
    written: bool,
    read: bool,
    c: usize,
    reached: u32,
    last: [u32; Limits::CARDS],
    pending: [u32; Limits::CARDS],
) -> [u32; Limits::CARDS]
    requires { (c < 16) × (written ≡ true → reached < 4294967295) }
    ensures { result ≡ list_of (cond written (with_own c reached (at pending)) (cond read (at last) no_entries)) }
{
    if written {
        with_own(pending, c, reached)
    } else if read {
        copied(last)
    } else {
        [0u32; Limits::CARDS]
    }
}

// "The vector is the greatest, entry by entry, over all touched cards as they stood at the decision"
pub fn decision(
    o: Slot,
    reached: [u32; Limits::CARDS],
    last: [Vector; Limits::CARDS],
    pending: [Vector; Limits::CARDS],
) -> [u32; Limits::CARDS]
    requires { (c : ℕ) → c < 16 → member o.writes c ≡ true → at reached c < 4294967295 }
    ensures { result ≡ list_of (vector_of limits16.width (tracked_of reached last pending) (open_of o).change) }
{
    let mut out = [0u32; Limits::CARDS];
    for c in 0..Limits::CARDS {
        let written = base_bits::has(o.writes, c as u32);
        let read = base_bits::has(o.reads, c as u32);
        let l = last[c].entries;
        let p = pending[c].entries;
        let s = share_of(written, read, c, reached[c], l, p);
        // by way of a name: a call's array laid right over one that is held gets no proof
        let more = join(out, s);
        out = more;
    }
    out
}
