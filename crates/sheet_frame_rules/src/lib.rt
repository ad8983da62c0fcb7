// What refusal 9 lets pass: a frame after another.
#![tactic(auto)]

ghost use Rattle.std.specs.Prelude.{◌≡◌, ◌+◌, ◌-◌, ◌≤◌, not, ◌||◌, eqb, leb};
ghost use Rattle.base_laws.specs.Below.{all_below};
ghost use Rattle.sheet_lines.specs.Format.{format_of};
ghost use Rattle.sheet_lines.specs.Lines.{entries_allowed, frame_allowed, entry_allowed};

use base_limits::Limits;
use sheet_lines::{Frame, Layout};

// Whether an entry may follow p: it may not fall, but in a short sheet it may.
fn follows(short: bool, p: u32, e: u32) -> bool
    ensures { result ≡ (short || leb p e) }
{
    short || p <= e
}

// Whether refusal 9 lets an entry pass.
fn entry_allowed(f: Layout, card: u32, state: u32, j: u32, p: u32, e: u32) -> bool
    ensures { result ≡ entry_allowed (format_of f) card state j p e }
{
    follows(f.short, p, e) && e <= f.states && (j != card || e == state)
}

// Whether it lets the entries of the first n cards pass.
fn entries_allowed(
    f: Layout,
    card: u32,
    state: u32,
    n: u32,
    last: [u32; Limits::CARDS],
    next: [u32; Limits::CARDS],
) -> bool
    requires { n ≤ 16 }
    ensures { result ≡ entries_allowed (format_of f) card state n last next }
{
    for j in 0..n {
        let i = j as usize;
        if !entry_allowed(f, card, state, j, last[i], next[i]) {
            return false;
        }
    }
    true
}

// Whether refusal 9 lets pass what frames of 16 entries have of further cards, none each.
fn absent_allowed(card: u32, state: u32, n: u32) -> bool
    ensures { result ≡ all_below (n - 16) (λ j. not (eqb (16 + j) card) || eqb 0 state) }
{
    if card < Limits::CARDS_U32 || n <= card {
        return true;
    }
    state == 0
}

// Whether refusal 9 lets a frame pass, where `state` is the next; `last` is the frame before, or zeros.
pub fn frame_allowed(
    f: Layout,
    card: u32,
    n: u32,
    state: u32,
    last: Frame,
    told: u32,
    next: Frame,
) -> bool
    ensures { result ≡ frame_allowed (format_of f) card n state last told next }
{
    let few = n.min(Limits::CARDS_U32);
    if told != state
        || next.change <= last.change
        || !entries_allowed(f, card, state, few, last.entries, next.entries)
    {
        return false;
    }
    absent_allowed(card, state, n)
}
