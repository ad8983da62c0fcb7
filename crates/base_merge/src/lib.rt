// One merge over the cards' frames, whose change numbers rise with the states: it meets each number once, rising.
#![tactic(auto)]

ghost use Rattle.std.specs.Prelude.{◌<◌, ◌≡◌, cond};
ghost use Rattle.base_merge.specs.Merge.{lesser, change_at, ends_of, head_place, head_number, head_numbers, least_of, card_past, all_past};

use base_limits::Limits;

// The lesser of two numbers of which 0 is none.
pub fn lesser(a: u32, b: u32) -> u32
    ensures { result ≡ lesser a b }
{
    if a == 0 {
        b
    } else {
        if b == 0 { a } else { if a < b { a } else { b } }
    }
}

// The place of the state behind the one passed of a card.
pub fn head_place(card: u32, passed: u32) -> usize
    ensures { result ≡ head_place card passed }
{
    base_limits::ring_place(card, passed as usize + 1)
}

// The change number of the next state of card c, and 0 where its end is passed.
fn head_number(changes: &[u32; Limits::FRAMES], c: u32, passed: u32, end: u32) -> u32
    requires { c < 16 }
    ensures { result ≡ head_number (change_at changes.now c) passed end }
{
    if passed < end {
        let place = head_place(c, passed);
        changes[place]
    } else {
        0
    }
}

// The number at the head of each card, and 0 where its end is passed.
pub fn heads(
    changes: &[u32; Limits::FRAMES],
    passed: [u32; Limits::CARDS],
    ends: [u32; Limits::CARDS],
) -> [u32; Limits::CARDS]
    ensures { result ≡ head_numbers changes.now passed ends }
{
    let mut out = [0u32; Limits::CARDS];
    for c in 0..Limits::CARDS {
        let x = head_number(changes, c as u32, passed[c], ends[c]);
        out[c] = x;
    }
    out
}

// The last state of a card that is there; of another, none.
fn end_of(there: bool, last: u32) -> u32
    ensures { result ≡ cond there last 0 }
{
    if there { last } else { 0 }
}

// The last state of each of n cards.
pub fn ends_of(last: [u32; Limits::CARDS], n: u32) -> [u32; Limits::CARDS]
    ensures { result ≡ ends_of last n }
{
    let mut out = [0u32; Limits::CARDS];
    for c in 0..Limits::CARDS {
        let x = end_of(c < n as usize, last[c]);
        out[c] = x;
    }
    out
}

// The least of the cards' numbers, and 0 where there is none.
pub fn least(heads: [u32; Limits::CARDS]) -> u32
    ensures { result ≡ least_of heads }
{
    let mut best: u32 = 0;
    for c in 0..Limits::CARDS {
        let b = lesser(best, heads[c]);
        best = b;
    }
    best
}

// A card brought past the number k, where its head has it.
fn card_past(passed: u32, end: u32, head: u32, k: u32) -> u32
    ensures { result ≡ card_past passed end head k }
{
    if passed < end {
        if head == k { passed + 1 } else { passed }
    } else {
        passed
    }
}

// Each card brought past the number k, by the numbers at their heads.
pub fn past(
    passed: [u32; Limits::CARDS],
    ends: [u32; Limits::CARDS],
    heads: [u32; Limits::CARDS],
    k: u32,
) -> [u32; Limits::CARDS]
    ensures { result ≡ all_past passed ends heads k }
{
    let mut out = [0u32; Limits::CARDS];
    for c in 0..Limits::CARDS {
        let x = card_past(passed[c], ends[c], heads[c], k);
        out[c] = x;
    }
    out
}
