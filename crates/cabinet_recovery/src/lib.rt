// The recovery line from what is in hand, and what fix answers.
#![tactic(auto)]

ghost use Rattle.std.specs.Prelude.{◌+◌, ◌*◌, ◌<◌, ◌≤◌, ◌≡◌, cond, [], ltb};
ghost use Rattle.theory_history.specs.Line.{orphan, line_from};
ghost use Rattle.theory_protocol.specs.Model.{is_card};
ghost use Rattle.theory_protocol.specs.Calls.{lines};
ghost use Rattle.cabinet_layout.specs.Shape.{limits16, at, list_of, ring_frame, head_model, bare, with_numbers, model_of};

use base_limits::Limits;
use base_refusal::Refusal;
use cabinet_layout::Head;

// What the core of fix hands back.
#[derive(Drop)]
pub struct Outcome {
    pub line: [u32; Limits::CARDS],
    pub reply: Result<usize, Refusal>,
}

// "at or above stored": an entry is kept as the number above its state, 0 for none.
fn hits(entry: u32, stored: u32) -> bool
    ensures { result ≡ ltb stored entry }
{
    stored < entry
}

// "A state is hit when some entry of its vector, for card j, is at or above stored of j": the vector that begins at a place of the ring.
fn orphan_from(entries: &[u32; Limits::ENTRIES], stored: [u32; Limits::CARDS], from: usize) -> bool
    requires { from + 16 ≤ 12288 }
    ensures { result ≡ orphan limits16.width (at stored) (λ j. at entries.now (from + j)) }
{
    // every entry is looked at, so that several are compared at once
    let mut hit = false;
    for j in 0..Limits::CARDS {
        hit |= hits(entries[from + j], stored[j]);
    }
    hit
}

// State x of the card is an orphan.
fn is_orphan(
    entries: &[u32; Limits::ENTRIES],
    stored: [u32; Limits::CARDS],
    card: u32,
    x: u32,
) -> bool
    requires { card < 16 }
    ensures { result ≡ orphan limits16.width (at stored) (ring_frame entries.now card x) }
{
    let place = base_limits::ring_place(card, x as usize);
    orphan_from(entries, stored, place * Limits::CARDS)
}

// "The line of a card is its greatest state, from base to reached, with no hit from base + 1 up to it."
fn climbed(
    entries: &[u32; Limits::ENTRIES],
    stored: [u32; Limits::CARDS],
    card: u32,
    base: u32,
    reached: u32,
) -> u32
    requires { card < 16 }
    ensures { result ≡ line_from limits16.width (at stored) (ring_frame entries.now card) base reached }
{
    for x in base..reached {
        if is_orphan(entries, stored, card, x + 1) {
            return x;
        }
    }
    base.max(reached)
}

// The line of a card whose numbers are base and reached; of a card that is not there, its base.
pub fn line_of(
    entries: &[u32; Limits::ENTRIES],
    head: Head,
    stored: [u32; Limits::CARDS],
    card: u32,
    base: u32,
    reached: u32,
) -> u32
    ensures { result ≡ cond (is_card limits16 (head_model head) card) (line_from limits16.width (at stored) (ring_frame entries.now card) base reached) base }
{
    if (card < Limits::CARDS_U32) & (card < head.cards) {
        climbed(entries, stored, card, base, reached)
    } else {
        base
    }
}

// The line of each card; of a card that is not there, its base.
pub fn lines(
    entries: &[u32; Limits::ENTRIES],
    head: Head,
    base: [u32; Limits::CARDS],
    stored: [u32; Limits::CARDS],
    reached: [u32; Limits::CARDS],
) -> [u32; Limits::CARDS]
    ensures { result ≡ list_of (lines limits16 (model_of entries.now [] (with_numbers (bare head) base stored [] reached))) }
{
    let mut out = [0u32; Limits::CARDS];
    for c in 0..Limits::CARDS {
        out[c] = line_of(entries, head, stored, c as u32, base[c], reached[c]);
    }
    out
}
