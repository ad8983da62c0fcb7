// What a restart works out of a read-out's lists: the vectors of the last frames, the cards that count as rolled.
#![tactic(auto)]

ghost use Rattle.std.specs.Prelude.{◌<◌, ◌≡◌, cond, ltb};
ghost use Rattle.base_laws.specs.Below.{tabulate};
ghost use Rattle.base_bits.specs.Member.{member};
ghost use Rattle.base_bits.specs.Sets.{either, one, truncate};
ghost use Rattle.theory_history.specs.Vector.{no_entries};
ghost use Rattle.cabinet_layout.specs.Shape.{limits16, at, list_of, set_of, vector_for, ring_frame};

use base_limits::Limits;
use cabinet_layout::Vector;

// The vector of state x of a card.
fn vector_of(entries: &[u32; Limits::ENTRIES], card: usize, x: u32) -> [u32; Limits::CARDS]
    requires { card < 16 }
    ensures { result ≡ list_of (ring_frame entries.now card x) }
{
    let place = base_limits::ring_place(card as u32, x as usize);
    base_rows::row_at(entries, place)
}

// "last and pending are those of the card's last frame or all none"
fn last_vector(entries: &[u32; Limits::ENTRIES], card: usize, base: u32, stored: u32) -> Vector
    requires { card < 16 }
    ensures { result ≡ vector_for (cond (ltb base stored) (ring_frame entries.now card stored) no_entries) }
{
    if base < stored {
        Vector {
            entries: vector_of(entries, card, stored),
        }
    } else {
        Vector {
            entries: [0u32; Limits::CARDS],
        }
    }
}

// The vector of each card's last frame.
pub fn last_vectors(
    entries: &[u32; Limits::ENTRIES],
    base: [u32; Limits::CARDS],
    stored: [u32; Limits::CARDS],
) -> [Vector; Limits::CARDS]
    ensures { result ≡ tabulate limits16.width (λ c. vector_for (cond (ltb (at base c) (at stored c)) (ring_frame entries.now c (at stored c)) no_entries)) }
{
    let none = Vector {
        entries: [0u32; Limits::CARDS],
    };
    let mut out = [none; Limits::CARDS];
    for c in 0..Limits::CARDS {
        out[c] = last_vector(entries, c, base[c], stored[c]);
    }
    out
}

// The set, with the card where it is ahead.
fn with_if(set: u16, ahead: bool, card: u32) -> u16
    ensures { member result ≡ cond ahead (truncate 16 (either (member set) (one card))) (member set) }
{
    if ahead {
        base_bits::with(set, card)
    } else {
        set
    }
}

// "cards one session ahead count as rolled"
pub fn rolled_cards(sessions: [u32; Limits::CARDS], low: u32) -> u16
    ensures { result ≡ set_of (λ c. ltb low (at sessions c)) }
{
    let mut rolled: u16 = 0;
    for c in 0..Limits::CARDS_U32 {
        rolled = with_if(rolled, low < sessions[c as usize], c);
    }
    rolled
}
