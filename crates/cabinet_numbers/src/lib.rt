// What refusal 28 says of numbers by themselves: session, number of cards, state numbers, entries, room to write.
#![tactic(auto)]

ghost use Rattle.std.specs.Prelude.{◌≡◌, cond};
ghost use Rattle.theory_protocol.specs.Valid.{session_valid, cards_valid, numbers_valid, entries_valid, room_to_write};
ghost use Rattle.cabinet_layout.specs.Shape.{limits16, at, present_of, numbers_of, head_model};

use base_limits::Limits;
use cabinet_layout::{Head, is_rolling};

// "session 0 (while rolling also 4,294,967,295)"
pub fn session_valid(head: Head) -> bool
    ensures { result ≡ session_valid limits16 (head_model head) }
{
    let rolling = is_rolling(head.phase);
    (head.session != 0) & !(rolling & (head.session == Limits::GREATEST_NUMBER))
}

// "a number of cards .. outside the limits"
pub fn cards_valid(head: Head) -> bool
    ensures { result ≡ cards_valid limits16 (head_model head) }
{
    (1 <= head.cards) & (head.cards <= Limits::CARDS_U32)
}

// "a .. state number .. outside the limits"
pub fn numbers_valid(base: u32, stored: u32, held: u32, reached: u32) -> bool
    ensures { result ≡ numbers_valid limits16 (numbers_of base stored held reached) 0 }
{
    let hand = (reached as u64) <= (base as u64) + Limits::IN_HAND_U64;
    (base <= stored)
        & (stored <= held)
        & (held <= reached)
        & hand
        & (reached <= Limits::GREATEST_STATE)
}

// The greatest dependency that an entry may hold: none for an absent card.
pub fn top(there: bool) -> u32
    ensures { result ≡ cond there limits16.greatest_state 0 }
{
    if there { Limits::GREATEST_STATE } else { 0 }
}

// "an entry outside the limits .., an entry of an absent card that isn't none": a vector of a cabinet of so many cards.
pub fn entries_valid(v: [u32; Limits::CARDS], cards: usize) -> bool
    ensures { result ≡ entries_valid limits16 (present_of cards) (at v) }
{
    // every entry is looked at, so that several are compared at once
    let mut ok = true;
    for j in 0..Limits::CARDS {
        ok &= v[j] <= top(j < cards);
    }
    ok
}

// A card may be written: not "at base + 48 or 60,000".
pub fn room(base: u32, reached: u32) -> bool
    ensures { result ≡ room_to_write limits16 (numbers_of base 0 0 reached) 0 }
{
    ((reached as u64) < (base as u64) + Limits::IN_HAND_U64) & (reached < Limits::GREATEST_STATE)
}
