// The writes that run (document 02, wish 5): up to which state one goes, what refusal 28 says of them, and whether there is one.
#![tactic(auto)]

ghost use Rattle.std.specs.Prelude.{◌-◌, ◌≡◌, []};
ghost use Rattle.base_laws.specs.Below.{all_below};
ghost use Rattle.theory_protocol.specs.Valid.{write_valid};
ghost use Rattle.theory_protocol.specs.Calls.{some_writing};
ghost use Rattle.cabinet_layout.specs.Shape.{limits16, writes_model};

use base_limits::Limits;
use cabinet_layout::{Head, is_rolling};

// The state up to which a write goes that is held as the state plus one; 0 where none runs.
pub fn writes_to(writing: u32) -> u32
    ensures { result ≡ writing - 1 }
{
    writing.saturating_sub(1)
}

// "A running s outside stored to reached, or a write running in phase rolling", of each card that is there.
pub fn writes_valid(
    head: Head,
    stored: [u32; Limits::CARDS],
    reached: [u32; Limits::CARDS],
    writing: [u32; Limits::CARDS],
) -> bool
    ensures { result ≡ all_below limits16.width (write_valid (writes_model head stored [] reached writing)) }
{
    let rolling = is_rolling(head.phase);
    let cards = head.cards as usize;
    (0..Limits::CARDS).all(|c| {
        let s = writes_to(writing[c]);
        let runs = (c < cards) & (writing[c] != 0);
        !runs | (!rolling & (stored[c] <= s) & (s <= reached[c]))
    })
}

// "while a write is unreported": a card that is there has a write running.
pub fn some_writing(head: Head, writing: [u32; Limits::CARDS]) -> bool
    ensures { result ≡ some_writing limits16 (writes_model head [] [] [] writing) }
{
    let cards = head.cards as usize;
    (0..Limits::CARDS).any(|c| (c < cards) & (writing[c] != 0))
}
