// 8. lose: what it writes into a cabinet's lists.
#![tactic(auto)]

ghost use Rattle.std.specs.Prelude.{◌≡◌, cond};
ghost use Rattle.base_laws.specs.Below.{tabulate};
ghost use Rattle.base_bits.specs.Member.{member};
ghost use Rattle.theory_protocol.specs.Edit.{remembered};
ghost use Rattle.theory_protocol.specs.Model.{free_slot};
ghost use Rattle.cabinet_layout.specs.Shape.{limits16, at, list_of, open_at, slot_for};

use base_limits::Limits;
use cabinet_layout::Slot;

// The first number where the test passes, and the second where it fails.
fn pick(first: bool, a: u32, b: u32) -> u32
    ensures { result ≡ cond first a b }
{
    if first { a } else { b }
}

// The held numbers of a set of cards fall to stored.
pub fn fallen(
    held: [u32; Limits::CARDS],
    stored: [u32; Limits::CARDS],
    cards: u16,
) -> [u32; Limits::CARDS]
    ensures { result ≡ list_of (λ c. cond (member cards c) (at stored c) (at held c)) }
{
    let mut out = [0u32; Limits::CARDS];
    for c in 0..Limits::CARDS {
        let lost = base_bits::has(cards, c as u32);
        out[c] = pick(lost, stored[c], held[c]);
    }
    out
}

// Eight free slots.
pub fn no_slots() -> [Slot; Limits::SLOTS]
    ensures { result ≡ tabulate limits16.slots (λ p. slot_for free_slot) }
{
    [cabinet_layout::free_slot(); Limits::SLOTS]
}

// By slot, the number that a change is remembered by when a loss ends it.
pub fn ended_numbers(slots: [Slot; Limits::SLOTS]) -> [u32; Limits::SLOTS]
    ensures { result ≡ tabulate limits16.slots (λ p. remembered limits16 (open_at slots p)) }
{
    let mut out = [0u32; Limits::SLOTS];
    for p in 0..Limits::SLOTS {
        out[p] = cabinet_awaited::remembered_number(slots[p]);
    }
    out
}
