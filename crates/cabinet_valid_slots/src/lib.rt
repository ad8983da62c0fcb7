// What the check for refusal 28 says of the eight slots.
#![tactic(auto)]

ghost use Rattle.std.specs.Prelude.{◌≡◌, not, ◌||◌, []};
ghost use Rattle.base_laws.specs.Below.{all_below};
ghost use Rattle.theory_protocol.specs.Model.{to_write};
ghost use Rattle.theory_protocol.specs.Valid.{room_to_write, slot_valid};
ghost use Rattle.cabinet_layout.specs.Shape.{limits16, at, numbers_of, open_of, open_at, numbers_model};

use base_limits::Limits;
use cabinet_layout::{Head, Slot};

// Every card that the change has yet to write has room.
fn writes_fit(o: Slot, base: [u32; Limits::CARDS], reached: [u32; Limits::CARDS]) -> bool
    ensures { result ≡ all_below limits16.width (λ c. not (to_write (open_of o) c) || room_to_write limits16 (numbers_of (at base c) 0 0 (at reached c)) 0) }
{
    (0..Limits::CARDS).all(|c| {
        let written = base_bits::has(o.writes, c as u32);
        let taken = base_bits::has(o.taken, c as u32);
        !(written & !taken) | cabinet_numbers::room(base[c], reached[c])
    })
}

// An open change "that touches an absent card or has yet to write a card at base + 48 or 60,000", or whose vector is outside the limits, is not. A free slot is.
fn slot_valid(
    o: Slot,
    base: [u32; Limits::CARDS],
    reached: [u32; Limits::CARDS],
    head: Head,
) -> bool
    ensures { result ≡ slot_valid limits16 (numbers_model head base [] [] reached) (open_of o) }
{
    if o.number == 0 {
        return true;
    }
    let touched = base_bits::union(o.reads, o.writes);
    let inside = base_set_bounds::within(touched, head.cards);
    let fit = writes_fit(o, base, reached);
    let entries = cabinet_numbers::entries_valid(o.vector, head.cards as usize);
    inside & fit & entries
}

// Every slot is valid.
pub fn all_slots_valid(
    slots: [Slot; Limits::SLOTS],
    base: [u32; Limits::CARDS],
    reached: [u32; Limits::CARDS],
    head: Head,
) -> bool
    ensures { result ≡ all_below limits16.slots (λ p. slot_valid limits16 (numbers_model head base [] [] reached) (open_at slots p)) }
{
    slots.iter().all(|o| slot_valid(*o, base, reached, head))
}
