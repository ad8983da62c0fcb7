// Open changes in their eight slots.
#![tactic(auto)]

ghost use Rattle.std.specs.Prelude.{◌≡◌, not, ◌&&◌, eqb};
ghost use Rattle.base_laws.specs.Below.{first_below};
ghost use Rattle.theory_protocol.specs.Model.{is_open, awaits_write};
ghost use Rattle.cabinet_layout.specs.Shape.{limits16, open_of, open_at};

use base_limits::Limits;
use cabinet_layout::Slot;

// The change in slot p; a free slot where there is no slot p.
pub fn slot_at(slots: [Slot; Limits::SLOTS], p: usize) -> Slot
    ensures { open_of result ≡ open_at slots p }
{
    match slots.get(p) {
        Some(o) => *o,
        None => cabinet_layout::free_slot(),
    }
}

// The first slot whose open change has that number, and 8 where there is none.
pub fn slot_of(slots: [Slot; Limits::SLOTS], k: u32) -> usize
    ensures { result ≡ first_below limits16.slots (λ p. is_open (open_at slots p) && eqb (open_at slots p).change.number k) }
{
    slots
        .iter()
        .position(|o| (o.number != 0) & (o.number == k))
        .unwrap_or(Limits::SLOTS)
}

// The first free slot, and 8 where there is none.
pub fn free_at(slots: [Slot; Limits::SLOTS]) -> usize
    ensures { result ≡ first_below limits16.slots (λ p. not (is_open (open_at slots p))) }
{
    slots
        .iter()
        .position(|o| o.number == 0)
        .unwrap_or(Limits::SLOTS)
}

// The change has yet to write a card.
pub fn awaits_write(o: Slot) -> bool
    ensures { result ≡ awaits_write limits16 (open_of o) }
{
    let left = base_bits::difference(o.writes, o.taken);
    let none = base_bits::is_empty(left);
    !none
}
