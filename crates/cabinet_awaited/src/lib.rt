// The cards that an open change awaits: votes, and shares to be taken.
#![tactic(auto)]

ghost use Rattle.std.specs.Prelude.{◌≡◌, not, ◌&&◌, ◌||◌};
ghost use Rattle.base_laws.specs.Below.{count_below};
ghost use Rattle.base_bits.specs.Member.{member};
ghost use Rattle.theory_history.specs.Change.{touches};
ghost use Rattle.theory_protocol.specs.Model.{decided};
ghost use Rattle.theory_protocol.specs.Edit.{remembered};
ghost use Rattle.theory_protocol.specs.Calls.{took_share};
ghost use Rattle.cabinet_layout.specs.Shape.{limits16, open_of, slot_for};

use cabinet_layout::Slot;
use cabinet_slots::awaits_write;

// How many of the cards that a change touches are not in the set: "count of ones gives awaited votes".
pub fn awaited(reads: u16, writes: u16, have: u16) -> u32
    ensures { result ≡ count_below limits16.width (λ c. (member reads c || member writes c) && not (member have c)) }
{
    let touched = base_bits::union(reads, writes);
    let left = base_bits::difference(touched, have);
    base_set_bounds::count(left)
}

pub fn is_decided(o: Slot) -> bool
    ensures { result ≡ decided limits16 (open_of o) }
{
    awaited(o.reads, o.writes, o.yes) == 0
}

// Card c is touched by the change and not in the set.
pub fn is_awaited(o: Slot, have: u16, c: u32) -> bool
    ensures { result ≡ (touches (open_of o).change c && not (member have c)) }
{
    let read = base_bits::has(o.reads, c);
    let written = base_bits::has(o.writes, c);
    let done = base_bits::has(have, c);
    (read | written) & !done
}

// The number that a slot is remembered by when a loss ends it.
pub fn remembered_number(o: Slot) -> u32
    ensures { result ≡ remembered limits16 (open_of o) }
{
    if (o.number != 0) & is_decided(o) & awaits_write(o) {
        o.number
    } else {
        0
    }
}

// The change after card c took its share: closed after the last one.
pub fn took(o: Slot, c: u32) -> Slot
    ensures { result ≡ slot_for (took_share limits16 (open_of o) c) }
{
    let taken = base_bits::with(o.taken, c);
    if awaited(o.reads, o.writes, taken) == 0 {
        cabinet_layout::free_slot()
    } else {
        Slot { taken, ..o }
    }
}
