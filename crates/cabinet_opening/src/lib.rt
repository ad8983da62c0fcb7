// 1. open: its verdict, and the change that it puts into a slot.
#![tactic(auto)]

ghost use Rattle.std.specs.Prelude.{◌≡◌, not};
ghost use Rattle.base_bits.specs.Member.{member};
ghost use Rattle.theory_protocol.specs.Calls.{open_checks, opened_change};
ghost use Rattle.cabinet_layout.specs.Answers.{first_failing, after28};
ghost use Rattle.cabinet_layout.specs.Shape.{limits16, slots_model, slot_for};

use base_limits::Limits;
use base_refusal::{Refusal, Reply};
use cabinet_bars::{at_top, barred_set, hand_full};
use cabinet_layout::{Head, Slot};
use cabinet_replies::refuse_if;

// 1. open. Trailing zeros name the lowest card that is barred.
pub fn open_verdict(
    valid: bool,
    head: Head,
    all: [Slot; Limits::SLOTS],
    base: [u32; Limits::CARDS],
    reached: [u32; Limits::CARDS],
    reads: u16,
    writes: u16,
) -> Reply
    ensures { result ≡ first_failing (after28 (not valid) (open_checks limits16 (slots_model head all base reached) (member reads) (member writes))) }
{
    refuse_if(!valid, Refusal::BadCabinet)?;
    let inside_r = base_set_bounds::within(reads, head.cards);
    let inside_w = base_set_bounds::within(writes, head.cards);
    refuse_if(!inside_r | !inside_w, Refusal::NoSuchCard)?;
    let none_r = base_bits::is_empty(reads);
    let none_w = base_bits::is_empty(writes);
    refuse_if(none_r & none_w, Refusal::BothSetsEmpty)?;
    let up = cabinet_layout::is_up(head.phase);
    refuse_if(!up, Refusal::WrongPhase)?;
    let barred = barred_set(all, reads, writes);
    let free = base_bits::is_empty(barred);
    let named = base_set_bounds::lowest(barred);
    refuse_if(!free, Refusal::Barred(named))?;
    let p = cabinet_slots::free_at(all);
    refuse_if(p >= Limits::SLOTS, Refusal::NoSlot)?;
    let full = hand_full(writes, base, reached);
    refuse_if(full, Refusal::InHandFull)?;
    let top = at_top(writes, reached);
    refuse_if(
        top | (Limits::GREATEST_NUMBER <= head.latest),
        Refusal::LimitReached,
    )
}

// The change that an opening puts into its slot.
pub fn opened(k: u32, reads: u16, writes: u16) -> Slot
    ensures { result ≡ slot_for (opened_change k (member reads) (member writes)) }
{
    Slot {
        number: k,
        reads,
        writes,
        ..cabinet_layout::free_slot()
    }
}
