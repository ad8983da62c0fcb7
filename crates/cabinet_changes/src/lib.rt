// 2. vote: what it makes of a change.
#![tactic(auto)]

ghost use Rattle.std.specs.Prelude.{ℕ, ◌<◌, ◌≡◌, true};
ghost use Rattle.base_bits.specs.Member.{member};
ghost use Rattle.theory_protocol.specs.Calls.{voted_yes, voted};
ghost use Rattle.cabinet_layout.specs.Shape.{limits16, at, open_of, slot_for};
ghost use Rattle.cabinet_changes.specs.Standing.{standing};

use base_limits::Limits;
use cabinet_layout::{Slot, Vector};

// The change with one yes more, and with its vector where that decides it.
fn with_yes(
    o: Slot,
    c: u32,
    reached: [u32; Limits::CARDS],
    last: [Vector; Limits::CARDS],
    pending: [Vector; Limits::CARDS],
) -> Slot
    requires { (c : ℕ) → c < 16 → member o.writes c ≡ true → at reached c < 4294967295 }
    ensures { result ≡ slot_for (voted_yes limits16 (standing reached last pending) (open_of o) c) }
{
    let yes = base_bits::with(o.yes, c);
    if cabinet_awaited::awaited(o.reads, o.writes, yes) == 0 {
        let vector = cabinet_vectors::decision(o, reached, last, pending);
        Slot { yes, vector, ..o }
    } else {
        Slot { yes, ..o }
    }
}

// The change after a vote: "A no ends the change."
pub fn after_vote(
    o: Slot,
    c: u32,
    agrees: bool,
    reached: [u32; Limits::CARDS],
    last: [Vector; Limits::CARDS],
    pending: [Vector; Limits::CARDS],
) -> Slot
    requires { (c : ℕ) → c < 16 → member o.writes c ≡ true → at reached c < 4294967295 }
    ensures { result ≡ slot_for (voted limits16 (standing reached last pending) (open_of o) c agrees) }
{
    if agrees {
        with_yes(o, c, reached, last, pending)
    } else {
        cabinet_layout::free_slot()
    }
}
