// The frame that a take makes, at its place in the ring.
#![tactic(auto)]

ghost use Rattle.std.specs.Prelude.{◌*◌, ◌≡◌, not, ◌&&◌, cond, eqb, ltb, set};
ghost use Rattle.std.proofs.lemmas.List.Edits.{sets};
ghost use Rattle.base_limits.specs.Ring.{ring_place};
ghost use Rattle.cabinet_layout.specs.Shape.{at, list_of};
ghost use Rattle.cabinet_plans.specs.Plans.{is_made};

use base_limits::Limits;
use cabinet_layout::Vector;

// A state was made, and the ring has that place.
fn is_made(place: usize, state: u32) -> bool
    ensures { result ≡ (not (eqb state 0) && ltb place 768) }
{
    (state != 0) & (place < Limits::FRAMES)
}

// The vector of a state that a card has made; nothing with state 0, and nothing of a card above 15.
pub fn put_vector(entries: &mut [u32; Limits::ENTRIES], card: u32, state: u32, v: Vector)
    ensures { entries.new ≡ cond (is_made card state) (sets entries.old (ring_place card state * 16) (list_of (at v.entries))) entries.old }
{
    let place = base_limits::ring_place(card, state as usize);
    if is_made(place, state) {
        base_rows::put_row(entries, place, v.entries);
    }
}

// The change that made a state of a card; nothing with state 0, and nothing of a card above 15.
pub fn put_change(changes: &mut [u32; Limits::FRAMES], card: u32, state: u32, change: u32)
    ensures { changes.new ≡ cond (is_made card state) (set changes.old (ring_place card state) change) changes.old }
{
    let place = base_limits::ring_place(card, state as usize);
    if is_made(place, state) {
        changes[place] = change;
    }
}
