// What the check for refusal 28 says of the frames of a card, in their ring.
#![tactic(auto)]

ghost use Rattle.std.specs.Prelude.{◌+◌, ◌*◌, ◌<◌, ◌≤◌, ◌≡◌, not, ◌&&◌, cond, eqb, leb, ltb};
ghost use Rattle.base_laws.specs.Below.{all_below};
ghost use Rattle.theory_protocol.specs.Model.{up};
ghost use Rattle.theory_protocol.specs.Valid.{entries_valid, frames_valid};
ghost use Rattle.cabinet_layout.specs.Shape.{limits16, at, present_of, ring, numbers_of, part_of};

use base_limits::Limits;

// "an entry outside the limits .., an entry of an absent card that isn't none": the vector of a frame.
fn frame_entries_valid(entries: &[u32; Limits::ENTRIES], from: usize, cards: usize) -> bool
    requires { from + 16 ≤ 12288 }
    ensures { result ≡ entries_valid limits16 (present_of cards) (λ j. at entries.now (from + j)) }
{
    // every entry is looked at, so that several are compared at once
    let mut ok = true;
    for j in 0..Limits::CARDS {
        ok &= entries[from + j] <= cabinet_numbers::top(j < cards);
    }
    ok
}

// "a kept frame that breaks 9": the frame of state x of card c, by itself, at its place in the ring.
fn frame_valid<'a>(
    entries: &'a [u32; Limits::ENTRIES],
    changes: &'a [u32; Limits::FRAMES],
    c: usize,
    place: usize,
    x: u32,
    cards: usize,
) -> bool
    requires { (c < 16) × (place < 768) }
    ensures { result ≡ not (eqb (at changes.now place) 0) && eqb (at entries.now (place * 16 + c)) x && entries_valid limits16 (present_of cards) (λ j. at entries.now (place * 16 + j)) }
{
    let from = place * Limits::CARDS;
    let whole = frame_entries_valid(entries, from, cards);
    (changes[place] != 0) & (entries[from + c] == x) & whole
}

// "an entry falling from frame to frame": no entry of the frame at one place is above that of the frame at the next.
fn rising_entries(entries: &[u32; Limits::ENTRIES], from: usize, next: usize) -> bool
    requires { (from + 16 ≤ 12288) × (next + 16 ≤ 12288) }
    ensures { result ≡ all_below limits16.width (λ j. leb (at entries.now (from + j)) (at entries.now (next + j))) }
{
    let mut ok = true;
    for j in 0..Limits::CARDS {
        ok &= entries[from + j] <= entries[next + j];
    }
    ok
}

// "change .. not rising, .. an entry falling": the frames at two places of the ring, one after the other.
fn rises_valid<'a>(
    entries: &'a [u32; Limits::ENTRIES],
    changes: &'a [u32; Limits::FRAMES],
    place: usize,
    next: usize,
) -> bool
    requires { (place < 768) × (next < 768) }
    ensures { result ≡ ltb (at changes.now place) (at changes.now next) && all_below limits16.width (λ j. leb (at entries.now (place * 16 + j)) (at entries.now (next * 16 + j))) }
{
    let whole = rising_entries(entries, place * Limits::CARDS, next * Limits::CARDS);
    (changes[place] < changes[next]) & whole
}

// The last of the 48 places of a card.
const LAST_PLACE: u32 = Limits::IN_HAND_U32 - 1;

// The place after this one among the 48 of a card: the first comes after the last.
fn after(slot: u32) -> u32
    ensures { result ≡ cond (ltb slot 47) (slot + 1) 0 }
{
    if slot < LAST_PLACE { slot + 1 } else { 0 }
}

// The frames of card c, from base + 1 to reached.
pub fn frames_valid<'a>(
    entries: &'a [u32; Limits::ENTRIES],
    changes: &'a [u32; Limits::FRAMES],
    c: usize,
    base: u32,
    reached: u32,
    cards: usize,
) -> bool
    requires { (c < 16) × (base ≤ reached) × (reached ≤ 60000) }
    ensures { result ≡ frames_valid limits16 (part_of cards up (numbers_of base 0 0 reached) (ring entries.now changes.now) 0) c }
{
    let n = reached - base;
    let first = c * Limits::IN_HAND;
    // a loop, not `all`: the place among the 48 is carried along from state to state
    let mut ok = true;
    let mut slot = base % Limits::IN_HAND_U32;
    for k in 0..n {
        let x = base + k + 1;
        let place = first + slot as usize;
        slot = after(slot);
        let next = first + slot as usize;
        let frame = frame_valid(entries, changes, c, next, x, cards);
        let rises = rises_valid(entries, changes, place, next);
        ok &= frame & ((k == 0) | rises);
    }
    ok
}
