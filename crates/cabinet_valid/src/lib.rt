// The check for refusal 28: what a cabinet must be, level by level.
#![tactic(auto)]

ghost use Rattle.std.specs.Prelude.{◌<◌, ◌≡◌, not, ◌&&◌, ◌||◌, cond, []};
ghost use Rattle.base_laws.specs.Below.{all_below};
ghost use Rattle.theory_protocol.specs.Valid.{entries_valid, line_valid, card_valid, valid};
ghost use Rattle.cabinet_layout.specs.Shape.{limits16, phase_of, at, present_of, ring, numbers_of, part_of, model_of, there_valid};

use base_limits::Limits;
use cabinet_layout::{Core, Head, Phase, is_rolling};
use cabinet_valid_frames::frames_valid;
use cabinet_valid_slots::all_slots_valid;
use cabinet_writes::writes_valid;

// "while rolling a fixed line outside base to stored"
fn line_valid(phase: Phase, base: u32, stored: u32, line: u32) -> bool
    ensures { result ≡ line_valid (part_of 0 (phase_of phase) (numbers_of base stored 0 0) (ring [] []) line) 0 }
{
    !is_rolling(phase) | ((base <= line) & (line <= stored))
}

// The numbers, the fixed line and the frames of a card that is there.
fn there_valid<'a>(
    entries: &'a [u32; Limits::ENTRIES],
    changes: &'a [u32; Limits::FRAMES],
    head: Head,
    c: usize,
    base: u32,
    stored: u32,
    held: u32,
    reached: u32,
    line: u32,
) -> bool
    requires { c < 16 }
    ensures { result ≡ there_valid (part_of head.cards (phase_of head.phase) (numbers_of base stored held reached) (ring entries.now changes.now) line) c }
{
    let numbers = cabinet_numbers::numbers_valid(base, stored, held, reached);
    let fixed = line_valid(head.phase, base, stored, line);
    if numbers {
        let cards = head.cards as usize;
        let frames = frames_valid(entries, changes, c, base, reached, cards);
        fixed & frames
    } else {
        false
    }
}

// The cards that may have entries in the vectors of a card: none, where the card itself is not there.
fn seen(there: bool, cards: usize) -> usize
    ensures { result ≡ cond there cards 0 }
{
    if there { cards } else { 0 }
}

// What is looked at of card c: its two vectors, its numbers and its frames.
fn card_valid<'a>(
    entries: &'a [u32; Limits::ENTRIES],
    changes: &'a [u32; Limits::FRAMES],
    last: [u32; Limits::CARDS],
    pending: [u32; Limits::CARDS],
    base: u32,
    stored: u32,
    held: u32,
    reached: u32,
    line: u32,
    head: Head,
    c: usize,
) -> bool
    requires { c < 16 }
    ensures { result ≡ entries_valid limits16 (λ j. present_of head.cards c && present_of head.cards j) (at last) && entries_valid limits16 (λ j. present_of head.cards c && present_of head.cards j) (at pending) && (not (present_of head.cards c) || there_valid (part_of head.cards (phase_of head.phase) (numbers_of base stored held reached) (ring entries.now changes.now) line) c) }
{
    let cards = head.cards as usize;
    let there = c < cards;
    let n = seen(there, cards);
    let lasts = cabinet_numbers::entries_valid(last, n);
    let pendings = cabinet_numbers::entries_valid(pending, n);
    let whole = there_valid(entries, changes, head, c, base, stored, held, reached, line);
    lasts & pendings & (!there | whole)
}

fn all_cards_valid<'a>(
    entries: &'a [u32; Limits::ENTRIES],
    changes: &'a [u32; Limits::FRAMES],
    core: Core,
) -> bool
    ensures { result ≡ all_below limits16.width (card_valid limits16 (model_of entries.now changes.now core)) }
{
    let last = core.last;
    let pending = core.pending;
    let base = core.base;
    let stored = core.stored;
    let held = core.held;
    let reached = core.reached;
    let line = core.line;
    let head = core.head;
    // a loop, not `all`: in the closure the proof lacks that c is below 16, which two lists of vectors need
    let mut ok = true;
    for c in 0..Limits::CARDS {
        let l = last[c].entries;
        let p = pending[c].entries;
        ok &= card_valid(
            entries, changes, l, p, base[c], stored[c], held[c], reached[c], line[c], head, c,
        );
    }
    ok
}

// A cabinet that is not refused with 28.
pub fn cabinet_valid<'a>(
    entries: &'a [u32; Limits::ENTRIES],
    changes: &'a [u32; Limits::FRAMES],
    core: Core,
) -> bool
    ensures { result ≡ valid limits16 (model_of entries.now changes.now core) }
{
    let slots = core.slots;
    let base = core.base;
    let stored = core.stored;
    let reached = core.reached;
    let writing = core.writing;
    let head = core.head;
    let session = cabinet_numbers::session_valid(head);
    let number = cabinet_numbers::cards_valid(head);
    let cards = all_cards_valid(entries, changes, core);
    let open = all_slots_valid(slots, base, reached, head);
    let writes = writes_valid(head, stored, reached, writing);
    session & number & cards & open & writes
}
