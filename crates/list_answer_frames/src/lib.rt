// How the answer to a look at a card's frames is written: what its states in hand hang on.
#![tactic(auto)]

ghost use Rattle.std.specs.Prelude.{suc, ◌+◌, ◌-◌, ◌≤◌, ◌<◌, ◌≡◌};
ghost use Rattle.base_laws.specs.Below.{tabulate};
ghost use Rattle.cabinet_layout.specs.Shape.{limits16, model_of};
ghost use Rattle.base_text.specs.Put.{Put};
ghost use Rattle.base_lines.specs.Lines.{joined};
ghost use Rattle.list_answer_frames.specs.Frames.{frames_answer, ring_text};

use base_limits::Limits;
use base_refusal::Refusal;
use base_text::Progress;
use cabinet_layout::Core;
use cabinet_replies::is_card;

// The lines of so many states above a card's base, as the ring has them.
fn put_states(
    b: &mut [u8],
    w: Progress,
    entries: &[u32; Limits::ENTRIES],
    changes: &[u32; Limits::FRAMES],
    cards: u32,
    card: u32,
    base: u32,
    count: u32,
) -> Progress
    requires { (card < 16) × (base + count ≤ 4294967295) }
    ensures { Put b.old w (joined (tabulate count (λ k. ring_text changes.now entries.now cards card (suc (base + k))))) result b.new }
{
    let mut at = w;
    for k in 0..count {
        let state = base + 1 + k;
        let f = sheet_page_writer::frame_of(changes, entries, card, state);
        at = list_answer_entries::put_frame(b, at, cards, state, f);
    }
    at
}

// What the states in hand of a card hang on: 28, 2, or a line for each of them.
pub fn put_frames(
    b: &mut [u8],
    w: Progress,
    entries: &[u32; Limits::ENTRIES],
    changes: &[u32; Limits::FRAMES],
    core: Core,
    card: u32,
) -> Progress
    ensures { Put b.old w (frames_answer limits16 (model_of entries.now changes.now core) card) result b.new }
{
    if !cabinet_valid::cabinet_valid(entries, changes, core) {
        return list_answer_words::put_refusal(b, w, Refusal::BadCabinet);
    }
    if !is_card(core.head, card) {
        return list_answer_words::put_refusal(b, w, Refusal::NoSuchCard);
    }
    let base = cabinet_layout::at(core.base, card);
    let count = cabinet_layout::at(core.reached, card).saturating_sub(base);
    let w = base_lines::put_line(b, w, b"frames", &[count]);
    put_states(b, w, entries, changes, core.head.cards, card, base, count)
}
