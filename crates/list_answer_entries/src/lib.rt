// How the line of a state is written: its change, and the entries of its vector.
#![tactic(auto)]

ghost use Rattle.std.specs.Prelude.{cond, []};
ghost use Rattle.base_laws.specs.Below.{selected};
ghost use Rattle.cabinet_layout.specs.Shape.{limits16, at, present_of};
ghost use Rattle.base_text.specs.Put.{Put};
ghost use Rattle.list_answer_entries.specs.Entries.{entry_text, entries_text, frame_text};

use base_limits::Limits;
use base_text::Progress;
use sheet_lines::Frame;

// The entry of a card that the cabinet has: its state, none written `-`.
fn put_entry(b: &mut [u8], w: Progress, there: bool, entry: u32) -> Progress
    ensures { Put b.old w (cond there (entry_text entry) []) result b.new }
{
    if !there {
        return w;
    }
    if entry == 0 {
        return base_text::put(b, w, b" -");
    }
    base_lines::put_numbers(b, w, &[entry - 1])
}

// The entries of a vector, one for each card of the cabinet.
fn put_entries(b: &mut [u8], w: Progress, cards: u32, vector: [u32; Limits::CARDS]) -> Progress
    ensures { Put b.old w (entries_text (selected limits16.width (present_of cards) (at vector))) result b.new }
{
    let mut at = w;
    for (j, entry) in vector.iter().enumerate() {
        at = put_entry(b, at, j < cards as usize, *entry);
    }
    at
}

// The line of a state.
pub fn put_frame(b: &mut [u8], w: Progress, cards: u32, state: u32, f: Frame) -> Progress
    ensures { Put b.old w (frame_text state f.change (selected limits16.width (present_of cards) (at f.entries))) result b.new }
{
    let w = base_lines::put_number(b, w, state);
    let w = base_lines::put_numbers(b, w, &[f.change]);
    let w = put_entries(b, w, cards, f.entries);
    base_text::put(b, w, b"\n")
}
