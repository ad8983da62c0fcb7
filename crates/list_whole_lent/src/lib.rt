// The answers told out of lists, each written whole or not at all.
#![tactic(auto)]

ghost use Rattle.std.specs.Prelude.{take};
ghost use Rattle.cabinet_layout.specs.Shape.{limits16, model_of};
ghost use Rattle.cabinet_recovery.specs.Fix.{fix_reply_of};
ghost use Rattle.cabinet_sheet.specs.Card.{sheet_reply_of};
ghost use Rattle.base_text.specs.Put.{Whole};
ghost use Rattle.list_answers.specs.Texts.{reply_text};
ghost use Rattle.list_answer_show.specs.Show.{show_text};
ghost use Rattle.list_answer_frames.specs.Frames.{frames_answer};

use base_limits::Limits;
use base_refusal::Refusal;
use base_text::Progress;
use cabinet_layout::{Core, Head};
use list_whole_words::whole;

// The answer of fix.
pub fn put_fix(
    b: &mut [u8],
    w: Progress,
    cards: u32,
    stored: [u32; Limits::CARDS],
    line: [u32; Limits::CARDS],
    list: [u32; Limits::MOST_LOST],
    places: usize,
    r: Result<usize, Refusal>,
) -> Progress
    ensures { Whole b.old w (reply_text (fix_reply_of cards stored line (take places list) r)) result b.new }
{
    whole(
        b,
        w,
        |b, w| list_answer_fix::put_fix(b, w, cards, stored, line, list, places, r),
    )
}

// The answer of sheet writing.
pub fn put_sheet(
    b: &mut [u8],
    w: Progress,
    sheet: &[u8; Limits::LONGEST],
    places: usize,
    r: Result<usize, Refusal>,
) -> Progress
    ensures { Whole b.old w (reply_text (sheet_reply_of (take places sheet.now) r)) result b.new }
{
    whole(
        b,
        w,
        |b, from| list_answer_sheet::put_sheet(b, from, sheet, places, r),
    )
}

// What a cabinet is.
pub fn put_show(
    b: &mut [u8],
    w: Progress,
    head: Head,
    base: [u32; Limits::CARDS],
    stored: [u32; Limits::CARDS],
    held: [u32; Limits::CARDS],
    reached: [u32; Limits::CARDS],
    writing: [u32; Limits::CARDS],
) -> Progress
    ensures { Whole b.old w (show_text head base stored held reached writing) result b.new }
{
    whole(
        b,
        w,
        |b, w| list_answer_show::put_show(b, w, head, base, stored, held, reached, writing),
    )
}

// What the states in hand of a card hang on.
pub fn put_frames(
    b: &mut [u8],
    w: Progress,
    entries: &[u32; Limits::ENTRIES],
    changes: &[u32; Limits::FRAMES],
    core: Core,
    card: u32,
) -> Progress
    ensures { Whole b.old w (frames_answer limits16 (model_of entries.now changes.now core) card) result b.new }
{
    whole(
        b,
        w,
        |b, w| list_answer_frames::put_frames(b, w, entries, changes, core, card),
    )
}
