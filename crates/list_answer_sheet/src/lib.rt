// How the answer of sheet writing is written, out of the bytes that were lent.
#![tactic(auto)]

ghost use Rattle.std.specs.Prelude.{[], ◌∷◌, ◌++◌, take};
ghost use Rattle.cabinet_sheet.specs.Card.{sheet_reply_of};
ghost use Rattle.base_text.specs.Put.{Put};
ghost use Rattle.base_lines.specs.Lines.{text_line};
ghost use Rattle.list_answers.specs.Texts.{reply_text, sheet_word};

use base_limits::Limits;
use base_refusal::Refusal;
use base_text::Progress;

// An accepted sheet: its length, and after this line its bytes.
fn put_bytes(b: &mut [u8], w: Progress, bytes: &[u8], count: u32) -> Progress
    ensures { Put b.old w (text_line sheet_word (count ∷ []) ++ bytes.now) result b.new }
{
    let w = base_lines::put_line(b, w, b"sheet", &[count]);
    base_text::put(b, w, bytes)
}

// The answer of sheet writing, which was lent so many bytes of the buffer: the first of them hold the sheet.
pub fn put_sheet(
    b: &mut [u8],
    w: Progress,
    sheet: &[u8; Limits::LONGEST],
    places: usize,
    r: Result<usize, Refusal>,
) -> Progress
    ensures { Put b.old w (reply_text (sheet_reply_of (take places sheet.now) r)) result b.new }
{
    match r {
        Ok(k) => {
            let lent = base_text::least(k, places);
            let count = base_text::least(lent, Limits::LONGEST);
            put_bytes(b, w, &sheet[..count], count as u32)
        }
        Err(q) => list_answer_words::put_refusal(b, w, q),
    }
}
