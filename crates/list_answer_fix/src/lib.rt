// How the answer of fix is written, out of the lists that were lent.
#![tactic(auto)]

ghost use Rattle.std.specs.Prelude.{take};
ghost use Rattle.cabinet_recovery.specs.Fix.{rows_of, fix_reply_of};
ghost use Rattle.base_text.specs.Put.{Put};
ghost use Rattle.list_answers.specs.Texts.{rows_text, reply_text};
ghost use Rattle.list_answer_fix.specs.Fixed.{fixed_text};

use base_limits::Limits;
use base_refusal::Refusal;
use base_text::Progress;

// The lines of fix's card records. Two arrays go side by side, beside the card's number: a chain of zips is no plainer than the index.
fn put_rows(
    b: &mut [u8],
    w: Progress,
    cards: u32,
    stored: [u32; Limits::CARDS],
    line: [u32; Limits::CARDS],
) -> Progress
    ensures { Put b.old w (rows_text (rows_of cards stored line)) result b.new }
{
    let mut at = w;
    for c in 0..Limits::CARDS_U32 {
        let i = c as usize;
        let row = [stored[i], line[i]];
        at = base_lines::put_card(b, at, cards, c, &row);
    }
    at
}

// An accepted fix, with the numbers of the changes lost.
fn put_fixed(
    b: &mut [u8],
    w: Progress,
    cards: u32,
    stored: [u32; Limits::CARDS],
    line: [u32; Limits::CARDS],
    lost: &[u32],
    count: u32,
) -> Progress
    ensures { Put b.old w (fixed_text cards stored line lost.now count) result b.new }
{
    let w = base_lines::put_line(b, w, b"fixed", &[cards.min(Limits::CARDS_U32), count]);
    let w = put_rows(b, w, cards, stored, line);
    base_lines::put_line(b, w, b"lost", lost)
}

// The answer of fix, which was lent so many places of the list: the first of them hold the numbers of the changes lost.
pub fn put_fix(
    b: &mut [u8],
    w: Progress,
    cards: u32,
    stored: [u32; Limits::CARDS],
    line: [u32; Limits::CARDS],
    list: [u32; Limits::MOST_LOST],
    places: usize,
    r: Result<usize, Refusal>,
) -> Progress
    ensures { Put b.old w (reply_text (fix_reply_of cards stored line (take places list) r)) result b.new }
{
    match r {
        Ok(k) => {
            let some = base_text::least(k, places);
            let count = base_text::least(some, Limits::MOST_LOST);
            put_fixed(b, w, cards, stored, line, &list[..count], count as u32)
        }
        Err(q) => list_answer_words::put_refusal(b, w, q),
    }
}
