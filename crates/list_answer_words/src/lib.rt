// How the answers are written that any line can have: lines of text into a lent buffer, cut off where the buffer ends.
#![tactic(auto)]

ghost use Rattle.base_text.specs.Put.{Put};
ghost use Rattle.list_answer_words.specs.Words.{refused_text, none_text, unreadable_text};

use base_refusal::{Refusal, Told};
use base_text::Progress;

// Before the first cabinet.
pub fn put_none(b: &mut [u8], w: Progress) -> Progress
    ensures { Put b.old w none_text result b.new }
{
    base_text::put(b, w, b"none\n")
}

// A line that is no call.
pub fn put_unreadable(b: &mut [u8], w: Progress) -> Progress
    ensures { Put b.old w unreadable_text result b.new }
{
    base_text::put(b, w, b"unreadable\n")
}

// A refusal, and after 21 the card.
pub fn put_refusal(b: &mut [u8], w: Progress, q: Refusal) -> Progress
    ensures { Put b.old w (refused_text q) result b.new }
{
    match base_refusal::tell(q) {
        Told::Card(n, card) => base_lines::put_line(b, w, b"refused", &[n, card]),
        Told::Alone(n) => base_lines::put_line(b, w, b"refused", &[n]),
    }
}
