// Texts written whole or not at all, and the answers so that any line can have.
#![tactic(auto)]

ghost use Rattle.base_text.specs.Put.{Whole};
ghost use Rattle.list_answer_words.specs.Words.{refused_text, none_text, unreadable_text};
ghost use Rattle.list_whole_words.specs.Writes.{Writes};

use base_refusal::Refusal;
use base_text::Progress;

// The text that `put` writes: it is counted first, and written where the buffer has room for all of it.
pub fn whole<F: Fn(&mut [u8], Progress) -> Progress>(b: &mut [u8], w: Progress, put: F) -> Progress
    requires { F.IsAlwaysCallable put }
    ensures { (t : _) → Writes F.Fn put t → Whole b.old w t result b.new }
{
    let counted = put(b, Progress::Counting(0));
    let from = base_text::fitting(b.len(), w, counted);
    put(b, from)
}

// Before the first cabinet.
pub fn put_none(b: &mut [u8], w: Progress) -> Progress
    ensures { Whole b.old w none_text result b.new }
{
    whole(b, w, list_answer_words::put_none)
}

// A line that is no call.
pub fn put_unreadable(b: &mut [u8], w: Progress) -> Progress
    ensures { Whole b.old w unreadable_text result b.new }
{
    whole(b, w, list_answer_words::put_unreadable)
}

// A refusal.
pub fn put_refusal(b: &mut [u8], w: Progress, q: Refusal) -> Progress
    ensures { Whole b.old w (refused_text q) result b.new }
{
    whole(b, w, |b, w| list_answer_words::put_refusal(b, w, q))
}
