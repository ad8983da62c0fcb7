// The answers of calls that are one line, each written whole or not at all.
#![tactic(auto)]

ghost use Rattle.cabinet_layout.specs.Answers.{reply_of, open_reply_of, safe_reply_of};
ghost use Rattle.base_text.specs.Put.{Whole};
ghost use Rattle.list_answers.specs.Texts.{reply_text};

use base_refusal::{Refusal, Reply};
use base_text::Progress;
use cabinet_layout::Safety;
use list_whole_words::whole;

// The answer of a call that answers nothing but acceptance.
pub fn put_reply(b: &mut [u8], w: Progress, r: Reply) -> Progress
    ensures { Whole b.old w (reply_text (reply_of r)) result b.new }
{
    whole(b, w, |b, w| list_answers::put_reply(b, w, r))
}

// The answer of open.
pub fn put_open(b: &mut [u8], w: Progress, r: Result<u32, Refusal>) -> Progress
    ensures { Whole b.old w (reply_text (open_reply_of r)) result b.new }
{
    whole(b, w, |b, w| list_answers::put_open(b, w, r))
}

// The answer of safe.
pub fn put_safe(b: &mut [u8], w: Progress, r: Result<Safety, Refusal>) -> Progress
    ensures { Whole b.old w (reply_text (safe_reply_of r)) result b.new }
{
    whole(b, w, |b, w| list_answers::put_safe(b, w, r))
}
