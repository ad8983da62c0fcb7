// How the answers of calls are written: lines of text into a lent buffer, cut off where the buffer ends.
#![tactic(auto)]

ghost use Rattle.cabinet_layout.specs.Answers.{reply_of, open_reply_of, safe_reply_of};
ghost use Rattle.base_text.specs.Put.{Put};
ghost use Rattle.list_answers.specs.Texts.{reply_text};

use base_refusal::{Refusal, Reply};
use base_text::Progress;
use cabinet_layout::Safety;

// The answer of a call that answers nothing but acceptance.
pub fn put_reply(b: &mut [u8], w: Progress, r: Reply) -> Progress
    ensures { Put b.old w (reply_text (reply_of r)) result b.new }
{
    match r {
        Ok(()) => base_text::put(b, w, b"ok\n"),
        Err(q) => list_answer_words::put_refusal(b, w, q),
    }
}

// The answer of open.
pub fn put_open(b: &mut [u8], w: Progress, r: Result<u32, Refusal>) -> Progress
    ensures { Put b.old w (reply_text (open_reply_of r)) result b.new }
{
    match r {
        Ok(k) => base_lines::put_line(b, w, b"change", &[k]),
        Err(q) => list_answer_words::put_refusal(b, w, q),
    }
}

// The answer of safe.
pub fn put_safe(b: &mut [u8], w: Progress, r: Result<Safety, Refusal>) -> Progress
    ensures { Put b.old w (reply_text (safe_reply_of r)) result b.new }
{
    match r {
        Ok(Safety::Safe) => base_text::put(b, w, b"safe\n"),
        Ok(Safety::Unsafe) => base_text::put(b, w, b"unsafe\n"),
        Err(q) => list_answer_words::put_refusal(b, w, q),
    }
}
