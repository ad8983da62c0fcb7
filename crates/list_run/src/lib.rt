// Lists of calls as text, over slices: text in, answers out.
#![tactic(auto)]

ghost use Rattle.list_results.specs.Going.{nothing_yet};
ghost use Rattle.list_texts.specs.Steps.{Passed, Replayed, Counted};

use base_text::Progress;

// All lines of a list, their answers written or counted from a place on.
fn pass(text: &[u8], out: &mut [u8], from: Progress) -> Progress
    ensures { Passed text.now nothing_yet out.old from result out.new }
{
    let mut r = list_results::begin();
    let mut w = from;
    let mut at = 0;
    while let Some((said, next)) = list_parse::line_at(text, at) {
        let s = list_execute::done(r, said, out, w);
        r = s.replay;
        w = s.written;
        at = next;
    }
    w
}

// A whole list of calls: the count of bytes of the answers, or that the buffer is too short for them, and then nothing is
// written. The answers are counted first, so that every call is made twice.
pub fn run(text: &[u8], out: &mut [u8]) -> Progress
    ensures { Replayed text.now nothing_yet out.old result out.new }
{
    let counted = pass(text, out, Progress::Counting(0));
    let from = base_text::fitting(out.len(), Progress::Next(0), counted);
    match from {
        Progress::Next(at) => pass(text, out, Progress::Next(at)),
        Progress::Counting(_) => Progress::TooShort,
        Progress::TooShort => Progress::TooShort,
    }
}

// The same for Rust and C: the count of bytes of the answers, or the greatest number where the buffer is too short for them.
#[unsafe(no_mangle)]
pub extern "C" fn yerwaqis_replay(text: &[u8], out: &mut [u8]) -> usize
    ensures { Counted text.now out.old result out.new }
{
    base_text::count_of(run(text, out))
}
