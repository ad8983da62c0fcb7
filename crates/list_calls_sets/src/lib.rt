// Calls on the present cabinet that name sets of cards, each with its answer written.
#![tactic(auto)]

ghost use Rattle.base_refusal.specs.declared.Refusal.TheVariants.{NoSuchCard};
ghost use Rattle.list_answer_words.specs.Words.{refused_text};
ghost use Rattle.list_results.specs.Result.{OpenResult, LoseResult, Kept, Written, Continuing};

use base_refusal::Refusal;
use base_text::Progress;
use cabinet::Cabinet;
use list_results::Stepped;

// The call is refused for a card that no cabinet has.
fn no_such_card(c: Cabinet, b: &mut [u8], w: Progress) -> Stepped
    ensures { Written (Continuing (Kept c (refused_text NoSuchCard)) result.replay) b.old w result.written b.new }
{
    let written = list_whole_words::put_refusal(b, w, Refusal::NoSuchCard);
    Stepped::with(c, written)
}

// 1. open: a set over 65535 names a card that no cabinet has.
pub fn open(c: Cabinet, reads: u32, writes: u32, b: &mut [u8], w: Progress) -> Stepped
    ensures { Written (Continuing (OpenResult c reads writes) result.replay) b.old w result.written b.new }
{
    let Ok(reads) = u16::try_from(reads) else {
        return no_such_card(c, b, w);
    };
    let Ok(writes) = u16::try_from(writes) else {
        return no_such_card(c, b, w);
    };
    let a = c.open(reads, writes);
    let written = list_whole::put_open(b, w, a.reply);
    Stepped::with(a.cabinet, written)
}

// 8. lose: a set over 65535 names a card that no cabinet has.
pub fn lose(c: Cabinet, cards: u32, b: &mut [u8], w: Progress) -> Stepped
    ensures { Written (Continuing (LoseResult c cards) result.replay) b.old w result.written b.new }
{
    let Ok(cards) = u16::try_from(cards) else {
        return no_such_card(c, b, w);
    };
    Stepped::replied(c.lose(cards), b, w)
}
