// What a line of a list leaves behind, and what there is before the first.
#![tactic(auto)]

ghost use Rattle.std.specs.Prelude.{◌≡◌};
ghost use Rattle.cabinet_layout.specs.Answers.{reply_of};
ghost use Rattle.base_text.specs.Put.{Whole};
ghost use Rattle.list_answers.specs.Texts.{reply_text};
ghost use Rattle.list_results.specs.Going.{nothing_yet, begun_with};

use base_text::Progress;
use cabinet::{Answer, Cabinet};

// The present cabinet, and whether there is one.
#[derive(Clone, Copy)]
pub struct Replay {
    pub cabinet: Cabinet,
    pub begun: bool,
}

// A replay after a line, and how far the answers are written.
#[derive(Drop)]
pub struct Stepped {
    pub replay: Replay,
    pub written: Progress,
}

// Before the first cabinet.
pub fn begin() -> Replay
    ensures { result ≡ nothing_yet }
{
    Replay {
        cabinet: Cabinet::fresh(0).cabinet,
        begun: false,
    }
}

impl Stepped {
    // The replay goes on with a cabinet.
    #[inline(always)]
    pub fn with(cabinet: Cabinet, written: Progress) -> Stepped
        ensures replay { result.replay ≡ begun_with cabinet }
        ensures written { result.written ≡ written }
    {
        Stepped {
            replay: Replay {
                cabinet,
                begun: true,
            },
            written,
        }
    }

    // The replay goes on with the cabinet of an answer, and the answer is written.
    #[inline(always)]
    pub fn replied(a: Answer<()>, b: &mut [u8], w: Progress) -> Stepped
        ensures replay { result.replay ≡ begun_with a.cabinet }
        ensures put { Whole b.old w (reply_text (reply_of a.reply)) result.written b.new }
    {
        let written = list_whole::put_reply(b, w, a.reply);
        Stepped::with(a.cabinet, written)
    }
}
