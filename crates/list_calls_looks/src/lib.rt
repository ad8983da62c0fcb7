// Restart, and looks at the present cabinet, each with its answer written.
#![tactic(auto)]

ghost use Rattle.cabinet_layout.specs.Shape.{limits16};
ghost use Rattle.cabinet.specs.View.{view};
ghost use Rattle.list_answer_show.specs.Show.{show_text};
ghost use Rattle.list_answer_frames.specs.Frames.{frames_answer};
ghost use Rattle.list_results.specs.Result.{RestartResult, Kept, Written, Continuing};

use base_text::Progress;
use cabinet::Cabinet;
use cabinet_layout::Core;
use list_results::Stepped;

// The result takes the cabinet's place.
pub fn restart(c: Cabinet, b: &mut [u8], w: Progress) -> Stepped
    ensures { Written (Continuing (RestartResult c) result.replay) b.old w result.written b.new }
{
    Stepped::replied(cabinet_joined::restart(c), b, w)
}

// What the cabinet is.
pub fn show(c: Cabinet, b: &mut [u8], w: Progress) -> Stepped
    ensures { Written (Continuing (Kept c (show_text c.core.head c.core.base c.core.stored c.core.held c.core.reached c.core.writing)) result.replay) b.old w result.written b.new }
{
    let Core {
        head,
        base,
        stored,
        held,
        reached,
        writing,
        ..
    } = c.core;
    let written = list_whole_lent::put_show(b, w, head, base, stored, held, reached, writing);
    Stepped::with(c, written)
}

// What the states in hand of a card hang on.
pub fn frames(c: Cabinet, card: u32, b: &mut [u8], w: Progress) -> Stepped
    ensures { Written (Continuing (Kept c (frames_answer limits16 (view c) card)) result.replay) b.old w result.written b.new }
{
    let written = list_whole_lent::put_frames(b, w, &c.entries, &c.changes, c.core, card);
    Stepped::with(c, written)
}
