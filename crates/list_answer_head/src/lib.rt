// How the first line of a look at the cabinet is written.
#![tactic(auto)]

ghost use Rattle.base_text.specs.Put.{Put};
ghost use Rattle.list_answer_head.specs.First.{phase_name, head_text};

use base_text::Progress;
use cabinet_layout::{Head, Phase};

// The word of a phase.
fn put_phase(b: &mut [u8], w: Progress, phase: Phase) -> Progress
    ensures { Put b.old w (phase_name phase) result b.new }
{
    match phase {
        Phase::Up => base_text::put(b, w, b"up"),
        Phase::Down => base_text::put(b, w, b"down"),
        Phase::Rolling => base_text::put(b, w, b"rolling"),
    }
}

// The first line of show.
pub fn put_head(b: &mut [u8], w: Progress, head: Head) -> Progress
    ensures { Put b.old w (head_text head) result b.new }
{
    let w = base_text::put(b, w, b"session");
    let w = base_lines::put_numbers(b, w, &[head.session]);
    let w = base_text::put(b, w, b" ");
    let w = put_phase(b, w, head.phase);
    let w = base_text::put(b, w, b" ");
    base_lines::put_line(b, w, b"cards", &[head.cards])
}
