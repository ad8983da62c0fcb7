// 9. fix: the checks that refuse it.
#![tactic(auto)]

ghost use Rattle.std.specs.Prelude.{◌≡◌, not, ◌||◌, [], ltb};
ghost use Rattle.base_laws.specs.Below.{count_below};
ghost use Rattle.theory_protocol.specs.Calls.{fix_checks};
ghost use Rattle.cabinet_layout.specs.Shape.{limits16, present_of, writes_model};
ghost use Rattle.cabinet_layout.specs.Answers.{first_failing, after28};
ghost use Rattle.cabinet_recovery.specs.Fix.{but_last};

use base_limits::Limits;
use base_refusal::{Refusal, Reply};
use cabinet_layout::{Head, is_down};
use cabinet_replies::refuse_if;
use cabinet_writes::some_writing;

// The checks before the last: 28, 20, 24, 33.
pub fn fix_verdict(valid: bool, head: Head, writing: [u32; Limits::CARDS]) -> Reply
    ensures { result ≡ first_failing (but_last (after28 (not valid) (fix_checks limits16 (writes_model head [] [] [] writing) 0 0))) }
{
    let down = is_down(head.phase);
    refuse_if(!valid, Refusal::BadCabinet)?;
    refuse_if(!down, Refusal::WrongPhase)?;
    refuse_if(
        Limits::GREATEST_NUMBER <= head.session,
        Refusal::LimitReached,
    )?;
    let unreported = some_writing(head, writing);
    refuse_if(unreported, Refusal::WriteUnreported)
}

// The last check: "lent list or buffer too short for the whole answer".
pub fn is_short(head: Head, places: usize, room: usize, lost: usize) -> bool
    ensures { result ≡ ltb places (count_below limits16.width (present_of head.cards)) || ltb room lost }
{
    let all = base_bits::all_below(head.cards);
    let rows = base_set_bounds::count(all);
    (places < rows as usize) | (room < lost)
}
