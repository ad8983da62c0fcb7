// The core of fix, over numbers and lent arrays: the line of each card, and the changes lost.
#![tactic(auto)]

ghost use Rattle.std.specs.Prelude.{◌≡◌, length, Err};
ghost use Rattle.theory_protocol.specs.Calls.{fix_plan};
ghost use Rattle.cabinet_layout.specs.Shape.{limits16, list_of, model_of};
ghost use Rattle.cabinet_recovery.specs.Fix.{FixWorked};

use base_limits::Limits;
use base_refusal::Refusal;
use cabinet_fix_reply::{fix_verdict, is_short};
use cabinet_layout::Core;
use cabinet_listing::list_lost;
use cabinet_recovery::Outcome;

// Nothing is worked out where fix is refused.
fn not_fixed(q: Refusal) -> Outcome
    ensures { (result.line ≡ list_of (λ c. 0)) × (result.reply ≡ Err q) }
{
    Outcome {
        line: [0u32; Limits::CARDS],
        reply: Err(q),
    }
}

// 9. fix: the line of each card, and the numbers of the changes lost in the lent list; nothing where it is refused.
// `places` are the places for card records.
pub fn fix<'a, 'b>(
    list: &'a mut [u32],
    entries: &'b [u32; Limits::ENTRIES],
    changes: &'b [u32; Limits::FRAMES],
    core: Core,
    places: usize,
) -> Outcome
    ensures { FixWorked (model_of entries.now changes.now core) (fix_plan limits16 (model_of entries.now changes.now core) places (length list.old)) core.head.cards core.stored result.line list.old list.new result.reply }
{
    let valid = cabinet_valid::cabinet_valid(entries, changes, core);
    let Core {
        head,
        base,
        stored,
        reached,
        ended,
        writing,
        ..
    } = core;
    if let Err(q) = fix_verdict(valid, head, writing) {
        return not_fixed(q);
    }
    let line = cabinet_recovery::lines(entries, head, base, stored, reached);
    // counted first, in a list of its own
    let mut aside = [0u32; 1];
    let n = list_lost(&mut aside, changes, line, reached, ended, head.cards);
    if is_short(head, places, list.len(), n) {
        return not_fixed(Refusal::TooShort);
    }
    list_lost(list, changes, line, reached, ended, head.cards);
    Outcome { line, reply: Ok(n) }
}
