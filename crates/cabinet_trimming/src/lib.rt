// Calls 6 and 7 over lent frames and the core of a cabinet: trim, safe. They look at frames, and so work out 28 themselves.
#![tactic(auto)]

ghost use Rattle.std.specs.Prelude.{◌≡◌};
ghost use Rattle.theory_protocol.specs.Calls.{trim_plan, safe_plan};
ghost use Rattle.cabinet_layout.specs.Shape.{limits16, model_of};
ghost use Rattle.cabinet_layout.specs.Answers.{reply_of, safe_reply_of};
ghost use Rattle.cabinet_layout.specs.Applied.{CoreCarried};

use base_limits::Limits;
use base_refusal::Refusal;
use cabinet_layout::{Core, CoreAnswer, Safety};

// 6. trim: "every base moves to the line that the present stored numbers give."
pub fn trim<'a>(
    entries: &'a [u32; Limits::ENTRIES],
    changes: &'a [u32; Limits::FRAMES],
    mut core: Core,
) -> CoreAnswer<()>
    ensures { CoreCarried core (trim_plan limits16 (model_of entries.now changes.now core)) (reply_of result.reply) result.core }
{
    let valid = cabinet_valid::cabinet_valid(entries, changes, core);
    let reply = cabinet_rollback::trim_verdict(valid, core.head);
    if reply.is_ok() {
        core.base = cabinet_recovery::lines(
            entries,
            core.head,
            core.base,
            core.stored,
            core.reached,
        );
    }
    CoreAnswer { core, reply }
}

// 7. safe
pub fn safe<'a>(
    entries: &'a [u32; Limits::ENTRIES],
    changes: &'a [u32; Limits::FRAMES],
    core: Core,
    change: u32,
) -> Result<Safety, Refusal>
    ensures { safe_reply_of result ≡ (safe_plan limits16 (model_of entries.now changes.now core) change).reply }
{
    let valid = cabinet_valid::cabinet_valid(entries, changes, core);
    cabinet_safety::safe_verdict(valid, entries, changes, core, change)
}
