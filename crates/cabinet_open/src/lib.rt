// Call 1 over the core of a cabinet: open. It is told what the check for 28 found.
#![tactic(auto)]

ghost use Rattle.base_bits.specs.Member.{member};
ghost use Rattle.cabinet_layout.specs.Answers.{open_reply_of};
ghost use Rattle.cabinet_layout.specs.Applied.{CoreCarried};
ghost use Rattle.cabinet_plans.specs.Plans.{open_on};

use cabinet_layout::{Core, CoreAnswer};
use cabinet_opening::{open_verdict, opened};

// 1. open
pub fn open(valid: bool, mut core: Core, reads: u16, writes: u16) -> CoreAnswer<u32>
    ensures { CoreCarried core (open_on valid core (member reads) (member writes)) (open_reply_of result.reply) result.core }
{
    let Core {
        head,
        slots,
        base,
        reached,
        ..
    } = core;
    let verdict = open_verdict(valid, head, slots, base, reached, reads, writes);
    let reply = cabinet_parts::open_answer(verdict, head.latest);
    if let Ok(k) = reply {
        let at = cabinet_slots::free_at(slots);
        core.slots[at] = opened(k, reads, writes);
        core.head = cabinet_layout::counted(head, k);
    }
    CoreAnswer { core, reply }
}
