// Call 3 over the core of a cabinet: take. It is told what the check for 28 found.
#![tactic(auto)]

ghost use Rattle.std.specs.Prelude.{◌≡◌, true};
ghost use Rattle.cabinet_layout.specs.Answers.{reply_of};
ghost use Rattle.cabinet_plans.specs.Plans.{Stands, TakeCarriedOn};

use base_limits::Limits;
use base_refusal::Reply;
use cabinet_layout::{Core, Vector};

// What take hands back: besides core and reply the frame that the card has made, with state 0 for none.
#[derive(Drop)]
pub struct TakenCore {
    pub core: Core,
    pub vector: Vector,
    pub state: u32,
    pub change: u32,
    pub reply: Reply,
}

// 3. take
pub fn take(valid: bool, mut core: Core, change: u32, card: u32) -> TakenCore
    requires { valid ≡ true → Stands core }
    ensures { TakeCarriedOn valid core change card result.vector.entries result.state result.change (reply_of result.reply) result.core }
{
    let reply = cabinet_slot_replies::take_verdict(valid, core.head, core.slots, change, card);
    let mut frame = Vector {
        entries: [0u32; Limits::CARDS],
    };
    let mut state: u32 = 0;
    let mut made: u32 = 0;
    if reply.is_ok() {
        let at = cabinet_slots::slot_of(core.slots, change);
        let o = core.slots[at];
        core.slots[at] = cabinet_awaited::took(o, card);
        let w = cabinet_parts::vector_of(o);
        let c = card as usize;
        if base_bits::has(o.writes, card) {
            let x = core.reached[c] + 1;
            core.last[c] = w;
            core.pending[c] = w;
            core.held[c] = x;
            core.reached[c] = x;
            frame = w;
            state = x;
            made = o.number;
        } else {
            core.pending[c] = cabinet_parts::raised(core.pending[c], w);
        }
    }
    TakenCore {
        core,
        vector: frame,
        state,
        change: made,
        reply,
    }
}
