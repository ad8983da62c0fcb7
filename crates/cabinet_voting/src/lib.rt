// Calls 2 and 4 over the core of a cabinet: vote, withdraw. Each is told what the check for 28 found.
#![tactic(auto)]

ghost use Rattle.std.specs.Prelude.{◌≡◌, true};
ghost use Rattle.cabinet_layout.specs.Answers.{reply_of};
ghost use Rattle.cabinet_layout.specs.Applied.{CoreCarried};
ghost use Rattle.cabinet_plans.specs.Plans.{Stands, vote_on, withdraw_on};

use cabinet_changes::after_vote;
use cabinet_layout::{Core, CoreAnswer};

// 2. vote
pub fn vote(valid: bool, mut core: Core, change: u32, card: u32, agrees: bool) -> CoreAnswer<()>
    requires { valid ≡ true → Stands core }
    ensures { CoreCarried core (vote_on valid core change card agrees) (reply_of result.reply) result.core }
{
    let reply = cabinet_slot_replies::vote_verdict(valid, core.head, core.slots, change, card);
    if reply.is_ok() {
        let at = cabinet_slots::slot_of(core.slots, change);
        let o = core.slots[at];
        core.slots[at] = after_vote(o, card, agrees, core.reached, core.last, core.pending);
    }
    CoreAnswer { core, reply }
}

// 4. withdraw
pub fn withdraw(valid: bool, mut core: Core, change: u32) -> CoreAnswer<()>
    ensures { CoreCarried core (withdraw_on valid core change) (reply_of result.reply) result.core }
{
    let reply = cabinet_slot_replies::withdraw_verdict(valid, core.head, core.slots, change);
    if reply.is_ok() {
        let at = cabinet_slots::slot_of(core.slots, change);
        core.slots[at] = cabinet_layout::free_slot();
    }
    CoreAnswer { core, reply }
}
